ghost use Rattle.std.specs.Prelude.{◌≡◌, IfOk};
ghost use Rattle.known_assigned.specs.declared.state.State.{State};
ghost use Rattle.standby_snapshot.specs.Snapshot.{in_numbers, take_of, xmin_of};

use crate::Snapshot;
use known_assigned::KnownAssigned;
use pg_types::{NoMemory, Xid};
use std::alloc::Global;

/// The xmin of a snapshot that is taken now: the least id that runs, but at most one past the latest completed
/// one. At once.
pub fn xmin(known: &KnownAssigned) -> Xid
    ensures { result.0 ≡ xmin_of known.now.known }
{
    let xmax = known.latest_completed().0 + 1;
    Xid(known.least().unwrap_or(Xid(xmax)).0.min(xmax))
}

/// The snapshot of what is known now of running transactions (`GetSnapshotData`, procarray.c, in
/// recovery). It copies the ids that run, once.
#[tactic(auto, unfolding(crate::specs::Snapshot::take_of))]
pub fn take(alloc: Global, known: &KnownAssigned) -> Result<Snapshot, NoMemory>
    requires { known.now.known.mode ≡ State.Ready }
    ensures { IfOk result (λ snapshot. in_numbers snapshot ≡ take_of known.now.known) }
{
    let xmax = Xid(known.latest_completed().0 + 1);
    let xmin = xmin(known);
    let running = known.copy_xids(alloc)?;
    let overflowed = xmin.0 <= known.last_overflowed().0;
    Ok(Snapshot {
        xmin,
        xmax,
        running,
        overflowed,
    })
}
