ghost use Rattle.std.specs.Prelude.{◌≡◌, ℕ, ◌<◌, ◌≤◌, [], All, IfOk, OnOk, length};
ghost use Rattle.pg_types.specs.declared.names.Xid.{Xid};
ghost use Rattle.commit_log.specs.Log.{changed_at, reserved_end, status_of};
ghost use Rattle.wal_bodies.specs.Typed.{listed_in};
ghost use Rattle.known_assigned.specs.Ids.{numbers};
ghost use Rattle.xact_redo.specs.State.{HasRoom, count_made, ended_ids, greatest_ended, listed_assigned, listed_running, still_live, transactions};

use crate::records::{has_ended, last_named};
use crate::state::XactState;
use commit_log::CommitLog;
use multixact::Multis;
use pg_types::{NoMemory, Xid, XidList};
use subtrans::Subtrans;
use wal_bodies::{Rec, RecKind, Xids};

/// Makes all the room that the record needs, so that its `redo` takes no memory, and changes nothing else
/// that contracts see; also where memory is wanting. The room lasts until the state changes.
///
/// It costs a copy of each id that the record ends or assigns, a look-up in the commit log for each id that a running
/// record lists, and the memory that is taken anew.
#[tactic(auto, unfolding(crate::specs::State::transactions))]
pub fn reserve(rec: &Rec<'_>, state: &mut XactState) -> Result<(), NoMemory>
    ensures state { transactions state.new ≡ transactions state.old }
    ensures room { OnOk result (HasRoom rec.now state.new) }
{
    reserve_statuses(rec, &mut state.log)?;
    keep_tree(rec, &mut state.tree)?;
    reserve_parents(rec, state.tree.len(), &mut state.subs)?;
    reserve_multixact(rec, &mut state.multis)?;
    state.ended = keep_live(rec, &state.log, &mut state.scratch)?;
    let added = state.known.would_add(last_named(rec));
    match added.checked_add(state.scratch.len() as u64) {
        Some(places) => state.known.reserve(places),
        None => Err(NoMemory),
    }
}

/// Makes room for the statuses that the record sets.
fn reserve_statuses(rec: &Rec<'_>, log: &mut CommitLog) -> Result<(), NoMemory>
    ensures statuses { (x : ℕ) → status_of log.new x ≡ status_of log.old x }
    ensures changed { (n : ℕ) → changed_at log.new n ≡ changed_at log.old n }
    ensures room { OnOk result (All (λ (x : Xid). x.0 < reserved_end log.new) (ended_ids rec.now.head rec.now.kind)) }
{
    match &rec.kind {
        RecKind::Ended { .. } => log.reserve(last_named(rec)),
        _ => Ok(()),
    }
}

/// Makes room for the parents of the subtransactions that the record assigns, of which there are so many.
fn reserve_parents(rec: &Rec<'_>, count: usize, subs: &mut Subtrans) -> Result<(), NoMemory>
    requires { count ≡ length (listed_in rec.now.kind) }
    ensures pairs { subs.new.pairs ≡ subs.old.pairs }
    ensures room { OnOk result (length (listed_assigned rec.now.kind) ≤ subs.new.spare) }
{
    match &rec.kind {
        RecKind::Assignment { .. } => subs.reserve(count),
        _ => Ok(()),
    }
}

/// Makes room for the multixact that the record makes.
fn reserve_multixact(rec: &Rec<'_>, multis: &mut Multis) -> Result<(), NoMemory>
    ensures entries { multis.new.entries ≡ multis.old.entries }
    ensures room { OnOk result (count_made rec.now.kind ≤ multis.new.spare) }
{
    match &rec.kind {
        RecKind::Multixact { .. } => multis.reserve(1),
        _ => Ok(()),
    }
}

/// Keeps the subtransactions that the record ends or assigns.
fn keep_tree(rec: &Rec<'_>, tree: &mut XidList) -> Result<(), NoMemory>
    ensures { OnOk result (tree.new ≡ listed_in rec.now.kind) }
{
    tree.clear();
    match &rec.kind {
        RecKind::Ended { xids, .. } | RecKind::Assignment { xids, .. } => {
            push_all(xids.again(), tree)
        }
        _ => Ok(()),
    }
}

/// Puts the ids into an empty list.
fn push_all(xids: Xids<'_>, list: &mut XidList) -> Result<(), NoMemory>
    requires { list.old ≡ [] }
    ensures { OnOk result (list.new ≡ xids.entry) }
{
    for xid in xids {
        list.push(xid)?;
    }
    Ok(())
}

/// Keeps those of the ids that the record lists as running which the commit log does not show ended, and
/// answers the greatest of the others, or 0.
fn keep_live(rec: &Rec<'_>, log: &CommitLog, live: &mut XidList) -> Result<Xid, NoMemory>
    ensures live { OnOk result (numbers live.new ≡ still_live (status_of log.now) (numbers (listed_running rec.now.kind))) }
    ensures ended { IfOk result (λ ended. ended.0 ≡ greatest_ended (status_of log.now) (numbers (listed_running rec.now.kind))) }
{
    live.clear();
    match &rec.kind {
        RecKind::Running { xids, .. } => part_live(xids.again(), log, live),
        _ => Ok(Xid(0)),
    }
}

/// Puts those of the ids that the commit log does not show ended into an empty list, and answers the
/// greatest of the others, or 0. Each id is looked up once.
fn part_live(xids: Xids<'_>, log: &CommitLog, live: &mut XidList) -> Result<Xid, NoMemory>
    requires { live.old ≡ [] }
    ensures live { OnOk result (numbers live.new ≡ still_live (status_of log.now) (numbers xids.entry)) }
    ensures ended { IfOk result (λ ended. ended.0 ≡ greatest_ended (status_of log.now) (numbers xids.entry)) }
{
    let mut most = 0;
    for xid in xids {
        if has_ended(log.get(xid)) {
            most = most.max(xid.0);
        } else {
            live.push(xid)?;
        }
    }
    Ok(Xid(most))
}
