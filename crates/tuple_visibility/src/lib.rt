//! Which tuples a snapshot sees (heapam_visibility.c).
#![tactic(auto)]

ghost use Rattle.std.specs.Prelude.{◌≡◌, ℕ, List, Option, ok_or};
ghost use Rattle.pg_types.specs.declared.names.Xid.{Xid};
ghost use Rattle.pg_types.specs.declared.status.Status.{Status};
ghost use Rattle.subtrans.specs.declared.Pair.{Pair};
ghost use Rattle.subtrans.specs.Parents.{topmost_of};
ghost use Rattle.standby_snapshot.specs.Snapshot.{in_numbers};
ghost use Rattle.tuple_visibility.specs.Visible.{counts, inserter_counts, deleter_of, deleter_counts, visible_of};

use heap_tuple::{MaxOf, TupleView, infomask};
use pg_types::{Status, Unknown, Xid};
use standby_snapshot::Snapshot;
use subtrans::Subtrans;

/// The ids that no transaction gets (transam.h): no id, that of the bootstrap, and that of frozen tuples
/// of old.
const INVALID: u64 = 0;

const BOOTSTRAP: u64 = 1;

const FROZEN: u64 = 2;

/// Both marks of the inserter say that the tuple is frozen (htup_details.h, `HEAP_XMIN_FROZEN`).
const XMIN_FROZEN: u16 = infomask::XMIN_COMMITTED | infomask::XMIN_INVALID;

/// What is known of transactions besides a snapshot: the parents of subtransactions, the commit log and the
/// multixacts.
pub trait Statuses {
    /// the known parents of subtransactions
    ghost parents_of: { Self → List Pair };

    /// the status of each id
    ghost status_of: { Self → ℕ → Status };

    /// the updater of each multixact, if there is such a multixact and if it has one
    ghost updater_of: { Self → ℕ → Option (Option Xid) };

    /// The known parents of subtransactions. It takes no memory.
    fn parents(&self) -> &Subtrans
        ensures { result.now.pairs ≡ parents_of self.now };

    /// The status of a transaction. It takes no memory.
    fn status(&self, xid: Xid) -> Status
        ensures { result ≡ status_of self.now xid.0 };

    /// The updater of a multixact, or none. `Unknown` comes exactly where neither the log nor the base
    /// made the multixact. It takes no memory.
    fn updater(&self, id: u32) -> Result<Option<Xid>, Unknown>
        ensures { result ≡ ok_or (updater_of self.now id) (record { id = id }) };
}

/// Whether the snapshot sees the tuple: its inserter counts as committed, and no deleter does
/// (`HeapTupleSatisfiesMVCC`). Marks count only for a transaction that ended before the snapshot. A
/// deleter is looked up only where the inserter counts; a multixact that neither the log nor the base
/// made is then `Unknown`. It takes no memory.
#[tactic(auto, unfolding(crate::specs::Visible::visible_of))]
pub fn visible<S: Statuses>(
    tuple: &TupleView<'_>,
    snapshot: &Snapshot,
    statuses: &S,
) -> Result<bool, Unknown>
    ensures { result ≡ visible_of tuple.now (in_numbers snapshot.now) (topmost_of (S.parents_of statuses.now)) (S.status_of statuses.now) (S.updater_of statuses.now) }
{
    if !inserter_counts(tuple, snapshot, statuses) {
        return Ok(false);
    }
    let marked = tuple.infomask() & infomask::XMAX_COMMITTED != 0;
    match deleter_of(tuple) {
        MaxOf::None => Ok(true),
        MaxOf::Xid(xid) => Ok(!counts(snapshot, statuses, marked, xid)),
        MaxOf::Multi(id) => match statuses.updater(id)? {
            Some(xid) => Ok(!counts(snapshot, statuses, false, xid)),
            None => Ok(true),
        },
    }
}

/// Whether the inserter counts as committed.
#[tactic(auto, unfolding(crate::specs::Visible::inserter_counts))]
fn inserter_counts<S: Statuses>(tuple: &TupleView<'_>, snapshot: &Snapshot, statuses: &S) -> bool
    ensures { result ≡ inserter_counts tuple.now (in_numbers snapshot.now) (topmost_of (S.parents_of statuses.now)) (S.status_of statuses.now) }
{
    let marks = tuple.infomask() & XMIN_FROZEN;
    let xmin = tuple.xmin();
    if marks == XMIN_FROZEN || xmin.0 == BOOTSTRAP || xmin.0 == FROZEN {
        return true;
    }
    if xmin.0 == INVALID || marks == infomask::XMIN_INVALID {
        return false;
    }
    counts(snapshot, statuses, marks == infomask::XMIN_COMMITTED, xmin)
}

/// The deleter that the tuple shows, unless it is marked invalid.
#[tactic(auto, unfolding(crate::specs::Visible::deleter_of))]
fn deleter_of(tuple: &TupleView<'_>) -> MaxOf
    ensures { result ≡ deleter_of tuple.now }
{
    if tuple.infomask() & infomask::XMAX_INVALID != 0 {
        MaxOf::None
    } else {
        tuple.max_of()
    }
}

/// Whether the snapshot counts a transaction as committed.
fn counts<S: Statuses>(snapshot: &Snapshot, statuses: &S, marked: bool, xid: Xid) -> bool
    ensures { result ≡ counts (in_numbers snapshot.now) (topmost_of (S.parents_of statuses.now)) (S.status_of statuses.now) marked xid.0 }
{
    if snapshot.in_progress(xid, statuses.parents()) {
        return false;
    }
    marked || matches!(statuses.status(xid), Status::Committed)
}
