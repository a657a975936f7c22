ghost use Rattle.std.specs.Prelude.{◌≡◌, ℕ, ◌+◌, ◌^◌, ◌≤◌, ◌<◌, [], ◌∷◌, All, filter, length, if◌then◌else◌};
ghost use Rattle.pg_types.specs.declared.names.Xid.{Xid};
ghost use Rattle.commit_log.specs.Log.{changed_after, reserved_end, status_after, status_of};
ghost use Rattle.known_assigned.specs.Ids.{greatest, numbers};
ghost use Rattle.known_assigned.specs.Known.{after_assign, after_end, after_running, after_shutdown};
ghost use Rattle.transaction_model.specs.StandbyStates.{set_parents};
ghost use Rattle.xact_redo.specs.State.{AreIdsInRange, HasRoom, ends_ids, has_ended, last_named_in, outcome_of, shows_ended, state_after, still_live, transactions};
ghost use Rattle.xact_redo.specs.TransactionsOf.{at_shutdown};

use crate::state::XactState;
use known_assigned::RunningHead;
use pg_types::{Lsn, Status, Xid};
use subtrans::Subtrans;
use wal_bodies::{Rec, RecKind, Xids};
use wal_record::RecordHead;

/// Applies a record to the state. The ids that it names are observed first, whatever its kind
/// (`ApplyWalRecord`, xlogrecovery.c); then a commit or an abort ends its transaction
/// (`xact_redo_commit`, `xact_redo_abort`), an assignment tells the parents of subtransactions
/// (`ProcArrayApplyXidAssignment`), a running record tells which run
/// (`ProcArrayApplyRecoveryInfo`), at a shutdown checkpoint none does, and a multixact is kept with its
/// updater (`multixact_redo`).
///
/// It takes no memory. It costs a constant time for each id that is new, a search by halving and a
/// write for each id that ends or is assigned, a look at each member of a multixact up to its updater, and of a
/// running record what `KnownAssigned::running` costs.
#[tactic(auto, unfolding(crate::specs::State::state_after, crate::specs::State::transactions))]
pub fn redo(rec: &Rec<'_>, state: &mut XactState)
    requires ids { AreIdsInRange rec.now }
    requires room { HasRoom rec.now state.old }
    ensures { transactions state.new ≡ state_after rec.now (transactions state.old) }
{
    state.known.observe(last_named(rec));
    match &rec.kind {
        RecKind::Ended { .. } => {
            end_tree(rec.head.xid, outcome_of(rec.head), rec.end, state);
        }
        RecKind::Assignment { top, .. } => assign(*top, state),
        RecKind::Running {
            tops,
            overflow,
            next,
            oldest,
            latest,
            ..
        } => {
            let head = RunningHead {
                overflow: *overflow,
                tops: *tops,
                next: *next,
                oldest: *oldest,
                latest: *latest,
            };
            see_running(&head, state);
        }
        RecKind::Checkpoint { next, .. } => see_checkpoint(rec.head, *next, state),
        RecKind::Multixact { id, members, .. } => state.multis.create(*id, members.again()),
        _ => {}
    }
}

/// Whether the record ends ids: a commit or an abort those that it names, a running record those below its oldest one,
/// and a shutdown checkpoint all of them.
pub fn ends_ids(rec: &Rec<'_>) -> bool
    ensures { result ≡ ends_ids rec.now.head rec.now.kind }
{
    match &rec.kind {
        RecKind::Ended { .. } | RecKind::Running { .. } => true,
        RecKind::Checkpoint { .. } => rec.head.info & 0xF0 == 0x00,
        _ => false,
    }
}

/// The greatest id that the record names, in its header, as ended or as assigned.
pub(crate) fn last_named(rec: &Rec<'_>) -> Xid
    ensures { result.0 ≡ last_named_in rec.now.head rec.now.kind }
{
    match &rec.kind {
        RecKind::Ended { xids, .. } => greatest_of(rec.head.xid, xids.again()),
        RecKind::Assignment { top, xids } => {
            greatest_of(Xid(rec.head.xid.0.max(top.0)), xids.again())
        }
        _ => rec.head.xid,
    }
}

/// The greatest of these.
fn greatest_of(first: Xid, rest: Xids<'_>) -> Xid
    ensures { result.0 ≡ greatest (numbers (first ∷ rest.entry)) }
{
    let mut most = first.0;
    for xid in rest {
        most = most.max(xid.0);
    }
    Xid(most)
}

/// How the record ends its transaction.
fn outcome_of(head: RecordHead) -> Status
    ensures { result ≡ outcome_of head }
{
    if head.info & 0x70 == 0x00 {
        Status::Committed
    } else {
        Status::Aborted
    }
}

/// The transaction and its subtransactions, which `reserve` kept, end so, by a record that ends at this
/// position.
#[tactic(auto, unfolding(crate::specs::State::transactions))]
fn end_tree(xid: Xid, status: Status, at: Lsn, state: &mut XactState)
    requires ids { All (λ (x : Xid). x.0 ≤ 2 ^ 63 + 2 ^ 32) (xid ∷ state.old.tree) }
    requires room { All (λ (x : Xid). x.0 < reserved_end state.old.log) (xid ∷ state.old.tree) }
    ensures { transactions state.new ≡ record (transactions state.old) { statuses = status_after (transactions state.old).statuses (xid ∷ state.old.tree) status; changed = changed_after (transactions state.old).changed (xid ∷ state.old.tree) at.0; known = after_end (transactions state.old).known (numbers (xid ∷ state.old.tree)) } }
{
    state.log.set_tree(xid, state.tree.as_slice(), status, at);
    state.known.end_tree(xid, state.tree.as_slice());
}

/// The subtransactions that `reserve` kept are known by their parent from now on.
#[tactic(auto, unfolding(crate::specs::State::transactions))]
fn assign(top: Xid, state: &mut XactState)
    requires { length state.old.tree ≤ state.old.subs.spare }
    ensures { transactions state.new ≡ record (transactions state.old) { known = after_assign (transactions state.old).known top.0 (numbers state.old.tree); parents = set_parents top.0 (numbers state.old.tree) (transactions state.old).parents } }
{
    state.known.assign(top, state.tree.as_slice());
    set_parents(top, state.tree.as_slice(), &mut state.subs);
}

/// Each of these that is above the top transaction has it as its parent.
fn set_parents(top: Xid, xids: &[Xid], subs: &mut Subtrans)
    requires { length xids.now ≤ subs.old.spare }
    ensures { subs.new.pairs ≡ set_parents top.0 (numbers xids.now) subs.old.pairs }
{
    for xid in xids {
        set_parent(top, *xid, subs);
    }
}

/// An id that is above the top transaction has it as its parent.
#[tactic(auto, unfolding(transaction_model::specs::StandbyStates::set_parents))]
fn set_parent(top: Xid, xid: Xid, subs: &mut Subtrans)
    requires { 0 < subs.old.spare }
    ensures pairs { subs.new.pairs ≡ set_parents top.0 (xid.0 ∷ []) subs.old.pairs }
    ensures spare { subs.old.spare ≤ subs.new.spare + 1 }
{
    if top.0 < xid.0 {
        subs.set_parent(xid, top);
    }
}

/// The listed transactions run, but those that have ended, as `reserve` found them.
#[tactic(auto, unfolding(crate::specs::State::transactions))]
fn see_running(head: &RunningHead, state: &mut XactState)
    requires oldest { head.now.oldest.0 ≤ 2 ^ 63 + 2 ^ 32 }
    requires latest { head.now.latest.0 ≤ 2 ^ 63 + 2 ^ 32 }
    requires ended { state.old.ended.0 ≤ 2 ^ 63 + 2 ^ 32 }
    requires places { length state.old.scratch ≤ state.old.known.spare }
    ensures { transactions state.new ≡ record (transactions state.old) { known = after_running (transactions state.old).known head.now (numbers state.old.scratch) state.old.ended.0 } }
{
    state
        .known
        .running(head, state.scratch.as_slice(), state.ended);
}

/// Whether a status says that the transaction has ended.
pub(crate) fn has_ended(status: Status) -> bool
    ensures { result ≡ has_ended status }
{
    matches!(status, Status::Committed | Status::Aborted)
}

/// After a shutdown nothing runs.
#[tactic(auto, unfolding(crate::specs::State::transactions))]
fn see_checkpoint(head: RecordHead, next: Xid, state: &mut XactState)
    requires { next.0 ≤ 2 ^ 63 + 2 ^ 32 }
    ensures { transactions state.new ≡ (if at_shutdown head then record (transactions state.old) { known = after_shutdown (transactions state.old).known next.0 } else transactions state.old) }
{
    if head.info & 0xF0 == 0x00 {
        state.known.shutdown(next);
    }
}
