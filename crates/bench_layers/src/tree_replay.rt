//! Transactions of 64 subtransactions each, which are assigned in one record and end in another, while the first one runs
//! and a snapshot stays open, so that all their parents are kept.
ghost use Rattle.xact_redo.specs.State.{AreIdsInRange};

use crate::events::{assignment, commit_of_tree, running};
use known_assigned::State;
use pg_types::{NoMemory, Xid};
use standby_snapshot::{Snapshot, xmin};
use std::alloc::Global;
use wal_bodies::Rec;
use xact_redo::{XactState, redo, reserve};

/// How many subtransactions a transaction has.
pub const SUBTRANSACTIONS: u32 = 64;

/// The id of the first transaction.
const FIRST: u32 = 700;

/// Makes room for a record, and applies it.
fn apply(rec: &Rec<'_>, state: &mut XactState) -> Result<(), NoMemory>
    requires { AreIdsInRange rec.now }
{
    reserve(rec, state)?;
    redo(rec, state);
    Ok(())
}

/// The id of the transaction with this number.
fn top_of(number: u32) -> u32 {
    FIRST.wrapping_add(number.wrapping_mul(SUBTRANSACTIONS + 1))
}

/// The ids of its subtransactions, four bytes each.
fn put_ids(top: u32, ids: &mut [u8; 256]) {
    for k in 0..64_u32 {
        let id = top.wrapping_add(k).wrapping_add(1).to_le_bytes();
        let at = 4 * k as usize;
        ids[at] = id[0];
        ids[at + 1] = id[1];
        ids[at + 2] = id[2];
        ids[at + 3] = id[3];
    }
}

/// A snapshot of the state, where one can be taken.
fn taken(alloc: Global, state: &XactState) -> Result<Option<Snapshot>, NoMemory> {
    match state.known.state() {
        State::Ready => Ok(Some(standby_snapshot::take(alloc, &state.known)?)),
        _ => Ok(None),
    }
}

/// Assigns the subtransactions of the transaction with this number, and ends it unless it is the first.
fn step(number: u32, state: &mut XactState) -> Result<(), NoMemory> {
    let mut ids = [0; 256];
    let top = top_of(number);
    put_ids(top, &mut ids);
    apply(&assignment(top, &ids), state)?;
    if number > 0 {
        apply(&commit_of_tree(top, &ids), state)?;
    }
    Ok(())
}

/// Replays so many transactions, of which the first runs on, and forgets after each the parents that neither the snapshot
/// of the second's end nor a later one asks for. Answers that snapshot, where it could be taken.
pub fn replay(
    alloc: Global,
    count: u32,
    state: &mut XactState,
) -> Result<Option<Snapshot>, NoMemory> {
    apply(&running(), state)?;
    step(0, state)?;
    step(1, state)?;
    let snapshot = taken(alloc, state)?;
    for number in 2..count {
        step(number, state)?;
        if let Some(snapshot) = &snapshot {
            let oldest = xmin(&state.known).0.min(snapshot.xmin.0);
            state.forget_below(Xid(oldest));
        }
    }
    Ok(snapshot)
}

/// The subtransaction that a question of this number is about: in turn one of the first transaction, which runs, and one
/// of the second, which ended before the snapshot was taken.
fn asked_of(number: u32) -> Xid {
    let top = top_of(number % 2);
    let id = top.wrapping_add(1).wrapping_add(number % SUBTRANSACTIONS);
    Xid(u64::from(id))
}

/// Asks the snapshot so many questions. Answers how many of them were about a subtransaction in progress.
pub fn ask(snapshot: &Snapshot, questions: u32, state: &XactState) -> u64 {
    let mut seen = 0_u64;
    for number in 0..questions {
        let is_seen = snapshot.in_progress(asked_of(number), &state.subs);
        seen = seen.wrapping_add(u64::from(is_seen));
    }
    seen
}
