ghost use Rattle.xact_redo.specs.State.{AreIdsInRange};

use crate::events::{does_abort, end, insert, running, xid_of};
use known_assigned::State;
use pg_types::{NoMemory, Status};
use std::alloc::Global;
use std::collections::HashSet;
use wal_bodies::Rec;
use xact_redo::{XactState, redo, reserve};

/// How many transactions run at a time, less the one that ends next.
const BEHIND: u32 = 7;

/// A snapshot is taken once in so many transactions.
const BETWEEN_SNAPSHOTS: u32 = 1000;

/// Makes room for a record, and applies it.
fn apply(rec: &Rec<'_>, state: &mut XactState) -> Result<(), NoMemory>
    requires { AreIdsInRange rec.now }
{
    reserve(rec, state)?;
    redo(rec, state);
    Ok(())
}

/// How many transactions a snapshot of the state has as running, or none where none can be taken yet.
fn taken(alloc: Global, state: &XactState) -> Result<usize, NoMemory> {
    match state.known.state() {
        State::Ready => {
            let snapshot = standby_snapshot::take(alloc, &state.known)?;
            Ok(snapshot.running.len())
        }
        _ => Ok(0),
    }
}

/// Replays so many transactions, of which eight run at a time, and takes snapshots in between. Answers
/// how many running transactions the snapshots had.
pub fn replay(alloc: Global, count: u32, state: &mut XactState) -> Result<u64, NoMemory> {
    apply(&running(), state)?;
    let mut seen = 0_u64;
    for number in 0..count.saturating_add(BEHIND) {
        if number < count {
            apply(&insert(number), state)?;
        }
        if number % BETWEEN_SNAPSHOTS == 0 {
            seen = seen.wrapping_add(taken(alloc, state)? as u64);
        }
        if let Some(oldest) = number.checked_sub(BEHIND) {
            apply(&end(oldest), state)?;
        }
    }
    Ok(seen)
}

/// How many of the transactions the state has as committed.
pub fn count_committed(state: &XactState, count: u32) -> u64 {
    let mut committed = 0_u64;
    for number in 0..count {
        if let Status::Committed = state.log.get(xid_of(number)) {
            committed = committed.wrapping_add(1);
        }
    }
    committed
}

/// The same events kept plainly: a set of the ids that run, and a byte for each transaction that ended.
pub fn keep_plainly(alloc: Global, count: u32) -> Result<Vec<u8>, NoMemory> {
    let mut running = HashSet::new(alloc);
    let mut outcomes = Vec::new(alloc);
    for number in 0..count.saturating_add(BEHIND) {
        if number < count {
            running.insert(xid_of(number).0)?;
        }
        if let Some(oldest) = number.checked_sub(BEHIND) {
            running.remove(&xid_of(oldest).0);
            outcomes.push(u8::from(!does_abort(oldest)))?;
        }
    }
    Ok(outcomes)
}

/// How many of the outcomes are commits.
pub fn count_ones(outcomes: &[u8]) -> u64 {
    let mut ones = 0_u64;
    for outcome in outcomes {
        ones = ones.wrapping_add(u64::from(*outcome));
    }
    ones
}
