//! Times the replay of so many small transactions by `reserve` and `redo`, with a snapshot now and then,
//! and of a tenth as many, beside a plain bookkeeping of the same events in the same run.

use crate::clock::{hundredths, in_a_second};
use crate::transaction_replay;
use anyhow::Result;
use std::time::{Duration, Instant};
use xact_redo::XactState;

/// In how many rounds each is timed; the shortest time counts.
const ROUNDS: u32 = 5;

/// What a round took, and what it found.
#[derive(Clone, Copy)]
struct Round {
    replayed: Duration,
    looked_up: Duration,
    plain: Duration,
    /// How many transactions the replayed state has as committed, and how many the plain bookkeeping.
    committed: u64,
    kept: u64,
    /// How many running transactions all snapshots had.
    seen: u64,
}

impl Round {
    /// The shorter times of two rounds over as many transactions.
    fn or_shorter(self, other: Round) -> Round {
        Round {
            replayed: shorter(self.replayed, other.replayed),
            looked_up: shorter(self.looked_up, other.looked_up),
            plain: shorter(self.plain, other.plain),
            ..other
        }
    }
}

pub fn shorter(one: Duration, other: Duration) -> Duration {
    if one < other { one } else { other }
}

/// Picoseconds for each of so many.
pub fn each(took: Duration, count: u32) -> u128 {
    if count == 0 {
        0
    } else {
        took.as_nanos().wrapping_mul(1000) / u128::from(count)
    }
}

/// Replays so many transactions, and keeps them plainly.
fn time(rt: &HostRuntime, count: u32) -> Result<Round> {
    let begun = Instant::now(rt)?;
    let outcomes = transaction_replay::keep_plainly(rt.alloc(), count)?;
    let plain = begun.elapsed(rt)?;
    let mut state = XactState::new(rt.alloc());
    let begun = Instant::now(rt)?;
    let seen = transaction_replay::replay(rt.alloc(), count, &mut state)?;
    let replayed = begun.elapsed(rt)?;
    let begun = Instant::now(rt)?;
    let committed = transaction_replay::count_committed(&state, count);
    let looked_up = begun.elapsed(rt)?;
    let kept = transaction_replay::count_ones(outcomes.as_slice());
    Ok(Round {
        replayed,
        looked_up,
        plain,
        committed,
        kept,
        seen,
    })
}

/// Prints what was found.
fn tell(rt: &HostRuntime, count: u32, round: Round) -> Result<()> {
    let committed = round.committed;
    let kept = round.kept;
    let seen = round.seen;
    println!(rt;
        "{count} transactions: {committed} committed ({kept} as kept plainly), {seen} seen running"
    )?;
    Ok(())
}

/// Prints the speeds, and the replay's time as a part of the plain bookkeeping's.
fn tell_speeds(rt: &HostRuntime, count: u32, round: Round) -> Result<()> {
    let replayed = in_a_second(u64::from(count), round.replayed);
    let plain = in_a_second(u64::from(count), round.plain);
    let looked_up = in_a_second(u64::from(count), round.looked_up);
    println!(rt;
        "  replayed {replayed}/s, kept plainly {plain}/s, statuses looked up {looked_up}/s"
    )?;
    let nanos = each(round.replayed, count) / 1000;
    let percent = hundredths(each(round.replayed, count), each(round.plain, count));
    println!(rt; "  {nanos} ns to replay one, {percent}% of the plain bookkeeping's time")?;
    Ok(())
}

/// Replays so many transactions once, and tells what was found.
pub fn measure_small(rt: &HostRuntime, count: u32) -> Result<()> {
    let round = time(rt, count)?;
    tell(rt, count, round)
}

/// Times a tenth of the transactions and all of them, in turn.
pub fn measure(rt: &HostRuntime, count: u32) -> Result<()> {
    let tenth = count / 10;
    let mut few = time(rt, tenth)?;
    let mut all = time(rt, count)?;
    for _ in 1..ROUNDS {
        few = few.or_shorter(time(rt, tenth)?);
        all = all.or_shorter(time(rt, count)?);
    }
    tell(rt, tenth, few)?;
    tell_speeds(rt, tenth, few)?;
    tell(rt, count, all)?;
    tell_speeds(rt, count, all)?;
    let replayed = hundredths(each(all.replayed, count), each(few.replayed, tenth));
    let plain = hundredths(each(all.plain, count), each(few.plain, tenth));
    println!(rt;
        "one of {count} takes {replayed}% of the time of one of {tenth} (kept plainly {plain}%)"
    )?;
    Ok(())
}
