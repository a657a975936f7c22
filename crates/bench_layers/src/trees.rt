//! Times the replay of so many subtransactions under one open snapshot, and the questions to that snapshot afterwards, and
//! of a tenth as many, in the same run.

use crate::clock::hundredths;
use crate::transactions::{each, shorter};
use crate::tree_replay::{SUBTRANSACTIONS, ask, replay};
use anyhow::Result;
use std::time::{Duration, Instant};
use xact_redo::XactState;

/// In how many rounds each is timed; the shortest time counts.
const ROUNDS: u32 = 5;

/// What a round took, and what it found.
#[derive(Clone, Copy)]
struct Round {
    replayed: Duration,
    asked: Duration,
    /// How many questions were about a subtransaction in progress.
    seen: u64,
}

impl Round {
    /// The shorter times of two rounds over as many subtransactions.
    fn or_shorter(self, other: Round) -> Round {
        Round {
            replayed: shorter(self.replayed, other.replayed),
            asked: shorter(self.asked, other.asked),
            ..other
        }
    }
}

/// How many transactions have so many subtransactions.
fn tops_of(count: u32) -> u32 {
    count / SUBTRANSACTIONS
}

/// How many questions the snapshot is asked, two for each transaction.
fn questions_of(count: u32) -> u32 {
    tops_of(count).saturating_mul(2)
}

/// Replays so many, and then asks the snapshot.
fn time(rt: &HostRuntime, count: u32) -> Result<Round> {
    let mut state = XactState::new(rt.alloc());
    let begun = Instant::now(rt)?;
    let snapshot = replay(rt.alloc(), tops_of(count), &mut state)?;
    let replayed = begun.elapsed(rt)?;
    let begun = Instant::now(rt)?;
    let seen = match &snapshot {
        Some(snapshot) => ask(snapshot, questions_of(count), &state),
        None => 0,
    };
    let asked = begun.elapsed(rt)?;
    Ok(Round {
        replayed,
        asked,
        seen,
    })
}

/// Prints what was found.
fn tell(rt: &HostRuntime, count: u32, round: Round) -> Result<()> {
    let tops = tops_of(count);
    let questions = questions_of(count);
    let seen = round.seen;
    println!(rt;
        "{count} subtransactions of {tops} transactions: {questions} questions to the open snapshot, {seen} in progress"
    )?;
    Ok(())
}

/// Prints what one took.
fn tell_times(rt: &HostRuntime, count: u32, round: Round) -> Result<()> {
    let replayed = each(round.replayed, count) / 1000;
    let asked = each(round.asked, questions_of(count)) / 1000;
    println!(rt; "  {replayed} ns to replay one, {asked} ns a question")?;
    Ok(())
}

/// Replays so many once, and tells what was found.
pub fn measure_small(rt: &HostRuntime, count: u32) -> Result<()> {
    let round = time(rt, count)?;
    tell(rt, count, round)
}

/// Times a tenth of them and all, in turn.
pub fn measure(rt: &HostRuntime, count: u32) -> Result<()> {
    let tenth = count / 10;
    let mut few = time(rt, tenth)?;
    let mut all = time(rt, count)?;
    for _ in 1..ROUNDS {
        few = few.or_shorter(time(rt, tenth)?);
        all = all.or_shorter(time(rt, count)?);
    }
    tell(rt, tenth, few)?;
    tell_times(rt, tenth, few)?;
    tell(rt, count, all)?;
    tell_times(rt, count, all)?;
    let replayed = hundredths(each(all.replayed, count), each(few.replayed, tenth));
    let asked = hundredths(
        each(all.asked, questions_of(count)),
        each(few.asked, questions_of(tenth)),
    );
    println!(rt;
        "to replay one of {count} takes {replayed}% of the time of one of {tenth}, a question {asked}%"
    )?;
    Ok(())
}
