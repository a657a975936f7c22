ghost use Rattle.std.specs.Prelude.{◌≡◌, ◌≢◌, ◌↔◌, ◌+◌, ◌<◌, ◌≤◌, ℕ, Contains, min, max, IfOk, IsOk, Some, Err, length};
ghost use Rattle.outside.specs.Faults.{HasCause, counted, next_count};
ghost use Rattle.outside.specs.Log.{FitsLog, GivesBytes, GivesRun, log_limit, run_from, text_from};
ghost use Rattle.outside.specs.Memory.{KeepsTo, next_call, up_to_cut};
ghost use Rattle.outside.specs.Counts.{counted_le};
ghost use Rattle.outside.specs.LogEnds.{text_from_ends};

use crate::faults::FaultPlan;
use crate::log::LogBytes;
use crate::memory_files::read_at;
use pg_types::{Bytes, Fail, Lsn, NoMemory, Tli};
use std::alloc::Global;
use std::marker::Model;

const LIMIT: u64 = 0x8000_0000_0000_0000;

/// A log of timeline 1 in memory that never fails: one text that stands from a position on. Contracts
/// see it as that position and the text.
#[derive(Drop)]
pub struct SteadyLog {
    start: u64,
    text: Bytes,
}

impl Model for SteadyLog {
    ghost use Rattle.std.specs.Prelude.{List, ℕ};

    ghost Value = { ℕ × List ℕ };

    ghost view = { λ log. (log.start, log.text) };
}

impl SteadyLog {
    /// The log with this text from the position `start` on. Bytes at or past 2^63 are not told.
    pub fn new(alloc: Global, start: Lsn, text: &[u8]) -> Result<SteadyLog, NoMemory>
        ensures { IfOk result (λ log. log ≡ (start.0, text.now)) }
    {
        let text = Bytes::from_slice(alloc, text)?;
        Ok(SteadyLog {
            start: start.0,
            text,
        })
    }
}

impl LogBytes for SteadyLog {
    ghost told = { λ log. Some (text_from log.0 log.1) };

    ghost owner_of = { λ _ _. 1 };

    ghost fault_count = { λ _. 0 };

    ghost same = { λ _ _. Unit {0} };

    fn bytes_at(&mut self, at: Lsn, buf: &mut [u8]) -> Result<usize, Fail>
        ensures bytes { GivesBytes (Some (text_from self.old.0 self.old.1)) at.0 buf.new result }
        ensures fits { FitsLog at.0 buf.old result }
        ensures stays { self.new ≡ self.old }
        ensures steady { IsOk result }
        ensures longest { IfOk result (λ count. count ≡ min (length buf.old) (run_from self.old.0 self.old.1 at.0)) }
    {
        Ok(read_run(self.start, self.text.as_slice(), at.0, buf))
    }

    fn owner(&self, _at: Lsn) -> Tli {
        Tli(1)
    }

    fn faults(&self) -> u64 {
        0
    }

    ghost counts = { λ _. counted_le 0 };

    ghost same_self = { λ _. tt };

    ghost same_later = { λ _ _ _ _ _. tt };

    ghost ends = { λ log. text_from_ends log.0 log.1 };
}

/// A log in memory in which the listed calls of `bytes_at` fail. Its answers have at most `most` bytes,
/// but where `most` is 0 one, and end at the first listed place that they come to.
#[derive(Drop)]
pub struct MemoryLog {
    pub log: SteadyLog,
    pub most: usize,
    pub cuts: Vec<u64>,
    pub plan: FaultPlan,
}

impl MemoryLog {
    /// The log whose answers are cut so, in which the calls of `bytes_at` with the numbers `fails`,
    /// from 1 on, fail.
    pub fn new(
        alloc: Global,
        log: SteadyLog,
        most: usize,
        cuts: &[u64],
        fails: &[u64],
    ) -> Result<MemoryLog, NoMemory>
        ensures log { IfOk result (λ made. made.log ≡ log) }
        ensures most { IfOk result (λ made. made.most ≡ most) }
        ensures cuts { IfOk result (λ made. made.cuts.items ≡ cuts.now) }
        ensures listed { IfOk result (λ made. made.plan.fails.items ≡ fails.now) }
        ensures begins { IfOk result (λ made. made.plan.calls ≡ 0) }
        ensures none { IfOk result (λ made. counted made.plan.count.faults ≡ 0) }
    {
        let cuts = Vec::from_slice(alloc, cuts)?;
        let plan = FaultPlan::new(alloc, fails)?;
        Ok(MemoryLog {
            log,
            most,
            cuts,
            plan,
        })
    }
}

impl LogBytes for MemoryLog {
    ghost told = { λ made. Some (text_from made.log.0 made.log.1) };

    ghost owner_of = { λ _ _. 1 };

    ghost fault_count = { λ made. counted made.plan.count.faults };

    ghost same = { λ _ _. Unit {0} };

    fn bytes_at(&mut self, at: Lsn, buf: &mut [u8]) -> Result<usize, Fail>
        ensures bytes { GivesBytes (Some (text_from self.old.log.0 self.old.log.1)) at.0 buf.new result }
        ensures fits { FitsLog at.0 buf.old result }
        ensures stays { self.new.log ≡ self.old.log }
        ensures cause { HasCause (counted self.old.plan.count.faults) (counted self.new.plan.count.faults) result }
        ensures failed { (result ≡ Err Fail.Failed) ↔ Contains self.old.plan.fails.items (next_call self.old.plan.calls) }
        ensures steady { result ≢ Err Fail.Memory }
        ensures uncounted { result ≢ Err Fail.Failed → counted self.new.plan.count.faults ≡ counted self.old.plan.count.faults }
        ensures one { result ≡ Err Fail.Failed → counted self.new.plan.count.faults ≡ next_count (counted self.old.plan.count.faults) }
        ensures longest { IfOk result (λ count. count ≡ min (up_to_cut self.old.cuts.items at.0 (min (length buf.old) (max 1 self.old.most)))
            (run_from self.old.log.0 self.old.log.1 at.0)) }
        ensures most { IfOk result (λ count. count ≤ max 1 self.old.most) }
        ensures cut { IfOk result (KeepsTo self.old.cuts.items at.0) }
        ensures listed { self.new.plan.fails.items ≡ self.old.plan.fails.items }
        ensures next { self.new.plan.calls ≡ next_call self.old.plan.calls }
        ensures same_most { self.new.most ≡ self.old.most }
        ensures same_cuts { self.new.cuts.items ≡ self.old.cuts.items }
    {
        if self.plan.strikes() {
            return Err(self.plan.failure());
        }
        let most = buf.len().min(self.most.max(1));
        let reach = up_to_cut(self.cuts.as_slice(), at.0, most);
        self.log.bytes_at(at, &mut buf[..reach])
    }

    fn owner(&self, _at: Lsn) -> Tli {
        Tli(1)
    }

    fn faults(&self) -> u64 {
        self.plan.count.value()
    }

    ghost counts = { λ made. counted_le made.plan.count.faults };

    ghost same_self = { λ _. tt };

    ghost same_later = { λ _ _ _ _ _. tt };

    ghost ends = { λ made. text_from_ends made.log.0 made.log.1 };
}

// Reads the bytes from `at` on of a text that stands from `start` on into the front of `buf`.
fn read_run(start: u64, text: &[u8], at: u64, buf: &mut [u8]) -> usize
    ensures run { GivesRun (text_from start text.now) at buf.new result }
    ensures fits { result ≤ length buf.old }
    ensures below { 0 < result → at + result ≤ log_limit }
    ensures longest { result ≡ min (length buf.old) (run_from start text.now at) }
{
    if at < start || at >= LIMIT {
        return 0;
    }
    let room = buf.len().min((LIMIT - at) as usize);
    read_at(text, at - start, &mut buf[..room])
}

// As many bytes as stand before the first of the places that lies past `at`, at most `most`.
fn up_to_cut(cuts: &[u64], at: u64, most: usize) -> usize
    ensures most { result ≤ most }
    ensures some { 0 < most → 0 < result }
    ensures cut { KeepsTo cuts.now at result }
    ensures longest { result ≡ up_to_cut cuts.now at most }
{
    let mut reach = most;
    for cut in cuts {
        if at < *cut {
            reach = reach.min((*cut - at) as usize);
        }
    }
    reach
}
