ghost use Rattle.std.specs.Prelude.{◌≡◌, ◌≢◌, ◌≤◌, ◌<◌, ◌^◌, ◌+◌, drop, length, take, min, IfOk, IsOk, Some, Err};
ghost use Rattle.pg_types.specs.Bytes.{AreBytes};
ghost use Rattle.outside.specs.Faults.{HasCause, counted};
ghost use Rattle.outside.specs.Plan.{FollowsPlan};
ghost use Rattle.outside.specs.Source.{Counts, Gives, GivesFront};
ghost use Rattle.outside.specs.Counts.{counted_IsCount};
ghost use Rattle.outside.specs.Texts.{dropped_bytes, read_within};

use crate::faults::FaultPlan;
use crate::source::Source;
use pg_types::{Bytes, Fail, NoMemory};
use std::alloc::Global;

/// A source in memory that never fails: a text, of which so many bytes were read.
#[derive(Drop)]
pub struct SteadySource {
    pub text: Bytes,
    pub read: usize,
    ghost within: { read ≤ length text },
    ghost small: { length text ≤ 2 ^ 62 },
    ghost bytes: { AreBytes text },
}

impl SteadySource {
    /// A source of which nothing was read. It has at most 2^62 bytes.
    pub fn new(alloc: Global, text: &[u8]) -> Result<SteadySource, NoMemory>
        requires small { length text.now ≤ 2 ^ 62 }
        ensures { IfOk result (λ source. drop source.read source.text ≡ text.now) }
    {
        let text = Bytes::from_slice(alloc, text)?;
        Ok(SteadySource { text, read: 0 })
    }

    /// Gives the next bytes, at most so many.
    fn give(&mut self, most: usize, buf: &mut [u8]) -> usize
        requires { 0 < most }
        ensures told { GivesFront (drop self.old.read self.old.text) (Some (drop self.new.read self.new.text)) buf.new result }
        ensures fits { result ≤ length buf.old }
        ensures counted { self.new.read ≡ self.old.read + result }
    {
        let (_, rest) = self.text.as_slice().split_at(self.read);
        let count = rest.len().min(buf.len()).min(most);
        let (front, _) = rest.split_at(count);
        buf[..count].copy_from_slice(front);
        self.read += count;
        count
    }
}

impl Source for SteadySource {
    ghost rest = { λ source. Some (drop source.read source.text) };

    ghost taken_count = { λ source. source.read };

    ghost fault_count = { λ _. 0 };

    fn read(&mut self, buf: &mut [u8]) -> Result<usize, Fail>
        ensures told { Gives (Some (drop self.old.read self.old.text)) (Some (drop self.new.read self.new.text)) buf.new result }
        ensures counted { Counts self.old.read self.new.read buf.old result }
        ensures steady { IsOk result }
    {
        Ok(self.give(usize::MAX, buf))
    }

    fn taken(&self) -> u64 {
        self.read as u64
    }

    fn faults(&self) -> u64 {
        0
    }

    ghost counts = { λ _. counted_IsCount 0 };

    ghost within = { λ source. read_within source.read (length source.text) source.within source.small };

    ghost bytes = { λ source. dropped_bytes source.read source.text source.bytes };
}

/// A source in memory of which the listed calls of `read` fail. A call gives at most so many bytes, and at least one.
#[derive(Drop)]
pub struct MemorySource {
    pub source: SteadySource,
    pub most: usize,
    pub plan: FaultPlan,
}

impl MemorySource {
    /// This source, of which the calls of `read` with these numbers, from 1 on, fail.
    pub fn new(
        alloc: Global,
        source: SteadySource,
        most: usize,
        fails: &[u64],
    ) -> Result<MemorySource, NoMemory>
        ensures source { IfOk result (λ held. held.source ≡ source) }
        ensures most { IfOk result (λ held. held.most ≡ most) }
        ensures listed { IfOk result (λ held. held.plan.fails.items ≡ fails.now) }
        ensures begins { IfOk result (λ held. held.plan.calls ≡ 0) }
        ensures none { IfOk result (λ held. counted held.plan.count.faults ≡ 0) }
    {
        let plan = FaultPlan::new(alloc, fails)?;
        Ok(MemorySource { source, most, plan })
    }
}

impl Source for MemorySource {
    ghost rest = { λ held. Some (drop held.source.read held.source.text) };

    ghost taken_count = { λ held. held.source.read };

    ghost fault_count = { λ held. counted held.plan.count.faults };

    fn read(&mut self, buf: &mut [u8]) -> Result<usize, Fail>
        ensures told { Gives (Some (drop self.old.source.read self.old.source.text)) (Some (drop self.new.source.read self.new.source.text)) buf.new result }
        ensures counted { Counts self.old.source.read self.new.source.read buf.old result }
        ensures cause { HasCause (counted self.old.plan.count.faults) (counted self.new.plan.count.faults) result }
        ensures uncounted { result ≢ Err Fail.Failed → counted self.new.plan.count.faults ≡ counted self.old.plan.count.faults }
        ensures plan { FollowsPlan self.old.plan self.new.plan result }
    {
        if self.plan.strikes() {
            return Err(self.plan.failure());
        }
        Ok(self.source.give(self.most.max(1), buf))
    }

    fn taken(&self) -> u64 {
        self.source.read as u64
    }

    fn faults(&self) -> u64 {
        self.plan.count.value()
    }

    ghost counts = { λ held. counted_IsCount held.plan.count.faults };

    ghost within = { λ held. read_within held.source.read (length held.source.text) held.source.within held.source.small };

    ghost bytes = { λ held. dropped_bytes held.source.read held.source.text held.source.bytes };
}
