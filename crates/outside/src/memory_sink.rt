ghost use Rattle.std.specs.Prelude.{◌≡◌, ◌≢◌, [], ◌++◌, ◌/◌, take, length, ℕ, List, Contains, IfOk, OnOk, Some, Err};
ghost use Rattle.outside.specs.Faults.{HasCause, HasShortage, counted, next_count};
ghost use Rattle.outside.specs.Memory.{next_call};
ghost use Rattle.outside.specs.Sink.{Writes};
ghost use Rattle.outside.specs.Counts.{counted_le};

use crate::faults::{FaultCount, FaultPlan};
use crate::sink::Sink;
use pg_types::{Bytes, Fail, NoMemory};
use std::alloc::Global;
use std::marker::Model;

/// A sink in memory that never fails. Contracts see all bytes written so far, and how many writes found no
/// memory.
#[derive(Drop)]
pub struct SteadySink {
    bytes: Bytes,
    short: FaultCount,
}

impl Model for SteadySink {
    ghost use Rattle.outside.specs.Faults.{counted};
    ghost use Rattle.outside.specs.Sink.{Written};

    ghost Value = { Written };

    ghost view = { λ sink. record { bytes = sink.bytes; short = counted sink.short.faults } };
}

impl SteadySink {
    /// A sink to which nothing was written.
    pub fn new(alloc: Global) -> SteadySink
        ensures { result ≡ record { bytes = []; short = 0 } }
    {
        SteadySink {
            bytes: Bytes::new(alloc),
            short: FaultCount::new(),
        }
    }

    /// All bytes written so far.
    pub fn as_slice(&self) -> &[u8]
        ensures { result.now ≡ self.now.bytes }
    {
        self.bytes.as_slice()
    }
}

impl Sink for SteadySink {
    ghost written = { λ sink. Some sink.bytes };

    ghost fault_count = { λ _. 0 };

    ghost short_count = { λ sink. sink.short };

    fn write(&mut self, bytes: &[u8]) -> Result<(), Fail>
        ensures told { Writes (Some self.old.bytes) (Some self.new.bytes) bytes.now result }
        ensures steady { result ≢ Err Fail.Failed }
        ensures shortage { HasShortage self.old.short self.new.short result }
        ensures unshort { OnOk result (self.new.short ≡ self.old.short) }
    {
        match self.bytes.append(bytes) {
            Ok(()) => Ok(()),
            Err(NoMemory) => {
                self.short.rise();
                Err(Fail::Memory)
            }
        }
    }

    fn faults(&self) -> u64 {
        0
    }

    ghost counts = { λ _. counted_le 0 };
}

/// A sink in memory in which the listed calls of `write` fail, each after the first half of its bytes.
#[derive(Drop)]
pub struct MemorySink {
    pub written: SteadySink,
    pub plan: FaultPlan,
}

impl MemorySink {
    /// A sink to which nothing was written, in which the calls of `write` with these numbers, from 1
    /// on, fail.
    pub fn new(alloc: Global, fails: &[u64]) -> Result<MemorySink, NoMemory>
        ensures empty { IfOk result (λ sink. sink.written ≡ record { bytes = []; short = 0 }) }
        ensures listed { IfOk result (λ sink. sink.plan.fails.items ≡ fails.now) }
        ensures begins { IfOk result (λ sink. sink.plan.calls ≡ 0) }
        ensures none { IfOk result (λ sink. counted sink.plan.count.faults ≡ 0) }
    {
        let plan = FaultPlan::new(alloc, fails)?;
        Ok(MemorySink {
            written: SteadySink::new(alloc),
            plan,
        })
    }
}

impl Sink for MemorySink {
    ghost written = { λ sink. Some sink.written.bytes };

    ghost fault_count = { λ sink. counted sink.plan.count.faults };

    ghost short_count = { λ sink. sink.written.short };

    fn write(&mut self, bytes: &[u8]) -> Result<(), Fail>
        ensures told { Writes (Some self.old.written.bytes) (Some self.new.written.bytes) bytes.now result }
        ensures cause { HasCause (counted self.old.plan.count.faults) (counted self.new.plan.count.faults) result }
        ensures uncounted { result ≢ Err Fail.Failed → counted self.new.plan.count.faults ≡ counted self.old.plan.count.faults }
        ensures one { result ≡ Err Fail.Failed → counted self.new.plan.count.faults ≡ next_count (counted self.old.plan.count.faults) }
        ensures shortage { HasShortage self.old.written.short self.new.written.short result }
        ensures failed { result ≡ Err Fail.Failed → Contains self.old.plan.fails.items (next_call self.old.plan.calls) }
        ensures half { result ≡ Err Fail.Failed → self.new.written.bytes ≡ self.old.written.bytes ++ take (length bytes.now / 2) bytes.now }
        ensures passed { OnOk result (¬ Contains self.old.plan.fails.items (next_call self.old.plan.calls)) }
        ensures listed { self.new.plan.fails.items ≡ self.old.plan.fails.items }
        ensures next { self.new.plan.calls ≡ next_call self.old.plan.calls }
    {
        if self.plan.strikes() {
            let (front, _) = bytes.split_at(bytes.len() / 2);
            self.written.write(front)?;
            return Err(self.plan.failure());
        }
        self.written.write(bytes)
    }

    fn faults(&self) -> u64 {
        self.plan.count.value()
    }

    ghost counts = { λ sink. counted_le sink.plan.count.faults };
}
