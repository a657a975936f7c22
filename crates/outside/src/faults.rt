ghost use Rattle.std.specs.Prelude.{◌≡◌, ◌↔◌, Contains, IfOk, IsTrue};
ghost use Rattle.outside.specs.Faults.{counted, next_count};
ghost use Rattle.outside.specs.Memory.{next_call};

use pg_types::{Fail, NoMemory};
use std::alloc::Global;

const ROOM: u64 = 0x4000_0000_0000_0000;

const LAST_COUNT: u64 = 0x8000_0000_0000_0000;

/// A count of faults. It goes from 2^62 - 1 to 2^63, its last value, and stays there.
#[derive(Clone, Copy)]
pub struct FaultCount {
    /// The faults so far, up to 2^62.
    pub faults: u64,
}

impl FaultCount {
    pub fn new() -> FaultCount
        ensures { counted result.faults ≡ 0 }
    {
        FaultCount { faults: 0 }
    }

    /// The count: below 2^62, or 2^63.
    pub fn value(&self) -> u64
        ensures { result ≡ counted self.now.faults }
    {
        if self.faults < ROOM {
            self.faults
        } else {
            LAST_COUNT
        }
    }

    /// Counts one more fault.
    pub fn rise(&mut self)
        ensures { counted self.new.faults ≡ next_count (counted self.old.faults) }
    {
        if self.faults < ROOM {
            self.faults += 1;
        }
    }
}

/// Which calls of an object in memory are to fail, by their numbers from 1 on, and the faults so far.
#[derive(Drop)]
pub struct FaultPlan {
    pub fails: Vec<u64>,
    pub calls: u64,
    pub count: FaultCount,
}

impl FaultPlan {
    /// The plan in which the calls of these numbers fail.
    pub fn new(alloc: Global, fails: &[u64]) -> Result<FaultPlan, NoMemory>
        ensures listed { IfOk result (λ plan. plan.fails.items ≡ fails.now) }
        ensures begins { IfOk result (λ plan. plan.calls ≡ 0) }
        ensures none { IfOk result (λ plan. counted plan.count.faults ≡ 0) }
    {
        let fails = Vec::from_slice(alloc, fails)?;
        Ok(FaultPlan {
            fails,
            calls: 0,
            count: FaultCount::new(),
        })
    }

    /// Begins a call, and says whether it is to fail.
    pub fn strikes(&mut self) -> bool
        ensures listed { IsTrue result ↔ Contains self.old.fails.items (next_call self.old.calls) }
        ensures stays { self.new.fails.items ≡ self.old.fails.items }
        ensures next { self.new.calls ≡ next_call self.old.calls }
        ensures count { self.new.count.faults ≡ self.old.count.faults }
    {
        self.calls = self.calls.saturating_add(1);
        self.fails.contains(&self.calls)
    }

    /// Counts the fault of the call that fails.
    pub fn failure(&mut self) -> Fail
        ensures failed { result ≡ Fail.Failed }
        ensures stays { self.new.fails.items ≡ self.old.fails.items }
        ensures calls { self.new.calls ≡ self.old.calls }
        ensures count { counted self.new.count.faults ≡ next_count (counted self.old.count.faults) }
    {
        self.count.rise();
        Fail::Failed
    }
}
