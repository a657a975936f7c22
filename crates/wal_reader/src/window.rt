ghost use Rattle.std.specs.Prelude.{◌≡◌, ◌≢◌, ◌+◌, ◌-◌, ◌%◌, ◌^◌, ◌<◌, ◌≤◌, ℕ, [], length, take, drop, Some, None, Ok, Err, IfOk, IfSome, OnErr, IsTrue, Option, vec_len, if◌then◌else◌};
ghost use Rattle.outside.specs.Faults.{HasCause};
ghost use Rattle.outside.specs.Log.{GivesBytes, FitsLog};
ghost use Rattle.wal_reader.specs.Told.{told_bytes};
ghost use Rattle.wal_reader.specs.Kept.{AreTold, Covers, piece_of};

use outside::LogBytes;
use pg_types::{Fail, Lsn, NoMemory};
use std::alloc::Global;
use std::marker::Model;

/// The size of a page of the log (`XLOG_BLCKSZ`).
pub const PAGE: usize = 8192;

/// How much of the log is read on at once: the stretches that begin at multiples of it.
const STRETCH: usize = 65536;

/// No byte at or past it is told.
const LIMIT: u64 = 1 << 63;

/// Bytes of one stretch that were read, from some position on.
#[derive(Drop)]
pub struct Window {
    from: u64,
    have: usize,
    buffer: Vec<u8>,
}

impl Model for Window {
    ghost use Rattle.std.specs.Prelude.{◌≡◌, ◌+◌, ◌%◌, ◌^◌, ◌<◌, ◌≤◌, take, vec_len};
    ghost use Rattle.wal_reader.specs.Kept.{Kept};

    ghost Value = { Kept };

    ghost view = { λ w. record { from = w.from; bytes = take w.have w.buffer.items } };

    ghost invariant = { λ w. (vec_len w.buffer ≡ 65536) × (w.from % 65536 + w.have ≤ 65536) × (w.from < 2 ^ 63) };
}

impl Window {
    /// Nothing is kept.
    pub fn new(alloc: Global) -> Result<Window, NoMemory>
        ensures { IfOk result (λ w. w ≡ record { from = 0; bytes = [] }) }
    {
        let buffer = vec![in alloc; 0u8; 65536]?;
        Ok(Window {
            from: 0,
            have: 0,
            buffer,
        })
    }

    /// The bytes at `n` positions from `at` on.
    pub fn piece(&self, at: u64, n: usize) -> &[u8]
        requires { Covers self.now at n }
        ensures { result.now ≡ piece_of self.now at n }
    {
        let (kept, _) = self.buffer.as_slice().split_at(self.have);
        let (_, behind) = kept.split_at((at - self.from) as usize);
        let (piece, _) = behind.split_at(n);
        piece
    }

    /// Keeps nothing but what is read from `at` on, unless what is kept reaches it in the same stretch.
    #[tactic(auto, unfolding(crate::specs::Told::told_bytes))]
    fn turn_to(&mut self, at: u64)
        requires { at < 2 ^ 63 }
        ensures from { self.new.from ≤ at }
        ensures reaches { at ≤ self.new.from + length self.new.bytes }
        ensures stretch { at - at % 65536 ≤ self.new.from }
        ensures told { (byte : ℕ → Option ℕ) → AreTold byte self.old → AreTold byte self.new }
    {
        let end = self.from + self.have as u64;
        if self.from > at || end < at || self.from < at - at % 65536 {
            self.from = at;
            self.have = 0;
        }
    }

    /// Reads on in the stretch, and answers how many bytes it was given.
    fn more<L: LogBytes>(&mut self, log: &mut L) -> Result<usize, Fail>
        requires { self.old.from % 65536 + length self.old.bytes < 65536 }
        ensures from { self.new.from ≡ self.old.from }
        ensures grows { IfOk result (λ n. length self.new.bytes ≡ length self.old.bytes + n) }
        ensures err { OnErr result (self.new ≡ self.old) }
        ensures told { IfSome (L.told log.old) (λ byte. AreTold byte self.old → AreTold byte self.new) }
        ensures none { IfSome (L.told log.old) (λ byte. result ≡ Ok 0 → byte (self.old.from + length self.old.bytes) ≡ None) }
        ensures stays { L.told log.new ≡ L.told log.old }
        ensures same_owner { L.owner_of log.new ≡ L.owner_of log.old }
        ensures same_log { L.same log.old log.new }
        ensures cause { HasCause (L.fault_count log.old) (L.fault_count log.new) result }
        ensures uncounted { result ≢ Err Fail.Failed → L.fault_count log.new ≡ L.fault_count log.old }
    {
        let end = STRETCH - (self.from % 65536) as usize;
        let at = self.from + self.have as u64;
        let count = read_into(log, at, &mut self.buffer, self.have, end)?;
        self.have += count;
        Ok(count)
    }

    /// Reads until `n` positions from `at` on are kept, and answers whether all their bytes are told.
    pub fn cover<L: LogBytes>(&mut self, log: &mut L, at: u64, n: usize) -> Result<bool, Fail>
        requires some { 0 < n }
        requires within { at % 8192 + n ≤ 8192 }
        ensures covered { IfOk result (λ all. IsTrue all → Covers self.new at n) }
        ensures bounded { IfOk result (λ all. IsTrue all → at + n ≤ 2 ^ 63) }
        ensures told { IfSome (L.told log.old) (λ byte. AreTold byte self.old → AreTold byte self.new) }
        ensures answer { IfSome (L.told log.old) (λ byte. AreTold byte self.old →
            IfOk result (λ all. told_bytes byte n at ≡ (if all then Some (piece_of self.new at n) else None))) }
        ensures stays { L.told log.new ≡ L.told log.old }
        ensures same_owner { L.owner_of log.new ≡ L.owner_of log.old }
        ensures same_log { L.same log.old log.new }
        ensures cause { HasCause (L.fault_count log.old) (L.fault_count log.new) result }
        ensures uncounted { result ≢ Err Fail.Failed → L.fault_count log.new ≡ L.fault_count log.old }
    {
        if at >= LIMIT {
            return Ok(false);
        }
        self.turn_to(at);
        while self.end() < at + n as u64 {
            if self.more(log)? == 0 {
                return Ok(false);
            }
        }
        Ok(true)
    }

    /// The position behind the last byte that is kept.
    fn end(&self) -> u64
        ensures { result ≡ self.now.from + length self.now.bytes }
    {
        self.from + self.have as u64
    }
}

// Reads from the position on into a part of the buffer.
fn read_into<L: LogBytes>(
    log: &mut L,
    at: u64,
    page: &mut [u8],
    have: usize,
    end: usize,
) -> Result<usize, Fail>
    requires some { have < end }
    requires within { end ≤ length page.old }
    ensures before { take have page.new ≡ take have page.old }
    ensures fits { IfOk result (λ n. have + n ≤ end) }
    ensures told { IfSome (L.told log.old) (λ byte. IfOk result (λ n. told_bytes byte n at ≡ Some (take n (drop have page.new)))) }
    ensures none { IfSome (L.told log.old) (λ byte. result ≡ Ok 0 → byte at ≡ None) }
    ensures stays { L.told log.new ≡ L.told log.old }
    ensures same_owner { L.owner_of log.new ≡ L.owner_of log.old }
    ensures same_log { L.same log.old log.new }
    ensures cause { HasCause (L.fault_count log.old) (L.fault_count log.new) result }
    ensures uncounted { result ≢ Err Fail.Failed → L.fault_count log.new ≡ L.fault_count log.old }
{
    log.bytes_at(Lsn(at), &mut page[have..end])
}
