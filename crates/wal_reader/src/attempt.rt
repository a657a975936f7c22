ghost use Rattle.std.specs.Prelude.{◌≡◌, ◌≢◌, ◌+◌, ◌-◌, ◌*◌, ◌^◌, ◌<◌, ◌≤◌, ℕ, [], length, Some, None, Ok, Err, IfOk, IfErr};
ghost use Rattle.outside.specs.Faults.{Rose};
ghost use Rattle.pg_types.specs.Names.{IsSegmentSize};
ghost use Rattle.wal_record.specs.Decoded.{head_of};
ghost use Rattle.wal_reader.specs.Step as spec;
ghost use Rattle.wal_reader.specs.Calls.{LogStays, WhereTold, Says, SaysHead, SaysSome, GivesUpPast, text_at, IsThere};
ghost use Rattle.wal_reader.specs.Records.{SaysAttempt, SaysEnd, IsRead};

use crate::source::Gatherer;
use crate::types::{EndWhy, NoRecord, Taken, Trouble};
use outside::LogBytes;
use pg_types::{Lsn, u32_at};
use wal_record::{PrevRule, RecordFault, RecordHead, decode_head, lend, shape_of};

impl Gatherer {
    /// Reads the length of the record whose first byte stands at `start`, and answers it with the position
    /// behind.
    fn begin<L: LogBytes>(&mut self, log: &mut L, start: u64) -> Result<(u32, u64), Trouble>
        ensures header_fits { IfOk result (λ part. (24 ≤ part.0) × (part.1 ≤ 2 ^ 63)) }
        ensures onward { IfOk result (λ part. start < part.1) }
        ensures given_up { IfErr result (GivesUpPast start) }
        ensures same { self.new ≡ record self.old { kept = self.new.kept; text = self.new.text } }
        ensures answer { WhereTold (L.told log.old) (L.owner_of log.old) self.old self.new
            (λ told. SaysHead result self.new.text (spec.begun told start)) }
        ensures stays { LogStays (L.told log.old) (L.told log.new) (L.owner_of log.old) (L.owner_of log.new) (L.fault_count log.old) (L.fault_count log.new) }
        ensures same_log { L.same log.old log.new }
        ensures cause { result ≡ Err Trouble.Log → Rose (L.fault_count log.old) (L.fault_count log.new) }
        ensures uncounted { result ≢ Err Trouble.Log → L.fault_count log.new ≡ L.fault_count log.old }
    {
        self.clear();
        let at = self.gather(log, None, 4, start)?;
        let total = length_in(self.text())?;
        Ok((total, at))
    }

    /// Reads the length and the header of that record, and tests the header.
    fn head<L: LogBytes>(
        &mut self,
        log: &mut L,
        start: u64,
        prev: PrevRule,
    ) -> Result<(u32, u64), Trouble>
        ensures header_fits { IfOk result (λ part. (24 ≤ part.0) × (part.1 ≤ 2 ^ 63)) }
        ensures onward { IfOk result (λ part. start < part.1) }
        ensures given_up { IfErr result (GivesUpPast start) }
        ensures same { self.new ≡ record self.old { kept = self.new.kept; text = self.new.text } }
        ensures answer { WhereTold (L.told log.old) (L.owner_of log.old) self.old self.new
            (λ told. SaysHead result self.new.text (spec.headed told start prev)) }
        ensures stays { LogStays (L.told log.old) (L.told log.new) (L.owner_of log.old) (L.owner_of log.new) (L.fault_count log.old) (L.fault_count log.new) }
        ensures same_log { L.same log.old log.new }
        ensures cause { result ≡ Err Trouble.Log → Rose (L.fault_count log.old) (L.fault_count log.new) }
        ensures uncounted { result ≢ Err Trouble.Log → L.fault_count log.new ≡ L.fault_count log.old }
    {
        let (total, at) = self.begin(log, start)?;
        let end = self.gather(log, Some(total - 4), 20, at)?;
        test_head(self.text(), start, prev)?;
        Ok((total, end))
    }

    /// Gathers the record whose first byte stands at `start`.
    fn gather_record<L: LogBytes>(
        &mut self,
        log: &mut L,
        start: u64,
        prev: PrevRule,
    ) -> Result<Taken, Trouble>
        ensures same { self.new ≡ record self.old { kept = self.new.kept; text = self.new.text } }
        ensures sound { IfOk result (λ taken. IsRead self.new taken prev) }
        ensures onward { IfOk result (λ taken. (start < taken.end) × (taken.end ≤ 2 ^ 63 + 2 ^ 31)) }
        ensures given_up { IfErr result (GivesUpPast start) }
        ensures answer { WhereTold (L.told log.old) (L.owner_of log.old) self.old self.new
            (λ told. SaysAttempt result self.new prev (spec.attempt told start prev)) }
        ensures stays { LogStays (L.told log.old) (L.told log.new) (L.owner_of log.old) (L.owner_of log.new) (L.fault_count log.old) (L.fault_count log.new) }
        ensures same_log { L.same log.old log.new }
        ensures cause { result ≡ Err Trouble.Log → Rose (L.fault_count log.old) (L.fault_count log.new) }
        ensures uncounted { result ≢ Err Trouble.Log → L.fault_count log.new ≡ L.fault_count log.old }
    {
        let (total, at) = self.head(log, start, prev)?;
        let behind = self.gather(log, Some(total - 24), (total - 24) as usize, at)?;
        self.end(start, prev, None, behind)
    }

    /// Reads the record whose first byte stands at `start`. One that stands whole in a page is not copied.
    pub fn attempt<L: LogBytes>(
        &mut self,
        log: &mut L,
        start: u64,
        prev: PrevRule,
    ) -> Result<Taken, Trouble>
        ensures same { self.new ≡ record self.old { kept = self.new.kept; text = self.new.text } }
        ensures sound { IfOk result (λ taken. IsRead self.new taken prev) }
        ensures onward { IfOk result (λ taken. (start < taken.end) × (taken.end ≤ 2 ^ 63 + 2 ^ 31)) }
        ensures given_up { IfErr result (GivesUpPast start) }
        ensures answer { WhereTold (L.told log.old) (L.owner_of log.old) self.old self.new
            (λ told. SaysAttempt result self.new prev (spec.attempt told start prev)) }
        ensures stays { LogStays (L.told log.old) (L.told log.new) (L.owner_of log.old) (L.owner_of log.new) (L.fault_count log.old) (L.fault_count log.new) }
        ensures same_log { L.same log.old log.new }
        ensures cause { result ≡ Err Trouble.Log → Rose (L.fault_count log.old) (L.fault_count log.new) }
        ensures uncounted { result ≢ Err Trouble.Log → L.fault_count log.new ≡ L.fault_count log.old }
    {
        let found = self.whole(log, start)?;
        match found {
            Some(len) => self.end(start, prev, Some(len), start + len as u64),
            None => self.gather_record(log, start, prev),
        }
    }

    /// The record whose text ends before `behind`.
    fn end(
        &self,
        start: u64,
        prev: PrevRule,
        lent: Option<usize>,
        behind: u64,
    ) -> Result<Taken, Trouble>
        requires bounded { behind ≤ 2 ^ 63 }
        requires there { IsThere self.now start lent }
        ensures says { SaysEnd result self.now start lent prev behind }
        ensures sound { IfOk result (λ taken. IsRead self.now taken prev) }
        ensures onward { IfOk result (λ taken. (behind ≤ taken.end) × (taken.end ≤ 2 ^ 63 + 2 ^ 31)) }
        ensures given_up { IfErr result (λ trouble. (at : ℕ) → GivesUpPast at trouble) }
        ensures no_log { result ≡ Err Trouble.Log → ⊥ }
    {
        let text = self.text_at(start, lent);
        match shape_of(text, Lsn(start), prev) {
            Err(fault) => Err(Trouble::Stops(stop_of(fault))),
            Ok(shape) => Ok(Taken {
                start,
                end: end_after(self.segsize(), lend(text, shape).head(), behind),
                lent,
                shape,
            }),
        }
    }
}

/// The length field.
fn length_in(bytes: &[u8]) -> Result<u32, Trouble>
    requires { 4 ≤ length bytes.now }
    ensures says { Says result (spec.length_in bytes.now) }
    ensures given_up { IfErr result (λ trouble. (at : ℕ) → GivesUpPast at trouble) }
    ensures header_fits { IfOk result (λ total. 24 ≤ total) }
    ensures no_log { result ≡ Err Trouble.Log → ⊥ }
{
    match u32_at(bytes, 0) {
        0 => Err(Trouble::Stops(NoRecord::End(EndWhy::Zero))),
        1..=23 => Err(Trouble::Stops(NoRecord::End(EndWhy::Short))),
        total => Ok(total),
    }
}

/// A record's fault as a rule of the log.
fn stop_of(fault: RecordFault) -> NoRecord
    ensures { result ≡ spec.stop_of fault }
{
    match fault {
        RecordFault::Zero => NoRecord::End(EndWhy::Zero),
        RecordFault::Short => NoRecord::End(EndWhy::Short),
        RecordFault::Manager => NoRecord::End(EndWhy::Manager),
        RecordFault::Prev => NoRecord::End(EndWhy::Prev),
        RecordFault::TooLong => NoRecord::TooLong,
        RecordFault::Crc => NoRecord::End(EndWhy::Crc),
        RecordFault::Layout => NoRecord::End(EndWhy::Layout),
        RecordFault::Compressed => NoRecord::Compressed,
    }
}

/// Tests the header at the front of the bytes.
fn test_head(bytes: &[u8], start: u64, prev: PrevRule) -> Result<(), Trouble>
    ensures says { SaysSome result (spec.unless_faulty (head_of bytes.now start prev)) }
    ensures given_up { IfErr result (λ trouble. (at : ℕ) → GivesUpPast at trouble) }
    ensures no_log { result ≡ Err Trouble.Log → ⊥ }
{
    match decode_head(bytes, Lsn(start), prev) {
        Ok(_) => Ok(()),
        Err(fault) => Err(Trouble::Stops(stop_of(fault))),
    }
}

/// The position at which the record's end is, where its last byte stands right before `behind`.
#[tactic(auto, unfolding(crate::specs::Step::end_after, pg_types::specs::Names::is_segment_size))]
fn end_after(segsize: u32, head: RecordHead, behind: u64) -> u64
    requires allowed { IsSegmentSize segsize }
    requires bounded { behind ≤ 2 ^ 63 }
    ensures value { result ≡ spec.end_after segsize head behind }
    ensures onward { behind ≤ result }
    ensures near { result ≤ 2 ^ 63 + 2 ^ 31 }
{
    let end = rounded_up(8, behind);
    if head.manager == 0 && head.info & 0xF0 == 0x40 {
        rounded_up(u64::from(segsize), end)
    } else {
        end
    }
}

fn rounded_up(unit: u64, at: u64) -> u64
    requires some { 0 < unit }
    requires bounded { at + unit ≤ 2 ^ 64 }
    ensures value { result ≡ spec.rounded_up unit at }
    ensures onward { at ≤ result }
    ensures near { result < at + unit }
{
    (at + (unit - 1)) / unit * unit
}
