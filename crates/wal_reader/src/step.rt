ghost use Rattle.std.specs.Prelude.{◌≡◌, ◌≢◌, ◌+◌, ◌^◌, ◌<◌, ◌≤◌, ℕ, Some, None, Ok, Err, IfOk, IsOk};
ghost use Rattle.outside.specs.Faults.{Rose};
ghost use Rattle.wal_record.specs.Decoded.{decoded};
ghost use Rattle.wal_record.specs.Record.{Record};
ghost use Rattle.wal_record.specs.Shapes.{HasShape, shaped};
ghost use Rattle.wal_reader.specs.Step as spec;
ghost use Rattle.wal_reader.specs.Calls.{IsThere, LogStays, WhereTold, text_at};
ghost use Rattle.wal_reader.specs.Records.{SaysStep, given_up_at, trouble_in_place, IsRead};

use crate::source::Gatherer;
use crate::types::{EndWhy, NoRecord, Taken, Trouble};
use outside::LogBytes;
use pg_types::u64_at;
use wal_record::{PrevRule, lend};

impl Gatherer {
    /// Reads the record at the position `at`, after the one that `prev` names, and answers where it begins
    /// and where the next one would stand. Its text is the one that is gathered then.
    pub fn step<L: LogBytes>(
        &mut self,
        log: &mut L,
        at: u64,
        prev: PrevRule,
    ) -> Result<Taken, Trouble>
        ensures same { self.new ≡ record self.old { kept = self.new.kept; text = self.new.text } }
        ensures sound { IfOk result (λ taken. IsRead self.new taken prev) }
        ensures onward { IfOk result (λ taken. (at < taken.end) × (taken.end ≤ 2 ^ 63 + 2 ^ 31)) }
        ensures answer { WhereTold (L.told log.old) (L.owner_of log.old) self.old self.new
            (λ told. SaysStep result self.new prev (spec.step told at prev)) }
        ensures stays { LogStays (L.told log.old) (L.told log.new) (L.owner_of log.old) (L.owner_of log.new) (L.fault_count log.old) (L.fault_count log.new) }
        ensures same_log { L.same log.old log.new }
        ensures cause { result ≡ Err Trouble.Log → Rose (L.fault_count log.old) (L.fault_count log.new) }
        ensures uncounted { result ≢ Err Trouble.Log → L.fault_count log.new ≡ L.fault_count log.old }
    {
        let start = self.place_at(log, None, at)?;
        let answer = self.attempt(log, start, prev);
        match given_up_at(answer) {
            None => answer,
            Some(place) => self.replaced(log, start, place, prev),
        }
    }

    /// Reads the record at `place`, which has to say that the one that began at `begun` was given up.
    fn replaced<L: LogBytes>(
        &mut self,
        log: &mut L,
        begun: u64,
        place: u64,
        prev: PrevRule,
    ) -> Result<Taken, Trouble>
        ensures same { self.new ≡ record self.old { kept = self.new.kept; text = self.new.text } }
        ensures sound { IfOk result (λ taken. IsRead self.new taken prev) }
        ensures onward { IfOk result (λ taken. (place < taken.end) × (taken.end ≤ 2 ^ 63 + 2 ^ 31)) }
        ensures answer { WhereTold (L.told log.old) (L.owner_of log.old) self.old self.new
            (λ told. SaysStep result self.new prev (spec.in_place_of begun (spec.attempt told place prev))) }
        ensures stays { LogStays (L.told log.old) (L.told log.new) (L.owner_of log.old) (L.owner_of log.new) (L.fault_count log.old) (L.fault_count log.new) }
        ensures same_log { L.same log.old log.new }
        ensures cause { result ≡ Err Trouble.Log → Rose (L.fault_count log.old) (L.fault_count log.new) }
        ensures uncounted { result ≢ Err Trouble.Log → L.fault_count log.new ≡ L.fault_count log.old }
    {
        match self.attempt(log, place, prev) {
            Ok(taken) => self.replacing(begun, taken, prev),
            Err(trouble) => Err(trouble_in_place(trouble)),
        }
    }

    /// The record that was read, if it says that the one that began at `begun` was given up.
    fn replacing(&self, begun: u64, taken: Taken, prev: PrevRule) -> Result<Taken, Trouble>
        requires { IsRead self.now taken prev }
        ensures same { IfOk result (λ found. found ≡ taken) }
        ensures answer { (read : Record) → decoded (text_at self.now taken.start taken.lent) taken.start prev ≡ Ok read
            → SaysStep result self.now prev (spec.in_place_of begun (Ok (record { start = taken.start; end = taken.end; record_ = read }))) }
        ensures no_log { result ≡ Err Trouble.Log → ⊥ }
    {
        if self.overwrites(begun, taken) {
            Ok(taken)
        } else {
            Err(Trouble::Stops(NoRecord::End(EndWhy::Layout)))
        }
    }

    /// Whether the record that was read says that the one that began at `begun` was given up.
    fn overwrites(&self, begun: u64, taken: Taken) -> bool
        requires there { IsThere self.now taken.start taken.lent }
        requires has { HasShape (text_at self.now taken.start taken.lent) taken.shape }
        ensures { result ≡ spec.overwrites begun (shaped (text_at self.now taken.start taken.lent) taken.shape) }
    {
        let view = lend(self.text_at(taken.start, taken.lent), taken.shape);
        let head = view.head();
        let main = view.main();
        head.manager == 0 && head.info & 0xF0 == 0xD0 && main.len() >= 8 && u64_at(main, 0) == begun
    }
}

/// Where another record begins, if the record that was to be read was given up.
fn given_up_at(answer: Result<Taken, Trouble>) -> Option<u64>
    ensures { result ≡ given_up_at answer }
{
    match answer {
        Err(Trouble::GivesUp { place }) => Some(place),
        Err(Trouble::Stops(_)) => None,
        Err(Trouble::Log) => None,
        Err(Trouble::Memory) => None,
        Ok(_) => None,
    }
}

/// The trouble where the record that is read stands in the place of one that was given up.
fn trouble_in_place(trouble: Trouble) -> Trouble
    ensures { result ≡ trouble_in_place trouble }
{
    match trouble {
        Trouble::Stops(NoRecord::End(why)) => Trouble::Stops(NoRecord::End(why)),
        Trouble::Stops(NoRecord::Compressed)
        | Trouble::Stops(NoRecord::TooLong)
        | Trouble::GivesUp { .. } => Trouble::Stops(NoRecord::End(EndWhy::Layout)),
        Trouble::Log => Trouble::Log,
        Trouble::Memory => Trouble::Memory,
    }
}
