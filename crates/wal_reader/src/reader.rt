ghost use Rattle.std.specs.Prelude.{◌≡◌, ◌≢◌, ◌+◌, ◌^◌, ◌<◌, ◌≤◌, ℕ, [], Some, None, Ok, Err, IfOk, IfSome, IfErr, IsSome, IsTrue};
ghost use Rattle.outside.specs.Faults.{Rose};
ghost use Rattle.pg_types.specs.Names.{IsSegmentSize};
ghost use Rattle.wal_record.specs.Decoded.{decoded};
ghost use Rattle.wal_reader.specs.Step.{step};
ghost use Rattle.wal_reader.specs.Calls.{LogStays, WhereTold};
ghost use Rattle.wal_reader.specs.Standing.{Answers, BearsPosition, IsLent, MovesOn, SaysGiven, StandsStill, lent_at, next_of, past, record_given, shown};

use crate::source::Gatherer;
use crate::types::{EndWhy, Next, NoRecord, ReadFault, Taken, Trouble};
use outside::LogBytes;
use pg_types::{Lsn, NoMemory};
use std::alloc::Global;
use std::marker::Model;
use wal_record::{PrevRule, RecordShape, RecordView, lend};

/// Reads the records of a log one after the other. It keeps up to 64 KiB of the log between two
/// calls, which the next call takes for what the log has there.
#[derive(Drop)]
pub struct Reader {
    at: Lsn,
    prev: PrevRule,
    source: Gatherer,
    /// Where the text of the record last given stands among the bytes that are kept, and its length.
    lent: Option<(u64, usize)>,
    /// Where the record last given begins, and where the next one would stand.
    given: Option<(Lsn, Lsn)>,
    /// Where that record's parts stand in its text.
    shape: RecordShape,
}

impl Model for Reader {
    ghost use Rattle.wal_reader.specs.Standing.{Standing, HasGiven, IsLent, shown, shown_text};

    ghost Value = { Standing };

    ghost view = { λ r. record { at = r.at; prev = r.prev; source = shown r.source r.lent; given = r.given } };

    ghost invariant = { λ r. IsLent r.source r.lent × HasGiven r.given (shown_text r.source r.lent) r.prev r.shape };
}

impl Reader {
    /// A reader that stands at `at`, where the record's link has to keep `prev`, in a log of this system and of
    /// segments of so many bytes.
    pub fn start(
        alloc: Global,
        system: u64,
        segsize: u32,
        at: Lsn,
        prev: PrevRule,
    ) -> Result<Reader, NoMemory>
        requires { IsSegmentSize segsize }
        ensures { IfOk result (λ r. r ≡ record {
          at = at;
          prev = prev;
          source = record { system = system; segsize = segsize; kept = record { from = 0; bytes = [] }; text = [] };
          given = None;
        }) }
    {
        let source = Gatherer::new(alloc, system, segsize)?;
        Ok(Reader {
            at,
            prev,
            source,
            lent: None,
            given: None,
            shape: RecordShape::BARE,
        })
    }

    /// Reads the record at the reader's position, or tells why there is none. The reader stands where it stood;
    /// `record` lends the record, and `accept` moves past it.
    ///
    /// # Errors
    /// `Compressed` and `TooLong` are the refusals of the record, with the reader's position. `Log` comes only
    /// where the log's faults rose.
    pub fn next<L: LogBytes>(&mut self, log: &mut L) -> Result<Next, ReadFault>
        ensures still { StandsStill self.old self.new result }
        ensures bears { BearsPosition self.old.at result }
        ensures onward { IfOk result (MovesOn self.old.at) }
        ensures answer { WhereTold (L.told log.old) (L.owner_of log.old) self.old.source self.new.source
            (λ told. Answers result self.old.at (λ start. decoded self.new.source.text start self.old.prev) (step told self.old.at.0 self.old.prev)) }
        ensures stays { LogStays (L.told log.old) (L.told log.new) (L.owner_of log.old) (L.owner_of log.new) (L.fault_count log.old) (L.fault_count log.new) }
        ensures same_log { L.same log.old log.new }
        ensures cause { result ≡ Err ReadFault.Log → Rose (L.fault_count log.old) (L.fault_count log.new) }
        ensures uncounted { result ≢ Err ReadFault.Log → L.fault_count log.new ≡ L.fault_count log.old }
    {
        let lsn = self.at;
        next_of(lsn, self.advance(log))
    }

    /// The record last given, lent from its text. It takes no memory, and computes no CRC.
    pub fn record(&self) -> RecordView<'_>
        requires { IsSome self.now.given }
        ensures { IfSome self.now.given (λ given. record_given self.now given ≡ Ok result) }
    {
        lend(self.text(), self.shape)
    }

    /// Moves past the record last given. Where the last call was not a `next` that gave one, it changes nothing.
    pub fn accept(&mut self)
        ensures { self.new ≡ past self.old.given self.old }
    {
        if let Some((start, end)) = self.given {
            self.at = end;
            self.prev = PrevRule::Is(start);
            self.given = None;
        }
    }

    /// Reads the record at the reader's position, and keeps where it stands.
    fn advance<L: LogBytes>(&mut self, log: &mut L) -> Result<Taken, Trouble>
        ensures same { self.new ≡ record self.old { source = record self.old.source { kept = self.new.source.kept; text = self.new.source.text }; given = self.new.given } }
        ensures given { IfOk result (λ taken. self.new.given ≡ Some (record { 0 = taken.start }, record { 0 = taken.end })) }
        ensures none { IfErr result (λ _. self.new.given ≡ None) }
        ensures onward { IfOk result (λ taken. (self.old.at.0 < taken.end) × (taken.end ≤ 2 ^ 63 + 2 ^ 31)) }
        ensures answer { WhereTold (L.told log.old) (L.owner_of log.old) self.old.source self.new.source
            (λ told. SaysGiven result self.new.source.text self.old.prev (step told self.old.at.0 self.old.prev)) }
        ensures stays { LogStays (L.told log.old) (L.told log.new) (L.owner_of log.old) (L.owner_of log.new) (L.fault_count log.old) (L.fault_count log.new) }
        ensures same_log { L.same log.old log.new }
        ensures cause { result ≡ Err Trouble.Log → Rose (L.fault_count log.old) (L.fault_count log.new) }
        ensures uncounted { result ≢ Err Trouble.Log → L.fault_count log.new ≡ L.fault_count log.old }
    {
        self.given = None;
        self.lent = None;
        let taken = self.source.step(log, self.at.0, self.prev)?;
        self.lent = lent_at(taken.start, taken.lent);
        self.shape = taken.shape;
        self.given = Some((Lsn(taken.start), Lsn(taken.end)));
        Ok(taken)
    }

    /// The text of the record last given.
    fn text(&self) -> &[u8]
        ensures { result.now ≡ self.now.source.text }
    {
        match self.lent {
            None => self.source.text(),
            Some((start, len)) => self.source.text_at(start, Some(len)),
        }
    }
}

fn lent_at(start: u64, lent: Option<usize>) -> Option<(u64, usize)>
    ensures { result ≡ lent_at start lent }
{
    match lent {
        None => None,
        Some(len) => Some((start, len)),
    }
}

fn next_of(lsn: Lsn, taken: Result<Taken, Trouble>) -> Result<Next, ReadFault>
    ensures { result ≡ next_of lsn taken }
{
    match taken {
        Ok(taken) => Ok(Next::Record {
            start: Lsn(taken.start),
            end: Lsn(taken.end),
        }),
        Err(Trouble::Stops(NoRecord::End(why))) => Ok(Next::AtEnd { lsn, why }),
        Err(Trouble::Stops(NoRecord::Compressed)) => Err(ReadFault::Compressed { lsn }),
        Err(Trouble::Stops(NoRecord::TooLong)) => Err(ReadFault::TooLong { lsn }),
        Err(Trouble::GivesUp { .. }) => Ok(Next::AtEnd {
            lsn,
            why: EndWhy::Layout,
        }),
        Err(Trouble::Log) => Err(ReadFault::Log),
        Err(Trouble::Memory) => Err(ReadFault::Memory),
    }
}
