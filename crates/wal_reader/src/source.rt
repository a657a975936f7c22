ghost use Rattle.std.specs.Prelude.{◌≡◌, ◌≢◌, ◌+◌, ◌-◌, ◌%◌, ◌^◌, ◌<◌, ◌≤◌, ℕ, [], ◌++◌, length, Some, None, Ok, Err, IfOk, IfSome, IfErr, OnErr, OnOk, ◌==◌, IsTrue, vec_len};
ghost use Rattle.std.specs.Option.{ForSome};
ghost use Rattle.outside.specs.Faults.{Rose};
ghost use Rattle.pg_types.specs.Names.{IsSegmentSize};
ghost use Rattle.wal_page.specs.Page.{header_length};
ghost use Rattle.wal_reader.specs.Told.{told_bytes, header_at, accepted};
ghost use Rattle.wal_reader.specs.Gathered as spec;
ghost use Rattle.wal_reader.specs.Kept.{AreTold, Covers, IsInPage, piece_of};
ghost use Rattle.wal_reader.specs.Calls.{LogStays, WhereTold, Says, SaysBytes, SaysText, SaysPart, GivesUpPast, less, text_at, IsThere};

use crate::types::{EndWhy, NoRecord, Trouble};
use crate::window::{PAGE, Window};
use outside::LogBytes;
use pg_types::{Fail, Lsn, NoMemory, u32_at};
use std::alloc::Global;
use std::marker::Model;
use wal_page::{Expect, PageFault, PageHead, read_page_header};

/// What the texts of records are gathered from.
#[derive(Drop)]
pub struct Gatherer {
    system: u64,
    segsize: u32,
    window: Window,
    text: Vec<u8>,
}

impl Model for Gatherer {
    ghost use Rattle.std.specs.Prelude.{IsTrue};
    ghost use Rattle.pg_types.specs.Names.{IsSegmentSize};
    ghost use Rattle.wal_reader.specs.Calls.{Gathering};

    ghost Value = { Gathering };

    ghost view = { λ s. record { system = s.system; segsize = s.segsize; kept = s.window; text = s.text.items } };

    ghost invariant = { λ s. IsSegmentSize s.segsize };
}

impl Gatherer {
    pub fn new(alloc: Global, system: u64, segsize: u32) -> Result<Gatherer, NoMemory>
        requires { IsSegmentSize segsize }
        ensures { IfOk result (λ s. s ≡ record { system = system; segsize = segsize; kept = record { from = 0; bytes = [] }; text = [] }) }
    {
        let window = Window::new(alloc)?;
        Ok(Gatherer {
            system,
            segsize,
            window,
            text: Vec::new(alloc),
        })
    }

    /// Reads until the bytes at `n` positions are kept.
    fn need<L: LogBytes>(&mut self, log: &mut L, at: u64, n: usize) -> Result<(), Trouble>
        requires some { 0 < n }
        requires within { at % 8192 + n ≤ 8192 }
        ensures covered { OnOk result (Covers self.new.kept at n) }
        ensures bounded { OnOk result (at + n ≤ 2 ^ 63) }
        ensures given_up { IfErr result (GivesUpPast at) }
        ensures same { self.new ≡ record self.old { kept = self.new.kept } }
        ensures answer { WhereTold (L.told log.old) (L.owner_of log.old) self.old self.new
            (λ told. SaysBytes result (piece_of self.new.kept at n) (told_bytes told.byte n at)) }
        ensures stays { LogStays (L.told log.old) (L.told log.new) (L.owner_of log.old) (L.owner_of log.new) (L.fault_count log.old) (L.fault_count log.new) }
        ensures same_log { L.same log.old log.new }
        ensures cause { result ≡ Err Trouble.Log → Rose (L.fault_count log.old) (L.fault_count log.new) }
        ensures uncounted { result ≢ Err Trouble.Log → L.fault_count log.new ≡ L.fault_count log.old }
    {
        if self.window.cover(log, at, n)? {
            Ok(())
        } else {
            Err(Trouble::Stops(NoRecord::End(EndWhy::Missing)))
        }
    }

    /// The text that was gathered.
    pub fn text(&self) -> &[u8]
        ensures { result.now ≡ self.now.text }
    {
        self.text.as_slice()
    }

    /// A record's text: the one that was gathered, or that of so many bytes in the page that is kept.
    pub fn text_at(&self, start: u64, lent: Option<usize>) -> &[u8]
        requires { IsThere self.now start lent }
        ensures { result.now ≡ text_at self.now start lent }
    {
        match lent {
            None => self.text.as_slice(),
            Some(len) => self.window.piece(start, len),
        }
    }

    /// The length of the record whose first byte stands at `start`, where all its bytes are told and stand in
    /// one page. Nothing is said of any other record.
    pub fn whole<L: LogBytes>(&mut self, log: &mut L, start: u64) -> Result<Option<usize>, Fail>
        ensures same { self.new ≡ record self.old { kept = self.new.kept } }
        ensures there { IfOk result (λ found. ForSome found (λ len. IsInPage self.new.kept start len)) }
        ensures told { IfSome (L.told log.old) (λ byte. AreTold byte self.old.kept → AreTold byte self.new.kept) }
        ensures answer { IfSome (L.told log.old) (λ byte. AreTold byte self.old.kept
            → IfOk result (λ found. ForSome found (λ len. told_bytes byte len start ≡ Some (piece_of self.new.kept start len)))) }
        ensures stays { LogStays (L.told log.old) (L.told log.new) (L.owner_of log.old) (L.owner_of log.new) (L.fault_count log.old) (L.fault_count log.new) }
        ensures same_log { L.same log.old log.new }
        ensures cause { result ≡ Err Fail.Failed → Rose (L.fault_count log.old) (L.fault_count log.new) }
        ensures uncounted { result ≢ Err Fail.Failed → L.fault_count log.new ≡ L.fault_count log.old }
    {
        let room = PAGE - (start % 8192) as usize;
        if room < 24 || room == PAGE || !self.window.cover(log, start, room)? {
            return Ok(None);
        }
        let len = u32_at(self.window.piece(start, room), 0) as usize;
        if len < 24 || len > room {
            return Ok(None);
        }
        Ok(Some(len))
    }

    pub fn segsize(&self) -> u32
        ensures value { result ≡ self.now.segsize }
        ensures allowed { IsSegmentSize result }
    {
        self.segsize
    }

    /// Forgets the text that was gathered.
    pub fn clear(&mut self)
        ensures { self.new ≡ record self.old { text = [] } }
    {
        self.text.clear();
    }

    /// The length of the header of the page at `at`.
    fn header_len(&self, at: u64) -> usize
        ensures { result ≡ header_length (at % self.now.segsize == 0) }
    {
        if starts_segment(at, self.segsize) {
            40
        } else {
            24
        }
    }

    /// The header of the page at `at`.
    fn header_at<L: LogBytes>(&mut self, log: &mut L, at: u64) -> Result<PageHead, Trouble>
        requires { at % 8192 ≡ 0 }
        ensures bounded { OnOk result (at < 2 ^ 63) }
        ensures given_up { IfErr result (GivesUpPast at) }
        ensures same { self.new ≡ record self.old { kept = self.new.kept } }
        ensures answer { WhereTold (L.told log.old) (L.owner_of log.old) self.old self.new (λ told. Says result (header_at told at)) }
        ensures stays { LogStays (L.told log.old) (L.told log.new) (L.owner_of log.old) (L.owner_of log.new) (L.fault_count log.old) (L.fault_count log.new) }
        ensures same_log { L.same log.old log.new }
        ensures cause { result ≡ Err Trouble.Log → Rose (L.fault_count log.old) (L.fault_count log.new) }
        ensures uncounted { result ≢ Err Trouble.Log → L.fault_count log.new ≡ L.fault_count log.old }
    {
        let size = self.header_len(at);
        let tli = log.owner(Lsn(at));
        self.need(log, at, size)?;
        let known = Some((self.system, self.segsize));
        accepted(read_page_header(self.window.piece(at, size), Lsn(at), &Expect { known, tli }))
    }

    /// Where the next byte of a text stands: at a page's start behind that page's header.
    pub fn place_at<L: LogBytes>(
        &mut self,
        log: &mut L,
        missing: Option<u32>,
        at: u64,
    ) -> Result<u64, Trouble>
        ensures onward { IfOk result (λ place. at ≤ place) }
        ensures given_up { IfErr result (GivesUpPast at) }
        ensures same { self.new ≡ record self.old { kept = self.new.kept } }
        ensures answer { WhereTold (L.told log.old) (L.owner_of log.old) self.old self.new (λ told. Says result (spec.place_at told missing at)) }
        ensures stays { LogStays (L.told log.old) (L.told log.new) (L.owner_of log.old) (L.owner_of log.new) (L.fault_count log.old) (L.fault_count log.new) }
        ensures same_log { L.same log.old log.new }
        ensures cause { result ≡ Err Trouble.Log → Rose (L.fault_count log.old) (L.fault_count log.new) }
        ensures uncounted { result ≢ Err Trouble.Log → L.fault_count log.new ≡ L.fault_count log.old }
    {
        if at % 8192 != 0 {
            return Ok(at);
        }
        let head = self.header_at(log, at)?;
        enters(&head, missing, at + self.header_len(at) as u64)
    }

    /// Adds bytes of one page to the text, at most `left`, and answers the position behind them and
    /// their number.
    fn gather_page<L: LogBytes>(
        &mut self,
        log: &mut L,
        missing: Option<u32>,
        left: usize,
        at: u64,
    ) -> Result<(u64, usize), Trouble>
        requires { 0 < left }
        ensures same { self.new ≡ record self.old { kept = self.new.kept; text = self.new.text } }
        ensures within { IfOk result (λ part. (0 < part.1) × (part.1 ≤ left) × (part.0 ≤ 2 ^ 63)) }
        ensures onward { IfOk result (λ part. at + part.1 ≤ part.0) }
        ensures given_up { IfErr result (GivesUpPast at) }
        ensures grows { IfOk result (λ part. length self.new.text ≡ length self.old.text + part.1) }
        ensures answer { WhereTold (L.told log.old) (L.owner_of log.old) self.old self.new
            (λ told. SaysPart result left self.old.text self.new.text (λ n. spec.gathered told missing n at)) }
        ensures stays { LogStays (L.told log.old) (L.told log.new) (L.owner_of log.old) (L.owner_of log.new) (L.fault_count log.old) (L.fault_count log.new) }
        ensures same_log { L.same log.old log.new }
        ensures cause { result ≡ Err Trouble.Log → Rose (L.fault_count log.old) (L.fault_count log.new) }
        ensures uncounted { result ≢ Err Trouble.Log → L.fault_count log.new ≡ L.fault_count log.old }
    {
        let place = self.place_at(log, missing, at)?;
        let room = left.min(PAGE - (place % 8192) as usize);
        self.need(log, place, room)?;
        self.add(place, room)?;
        Ok((place + room as u64, room))
    }

    /// Adds bytes that are kept to the text.
    fn add(&mut self, at: u64, n: usize) -> Result<(), Trouble>
        requires { Covers self.old.kept at n }
        ensures ok { OnOk result (self.new ≡ record self.old { text = self.old.text ++ piece_of self.old.kept at n }) }
        ensures err { OnErr result (self.new ≡ self.old) }
        ensures memory { IfErr result (λ e. e ≡ Trouble.Memory) }
    {
        match self.text.extend_from_slice(self.window.piece(at, n)) {
            Ok(()) => Ok(()),
            Err(_) => Err(Trouble::Memory),
        }
    }

    /// Adds so many bytes of a record to the text, and answers the position behind them.
    pub fn gather<L: LogBytes>(
        &mut self,
        log: &mut L,
        missing: Option<u32>,
        n: usize,
        at: u64,
    ) -> Result<u64, Trouble>
        requires { IfSome missing (λ m. n ≤ m) }
        ensures grows { OnOk result (length self.new.text ≡ length self.old.text + n) }
        ensures onward { IfOk result (λ end. at + n ≤ end) }
        ensures given_up { IfErr result (GivesUpPast at) }
        ensures some { 0 < n → IfOk result (λ end. end ≤ 2 ^ 63) }
        ensures bounded { at ≤ 2 ^ 63 → IfOk result (λ end. end ≤ 2 ^ 63) }
        ensures same { self.new ≡ record self.old { kept = self.new.kept; text = self.new.text } }
        ensures answer { WhereTold (L.told log.old) (L.owner_of log.old) self.old self.new
            (λ told. SaysText result self.old.text self.new.text (spec.gathered told missing n at)) }
        ensures stays { LogStays (L.told log.old) (L.told log.new) (L.owner_of log.old) (L.owner_of log.new) (L.fault_count log.old) (L.fault_count log.new) }
        ensures same_log { L.same log.old log.new }
        ensures cause { result ≡ Err Trouble.Log → Rose (L.fault_count log.old) (L.fault_count log.new) }
        ensures uncounted { result ≢ Err Trouble.Log → L.fault_count log.new ≡ L.fault_count log.old }
    {
        let mut at = at;
        let mut left = n;
        let mut missing = missing;
        while left > 0 {
            let (end, got) = self.gather_page(log, missing, left, at)?;
            missing = without(missing, got);
            at = end;
            left -= got;
        }
        Ok(at)
    }
}

#[tactic(auto, unfolding(pg_types::specs::Names::is_segment_size))]
fn starts_segment(at: u64, segsize: u32) -> bool
    requires { IsSegmentSize segsize }
    ensures { result ≡ (at % segsize == 0) }
{
    at % u64::from(segsize) == 0
}

fn accepted(read: Result<PageHead, PageFault>) -> Result<PageHead, Trouble>
    ensures says { Says result (accepted read) }
    ensures given_up { IfErr result (λ trouble. (at : ℕ) → GivesUpPast at trouble) }
    ensures no_log { result ≡ Err Trouble.Log → ⊥ }
{
    match read {
        Ok(head) => Ok(head),
        Err(_) => Err(Trouble::Stops(NoRecord::End(EndWhy::Page))),
    }
}

/// The page goes on with the text of which so many bytes are missing, from the position behind its header on.
fn enters(head: &PageHead, missing: Option<u32>, behind: u64) -> Result<u64, Trouble>
    ensures says { Says result (spec.enters head.now missing behind) }
    ensures onward { IfOk result (λ place. place ≡ behind) }
    ensures given_up { IfErr result (λ trouble. (at : ℕ) → at ≤ behind → GivesUpPast at trouble) }
    ensures no_log { result ≡ Err Trouble.Log → ⊥ }
{
    let Some(missing) = missing else {
        return Ok(behind);
    };
    let begins_inside = head.info & 1 != 0;
    if head.info & 8 != 0 && !begins_inside {
        Err(Trouble::GivesUp { place: behind })
    } else if begins_inside && head.rem == missing {
        Ok(behind)
    } else {
        Err(Trouble::Stops(NoRecord::End(EndWhy::Page)))
    }
}

fn without(missing: Option<u32>, n: usize) -> Option<u32>
    requires { IfSome missing (λ m. n ≤ m) }
    ensures { result ≡ less missing n }
{
    match missing {
        None => None,
        Some(m) => Some(m - n as u32),
    }
}
