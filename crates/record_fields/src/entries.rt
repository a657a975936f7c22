ghost use Rattle.std.specs.Prelude.{◌≡◌, ◌+◌, ◌*◌, ◌≤◌, length};
ghost use Rattle.std.specs.Iterator.{YieldsFirst, item_count};
ghost use Rattle.record_fields.specs.Fields.{redirects_at, locators_at, lock_entries_at, plans_at, planned_lines, plan_count_at};

use crate::fields::{locator_at, xid_at};
use crate::lists::Lines;
use pg_types::{Locator, Xid, u16_at, u32_at};
use std::marker::Model;

/// A line of a page that leads to another one. Lines are numbered from 1.
#[derive(Clone, Copy)]
pub struct Redirect {
    pub from: u16,
    pub to: u16,
}

/// Redirected lines that stand in a record, read where they stand: an iterator. Contracts see it as the list of
/// those that are left.
#[derive(Drop)]
pub struct Redirects<'a> {
    text: &'a [u8],
    /// Where the next one stands.
    at: usize,
    /// How many are left.
    count: usize,
}

impl<'a> Model for Redirects<'a> {
    ghost use Rattle.std.specs.Prelude.{List, ◌+◌, ◌*◌, ◌≤◌, length};
    ghost use Rattle.record_fields.specs.declared.entries.Redirect.{Redirect};

    ghost Value = { List Redirect };

    ghost use Rattle.record_fields.specs.Fields.{redirects_at};

    ghost view = { λ r. redirects_at r.text.now r.at r.count };

    ghost invariant = { λ r. r.at + 4 * r.count ≤ length r.text.now };
}

impl<'a> Redirects<'a> {
    ghost use Rattle.std.specs.Prelude.{[]};

    /// As many as are counted, from the text's beginning on, of two lines of two bytes each.
    pub fn new(text: &'a [u8], count: usize) -> Redirects<'a>
        requires { 4 * count ≤ length text.now }
        ensures { result ≡ redirects_at text.now 0 count }
    {
        Redirects { text, at: 0, count }
    }

    #[tactic(auto, unfolding(crate::specs::Fields::redirects_at))]
    pub fn none() -> Redirects<'a>
        ensures { result ≡ [] }
    {
        Redirects {
            text: &[],
            at: 0,
            count: 0,
        }
    }

    /// The same ones, to be gone through from the first one that is left.
    pub fn again(&self) -> Redirects<'a>
        ensures { result ≡ self.now }
    {
        Redirects {
            text: self.text,
            at: self.at,
            count: self.count,
        }
    }
}

impl<'a> Iterator for Redirects<'a> {
    type Item = Redirect;

    ghost next_gives = { YieldsFirst (λ rest. rest) };

    ghost remaining = { item_count (λ rest. rest) };

    #[tactic(auto, using(crate::proofs::Listed::redirects_done, crate::proofs::Listed::redirects_next))]
    fn next(&mut self) -> Option<Redirect> {
        if self.count == 0 {
            return None;
        }
        let line = Redirect {
            from: u16_at(self.text, self.at),
            to: u16_at(self.text, self.at + 2),
        };
        self.at += 4;
        self.count -= 1;
        Some(line)
    }
}

/// Files that stand in a record, read where they stand: an iterator. Contracts see it as the list of those that
/// are left.
#[derive(Drop)]
pub struct Locators<'a> {
    text: &'a [u8],
    /// Where the next one stands.
    at: usize,
    /// How many are left.
    count: usize,
}

impl<'a> Model for Locators<'a> {
    ghost use Rattle.std.specs.Prelude.{List, ◌+◌, ◌*◌, ◌≤◌, length};
    ghost use Rattle.pg_types.specs.declared.names.Locator.{Locator};

    ghost Value = { List Locator };

    ghost use Rattle.record_fields.specs.Fields.{locators_at};

    ghost view = { λ l. locators_at l.text.now l.at l.count };

    ghost invariant = { λ l. l.at + 12 * l.count ≤ length l.text.now };
}

impl<'a> Locators<'a> {
    ghost use Rattle.std.specs.Prelude.{[]};

    /// As many files as are counted, from the text's beginning on, of three numbers of four bytes each.
    pub fn new(text: &'a [u8], count: usize) -> Locators<'a>
        requires { 12 * count ≤ length text.now }
        ensures { result ≡ locators_at text.now 0 count }
    {
        Locators { text, at: 0, count }
    }

    #[tactic(auto, unfolding(crate::specs::Fields::locators_at))]
    pub fn none() -> Locators<'a>
        ensures { result ≡ [] }
    {
        Locators {
            text: &[],
            at: 0,
            count: 0,
        }
    }

    /// The same files, to be gone through from the first one that is left.
    pub fn again(&self) -> Locators<'a>
        ensures { result ≡ self.now }
    {
        Locators {
            text: self.text,
            at: self.at,
            count: self.count,
        }
    }
}

impl<'a> Iterator for Locators<'a> {
    type Item = Locator;

    ghost next_gives = { YieldsFirst (λ rest. rest) };

    ghost remaining = { item_count (λ rest. rest) };

    #[tactic(auto, using(crate::proofs::Listed::locators_done, crate::proofs::Listed::locators_next))]
    fn next(&mut self) -> Option<Locator> {
        if self.count == 0 {
            return None;
        }
        let locator = locator_at(self.text, self.at);
        self.at += 12;
        self.count -= 1;
        Some(locator)
    }
}

/// A lock that a transaction holds (`xl_standby_lock`, lockdefs.h): of a relation, by the oids of its database and its
/// own.
#[derive(Clone, Copy)]
pub struct LockEntry {
    pub xid: Xid,
    pub database: u32,
    pub relation: u32,
}

/// Locks that stand in a record, read where they stand: an iterator. Contracts see it as the list of those that
/// are left.
#[derive(Drop)]
pub struct LockEntries<'a> {
    text: &'a [u8],
    /// Where the next one stands.
    at: usize,
    /// How many are left.
    count: usize,
}

impl<'a> Model for LockEntries<'a> {
    ghost use Rattle.std.specs.Prelude.{List, ◌+◌, ◌*◌, ◌≤◌, length};
    ghost use Rattle.record_fields.specs.declared.entries.LockEntry.{LockEntry};

    ghost Value = { List LockEntry };

    ghost use Rattle.record_fields.specs.Fields.{lock_entries_at};

    ghost view = { λ l. lock_entries_at l.text.now l.at l.count };

    ghost invariant = { λ l. l.at + 12 * l.count ≤ length l.text.now };
}

impl<'a> LockEntries<'a> {
    /// As many locks as are counted, from the text's beginning on, of three numbers of four bytes each.
    pub fn new(text: &'a [u8], count: usize) -> LockEntries<'a>
        requires { 12 * count ≤ length text.now }
        ensures { result ≡ lock_entries_at text.now 0 count }
    {
        LockEntries { text, at: 0, count }
    }

    /// How many are left.
    #[tactic(auto, using(crate::proofs::Listed::entries_count))]
    pub fn len(&self) -> usize
        ensures { result ≡ length self.now }
    {
        self.count
    }

    /// The same locks, to be gone through from the first one that is left.
    pub fn again(&self) -> LockEntries<'a>
        ensures { result ≡ self.now }
    {
        LockEntries {
            text: self.text,
            at: self.at,
            count: self.count,
        }
    }
}

impl<'a> Iterator for LockEntries<'a> {
    type Item = LockEntry;

    ghost next_gives = { YieldsFirst (λ rest. rest) };

    ghost remaining = { item_count (λ rest. rest) };

    #[tactic(auto, using(crate::proofs::Listed::entries_done, crate::proofs::Listed::entries_next))]
    fn next(&mut self) -> Option<LockEntry> {
        if self.count == 0 {
            return None;
        }
        let entry = LockEntry {
            xid: xid_at(self.text, self.at),
            database: u32_at(self.text, self.at + 4),
            relation: u32_at(self.text, self.at + 8),
        };
        self.at += 12;
        self.count -= 1;
        Some(entry)
    }
}

/// What a freeze leaves in the headers of the tuples at some lines (`xl_heap_freeze_plan`, heapam_xlog.h).
#[derive(Drop)]
pub struct FreezePlan<'a> {
    pub xmax: Xid,
    /// The infomask2.
    pub mask2: u16,
    /// The infomask.
    pub mask: u16,
    /// What becomes of the xvac of a tuple that an old server moved (`XLH_FREEZE_XVAC`, `XLH_INVALID_XVAC`).
    pub flags: u8,
    pub lines: Lines<'a>,
}

/// The plans of a freeze, read where they stand: an iterator. Contracts see it as the list of those that are left.
#[derive(Drop)]
pub struct FreezePlans<'a> {
    text: &'a [u8],
    /// Where the next one stands.
    at: usize,
    /// Where its lines stand.
    lines: usize,
    /// How many are left.
    count: usize,
}

impl<'a> Model for FreezePlans<'a> {
    ghost use Rattle.std.specs.Prelude.{List};
    ghost use Rattle.record_fields.specs.declared.entries.FreezePlan.{FreezePlan};

    ghost Value = { List FreezePlan };

    ghost use Rattle.record_fields.specs.Fields.{plans_at};
    ghost use Rattle.record_fields.specs.Stored.{DoPlansStand};

    ghost view = { λ p. plans_at p.text.now p.at p.lines p.count };

    ghost invariant = { λ p. DoPlansStand p.text.now p.at p.lines p.count };
}

impl<'a> FreezePlans<'a> {
    ghost use Rattle.std.specs.Prelude.{[]};

    /// As many plans as are counted, from the text's beginning on, of 12 bytes each, and behind them their lines.
    pub fn new(text: &'a [u8], count: usize) -> FreezePlans<'a>
        requires { 12 * count + 2 * planned_lines text.now 0 count ≤ length text.now }
        ensures { result ≡ plans_at text.now 0 (12 * count) count }
    {
        FreezePlans {
            text,
            at: 0,
            lines: 12 * count,
            count,
        }
    }

    #[tactic(auto, unfolding(crate::specs::Fields::plans_at, crate::specs::Fields::planned_lines))]
    pub fn none() -> FreezePlans<'a>
        ensures { result ≡ [] }
    {
        FreezePlans {
            text: &[],
            at: 0,
            lines: 0,
            count: 0,
        }
    }

    /// The same plans, to be gone through from the first one that is left.
    pub fn again(&self) -> FreezePlans<'a>
        ensures { result ≡ self.now }
    {
        FreezePlans {
            text: self.text,
            at: self.at,
            lines: self.lines,
            count: self.count,
        }
    }
}

impl<'a> Iterator for FreezePlans<'a> {
    type Item = FreezePlan<'a>;

    ghost next_gives = { YieldsFirst (λ rest. rest) };

    ghost remaining = { item_count (λ rest. rest) };

    #[tactic(auto, using(crate::proofs::Listed::plans_done, crate::proofs::Listed::plans_next, crate::proofs::Listed::lines_inside, crate::proofs::Listed::others_inside))]
    fn next(&mut self) -> Option<FreezePlan<'a>> {
        if self.count == 0 {
            return None;
        }
        let (text, at) = (self.text, self.at);
        let lines = u16_at(text, at + 10) as usize;
        let plan = FreezePlan {
            xmax: xid_at(text, at),
            mask2: u16_at(text, at + 4),
            mask: u16_at(text, at + 6),
            flags: text[at + 8],
            lines: Lines::listed(text, self.lines, lines),
        };
        self.at += 12;
        self.lines += 2 * lines;
        self.count -= 1;
        Some(plan)
    }
}

/// How many lines as many plans have as are counted, of 12 bytes each, from the text's beginning on.
#[tactic(auto, using(crate::proofs::Listed::counted, crate::proofs::Listed::none_left))]
pub fn planned_lines(text: &[u8], count: u16) -> usize
    requires { 12 * count ≤ length text.now }
    ensures sum { result ≡ planned_lines text.now 0 count }
    ensures few { result ≤ 65536 * count }
{
    let mut lines = 0;
    let mut at = 0;
    let mut left = count;
    while left != 0 {
        lines += u16_at(text, at + 10) as usize;
        at += 12;
        left -= 1;
    }
    lines
}
