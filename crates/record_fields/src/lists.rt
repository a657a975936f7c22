ghost use Rattle.std.specs.Prelude.{◌≡◌, ◌+◌, ◌*◌, ◌≤◌, ◌^◌, length};
ghost use Rattle.std.specs.Iterator.{YieldsFirst, item_count};
ghost use Rattle.record_fields.specs.Fields.{xids_at, lines_at, first_lines};

use crate::fields::xid_at;
use pg_types::{Xid, u16_at};
use std::marker::Model;

/// A part of a record's bytes. Contracts see it as the list of its bytes.
#[derive(Drop)]
pub struct RecBytes<'a> {
    bytes: &'a [u8],
}

impl<'a> Model for RecBytes<'a> {
    ghost use Rattle.std.specs.Prelude.{ℕ, List};

    ghost Value = { List ℕ };

    ghost view = { λ b. b.bytes.now };
}

impl<'a> RecBytes<'a> {
    pub fn new(bytes: &'a [u8]) -> RecBytes<'a>
        ensures { result ≡ bytes.now }
    {
        RecBytes { bytes }
    }

    pub fn as_slice(&self) -> &'a [u8]
        ensures { result.now ≡ self.now }
    {
        self.bytes
    }
}

/// Transaction ids that stand in a record, read where they stand: an iterator. Contracts see it as the
/// list of those that are left.
#[derive(Drop)]
pub struct Xids<'a> {
    text: &'a [u8],
    /// Where the next one stands.
    at: usize,
    /// How many are left.
    count: usize,
}

impl<'a> Model for Xids<'a> {
    ghost use Rattle.std.specs.Prelude.{List, ◌+◌, ◌*◌, ◌≤◌, length};
    ghost use Rattle.pg_types.specs.declared.names.Xid.{Xid};

    ghost Value = { List Xid };

    ghost use Rattle.record_fields.specs.Fields.{xids_at};

    ghost view = { λ x. xids_at x.text.now x.at x.count };

    ghost invariant = { λ x. x.at + 4 * x.count ≤ length x.text.now };
}

impl<'a> Xids<'a> {
    ghost use Rattle.std.specs.Prelude.{[]};

    /// As many ids as are counted, from `at` on, of four bytes each.
    pub fn new(text: &'a [u8], at: usize, count: usize) -> Xids<'a>
        requires { at + 4 * count ≤ length text.now }
        ensures { result ≡ xids_at text.now at count }
    {
        Xids { text, at, count }
    }

    #[tactic(auto, unfolding(crate::specs::Fields::xids_at))]
    pub fn none() -> Xids<'a>
        ensures { result ≡ [] }
    {
        Xids {
            text: &[],
            at: 0,
            count: 0,
        }
    }

    /// The same ids, to be gone through from the first one that is left.
    pub fn again(&self) -> Xids<'a>
        ensures { result ≡ self.now }
    {
        Xids {
            text: self.text,
            at: self.at,
            count: self.count,
        }
    }
}

impl<'a> Iterator for Xids<'a> {
    type Item = Xid;

    ghost next_gives = { YieldsFirst (λ rest. rest) };

    ghost remaining = { item_count (λ rest. rest) };

    #[tactic(auto, using(crate::proofs::Listed::xids_done, crate::proofs::Listed::xids_next))]
    fn next(&mut self) -> Option<Xid> {
        if self.count == 0 {
            return None;
        }
        let xid = xid_at(self.text, self.at);
        self.at += 4;
        self.count -= 1;
        Some(xid)
    }
}

/// Lines of a page, which are numbered from 1, read where they stand in a record, or those in a row: an
/// iterator. Contracts see it as the list of those that are left.
#[derive(Drop)]
pub struct Lines<'a> {
    /// The lines stand in the text. Else they are in a row.
    is_listed: bool,
    text: &'a [u8],
    /// Where the next one stands in the text, or the next one.
    next: usize,
    /// How many are left.
    count: usize,
}

impl<'a> Model for Lines<'a> {
    ghost use Rattle.std.specs.Prelude.{List, ℕ};

    ghost Value = { List ℕ };

    ghost use Rattle.record_fields.specs.Stored.{lines_in, DoLinesStand};

    ghost view = { λ l. lines_in l.is_listed l.text.now l.next l.count };

    ghost invariant = { λ l. DoLinesStand l.is_listed l.text.now l.next l.count };
}

impl<'a> Lines<'a> {
    ghost use Rattle.std.specs.Prelude.{[]};

    /// As many lines as are counted, from `at` on, of two bytes each.
    pub fn listed(text: &'a [u8], at: usize, count: usize) -> Lines<'a>
        requires { at + 2 * count ≤ length text.now }
        ensures { result ≡ lines_at text.now at count }
    {
        Lines {
            is_listed: true,
            text,
            next: at,
            count,
        }
    }

    #[tactic(auto, unfolding(crate::specs::Fields::lines_at))]
    pub fn none() -> Lines<'a>
        ensures { result ≡ [] }
    {
        Lines {
            is_listed: true,
            text: &[],
            next: 0,
            count: 0,
        }
    }

    /// The lines from 1 to the count.
    #[tactic(auto, unfolding(crate::specs::Fields::first_lines))]
    pub fn first(count: u16) -> Lines<'a>
        ensures { result ≡ first_lines count }
    {
        Lines {
            is_listed: false,
            text: &[],
            next: 1,
            count: count as usize,
        }
    }

    /// How many are left.
    #[tactic(auto, using(crate::proofs::Listed::lines_count))]
    pub fn len(&self) -> usize
        ensures { result ≡ length self.now }
    {
        self.count
    }

    /// The same lines, to be gone through from the first one that is left.
    pub fn again(&self) -> Lines<'a>
        ensures { result ≡ self.now }
    {
        Lines {
            is_listed: self.is_listed,
            text: self.text,
            next: self.next,
            count: self.count,
        }
    }
}

impl<'a> Iterator for Lines<'a> {
    type Item = u16;

    ghost next_gives = { YieldsFirst (λ rest. rest) };

    ghost remaining = { item_count (λ rest. rest) };

    #[tactic(auto, using(crate::proofs::Listed::lines_done, crate::proofs::Listed::listed_next, crate::proofs::Listed::row_next))]
    fn next(&mut self) -> Option<u16> {
        if self.count == 0 {
            return None;
        }
        self.count -= 1;
        if self.is_listed {
            let line = u16_at(self.text, self.next);
            self.next += 2;
            return Some(line);
        }
        let line = self.next as u16;
        self.next += 1;
        Some(line)
    }
}
