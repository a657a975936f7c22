ghost use Rattle.std.specs.Prelude.{◌≡◌, ◌+◌, ◌*◌, ◌≤◌, length};
ghost use Rattle.std.specs.Iterator.{YieldsFirst, item_count};
ghost use Rattle.record_fields.specs.Fields.{members_at};

use crate::fields::xid_at;
use pg_types::{Xid, u32_at};
use std::marker::Model;

/// A transaction of a multixact, and what it does to the tuple (`MultiXactMember`, multixact.h).
#[derive(Clone, Copy)]
pub struct Member {
    pub xid: Xid,
    /// By its number (`MultiXactStatus`): a lock, or an update or delete.
    pub status: u32,
}

/// The members of a multixact that stand in a record, read where they stand: an iterator. Contracts see it as the list
/// of those that are left.
#[derive(Drop)]
pub struct Members<'a> {
    text: &'a [u8],
    /// Where the next one stands.
    at: usize,
    /// How many are left.
    count: usize,
}

impl<'a> Model for Members<'a> {
    ghost use Rattle.std.specs.Prelude.{List, ◌+◌, ◌*◌, ◌≤◌, length};
    ghost use Rattle.record_fields.specs.declared.members.Member.{Member};

    ghost Value = { List Member };

    ghost use Rattle.record_fields.specs.Fields.{members_at};

    ghost view = { λ m. members_at m.text.now m.at m.count };

    ghost invariant = { λ m. m.at + 8 * m.count ≤ length m.text.now };
}

impl<'a> Members<'a> {
    /// As many members as are counted, from `at` on, of two numbers of four bytes each.
    pub fn new(text: &'a [u8], at: usize, count: usize) -> Members<'a>
        requires { at + 8 * count ≤ length text.now }
        ensures { result ≡ members_at text.now at count }
    {
        Members { text, at, count }
    }

    /// The same members, to be gone through from the first one that is left.
    pub fn again(&self) -> Members<'a>
        ensures { result ≡ self.now }
    {
        Members {
            text: self.text,
            at: self.at,
            count: self.count,
        }
    }
}

impl<'a> Iterator for Members<'a> {
    type Item = Member;

    ghost next_gives = { YieldsFirst (λ rest. rest) };

    ghost remaining = { item_count (λ rest. rest) };

    #[tactic(auto, using(crate::proofs::Listed::members_done, crate::proofs::Listed::members_next))]
    fn next(&mut self) -> Option<Member> {
        if self.count == 0 {
            return None;
        }
        let member = Member {
            xid: xid_at(self.text, self.at),
            status: u32_at(self.text, self.at + 4),
        };
        self.at += 8;
        self.count -= 1;
        Some(member)
    }
}
