ghost use Rattle.std.specs.Prelude.{◌≡◌, ◌+◌, ◌≤◌, length, drop, IsOk, Ok, IfOk};
ghost use Rattle.std.specs.Iterator.{YieldsFirst, item_count};
ghost use Rattle.typed_records.specs.Tuples.{tuple_with, listed_at, listed_from};
ghost use Rattle.typed_records.specs.Stored.{first_of};

use crate::types::{BodyFault, NewTuple};
use pg_types::u16_at;
use record_fields::RecBytes;
use std::marker::Model;

/// Tuples that a record puts into a block, read where they stand: an iterator. Contracts see it as the
/// list of those that are left.
#[derive(Drop)]
pub struct NewTuples<'a> {
    /// They are a multi-insert's. Else one tuple is all of the bytes.
    is_listed: bool,
    bytes: &'a [u8],
    /// Where a multi-insert's tuple before ends.
    at: usize,
    /// How many are left.
    count: usize,
    /// What the one tuple has of the old one.
    prefix: u16,
    suffix: u16,
}

impl<'a> Model for NewTuples<'a> {
    ghost use Rattle.std.specs.Prelude.{List};
    ghost use Rattle.typed_records.specs.declared.types.NewTuple.{NewTuple};

    ghost Value = { List NewTuple };

    ghost use Rattle.typed_records.specs.Stored.{tuples_held, DoTuplesStand};

    ghost view = { λ t. tuples_held t.is_listed t.bytes.now t.at t.count t.prefix t.suffix };

    ghost invariant = { λ t. DoTuplesStand t.is_listed t.bytes.now t.at t.count };
}

impl<'a> NewTuples<'a> {
    ghost use Rattle.std.specs.Prelude.{[], ◌∷◌};

    #[tactic(auto, unfolding(crate::specs::Tuples::listed_from))]
    pub fn none() -> NewTuples<'a>
        ensures { result ≡ [] }
    {
        NewTuples {
            is_listed: true,
            bytes: &[],
            at: 0,
            count: 0,
            prefix: 0,
            suffix: 0,
        }
    }

    /// The tuple that is all of these bytes.
    pub fn one(bytes: &'a [u8], prefix: u16, suffix: u16) -> NewTuples<'a>
        requires { 5 ≤ length bytes.now }
        ensures { result ≡ tuple_with bytes.now 0 prefix suffix (drop 5 bytes.now) ∷ [] }
    {
        NewTuples {
            is_listed: false,
            bytes,
            at: 0,
            count: 1,
            prefix,
            suffix,
        }
    }

    /// As many tuples of a multi-insert's data as are counted, each of which is there.
    pub fn listed(bytes: &'a [u8], count: usize) -> NewTuples<'a>
        requires { IsOk (listed_from bytes.now 0 count) }
        ensures { listed_from bytes.now 0 count ≡ Ok result }
    {
        NewTuples {
            is_listed: true,
            bytes,
            at: 0,
            count,
            prefix: 0,
            suffix: 0,
        }
    }

    /// The same tuples, to be gone through from the first one that is left.
    pub fn again(&self) -> NewTuples<'a>
        ensures { result ≡ self.now }
    {
        NewTuples {
            is_listed: self.is_listed,
            bytes: self.bytes,
            at: self.at,
            count: self.count,
            prefix: self.prefix,
            suffix: self.suffix,
        }
    }

    /// The first of those that are left.
    pub fn first(&self) -> Option<NewTuple<'a>>
        ensures { result ≡ first_of self.now }
    {
        self.again().next()
    }
}

impl<'a> Iterator for NewTuples<'a> {
    type Item = NewTuple<'a>;

    ghost next_gives = { YieldsFirst (λ rest. rest) };

    ghost remaining = { item_count (λ rest. rest) };

    fn next(&mut self) -> Option<NewTuple<'a>> {
        if self.count == 0 {
            return None;
        }
        if !self.is_listed {
            self.count = 0;
            let (_, rest) = self.bytes.split_at(5);
            return Some(tuple_with(self.bytes, 0, self.prefix, self.suffix, rest));
        }
        match listed_at(self.bytes, self.at + self.at % 2) {
            Ok((tuple, end)) => {
                self.at = end;
                self.count -= 1;
                Some(tuple)
            }
            Err(_) => unreachable!(),
        }
    }
}

/// The tuple whose header's fields stand at `at`, with these bytes behind them.
fn tuple_with<'a>(bytes: &[u8], at: usize, prefix: u16, suffix: u16, rest: &'a [u8]) -> NewTuple<'a>
    requires { at + 5 ≤ length bytes.now }
    ensures { result ≡ tuple_with bytes.now at prefix suffix rest.now }
{
    NewTuple {
        mask2: u16_at(bytes, at),
        mask: u16_at(bytes, at + 2),
        hoff: bytes[at + 4],
        prefix,
        suffix,
        rest: RecBytes::new(rest),
    }
}

/// The tuple of a multi-insert that stands at `at`, and where it ends.
#[tactic(auto, unfolding(crate::specs::Tuples::listed_at))]
pub fn listed_at<'a>(bytes: &'a [u8], at: usize) -> Result<(NewTuple<'a>, usize), BodyFault>
    requires { at ≤ length bytes.now + 1 }
    ensures exact { result ≡ listed_at bytes.now at }
    ensures inside { IfOk result (λ x. x.1 ≤ length bytes.now) }
{
    if bytes.len() < at + 7 {
        return Err(BodyFault::Length);
    }
    let size = u16_at(bytes, at) as usize;
    if bytes.len() < at + 7 + size {
        return Err(BodyFault::Length);
    }
    let (_, rest) = bytes.split_at(at + 7);
    let (rest, _) = rest.split_at(size);
    Ok((tuple_with(bytes, at + 2, 0, 0, rest), at + 7 + size))
}
