//! The parents of subtransactions, as assignment records tell them (subtrans.c).
#![tactic(auto)]

ghost use Rattle.std.specs.Bool.{OnTrue};
ghost use Rattle.std.specs.List.{AllWithin};
ghost use Rattle.std.specs.Prelude.{◌≡◌, ℕ, ◌+◌, ◌<◌, ◌≤◌, true, false, [], ◌++◌, filter, length, take, drop, nat_lt, MatchOption, MatchResult, OnOk};
ghost use Rattle.std.specs.VecDeque.{deque_len, deque_capacity};
ghost use Rattle.subtrans.specs.declared.Pair.{Pair};
ghost use Rattle.subtrans.specs.Parents.{topmost_of, with_parent, from_sub, InOrder, IsFound, IsAbsent, AlwaysFollowsParents};

use pg_types::{NoMemory, Xid};
use std::alloc::Global;
use std::collections::VecDeque;
use std::marker::Model;

/// A subtransaction and its parent, which is always a lower id.
#[derive(Clone, Copy, Drop)]
pub struct Pair {
    pub sub: u64,
    pub parent: u64,
}

/// The known parents of subtransactions. Contracts see the pairs in rising order of the subtransaction
/// and the number of free places.
#[derive(Drop)]
pub struct Subtrans {
    pairs: VecDeque<Pair>,
}

impl Model for Subtrans {
    ghost use Rattle.std.specs.Prelude.{◌-◌};
    ghost use Rattle.std.specs.VecDeque.{deque_len, deque_capacity};
    ghost use Rattle.subtrans.specs.declared.Pair.{Pair};
    ghost use Rattle.subtrans.specs.Parents.{Parents, InOrder};

    ghost Value = { Parents };

    ghost view = { λ s. record { pairs = s.pairs.items; spare = deque_capacity s.pairs - deque_len s.pairs } };

    ghost invariant = { λ s. InOrder s.pairs.items };
}

impl Subtrans {
    /// No parents, and no memory taken.
    pub fn new(alloc: Global) -> Subtrans
        ensures { result.pairs ≡ [] }
    {
        Subtrans {
            pairs: VecDeque::new(alloc),
        }
    }

    /// Makes room for so many pairs. On want of memory all stays as it was.
    pub fn reserve(&mut self, more: usize) -> Result<(), NoMemory>
        ensures pairs { self.new.pairs ≡ self.old.pairs }
        ensures ok { OnOk result (more ≤ self.new.spare) }
        ensures kept { self.old.spare ≤ self.new.spare }
    {
        self.pairs.reserve(more)?;
        Ok(())
    }

    /// The parent of `sub` is `parent` from now on, in place of what was known of it (`SubTransSetParent`).
    /// It takes no memory. The place of one above all is the end, any other is found by halving; pairs of greater subtransactions, of which
    /// there are mostly none, or those of lesser ones, if these are fewer, are moved.
    pub fn set_parent(&mut self, sub: Xid, parent: Xid)
        requires below { parent.0 < sub.0 }
        requires room { 0 < self.old.spare }
        ensures pairs { self.new.pairs ≡ with_parent self.old.pairs (record { sub = sub.0; parent = parent.0 }) }
        ensures spare { self.old.spare ≤ self.new.spare + 1 }
    {
        let pair = Pair {
            sub: sub.0,
            parent: parent.0,
        };
        match self.search(sub.0) {
            Ok(at) => self.pairs[at] = pair,
            Err(at) => match self.pairs.insert(at, pair) {
                Ok(()) => {}
                Err(_) => unreachable!(),
            },
        }
    }

    /// The topmost parent of `xid`: itself, where no parent is known (`SubTransGetTopmostTransaction`).
    /// One search by halving for each parent on the way, no memory.
    pub fn topmost(&self, xid: Xid) -> Xid
        ensures topmost { result.0 ≡ topmost_of self.now.pairs xid.0 }
        ensures order { InOrder self.now.pairs }
    {
        let mut x = xid.0;
        while let Some(parent) = self.parent(x) {
            x = parent;
        }
        Xid(x)
    }

    /// Forgets the parents of all subtransactions below `xid` (`TruncateSUBTRANS`). It takes no memory:
    /// one step for each pair that goes, and one.
    pub fn forget_below(&mut self, xid: Xid)
        ensures pairs { self.new.pairs ≡ from_sub self.old.pairs xid.0 }
        ensures spare { self.old.spare ≤ self.new.spare }
    {
        for _ in 0..self.place(xid.0) {
            drop(self.pairs.pop_front());
        }
    }

    /// How many pairs have a subtransaction below `x`. One that begins is above all that are known, and mostly
    /// nothing is to be forgotten: both are answered by one look, any other place is found by halving.
    fn place(&self, x: u64) -> usize
        ensures bound { result ≤ length self.now.pairs }
        ensures below { take result self.now.pairs ≡ filter (λ (q : Pair). nat_lt q.sub x) self.now.pairs }
        ensures rest { drop result self.now.pairs ≡ from_sub self.now.pairs x }
    {
        if self.are_below(x) {
            return self.pairs.len();
        }
        if self.are_from(x) {
            return 0;
        }
        self.pairs.partition_point(|pair| pair.sub < x)
    }

    /// Whether the last pair, and so each, has a subtransaction below `x`.
    fn are_below(&self, x: u64) -> bool
        ensures { OnTrue result (AllWithin (λ (q : Pair). nat_lt q.sub x ≡ true) self.now.pairs 0 (length self.now.pairs)) }
    {
        let len = self.pairs.len();
        len == 0 || self.pairs[len - 1].sub < x
    }

    /// Whether the first pair, and so each, has a subtransaction from `x` on.
    fn are_from(&self, x: u64) -> bool
        ensures { OnTrue result (AllWithin (λ (q : Pair). nat_lt q.sub x ≡ false) self.now.pairs 0 (length self.now.pairs)) }
    {
        self.pairs.len() == 0 || self.pairs[0].sub >= x
    }

    /// The parent of `x`, if one is known.
    fn parent(&self, x: u64) -> Option<u64>
        ensures order { InOrder self.now.pairs }
        ensures parent { MatchOption result (topmost_of self.now.pairs x ≡ x) (λ p. (p < x) × (topmost_of self.now.pairs x ≡ topmost_of self.now.pairs p)) }
    {
        match self.search(x) {
            Ok(at) => Some(self.pairs[at].parent),
            Err(_) => None,
        }
    }

    /// Where the pair of `x` stands, or where it would.
    fn search(&self, x: u64) -> Result<usize, usize>
        ensures { MatchResult result (IsFound self.now.pairs x) (IsAbsent self.now.pairs x) }
    {
        let at = self.place(x);
        if at < self.pairs.len() && self.pairs[at].sub == x {
            Ok(at)
        } else {
            Err(at)
        }
    }
}

/// A law of the definitions, and no step of a program: following parents ends at the topmost one.
pub fn topmost_is_the_end_of_parents()
    ensures { AlwaysFollowsParents }
{}
