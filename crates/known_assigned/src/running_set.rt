ghost use Rattle.std.specs.Prelude.{◌≡◌, ◌≢◌, ℕ, ◌+◌, ◌*◌, ◌-◌, ◌≤◌, ◌<◌, not, true, false, if◌then◌else◌, IfErr, IfOk, OnErr, OnOk, [], ◌∷◌, ◌++◌, filter, length, nat_le, nat_lt, slice_get, take, drop, vec_capacity, vec_len};
ghost use Rattle.std.specs.List.{list_all};
ghost use Rattle.std.specs.List.Sorted.{IsStrictlyIncreasing};
ghost use Rattle.known_assigned.specs.Ids.{ids_above, is_among, minus, numbers, with_id, with_ids, without};
ghost use Rattle.known_assigned.specs.Slots.{AreCounted, AtPlace, InOrder, NoPlace, is_led, is_rising, live_ids};

use pg_types::{NoMemory, Xid, XidList};
use std::alloc::Global;
use std::marker::Model;

/// A place of the set: an id, and whether it has not ended.
#[derive(Clone, Copy)]
pub(crate) struct Slot {
    pub(crate) xid: u64,
    pub(crate) live: bool,
}

/// A set of ids in places that rise, as `KnownAssignedXids` of procarray.c is: new ids go to the end,
/// an id that ends is found by halving and only marked, and the marked ones at the low end are passed
/// over once. Contracts see the ids in rising order, how many more places there are, and how many are
/// taken, by an id or a mark.
#[derive(Drop)]
pub(crate) struct RunningSet {
    slots: Vec<Slot>,
    /// The place of the least id that has not ended.
    first: usize,
    /// No more places than these are marked.
    marked: usize,
}

impl Model for RunningSet {
    ghost use Rattle.std.specs.Prelude.{◌-◌, vec_capacity, vec_len};
    ghost use Rattle.known_assigned.specs.Slots.{AreCounted, Places, live_ids};

    ghost Value = { Places };

    ghost view = { λ s. record { xids = live_ids s.slots.items; spare = vec_capacity s.slots - vec_len s.slots; taken = vec_len s.slots } };

    ghost invariant = { λ s. AreCounted s.slots.items s.first s.marked };
}

impl RunningSet {
    pub(crate) fn new(alloc: Global) -> RunningSet
        ensures { result ≡ record { xids = []; spare = 0; taken = 0 } }
    {
        RunningSet {
            slots: Vec::new(alloc),
            first: 0,
            marked: 0,
        }
    }

    /// Makes room for so many ids. The marked places are given up where there is no room; where there is
    /// still none, the memory grows so that as many ids as there are fit once more. So a place is moved
    /// once for each id that was added or ended, on average.
    pub(crate) fn reserve(&mut self, more: usize) -> Result<(), NoMemory>
        ensures xids { self.new.xids ≡ self.old.xids }
        ensures ok { OnOk result (more ≤ self.new.spare) }
        ensures short { OnErr result (self.old.spare < more) }
        ensures kept { self.old.spare ≤ self.new.spare }
    {
        if self.room() < more {
            self.give_up_marked();
        }
        if self.room() < more {
            let room = more.max(self.slots.len());
            self.slots.reserve(room)?;
        }
        Ok(())
    }

    /// How many more places there are.
    fn room(&self) -> usize
        ensures { result ≡ self.now.spare }
    {
        self.slots.capacity() - self.slots.len()
    }

    /// Gives up the marked places where more than half of all, and 32 more, may be marked, as
    /// `KnownAssignedXidsCompress` of procarray.c does at the end of transactions. It takes no memory.
    pub(crate) fn pack(&mut self)
        ensures xids { self.new.xids ≡ self.old.xids }
        ensures spare { self.old.spare ≤ self.new.spare }
        ensures packed { self.new.taken ≤ 2 * length self.new.xids + 64 }
    {
        if self.marked > self.slots.len() / 2 + 32 {
            self.give_up_marked();
        }
    }

    /// Gives up the marked places.
    fn give_up_marked(&mut self)
        ensures xids { self.new.xids ≡ self.old.xids }
        ensures spare { self.old.spare ≤ self.new.spare }
        ensures taken { self.new.taken ≡ length self.new.xids }
    {
        compact(&mut self.slots);
        self.first = 0;
        self.marked = 0;
    }

    /// Adds the id. Above all others it goes to the end; any other moves the places above it.
    pub(crate) fn add(&mut self, xid: u64)
        requires { is_among xid self.old.xids ≡ false → 0 < self.old.spare }
        ensures xids { self.new.xids ≡ with_id xid self.old.xids }
        ensures spare { self.old.spare ≤ self.new.spare + (if is_among xid self.old.xids then 0 else 1) }
    {
        match find(self.slots.as_slice(), xid) {
            Ok(at) => {
                self.slots[at].live = true;
                self.first = self.first.min(at);
            }
            Err(at) => {
                if self.slots.insert(at, Slot { xid, live: true }).is_err() {
                    unreachable!()
                }
                self.first = self.first.min(at);
            }
        }
    }

    /// Takes the id out, where it is in. Its place is found by halving.
    pub(crate) fn remove(&mut self, xid: u64)
        ensures xids { self.new.xids ≡ minus xid self.old.xids }
        ensures spare { self.new.spare ≡ self.old.spare }
    {
        if let Ok(at) = find(self.slots.as_slice(), xid) {
            self.slots[at].live = false;
            self.marked = self.marked.saturating_add(1);
            self.first = passed(&mut self.slots, self.first, 0);
        }
    }

    /// Takes these ids out, one after another.
    pub(crate) fn remove_listed(&mut self, xids: &[Xid])
        ensures xids { self.new.xids ≡ without (numbers xids.now) self.old.xids }
        ensures spare { self.new.spare ≡ self.old.spare }
    {
        for xid in xids {
            self.remove(xid.0);
        }
    }

    /// Takes out all ids below this one, each place once.
    pub(crate) fn remove_below(&mut self, oldest: u64)
        ensures xids { self.new.xids ≡ filter (nat_le oldest) self.old.xids }
        ensures spare { self.new.spare ≡ self.old.spare }
    {
        let first = self.first;
        self.first = passed(&mut self.slots, first, oldest);
        self.marked = self.marked.saturating_add(self.first - first);
    }

    /// Whether the id is in. Its place is found by halving.
    pub(crate) fn contains(&self, xid: u64) -> bool
        ensures { result ≡ is_among xid self.now.xids }
    {
        match find(self.slots.as_slice(), xid) {
            Ok(at) => self.slots[at].live,
            Err(_) => false,
        }
    }

    /// Adds the ids above `low`, up to `high`.
    pub(crate) fn add_range(&mut self, low: u64, high: u64)
        requires { length (without self.old.xids (ids_above low high)) ≤ self.old.spare }
        ensures xids { self.new.xids ≡ with_ids (ids_above low high) self.old.xids }
        ensures spare { self.old.spare ≤ self.new.spare + length (without self.old.xids (ids_above low high)) }
    {
        for below in low..high {
            self.add(below + 1);
        }
    }

    /// How many of the ids above `low`, up to `high`, are not in. Where none above `low` is, it is seen
    /// at once.
    pub(crate) fn count_absent(&self, low: u64, high: u64) -> u64
        ensures { result ≡ length (without self.now.xids (ids_above low high)) }
    {
        if self.last() <= low {
            return high.saturating_sub(low);
        }
        let mut count = 0;
        for below in low..high {
            if !self.contains(below + 1) {
                count += 1;
            }
        }
        count
    }

    /// An id that none is above, at once.
    fn last(&self) -> u64
        ensures { list_all (λ x. nat_le x result) self.now.xids ≡ true }
    {
        let len = self.slots.len();
        if len == 0 { 0 } else { self.slots[len - 1].xid }
    }

    /// Takes all ids out, and puts these in, each once. They are sorted in place.
    pub(crate) fn replace(&mut self, xids: &[Xid])
        requires { length xids.now ≤ length self.old.xids + self.old.spare }
        ensures xids { self.new.xids ≡ with_ids (numbers xids.now) [] }
        ensures spare { self.old.spare ≤ self.new.spare + length xids.now }
    {
        self.slots.clear();
        fill(&mut self.slots, xids);
        self.first = passed(&mut self.slots, 0, 0);
        self.marked = 0;
    }

    /// A copy of the ids in rising order, in time in proportion to the places from the least one on.
    pub(crate) fn copy(&self, alloc: Global) -> Result<XidList, NoMemory>
        ensures ok { IfOk result (λ xids. numbers xids ≡ self.now.xids) }
        ensures rising { IsStrictlyIncreasing self.now.xids }
    {
        let mut xids = XidList::new(alloc);
        for slot in &self.slots.as_slice()[self.first..] {
            if slot.live {
                xids.push(Xid(slot.xid))?;
            }
        }
        Ok(xids)
    }

    /// Takes all ids out.
    pub(crate) fn clear(&mut self)
        ensures xids { self.new.xids ≡ [] }
        ensures spare { length self.old.xids + self.old.spare ≤ self.new.spare }
        ensures taken { self.new.taken ≡ 0 }
    {
        self.slots.clear();
        self.first = 0;
        self.marked = 0;
    }

    /// The least id, at once.
    pub(crate) fn least(&self) -> Option<u64>
        ensures least { result ≡ slice_get self.now.xids 0 }
        ensures rising { IsStrictlyIncreasing self.now.xids }
    {
        if self.first < self.slots.len() {
            Some(self.slots[self.first].xid)
        } else {
            None
        }
    }
}

/// Gives up the marked places.
fn compact(slots: &mut Vec<Slot>)
    ensures items { slots.new.items ≡ filter (λ (s : Slot). s.live) slots.old.items }
    ensures len { vec_len slots.new ≤ vec_len slots.old }
    ensures capacity { vec_capacity slots.new ≡ vec_capacity slots.old }
{
    slots.retain(|slot| slot.live);
}

/// The place of the id, or where it goes.
fn find(slots: &[Slot], xid: u64) -> Result<usize, usize>
    requires { is_rising slots.now ≡ true }
    ensures ok { IfOk result (λ at. AtPlace slots.now at xid) }
    ensures err { IfErr result (λ at. NoPlace slots.now at xid) }
{
    let at = place(slots, xid);
    if at < slots.len() && slots[at].xid == xid {
        Ok(at)
    } else {
        Err(at)
    }
}

/// Puts the ids in, sorted, each once.
fn fill(slots: &mut Vec<Slot>, xids: &[Xid])
    requires empty { slots.old.items ≡ [] }
    requires room { length xids.now ≤ vec_capacity slots.old }
    ensures rising { is_rising slots.new.items ≡ true }
    ensures ids { live_ids slots.new.items ≡ with_ids (numbers xids.now) [] }
    ensures live { length slots.new.items ≤ length (live_ids slots.new.items) }
    ensures room { vec_capacity slots.old ≤ (vec_capacity slots.new - vec_len slots.new) + length xids.now }
{
    for xid in xids {
        let slot = Slot {
            xid: xid.0,
            live: true,
        };
        if slots.push(slot).is_err() {
            unreachable!()
        }
    }
    slots.sort_unstable_by_key(|slot| slot.xid);
    slots.dedup_by_key(|slot| slot.xid);
}

/// How many places have an id below this one. Where all have, it is seen at once, else by halving.
fn place(slots: &[Slot], xid: u64) -> usize
    requires { is_rising slots.now ≡ true }
    ensures bound { result ≤ length slots.now }
    ensures below { list_all (λ (s : Slot). nat_lt s.xid xid) (take result slots.now) ≡ true }
    ensures rest { list_all (λ (s : Slot). nat_le xid s.xid) (drop result slots.now) ≡ true }
{
    let len = slots.len();
    if len == 0 || slots[len - 1].xid < xid {
        len
    } else {
        slots.partition_point(|slot| slot.xid < xid)
    }
}

/// Ends the ids below `oldest`, and gives the place of the least that has not ended. Those before
/// `first` have.
fn passed(slots: &mut Vec<Slot>, first: usize, oldest: u64) -> usize
    requires rising { is_rising slots.old.items ≡ true }
    requires within { first ≤ length slots.old.items }
    requires ended { live_ids (take first slots.old.items) ≡ [] }
    ensures order { InOrder slots.new.items result }
    ensures ids { live_ids slots.new.items ≡ filter (nat_le oldest) (live_ids slots.old.items) }
    ensures onward { first ≤ result }
    ensures marked { length (live_ids slots.old.items) ≤ length (live_ids slots.new.items) + (result - first) }
    ensures len { vec_len slots.new ≡ vec_len slots.old }
    ensures capacity { vec_capacity slots.new ≡ vec_capacity slots.old }
{
    let mut at = first;
    while at < slots.len() && (!slots[at].live || slots[at].xid < oldest) {
        slots[at].live = false;
        at += 1;
    }
    at
}
