ghost use Rattle.std.specs.Bool.{OnTrue};
ghost use Rattle.std.specs.Prelude.{◌≡◌, ◌+◌, ◌<◌, ◌≤◌, [], length, take, drop, MatchResult, OnOk, ok_or};
ghost use Rattle.multixact.specs.Made.{is_update, none_made, updater_among, with_multixact, with_updater};
ghost use Rattle.multixact.specs.Entries.{IdsBelow, IdsFrom, IsAbsent, IsFound, made_in};

use crate::status::{NO_KEY_UPDATE, UPDATE};
use pg_types::{NoMemory, Unknown, Xid};
use record_fields::Members;
use std::alloc::Global;
use std::collections::VecDeque;
use std::marker::Model;

/// A multixact and its updater, if it has one.
#[derive(Clone, Copy, Drop)]
pub struct Entry {
    pub id: u32,
    pub updater: Option<Xid>,
}

/// The multixacts that were made. Contracts see the entries in rising order of the id and the number of free places.
#[derive(Drop)]
pub struct Multis {
    entries: VecDeque<Entry>,
}

impl Model for Multis {
    ghost use Rattle.std.specs.Prelude.{◌-◌};
    ghost use Rattle.std.specs.VecDeque.{deque_len, deque_capacity};
    ghost use Rattle.multixact.specs.Entries.{Entries, InOrder};

    ghost Value = { Entries };

    ghost view = { λ m. record { entries = m.entries.items; spare = deque_capacity m.entries - deque_len m.entries } };

    ghost invariant = { λ m. InOrder m.entries.items };
}

impl Multis {
    /// No multixacts, and no memory taken.
    #[tactic(auto, unfolding(crate::specs::Entries::made_in))]
    pub fn new(alloc: Global) -> Multis
        ensures entries { result.entries ≡ [] }
        ensures made { made_in result.entries ≡ none_made }
    {
        Multis {
            entries: VecDeque::new(alloc),
        }
    }

    /// Makes room for so many multixacts. On want of memory all stays as it was.
    pub fn reserve(&mut self, more: usize) -> Result<(), NoMemory>
        ensures entries { self.new.entries ≡ self.old.entries }
        ensures ok { OnOk result (more ≤ self.new.spare) }
        ensures kept { self.old.spare ≤ self.new.spare }
    {
        self.entries.reserve(more)?;
        Ok(())
    }

    /// A multixact was made (`multixact_redo`). Where its id was made before, the later one counts; id 0 is passed over.
    /// It takes no memory, and looks at the members up to the updater. The place of an id above all is the end, any
    /// other is found by halving; multixacts of greater ids, of which there are mostly few, or those of lesser ones, if
    /// these are fewer, are moved.
    pub fn create(&mut self, id: u32, members: Members<'_>)
        requires room { 0 < self.old.spare }
        ensures made { made_in self.new.entries ≡ with_multixact id members.entry (made_in self.old.entries) }
        ensures spare { self.old.spare ≤ self.new.spare + 1 }
    {
        if id != 0 {
            let updater = updater_among(members);
            self.put(Entry { id, updater });
        }
    }

    /// The entry stands for its id from now on, whatever the id stood for.
    fn put(&mut self, entry: Entry)
        requires room { 0 < self.old.spare }
        ensures made { made_in self.new.entries ≡ with_updater entry.id entry.updater (made_in self.old.entries) }
        ensures spare { self.old.spare ≤ self.new.spare + 1 }
    {
        match self.search(entry.id) {
            Ok(at) => self.entries[at] = entry,
            Err(at) => match self.entries.insert(at, entry) {
                Ok(()) => {}
                Err(_) => unreachable!(),
            },
        }
    }

    /// The updater of a multixact, or none where its members only lock (`MultiXactIdGetUpdateXid`). `Unknown` comes
    /// exactly where the multixact was not made. One search by halving, no memory.
    pub fn updater(&self, id: u32) -> Result<Option<Xid>, Unknown>
        ensures { result ≡ ok_or (made_in self.now.entries id) (record { id = id }) }
    {
        match self.search(id) {
            Ok(at) => Ok(self.entries[at].updater),
            Err(_) => Err(Unknown { id }),
        }
    }

    /// Where the entry of an id stands, or where it would.
    fn search(&self, id: u32) -> Result<usize, usize>
        ensures { MatchResult result (IsFound self.now.entries id) (IsAbsent self.now.entries id) }
    {
        let at = self.place(id);
        if at < self.entries.len() && self.entries[at].id == id {
            Ok(at)
        } else {
            Err(at)
        }
    }

    /// How many entries have an id below this one. One that is made is mostly above all that are known, which is
    /// answered by one look; any other place is found by halving.
    fn place(&self, id: u32) -> usize
        ensures bound { result ≤ length self.now.entries }
        ensures below { IdsBelow id (take result self.now.entries) }
        ensures rest { IdsFrom id (drop result self.now.entries) }
    {
        if self.are_below(id) {
            return self.entries.len();
        }
        self.entries.partition_point(|entry| entry.id < id)
    }

    /// Whether the last entry, and so each, has an id below this one.
    fn are_below(&self, id: u32) -> bool
        ensures { OnTrue result (IdsBelow id self.now.entries) }
    {
        let len = self.entries.len();
        len == 0 || self.entries[len - 1].id < id
    }
}

/// The first member that updates or deletes.
#[tactic(auto, unfolding(crate::specs::Made::updater_among))]
fn updater_among(members: Members<'_>) -> Option<Xid>
    ensures { result ≡ updater_among members.entry }
{
    for member in members {
        if is_update(member.status) {
            return Some(member.xid);
        }
    }
    None
}

/// Whether a member updates or deletes, and does not only lock.
fn is_update(status: u32) -> bool
    ensures { result ≡ is_update status }
{
    status == NO_KEY_UPDATE || status == UPDATE
}
