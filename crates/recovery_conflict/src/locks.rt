ghost use Rattle.std.specs.Prelude.{◌≡◌, ◌≤◌, ◌++◌, [], None, filter, length, map, OnOk};
ghost use Rattle.xact_redo.specs.TransactionsOf.{kind_of};
ghost use Rattle.known_assigned.specs.Ids.{numbers};
ghost use Rattle.transaction_model.specs.Transactions.{ends, is_named};
ghost use Rattle.recovery_conflict.specs.Held.{entries_of, held_since, keeps, last_of, locks_after};

use pg_types::{Lsn, NoMemory, Xid};
use record_fields::{LockEntries, LockEntry, Xids};
use std::alloc::Global;
use std::marker::Model;
use wal_bodies::{Rec, RecKind};

/// Why a scan is cancelled: a record removed rows that it still has to see, or a lock of its table was taken.
#[derive(Clone, Copy)]
pub enum Cause {
    /// A record that starts here removes, freezes or shows to all up to this id.
    Horizon { lsn: Lsn, horizon: Xid },
    /// A record that starts here has the table's lock for this transaction.
    Lock { lsn: Lsn, xid: Xid },
}

/// An access exclusive lock in force, and the start of the record that told it.
#[derive(Clone, Copy)]
pub struct HeldLock {
    pub entry: LockEntry,
    pub since: Lsn,
}

/// The access exclusive locks that transactions hold. Contracts see them in the order of their entries, and
/// how many more fit without taking memory.
#[derive(Drop)]
pub struct Locks {
    held: Vec<HeldLock>,
}

impl Model for Locks {
    ghost use Rattle.std.specs.Prelude.{◌-◌, vec_capacity, vec_len};
    ghost use Rattle.recovery_conflict.specs.Room.{LocksInRoom};

    ghost Value = { LocksInRoom };

    ghost view = { λ l. record { locks = l.held.items; spare = vec_capacity l.held - vec_len l.held } };
}

impl Locks {
    /// No locks, and no memory taken.
    pub fn new(alloc: Global) -> Locks
        ensures { result.locks ≡ [] }
    {
        Locks {
            held: Vec::new(alloc),
        }
    }

    /// Makes room for the record's entries, and changes nothing else that contracts see.
    ///
    /// # Errors
    /// For want of memory.
    pub fn reserve(&mut self, rec: &Rec<'_>) -> Result<(), NoMemory>
        ensures locks { self.new.locks ≡ self.old.locks }
        ensures room { OnOk result (length (entries_of rec.now.kind) ≤ self.new.spare) }
    {
        match &rec.kind {
            RecKind::Locks { entries } => self.make_room(entries),
            _ => Ok(()),
        }
    }

    /// Makes room for these entries.
    fn make_room(&mut self, entries: &LockEntries<'_>) -> Result<(), NoMemory>
        ensures locks { self.new.locks ≡ self.old.locks }
        ensures room { OnOk result (length entries.now ≤ self.new.spare) }
    {
        self.held.reserve(entries.len())?;
        Ok(())
    }

    /// Releases the locks of the transactions that the record ends or gives up, then takes those that it tells.
    /// It takes no memory.
    #[tactic(auto, unfolding(crate::specs::Held::locks_after))]
    pub fn redo(&mut self, rec: &Rec<'_>)
        requires { length (entries_of rec.now.kind) ≤ self.old.spare }
        ensures { self.new.locks ≡ locks_after rec.now self.old.locks }
    {
        self.release(rec);
        self.take(rec.start, entries_of(&rec.kind));
    }

    /// Releases the locks of the transactions that the record ends or gives up.
    fn release(&mut self, rec: &Rec<'_>)
        ensures locks { self.new.locks ≡ filter (keeps rec.now) self.old.locks }
        ensures room { self.old.spare ≤ self.new.spare }
    {
        self.held.retain(|held| !ends(rec, held.entry.xid));
    }

    /// Takes the locks of these entries, which are told from here on.
    fn take(&mut self, start: Lsn, entries: LockEntries<'_>)
        requires { length entries ≤ self.old.spare }
        ensures { self.new.locks ≡ self.old.locks ++ map (held_since start) entries.entry }
    {
        for entry in entries {
            let held = HeldLock {
                entry,
                since: start,
            };
            if self.held.push(held).is_err() {
                unreachable!()
            }
        }
    }

    /// The last lock in force of this relation of this database.
    pub fn held(&self, database: u32, relation: u32) -> Option<HeldLock>
        ensures { result ≡ last_of database relation self.now.locks None }
    {
        last_of(self.held.as_slice(), database, relation)
    }
}

/// The last of these locks that is of this relation of this database.
fn last_of(locks: &[HeldLock], database: u32, relation: u32) -> Option<HeldLock>
    ensures { result ≡ last_of database relation locks.now None }
{
    let mut found = None;
    for held in locks {
        if held.entry.database == database && held.entry.relation == relation {
            found = Some(*held);
        }
    }
    found
}

/// The locks that a record of this kind tells.
#[tactic(auto, unfolding(record_fields::specs::Fields::lock_entries_at))]
fn entries_of<'a>(kind: &RecKind<'a>) -> LockEntries<'a>
    ensures { result ≡ entries_of kind.now }
{
    match kind {
        RecKind::Locks { entries } => entries.again(),
        _ => LockEntries::new(&[], 0),
    }
}

/// Whether a record ends a transaction, or gives it up.
#[tactic(auto, using(crate::proofs::Ends::of_checkpoint, crate::proofs::Ends::of_tree))]
fn ends(rec: &Rec<'_>, xid: Xid) -> bool
    ensures { result ≡ ends xid.0 rec.now.head.xid.0 (kind_of rec.now.head rec.now.kind) }
{
    match &rec.kind {
        RecKind::Ended { xids, .. } => is_named(xid, rec.head.xid, xids.again()),
        RecKind::Running { oldest, .. } => xid.0 < oldest.0,
        RecKind::Checkpoint { next, .. } => rec.head.info & 0xF0 == 0x00 && xid.0 < next.0,
        _ => false,
    }
}

/// Whether an id is that of a transaction or of one of its subtransactions.
fn is_named(xid: Xid, top: Xid, subs: Xids<'_>) -> bool
    ensures { result ≡ is_named top.0 (numbers subs.entry) xid.0 }
{
    if top.0 == xid.0 {
        return true;
    }
    for sub in subs {
        if sub.0 == xid.0 {
            return true;
        }
    }
    false
}
