use crate::blocks::RecBlocks;
use crate::new_tuples::NewTuples;
use pg_types::{Locator, Lsn, Tli, Xid};
use record_fields::{
    FreezePlans, Lines, Locators, LockEntries, Members, RecBytes, Redirects, Xids,
};
use thiserror::Error;
use wal_record::RecordHead;

/// A record in typed form, lent from the record's bytes.
#[derive(Drop)]
pub struct Rec<'a> {
    /// The record's header. Its info tells apart the kinds that share a variant of `RecKind`.
    pub head: RecordHead,
    /// Where the record begins.
    pub start: Lsn,
    /// Where it ends: one past its last byte, rounded up to a multiple of 8.
    pub end: Lsn,
    pub kind: RecKind<'a>,
    /// The blocks of the main fork that redo of this kind changes, by rising id.
    pub blocks: RecBlocks<'a>,
}

/// What a record's main data says. The fields of a variant stand in the order of the record's own.
#[derive(Drop)]
pub enum RecKind<'a> {
    /// A checkpoint (`CheckPoint`, pg_control.h): at shutdown (info 0x00) or online (0x10).
    Checkpoint {
        /// Where redo begins.
        redo: Lsn,
        timeline: Tli,
        /// The timeline before, where this record begins a new one.
        previous: Tli,
        full_page_writes: bool,
        /// The next transaction id.
        next: Xid,
        next_multi: u32,
        /// The next offset of a multixact's members.
        next_member: u32,
        oldest_multi: u32,
        /// The oldest id of an active transaction.
        oldest_active: Xid,
    },
    /// The end of a base backup that began at this position.
    BackupEnd {
        start: Lsn,
    },
    /// The server's parameters (`xl_parameter_change`, xlog_internal.h).
    Parameters {
        max_connections: i32,
        max_worker_processes: i32,
        max_wal_senders: i32,
        max_prepared_transactions: i32,
        max_locks_per_transaction: i32,
        /// 0 minimal, 1 replica, 2 logical.
        wal_level: i32,
    },
    /// Full page writes were turned on or off; a record that says off is refused.
    FullPageWrites {
        on: bool,
    },
    /// Images of blocks, which are in `blocks` (info 0xA0 and 0xB0).
    Images,
    /// A record that was begun and given up (`xl_overwrite_contrecord`, xlog_internal.h).
    Overwrite {
        /// Where the record that was given up begins.
        given_up: Lsn,
        /// Microseconds from the beginning of the year 2000.
        time: i64,
    },
    /// The end of a transaction (`xl_xact_commit` and `xl_xact_abort`, xact.h): `info & 0x70` is 0x00
    /// at a commit and 0x20 at an abort. The transaction is the header's.
    Ended {
        /// Microseconds from the beginning of the year 2000.
        time: i64,
        /// Which further parts the record has, 0 where it says nothing of them.
        xinfo: u32,
        /// The transaction's subtransactions.
        xids: Xids<'a>,
        /// The files that are dropped with the end. Those of an abort are not used.
        files: Locators<'a>,
    },
    /// Subtransactions are assigned to a top-level transaction (`xl_xact_assignment`, xact.h): from here on they
    /// may be known by it alone.
    Assignment {
        /// The top-level transaction.
        top: Xid,
        xids: Xids<'a>,
    },
    /// The transactions that are running (`xl_running_xacts`, standbydefs.h).
    Running {
        /// How many of the ids are top-level ones.
        tops: u32,
        /// How many are subtransactions.
        subs: u32,
        /// Subtransactions may be missing.
        overflow: bool,
        next: Xid,
        oldest: Xid,
        /// The latest id that ended.
        latest: Xid,
        xids: Xids<'a>,
    },
    /// A tuple is inserted at this line of block 0 (`xl_heap_insert`).
    Insert {
        line: u16,
        flags: u8,
    },
    /// The tuple at this line of block 0 is deleted (`xl_heap_delete`).
    Delete {
        xmax: Xid,
        line: u16,
        bits: u8,
        flags: u8,
    },
    /// A new tuple in block 0 replaces an old one, in block 1 where there is one (`xl_heap_update`):
    /// `info & 0x70` is 0x20, or 0x40 where the new tuple is heap-only.
    Update {
        old_xmax: Xid,
        old_line: u16,
        old_bits: u8,
        flags: u8,
        new_xmax: Xid,
        new_line: u16,
    },
    /// A speculative insertion stands (`xl_heap_confirm`).
    Confirm {
        line: u16,
    },
    /// The tuple at this line of block 0 is locked (`xl_heap_lock`).
    Lock {
        xmax: Xid,
        line: u16,
        bits: u8,
        flags: u8,
    },
    /// Tuples are inserted into block 0, each at its line (`xl_heap_multi_insert`). Where the block is
    /// made anew these are the lines from 1 on.
    MultiInsert {
        flags: u8,
        lines: Lines<'a>,
    },
    /// A tuple that was updated is locked too (`xl_heap_lock_updated`).
    LockUpdated {
        xmax: Xid,
        line: u16,
        bits: u8,
        flags: u8,
    },
    /// Lines of block 0 are pruned (`xl_heap_prune`). The lists are empty beside an image that is to be applied,
    /// which shows them.
    Prune {
        /// The latest id that a removed tuple was deleted by, or 0: snapshots that do not see it as ended conflict.
        horizon: Xid,
        /// The table is a catalogue.
        catalogue: u8,
        /// Lines that lead to others.
        redirected: Redirects<'a>,
        /// Lines whose tuples are gone.
        died: Lines<'a>,
        /// Lines that are unused.
        freed: Lines<'a>,
    },
    /// Dead lines of block 0 become unused (`xl_heap_vacuum`). The list is empty beside an image that is to be
    /// applied, which shows them.
    Vacuum {
        freed: Lines<'a>,
    },
    /// Tuples of block 0 are frozen (`xl_heap_freeze_page`). The list is empty beside an image that is to be applied,
    /// which shows them.
    Freeze {
        /// The latest id that a frozen tuple was inserted by, or a later one: snapshots that do not see it as ended
        /// conflict. 0 is none.
        horizon: Xid,
        /// The table is a catalogue.
        catalogue: u8,
        plans: FreezePlans<'a>,
    },
    /// All tuples of a block are visible to all (`xl_heap_visible`). The heap's block is block 1, of which at most an
    /// image is restored.
    Visible {
        /// The latest id that a tuple was inserted by, or 0: snapshots that do not see it as ended conflict.
        horizon: Xid,
        /// The bits that the visibility map gets (visibilitymapdefs.h): all-visible 0x01, all-frozen 0x02; and 0x04 of
        /// a catalogue.
        flags: u8,
    },
    /// The heap's own part of a file is cut (`xl_smgr_truncate`, storage_xlog.h).
    Truncate {
        /// How many blocks are left.
        block: u32,
        locator: Locator,
        /// Which parts are cut: the heap's own 0x01, the visibility map 0x02, the map of free space 0x04.
        flags: i32,
    },
    /// Access exclusive locks that transactions hold (`xl_standby_locks`, standbydefs.h).
    Locks {
        entries: LockEntries<'a>,
    },
    /// A multixact is made (`xl_multixact_create`, multixact.h).
    Multixact {
        id: u32,
        /// The offset of its first member among those of all multixacts.
        offset: u32,
        members: Members<'a>,
    },
    /// A record that a standby of one database passes over.
    Other,
}

/// A block that redo changes.
#[derive(Drop)]
pub struct RecBlock<'a> {
    /// The block's id in the record.
    pub id: u8,
    pub locator: Locator,
    pub block: u32,
    /// The page is made anew before the change.
    pub will_init: bool,
    pub image: Option<RecImage<'a>>,
    /// The tuples that the record puts into the block. None beside an image that is to be applied,
    /// which shows them.
    pub tuples: NewTuples<'a>,
}

/// A page image that a record holds of a block.
#[derive(Drop)]
pub struct RecImage<'a> {
    /// Replay restores the page from the image.
    pub apply: bool,
    /// Where the hole begins that `bytes` leave out: zeros, so many that the page has 8192 bytes.
    pub hole_at: u16,
    pub bytes: RecBytes<'a>,
}

/// A tuple by what a record holds of it (`xl_heap_header`, heapam_xlog.h).
#[derive(Drop)]
pub struct NewTuple<'a> {
    /// The infomask2: number of columns, and flags.
    pub mask2: u16,
    /// The infomask.
    pub mask: u16,
    /// Where the user data begins, counted from the tuple's begin.
    pub hoff: u8,
    /// How many bytes of user data are as the old tuple's first ones.
    pub prefix: u16,
    /// How many are as its last ones.
    pub suffix: u16,
    /// The rest, from the tuple's byte 23 on, without the bytes of `prefix` and `suffix`.
    pub rest: RecBytes<'a>,
}

/// Why a record is not applied.
#[derive(Clone, Copy, Debug, Error)]
pub enum BodyFault {
    /// Main data or block data is shorter than the kind needs, a count is below 0, or block 0 is missing.
    #[error("the record's body is too short")]
    Length,
    #[error("the record is of a kind that is not supported")]
    Unsupported(What),
}

/// What this standby does not support.
#[derive(Clone, Copy, Debug)]
pub enum What {
    /// Two-phase commit.
    Prepared,
    /// A change of a described table's tuple in its place.
    InPlace,
    /// A `wal_level` of minimal.
    Minimal,
    /// `full_page_writes` that are off.
    PageWrites,
    /// The described database is made or dropped.
    Database,
    /// A transaction id at or past the end of the first epoch.
    Epoch,
    /// A kind that is not built yet.
    NotYet,
}
