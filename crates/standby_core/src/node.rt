ghost use Rattle.std.specs.Prelude.{◌≡◌, ◌≤◌, length, OnOk, OnErr};
ghost use Rattle.pg_types.specs.Names.{IsSegmentSize};
ghost use Rattle.pg_types.specs.SegmentSizes.{IsSegmentSize-prop};
ghost use Rattle.page_store.specs.Content.{content, table_count};
ghost use Rattle.table_schema.specs.Description.{locators};
ghost use Rattle.page_store.specs.Seen.{view_of};
ghost use Rattle.wal_bodies.specs.Xids.{AreXidsShort};
ghost use Rattle.xact_redo.specs.State.{state_after, transactions};
ghost use Rattle.recovery_conflict.specs.Held.{locks_after};
ghost use Rattle.standby_core.specs.Pages.{AreDescribed};
ghost use Rattle.standby_core.specs.Horizon.{oldest_asked, parents_kept};
ghost use Rattle.standby_core.specs.Replay.{awaited_after, redo_refusal};
ghost use Rattle.standby_core.specs.Steps.{TypedRedone, body_refusal, stopped_by, unread};

use crate::conflicts::mark_dropped;
use crate::scans::Scans;
use crate::types::{NodeFault, NodeStatus, Origin, Passed, Refusal, Replayed, Stopped};
use heap_redo::RedoFault;
use outside::Archive;
use page_store::Pool;
use pg_types::{Lsn, NoMemory, Tli, Xid};
use recovery_conflict::Locks;
use standby_snapshot::xmin;
use std::alloc::Global;
use table_schema::Tables;
use wal_archive::ArchiveLog;
use wal_bodies::{BodyFault, Rec, RecKind, body};
use wal_reader::{Next, ReadFault, Reader};
use wal_record::PrevRule;
use xact_redo::{XactState, ends_ids, reserve};

/// A standby's node. Contracts see the blocks of the described tables, the state of transactions, where
/// replay stands and after which record, the end of the backup that is awaited, the open scans, the locks in force
/// and which tables are gone.
#[derive(Drop)]
pub struct Node {
    pub(crate) alloc: Global,
    pub(crate) tables: Tables,
    segsize: u32,
    reader: Reader,
    /// The reader's position.
    pub(crate) at: Lsn,
    pub(crate) pool: Pool,
    pub(crate) state: XactState,
    min: Lsn,
    awaited: Option<Lsn>,
    pub(crate) scans: Scans,
    pub(crate) locks: Locks,
    /// Of each described table the start of the record that dropped its file.
    pub(crate) gone: Vec<Option<Lsn>>,
    ghost described: { table_count pool ≡ length tables.tables },
    ghost allowed: { IsSegmentSize segsize } by { IsSegmentSize-prop segsize },
    ghost same_size: { reader.source.segsize ≡ segsize },
    ghost same_at: { reader.at.0 ≡ at.0 },
    ghost scanned: { AreDescribed tables scans.open.items },
    ghost placed: { length gone.items ≡ length tables.tables },
}

impl Node {
    ghost use Rattle.std.specs.Prelude.{◌≢◌, IfOk, Ok, Err, Some, ℕ};
    ghost use Rattle.outside.specs.Faults.{Rose};
    ghost use Rattle.wal_archive.specs.ArchiveLog.{archived_bytes};
    ghost use Rattle.wal_record.specs.Decoded.{decoded};
    ghost use Rattle.wal_reader.specs.Calls.{WhereTold};
    ghost use Rattle.wal_reader.specs.Standing.{Answers, BearsPosition, MovesOn as ReadsOn, StandsStill};
    ghost use Rattle.wal_reader.specs.Step.{step};
    ghost use Rattle.standby_core.specs.Standby.{at_origin, node_status};
    ghost use Rattle.standby_core.specs.Replay.{MovesOn, ReplaysSome, StaysUnlessApplied};
    ghost use Rattle.standby_core.specs.Steps.{EndsAt, GivenRedone, GivenReplays, Gives};
    ghost use Rattle.standby_core.specs.View.{ReplaysTold, standby};

    /// A node at an origin, over a pool that was made for as many tables as are described. It awaits the end
    /// of the backup that began at the redo position.
    #[tactic(auto, unfolding(crate::specs::View::standby, crate::specs::Standby::at_origin))]
    pub fn at_origin(
        alloc: Global,
        tables: Tables,
        origin: &Origin,
        pool: Pool,
    ) -> Result<Node, NoMemory>
        requires tables { table_count pool ≡ length tables.tables }
        requires segment_size { IsSegmentSize origin.now.segsize }
        ensures { IfOk result (λ node. standby node ≡ at_origin tables origin.now (view_of (content pool))) }
    {
        let reader = Reader::start(
            alloc,
            origin.system,
            origin.segsize,
            origin.redo,
            PrevRule::Below,
        )?;
        let gone = vec![in alloc; None; tables.locators().len()]?;
        Ok(Node {
            alloc,
            tables,
            segsize: origin.segsize,
            reader,
            at: origin.redo,
            pool,
            state: XactState::new(alloc),
            min: origin.redo,
            awaited: Some(origin.redo),
            scans: Scans::new(alloc),
            locks: Locks::new(alloc),
            gone,
        })
    }

    /// Where the node stands. It takes no memory.
    #[tactic(auto, unfolding(crate::specs::View::standby, crate::specs::Standby::node_status))]
    pub fn status(&self) -> NodeStatus
        ensures { result ≡ node_status (standby self.now) }
    {
        NodeStatus {
            tli: Tli(1),
            at: self.at,
            min: self.min,
            awaited: self.awaited.is_some(),
            state: self.state.known.state(),
            scans: self.scans.count(),
        }
    }

    /// The description of the tables.
    #[tactic(auto, unfolding(crate::specs::View::standby))]
    pub fn tables(&self) -> &Tables
        ensures { result.now ≡ (standby self.now).tables }
    {
        &self.tables
    }

    /// The state of transactions.
    #[tactic(auto, unfolding(crate::specs::View::standby))]
    pub fn transactions(&self) -> &XactState
        ensures { transactions result.now ≡ (standby self.now).transactions }
    {
        &self.state
    }

    /// Replays the record at the node's position: its blocks are changed, then the state of transactions and
    /// the locks, the scans that it conflicts with are cancelled, and the node moves to its end
    /// (`ApplyWalRecord`). The room for the state and the locks is made before a block is changed. A backup-end
    /// record of the backup that is awaited ends the waiting.
    ///
    /// After every answer but `Applied` the position, the state of transactions, the locks and the scans are as
    /// before. After `Refused`, which comes again, and after `Memory` each block is as before the record or as
    /// after it. `Refused` and `AtEnd` bear the node's position. So much holds also over an archive that tells
    /// nothing.
    ///
    /// # Errors
    /// `Archive` only where the archive's faults rose. `Memory` where memory ran out.
    #[tactic(auto, unfolding(crate::specs::View::standby))]
    pub fn replay_one<A: Archive>(&mut self, archive: &mut A) -> Result<Replayed, NodeFault>
        ensures answer { ReplaysTold (archived_bytes (A.files archive.old) (standby self.old).segsize) result (standby self.old) (standby self.new) }
        ensures stays { StaysUnlessApplied result (standby self.old) (standby self.new) }
        ensures onward { MovesOn result (standby self.old).at.0 (standby self.new).at.0 }
        ensures tables { (standby self.new).tables ≡ (standby self.old).tables }
        ensures segsize { (standby self.new).segsize ≡ (standby self.old).segsize }
        ensures told { archived_bytes (A.files archive.new) (standby self.old).segsize ≡ archived_bytes (A.files archive.old) (standby self.old).segsize }
        ensures some { ReplaysSome result (standby self.old) (standby self.new) }
        ensures faults { A.fault_count archive.old ≤ A.fault_count archive.new }
        ensures cause { result ≡ Err NodeFault.Archive → Rose (A.fault_count archive.old) (A.fault_count archive.new) }
        ensures uncounted { result ≢ Err NodeFault.Archive → A.fault_count archive.new ≡ A.fault_count archive.old }
    {
        match self.read(archive) {
            Ok(Next::Record { start, end }) => self.apply(start, end),
            Ok(Next::AtEnd { lsn, why }) => Ok(Replayed::AtEnd { lsn, why }),
            Err(fault) => unread(fault),
        }
    }

    /// Reads the record at the node's position.
    #[tactic(auto, unfolding(crate::specs::View::standby))]
    fn read<A: Archive>(&mut self, archive: &mut A) -> Result<Next, ReadFault>
        ensures others { standby self.new ≡ record (standby self.old) { kept = (standby self.new).kept } }
        ensures still { StandsStill self.old.reader self.new.reader result }
        ensures bears { BearsPosition self.old.reader.at result }
        ensures onward { IfOk result (ReadsOn self.old.reader.at) }
        ensures answer { WhereTold (archived_bytes (A.files archive.old) self.old.segsize) (λ _. 1) self.old.reader.source self.new.reader.source
            (λ told. Answers result self.old.reader.at (λ start. decoded self.new.reader.source.text start self.old.reader.prev) (step told self.old.reader.at.0 self.old.reader.prev)) }
        ensures told { archived_bytes (A.files archive.new) self.old.segsize ≡ archived_bytes (A.files archive.old) self.old.segsize }
        ensures faults { A.fault_count archive.old ≤ A.fault_count archive.new }
        ensures cause { result ≡ Err ReadFault.Log → Rose (A.fault_count archive.old) (A.fault_count archive.new) }
        ensures uncounted { result ≢ Err ReadFault.Log → A.fault_count archive.new ≡ A.fault_count archive.old }
    {
        let mut log = ArchiveLog::plain(archive, self.segsize);
        self.reader.next(&mut log)
    }

    /// Replays the record that the reader gave last.
    #[tactic(auto, unfolding(crate::specs::View::standby))]
    fn apply(&mut self, start: Lsn, end: Lsn) -> Result<Replayed, NodeFault>
        requires { Gives self.old.reader start end }
        ensures replays { GivenReplays self.old.reader start end result (standby self.old) (standby self.new) }
        ensures stays { StaysUnlessApplied result (standby self.old) (standby self.new) }
        ensures ends { EndsAt result end (standby self.new) }
        ensures tables { (standby self.new).tables ≡ (standby self.old).tables }
        ensures segsize { (standby self.new).segsize ≡ (standby self.old).segsize }
        ensures kept { (standby self.new).kept ≡ (standby self.old).kept }
        ensures no_archive { result ≡ Err NodeFault.Archive → ⊥ }
    {
        match self.redo(start, end) {
            Ok(passed) => {
                self.pass(start, end, passed.awaited);
                Ok(Replayed::Applied {
                    start,
                    at: end,
                    cancelled: passed.cancelled,
                })
            }
            Err(Stopped::Refused(what)) => Ok(Replayed::Refused { lsn: self.at, what }),
            Err(Stopped::Memory) => Err(NodeFault::Memory),
        }
    }

    /// Changes the blocks, the state of transactions and the locks by the record that the reader gave last, forgets the
    /// parents that no snapshot may ask for, cancels the scans that the record conflicts with, and marks the tables that
    /// it drops.
    #[tactic(auto, unfolding(crate::specs::View::standby))]
    fn redo(&mut self, start: Lsn, end: Lsn) -> Result<Passed, Stopped>
        requires { Gives self.old.reader start end }
        ensures redone { GivenRedone self.old.reader start end result (standby self.old) (standby self.new) }
        ensures reader { self.new.reader ≡ self.old.reader }
        ensures at { self.new.at ≡ self.old.at }
    {
        let view = self.reader.record();
        let known = self.tables.locators();
        match body(&view, start, end, self.tables.database(), known) {
            Ok(rec) => {
                redo_typed(
                    &rec,
                    &self.tables,
                    &mut self.pool,
                    &mut self.state,
                    &mut self.locks,
                )?;
                forget_parents(&rec, &self.scans, &mut self.state);
                let cancelled = self.scans.cancel(&rec, &self.tables);
                mark_dropped(&rec, known, &mut self.gone);
                let awaited = awaited_after(&rec.kind, self.awaited);
                Ok(Passed { awaited, cancelled })
            }
            Err(fault) => Err(Stopped::Refused(refused_body(fault))),
        }
    }

    /// Moves past a record that was applied.
    #[tactic(auto, unfolding(crate::specs::View::standby))]
    fn pass(&mut self, start: Lsn, end: Lsn, awaited: Option<Lsn>)
        requires { Gives self.old.reader start end }
        ensures { standby self.new ≡ record (standby self.old) { at = end; prev = PrevRule.Is start; awaited = awaited } }
    {
        self.awaited = awaited;
        self.at = end;
        self.reader.accept();
    }
}

/// Changes the blocks, the state of transactions and the locks by a record. The room for the state and the locks is
/// made before a block is changed.
fn redo_typed(
    rec: &Rec<'_>,
    tables: &Tables,
    pool: &mut Pool,
    state: &mut XactState,
    locks: &mut Locks,
) -> Result<(), Stopped>
    requires tables { length tables.now.tables ≤ table_count pool.old }
    requires xids { AreXidsShort rec.now }
    ensures redone { TypedRedone rec.now (locators tables.now) result (view_of (content pool.old)) (view_of (content pool.new)) }
    ensures applied { OnOk result (transactions state.new ≡ state_after rec.now (transactions state.old)) }
    ensures stays { OnErr result (transactions state.new ≡ transactions state.old) }
    ensures locked { OnOk result (locks.new.locks ≡ locks_after rec.now locks.old.locks) }
    ensures held { OnErr result (locks.new.locks ≡ locks.old.locks) }
    ensures same_tables { table_count pool.new ≡ table_count pool.old }
{
    reserve(rec, state)?;
    locks.reserve(rec)?;
    match heap_redo::redo(rec, tables, pool) {
        Ok(()) => {}
        Err(fault) => return Err(stopped_at(fault)),
    }
    xact_redo::redo(rec, state);
    locks.redo(rec);
    Ok(())
}

/// After a record that ends ids, forgets the parents of the subtransactions of which neither an open scan's snapshot nor
/// one that is taken from here on may ask (`TruncateSUBTRANS`). It takes no memory: one look at each open scan, and what
/// `XactState::forget_below` costs.
#[tactic(auto, unfolding(crate::specs::Horizon::parents_kept))]
fn forget_parents(rec: &Rec<'_>, scans: &Scans, state: &mut XactState)
    ensures { transactions state.new ≡ parents_kept rec.now scans.now.open.items (transactions state.old) }
{
    if ends_ids(rec) {
        let oldest = oldest_asked(scans, state);
        state.forget_below(oldest);
    }
}

/// The least id of which an open scan's snapshot, or one that is taken from here on, may ask whether it is in progress.
#[tactic(auto, unfolding(xact_redo::specs::State::transactions))]
fn oldest_asked(scans: &Scans, state: &XactState) -> Xid
    ensures { result.0 ≡ oldest_asked (transactions state.now) scans.now.open.items }
{
    scans.least_xmin(xmin(&state.known))
}

/// Where the backup began whose end is awaited after a record of this kind.
fn awaited_after(kind: &RecKind<'_>, awaited: Option<Lsn>) -> Option<Lsn>
    ensures { result ≡ awaited_after kind.now awaited }
{
    match (kind, awaited) {
        (RecKind::BackupEnd { start }, Some(begun)) if start.0 == begun.0 => None,
        _ => awaited,
    }
}

/// The answer where the reader has none.
fn unread(fault: ReadFault) -> Result<Replayed, NodeFault>
    ensures { result ≡ unread fault }
{
    let (lsn, what) = match fault {
        ReadFault::Log => return Err(NodeFault::Archive),
        ReadFault::Memory => return Err(NodeFault::Memory),
        ReadFault::Compressed { lsn } => (lsn, Refusal::Compressed),
        ReadFault::TooLong { lsn } => (lsn, Refusal::TooLong),
    };
    Ok(Replayed::Refused { lsn, what })
}

/// Why a record has no typed form.
fn refused_body(fault: BodyFault) -> Refusal
    ensures { result ≡ body_refusal fault }
{
    match fault {
        BodyFault::Length => Refusal::Length,
        BodyFault::Unsupported(what) => Refusal::Unsupported(what),
    }
}

/// Why a record is not applied to its blocks.
fn stopped_at(fault: RedoFault) -> Stopped
    ensures { result ≡ stopped_by (redo_refusal fault) }
{
    Stopped::Refused(match fault {
        RedoFault::PageMissing { place } => Refusal::NoPage { block: place.block },
        RedoFault::NoTuple { place } => Refusal::NoTuple { place },
        RedoFault::PageFull { place } => Refusal::PageFull { place },
        RedoFault::BadPage { place } => Refusal::BadPage { block: place.block },
        RedoFault::Memory => return Stopped::Memory,
    })
}
