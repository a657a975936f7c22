ghost use Rattle.std.specs.Prelude.{◌≡◌};
ghost use Rattle.std.specs.List.{list_any};
ghost use Rattle.recovery_conflict.specs.Causes.{cause_of, first_lock, horizon_of, is_of_database, reaches};

use crate::locks::Cause;
use pg_types::{Lsn, Xid};
use record_fields::LockEntries;
use wal_bodies::{Rec, RecBlock, RecBlocks, RecKind};

/// Why a record cancels a scan of this relation of this database whose snapshot has this least live id, if it
/// does: its horizon is not below that id, or it has a lock of the relation. It takes no memory.
#[tactic(auto, unfolding(crate::specs::Causes::cause_of))]
pub fn conflict(rec: &Rec<'_>, database: u32, relation: u32, xmin: Xid) -> Option<Cause>
    ensures { result ≡ cause_of rec.now database relation xmin.0 }
{
    let horizon = horizon_of(&rec.kind);
    if reaches(rec, horizon, database, xmin) {
        return Some(Cause::Horizon {
            lsn: rec.start,
            horizon,
        });
    }
    match &rec.kind {
        RecKind::Locks { entries } => first_lock(entries.again(), rec.start, database, relation),
        _ => None,
    }
}

/// Up to which id a record of this kind removes what was deleted, or shows to all what was inserted; 0 for none.
fn horizon_of(kind: &RecKind<'_>) -> Xid
    ensures { result ≡ horizon_of kind.now }
{
    match kind {
        RecKind::Prune { horizon, .. }
        | RecKind::Freeze { horizon, .. }
        | RecKind::Visible { horizon, .. } => *horizon,
        _ => Xid(0),
    }
}

/// Whether the record's horizon reaches the snapshots with this least live id.
fn reaches(rec: &Rec<'_>, horizon: Xid, database: u32, xmin: Xid) -> bool
    requires { horizon ≡ horizon_of rec.now.kind }
    ensures { result ≡ reaches database xmin.0 rec.now }
{
    horizon.0 != 0 && xmin.0 <= horizon.0 && has_block_of(database, rec.blocks.again())
}

/// Whether one of the blocks is of the database, or of the tables that all databases share.
fn has_block_of(database: u32, blocks: RecBlocks<'_>) -> bool
    ensures { result ≡ list_any (is_of_database database) blocks.entry }
{
    for block in blocks {
        if is_of_database(database, &block) {
            return true;
        }
    }
    false
}

/// Whether a block is of the database, or of the tables that all databases share.
fn is_of_database(database: u32, block: &RecBlock<'_>) -> bool
    ensures { result ≡ is_of_database database block.now }
{
    block.locator.db == database || block.locator.db == 0
}

/// The first of these entries that locks the relation.
fn first_lock(entries: LockEntries<'_>, start: Lsn, database: u32, relation: u32) -> Option<Cause>
    ensures { result ≡ first_lock start database relation entries.entry }
{
    for entry in entries {
        if entry.database == database && entry.relation == relation {
            return Some(Cause::Lock {
                lsn: start,
                xid: entry.xid,
            });
        }
    }
    None
}
