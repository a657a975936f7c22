ghost use Rattle.std.specs.Prelude.{◌≡◌};
ghost use Rattle.wal_bodies.specs.Kinds.{checkpoint, backup_end, parameters, page_writes, overwrite, xlog_kind};

use pg_types::{Xid, u32_at, u64_at};
use record_fields::{i32_at, i64_at, lsn_at, tli_at, xid_at};
use typed_records::{BodyFault, RecKind, What};

/// The least transaction id past the first epoch.
const NEXT_EPOCH: u64 = 1 << 32;

/// The kinds of the log's own records, by the info's high four bits.
#[tactic(auto, unfolding(crate::specs::Kinds::xlog_kind))]
pub(crate) fn xlog_kind<'a>(info: u8, main: &[u8]) -> Result<RecKind<'a>, BodyFault>
    ensures { result ≡ xlog_kind info main.now }
{
    match info {
        0x00 | 0x10 => checkpoint(main),
        0x50 => backup_end(main),
        0x60 => parameters(main),
        0x80 => page_writes(main),
        0x90 => Err(BodyFault::Unsupported(What::NotYet)),
        0xA0 | 0xB0 => Ok(RecKind::Images),
        0xD0 => overwrite(main),
        _ => Ok(RecKind::Other),
    }
}

#[tactic(auto, unfolding(crate::specs::Kinds::checkpoint))]
fn checkpoint<'a>(main: &[u8]) -> Result<RecKind<'a>, BodyFault>
    ensures { result ≡ checkpoint main.now }
{
    if main.len() < 88 {
        return Err(BodyFault::Length);
    }
    if u32_at(main, 8) != 1 || u32_at(main, 12) != 1 {
        return Err(BodyFault::Unsupported(What::NotYet));
    }
    if main[16] == 0 {
        return Err(BodyFault::Unsupported(What::PageWrites));
    }
    let next = u64_at(main, 24);
    if NEXT_EPOCH <= next {
        return Err(BodyFault::Unsupported(What::Epoch));
    }
    Ok(RecKind::Checkpoint {
        redo: lsn_at(main, 0),
        timeline: tli_at(main, 8),
        previous: tli_at(main, 12),
        full_page_writes: main[16] != 0,
        next: Xid(next),
        next_multi: u32_at(main, 36),
        next_member: u32_at(main, 40),
        oldest_multi: u32_at(main, 52),
        oldest_active: xid_at(main, 80),
    })
}

#[tactic(auto, unfolding(crate::specs::Kinds::backup_end))]
fn backup_end<'a>(main: &[u8]) -> Result<RecKind<'a>, BodyFault>
    ensures { result ≡ backup_end main.now }
{
    if main.len() < 8 {
        return Err(BodyFault::Length);
    }
    Ok(RecKind::BackupEnd {
        start: lsn_at(main, 0),
    })
}

#[tactic(auto, unfolding(crate::specs::Kinds::parameters))]
fn parameters<'a>(main: &[u8]) -> Result<RecKind<'a>, BodyFault>
    ensures { result ≡ parameters main.now }
{
    if main.len() < 24 {
        return Err(BodyFault::Length);
    }
    if u32_at(main, 20) == 0 {
        return Err(BodyFault::Unsupported(What::Minimal));
    }
    Ok(RecKind::Parameters {
        max_connections: i32_at(main, 0),
        max_worker_processes: i32_at(main, 4),
        max_wal_senders: i32_at(main, 8),
        max_prepared_transactions: i32_at(main, 12),
        max_locks_per_transaction: i32_at(main, 16),
        wal_level: i32_at(main, 20),
    })
}

#[tactic(auto, unfolding(crate::specs::Kinds::page_writes))]
fn page_writes<'a>(main: &[u8]) -> Result<RecKind<'a>, BodyFault>
    ensures { result ≡ page_writes main.now }
{
    if main.is_empty() {
        return Err(BodyFault::Length);
    }
    if main[0] == 0 {
        return Err(BodyFault::Unsupported(What::PageWrites));
    }
    Ok(RecKind::FullPageWrites { on: main[0] != 0 })
}

#[tactic(auto, unfolding(crate::specs::Kinds::overwrite))]
fn overwrite<'a>(main: &[u8]) -> Result<RecKind<'a>, BodyFault>
    ensures { result ≡ overwrite main.now }
{
    if main.len() < 16 {
        return Err(BodyFault::Length);
    }
    Ok(RecKind::Overwrite {
        given_up: lsn_at(main, 0),
        time: i64_at(main, 8),
    })
}
