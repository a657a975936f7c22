ghost use Rattle.std.specs.Prelude.{◌≡◌};
ghost use Rattle.wal_bodies.specs.Kinds.{running, locks, standby_kind, database_kind};

use crate::xact::count_from;
use pg_types::u32_at;
use record_fields::{LockEntries, Xids, xid_at};
use typed_records::{BodyFault, RecKind, What};

/// The kinds of a standby's records, by the info's high four bits.
#[tactic(auto, unfolding(crate::specs::Kinds::standby_kind))]
pub(crate) fn standby_kind<'a>(info: u8, main: &'a [u8]) -> Result<RecKind<'a>, BodyFault>
    ensures { result ≡ standby_kind info main.now }
{
    match info {
        0x00 => locks(main),
        0x10 => running(main),
        _ => Ok(RecKind::Other),
    }
}

/// The access exclusive locks that transactions hold.
#[tactic(auto, unfolding(crate::specs::Kinds::locks))]
fn locks<'a>(main: &'a [u8]) -> Result<RecKind<'a>, BodyFault>
    ensures { result ≡ locks main.now }
{
    let (count, rest) = count_from(main)?;
    let count = count as usize;
    if rest.len() < 12 * count {
        return Err(BodyFault::Length);
    }
    let entries = LockEntries::new(rest, count);
    Ok(RecKind::Locks { entries })
}

/// The transactions that are running.
#[tactic(auto, unfolding(crate::specs::Kinds::running))]
fn running<'a>(main: &'a [u8]) -> Result<RecKind<'a>, BodyFault>
    ensures { result ≡ running main.now }
{
    if main.len() < 24 {
        return Err(BodyFault::Length);
    }
    let tops = u32_at(main, 0);
    let subs = u32_at(main, 4);
    if 0x8000_0000 <= tops || 0x8000_0000 <= subs {
        return Err(BodyFault::Length);
    }
    let count = tops as usize + subs as usize;
    if main.len() < 24 + 4 * count {
        return Err(BodyFault::Length);
    }
    Ok(RecKind::Running {
        tops,
        subs,
        overflow: main[8] != 0,
        next: xid_at(main, 12),
        oldest: xid_at(main, 16),
        latest: xid_at(main, 20),
        xids: Xids::new(main, 24, count),
    })
}

/// The kinds of a database's records, by the info's high four bits: the described one may be neither
/// copied to nor dropped.
#[tactic(auto, unfolding(crate::specs::Kinds::database_kind))]
pub(crate) fn database_kind<'a>(
    database: u32,
    info: u8,
    main: &[u8],
) -> Result<RecKind<'a>, BodyFault>
    ensures { result ≡ database_kind database info main.now }
{
    if info != 0x00 && info != 0x20 {
        return Ok(RecKind::Other);
    }
    if main.len() < 4 {
        return Err(BodyFault::Length);
    }
    if u32_at(main, 0) == database {
        return Err(BodyFault::Unsupported(What::Database));
    }
    Ok(RecKind::Other)
}
