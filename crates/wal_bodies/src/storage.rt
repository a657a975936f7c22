ghost use Rattle.std.specs.Prelude.{◌≡◌};
ghost use Rattle.wal_bodies.specs.Kinds.{storage_kind};

use pg_types::u32_at;
use record_fields::{i32_at, locator_at};
use typed_records::{BodyFault, RecKind};

/// Of the flags of a truncation: the heap's own part is cut (`SMGR_TRUNCATE_HEAP`).
const CUTS_HEAP: u32 = 0x01;

/// The kinds of the storage's records, by the info's high four bits. A truncation that leaves the heap's own part as
/// it is is passed over.
#[tactic(auto, unfolding(crate::specs::Kinds::storage_kind))]
pub(crate) fn storage_kind<'a>(info: u8, main: &[u8]) -> Result<RecKind<'a>, BodyFault>
    ensures { result ≡ storage_kind info main.now }
{
    if info != 0x20 {
        return Ok(RecKind::Other);
    }
    if main.len() < 20 {
        return Err(BodyFault::Length);
    }
    if u32_at(main, 16) & CUTS_HEAP == 0 {
        return Ok(RecKind::Other);
    }
    Ok(RecKind::Truncate {
        block: u32_at(main, 0),
        locator: locator_at(main, 4),
        flags: i32_at(main, 16),
    })
}
