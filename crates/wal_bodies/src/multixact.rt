ghost use Rattle.std.specs.Prelude.{◌≡◌};
ghost use Rattle.wal_bodies.specs.Kinds.{multixact, multixact_kind};

use pg_types::u32_at;
use record_fields::Members;
use typed_records::{BodyFault, RecKind};

/// The kinds of multixacts' records, by the info's high four bits.
#[tactic(auto, unfolding(crate::specs::Kinds::multixact_kind))]
pub(crate) fn multixact_kind<'a>(info: u8, main: &'a [u8]) -> Result<RecKind<'a>, BodyFault>
    ensures { result ≡ multixact_kind info main.now }
{
    match info {
        0x20 => multixact(main),
        _ => Ok(RecKind::Other),
    }
}

/// A multixact that is made.
#[tactic(auto, unfolding(crate::specs::Kinds::multixact))]
fn multixact<'a>(main: &'a [u8]) -> Result<RecKind<'a>, BodyFault>
    ensures { result ≡ multixact main.now }
{
    if main.len() < 12 {
        return Err(BodyFault::Length);
    }
    let count = u32_at(main, 8);
    if 0x8000_0000 <= count {
        return Err(BodyFault::Length);
    }
    let count = count as usize;
    if main.len() < 12 + 8 * count {
        return Err(BodyFault::Length);
    }
    Ok(RecKind::Multixact {
        id: u32_at(main, 0),
        offset: u32_at(main, 4),
        members: Members::new(main, 12, count),
    })
}
