ghost use Rattle.std.specs.Prelude.{◌≡◌, ◌+◌, ◌≤◌, length, IfOk};
ghost use Rattle.pg_types.specs.Numbers.{number_at};
ghost use Rattle.wal_record.specs.Decoded.{total_at, fields_of, tested, head_of, is_unknown_manager, may_link, has_right_crc};

use crate::types::{PrevRule, RecordFault, RecordHead};
use pg_crc32c::crc32c;
use pg_types::{Lsn, Xid, u32_at, u64_at};

/// The length of a header.
pub(crate) const HEADER: usize = 24;

/// The greatest length of a record, 64 MiB: this project's own limit.
const LONGEST: u32 = 64 * 1024 * 1024;

/// The header at the front of bytes that stand at the position `at`, tested but for the CRC. More
/// may follow, or less than the header's 24 bytes be there: its tests read 18 of them.
///
/// # Errors
/// `Zero`, `Short`, `Manager`, `Prev` and `TooLong`, tested in this order. `Layout` where the bytes end
/// before a field that is tested.
#[tactic(auto, unfolding(crate::specs::Decoded::head_of))]
pub fn decode_head(bytes: &[u8], at: Lsn, prev: PrevRule) -> Result<RecordHead, RecordFault>
    ensures exact { result ≡ head_of bytes.now at.0 prev }
    ensures bounds { IfOk result (λ head. (24 ≤ head.total) × (head.total ≤ 67108864)) }
{
    total(bytes)?;
    if bytes.len() < 18 {
        return Err(RecordFault::Layout);
    }
    tested(fields(bytes), at, prev)
}

#[tactic(auto, unfolding(crate::specs::Decoded::total_at))]
fn total(bytes: &[u8]) -> Result<u32, RecordFault>
    ensures exact { result ≡ total_at bytes.now }
    ensures header_fits { IfOk result (λ total. (24 ≤ total) × (total ≡ number_at 4 bytes.now 0)) }
{
    if bytes.len() < 4 {
        return Err(RecordFault::Layout);
    }
    match u32_at(bytes, 0) {
        0 => Err(RecordFault::Zero),
        1..=23 => Err(RecordFault::Short),
        total => Ok(total),
    }
}

/// The fields of the header at the front.
#[tactic(auto, unfolding(crate::specs::Decoded::fields_of))]
pub(crate) fn fields(bytes: &[u8]) -> RecordHead
    requires { 18 ≤ length bytes.now }
    ensures exact { result ≡ fields_of bytes.now }
    ensures total { result.total ≡ number_at 4 bytes.now 0 }
{
    RecordHead {
        total: u32_at(bytes, 0),
        xid: Xid(u64::from(u32_at(bytes, 4))),
        prev: Lsn(u64_at(bytes, 8)),
        info: bytes[16],
        manager: bytes[17],
    }
}

#[tactic(auto, unfolding(crate::specs::Decoded::tested))]
fn tested(head: RecordHead, at: Lsn, prev: PrevRule) -> Result<RecordHead, RecordFault>
    ensures exact { result ≡ tested head at.0 prev }
    ensures kept { IfOk result (λ found. (found.total ≡ head.total) × (found.total ≤ 67108864)) }
{
    if is_unknown_manager(head.manager) {
        Err(RecordFault::Manager)
    } else if !may_link(prev, at, head.prev) {
        Err(RecordFault::Prev)
    } else if head.total > LONGEST {
        Err(RecordFault::TooLong)
    } else {
        Ok(head)
    }
}

/// The ids from 22 to 127 are neither built in nor custom.
fn is_unknown_manager(manager: u8) -> bool
    ensures { result ≡ is_unknown_manager manager }
{
    22 <= manager && manager <= 127
}

fn may_link(rule: PrevRule, at: Lsn, link: Lsn) -> bool
    ensures { result ≡ may_link rule at.0 link.0 }
{
    match rule {
        PrevRule::Is(before) => link.0 == before.0,
        PrevRule::Below => link.0 < at.0,
    }
}

/// The CRC is over what stands behind the header, and then the header before the CRC.
pub(crate) fn has_right_crc(bytes: &[u8]) -> bool
    requires { 24 ≤ length bytes.now }
    ensures { result ≡ has_right_crc bytes.now }
{
    let (_, behind) = bytes.split_at(HEADER);
    let (front, _) = bytes.split_at(20);
    u32_at(bytes, 20) == crc32c(behind, front)
}
