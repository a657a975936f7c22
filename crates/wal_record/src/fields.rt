ghost use Rattle.std.specs.Prelude.{◌≡◌, option_map};
ghost use Rattle.wal_record.specs.Parts.{number_from};

use pg_types::{u16_at, u32_at};

/// One byte, and what stands behind it.
#[tactic(auto, unfolding(crate::specs::Parts::number_from, pg_types::specs::Numbers::number_at))]
pub(crate) fn byte(text: &[u8]) -> Option<(u8, &[u8])>
    ensures { option_map (λ x. (x.0, x.1.now)) result ≡ number_from 1 text.now }
{
    if text.is_empty() {
        return None;
    }
    let (front, rest) = text.split_at(1);
    Some((front[0], rest))
}

/// A little-endian number of two bytes, and what stands behind it.
#[tactic(auto, unfolding(crate::specs::Parts::number_from))]
pub(crate) fn short(text: &[u8]) -> Option<(u16, &[u8])>
    ensures { option_map (λ x. (x.0, x.1.now)) result ≡ number_from 2 text.now }
{
    if text.len() < 2 {
        return None;
    }
    let (_, rest) = text.split_at(2);
    Some((u16_at(text, 0), rest))
}

/// A little-endian number of four bytes, and what stands behind it.
#[tactic(auto, unfolding(crate::specs::Parts::number_from))]
pub(crate) fn long(text: &[u8]) -> Option<(u32, &[u8])>
    ensures { option_map (λ x. (x.0, x.1.now)) result ≡ number_from 4 text.now }
{
    if text.len() < 4 {
        return None;
    }
    let (_, rest) = text.split_at(4);
    Some((u32_at(text, 0), rest))
}
