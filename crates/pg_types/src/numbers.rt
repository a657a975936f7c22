ghost use Rattle.std.specs.Prelude.{◌≡◌, ◌+◌, ◌≤◌, length};
ghost use Rattle.pg_types.specs.Numbers.{number_at};

use byteorder::{ByteOrder, LittleEndian};

/// The little-endian number in the two bytes from `at` on.
#[tactic(auto, unfolding(crate::specs::Numbers::number_at))]
pub fn u16_at(bytes: &[u8], at: usize) -> u16
    requires { at + 2 ≤ length bytes.now }
    ensures { result ≡ number_at 2 bytes.now at }
{
    LittleEndian::read_u16(&bytes[at..])
}

/// The little-endian number in the four bytes from `at` on.
#[tactic(auto, unfolding(crate::specs::Numbers::number_at))]
pub fn u32_at(bytes: &[u8], at: usize) -> u32
    requires { at + 4 ≤ length bytes.now }
    ensures { result ≡ number_at 4 bytes.now at }
{
    LittleEndian::read_u32(&bytes[at..])
}

/// The little-endian number in the eight bytes from `at` on.
#[tactic(auto, unfolding(crate::specs::Numbers::number_at))]
pub fn u64_at(bytes: &[u8], at: usize) -> u64
    requires { at + 8 ≤ length bytes.now }
    ensures { result ≡ number_at 8 bytes.now at }
{
    LittleEndian::read_u64(&bytes[at..])
}
