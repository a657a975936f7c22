//! CRC-32C, the checksum of log records and of files of state (pg_crc32c.h), by tables, sixteen bytes
//! a step.
#![tactic(auto)]

ghost use Rattle.std.specs.Prelude.{◌≡◌, ◌+◌, ◌≤◌, ◌++◌, drop, fold, length};
ghost use Rattle.byteorder.specs.Endian.{little_number};
ghost use Rattle.pg_crc32c.specs.Crc32c.{after_bits, after_byte, crc32c_of};

mod far_tables;
mod tables;

use byteorder::{ByteOrder, LittleEndian};

/// The CRC-32C of the two texts joined (`INIT_CRC32C`, `COMP_CRC32C` over each, `FIN_CRC32C`,
/// pg_crc32c.h). A caller with one text passes an empty second one.
///
/// It takes no memory, and time in proportion to the bytes.
#[tactic(auto, unfolding(crate::specs::Crc32c::crc32c_of))]
pub fn crc32c(first: &[u8], second: &[u8]) -> u32
    ensures { result ≡ crc32c_of (first.now ++ second.now) }
{
    extended(extended(u32::MAX, first), second) ^ u32::MAX
}

/// The state after the bytes: sixteen at a time, then the rest. Only the first four of sixteen are joined with
/// the state before, so the others' entries are read while that is still computed.
fn extended(crc: u32, bytes: &[u8]) -> u32
    ensures { result ≡ fold after_byte crc bytes.now }
{
    let mut state = crc;
    let mut at = 0;
    while bytes.len() - at >= 16 {
        let near = after_word(word_at(bytes, at + 8));
        state = near ^ after_far_word(u64::from(state) ^ word_at(bytes, at));
        at += 16;
    }
    after_end(state, &bytes[at..])
}

/// The state after the bytes, eight of which are taken at once where they are there.
fn after_end(crc: u32, bytes: &[u8]) -> u32
    ensures { result ≡ fold after_byte crc bytes.now }
{
    if bytes.len() < 8 {
        return after_half_end(crc, bytes);
    }
    let state = after_word(u64::from(crc) ^ word_at(bytes, 0));
    after_half_end(state, &bytes[8..])
}

/// The state after the bytes, four of which are taken at once where they are there.
fn after_half_end(crc: u32, bytes: &[u8]) -> u32
    ensures { result ≡ fold after_byte crc bytes.now }
{
    if bytes.len() < 4 {
        return after_rest(crc, bytes);
    }
    let state = after_half_word(crc ^ LittleEndian::read_u32(bytes));
    after_rest(state, &bytes[4..])
}

/// The eight bytes from `at` on as a number, the lowest byte first.
fn word_at(bytes: &[u8], at: usize) -> u64
    requires { at + 8 ≤ length bytes.now }
    ensures { result ≡ little_number 8 (drop at bytes.now) }
{
    LittleEndian::read_u64(&bytes[at..])
}

/// The state after the bytes, one by one.
fn after_rest(crc: u32, bytes: &[u8]) -> u32
    ensures { result ≡ fold after_byte crc bytes.now }
{
    let mut state = crc;
    for byte in bytes {
        state = step(state, *byte);
    }
    state
}

/// The state after one byte.
fn step(crc: u32, byte: u8) -> u32
    ensures { result ≡ after_byte crc byte }
{
    let low = (crc ^ u32::from(byte)) % 256;
    (crc >> 8) ^ tables::entry_1(low as usize)
}

/// The state after the 32 bits of `word`, into which the state before has been joined.
fn after_half_word(word: u32) -> u32
    ensures { result ≡ after_bits 32 word }
{
    tables::entry_1((word >> 24) as usize)
        ^ tables::entry_2((word >> 16) as usize % 256)
        ^ tables::entry_3((word >> 8) as usize % 256)
        ^ tables::entry_4(word as usize % 256)
}

/// The state after the 64 bits of `word`, into which the state before has been joined. Each byte is
/// divided by the table for its distance from the end (slicing by eight, as in pg_crc32c_sb8.c).
fn after_word(word: u64) -> u32
    ensures { result ≡ after_bits 64 word }
{
    tables::entry_1((word >> 56) as usize)
        ^ tables::entry_2((word >> 48) as usize % 256)
        ^ tables::entry_3((word >> 40) as usize % 256)
        ^ tables::entry_4((word >> 32) as usize % 256)
        ^ tables::entry_5((word >> 24) as usize % 256)
        ^ tables::entry_6((word >> 16) as usize % 256)
        ^ tables::entry_7((word >> 8) as usize % 256)
        ^ tables::entry_8(word as usize % 256)
}

/// The state after the 64 bits of `word`, into which the state before has been joined, and 64 bits of zeros.
fn after_far_word(word: u64) -> u32
    ensures { result ≡ after_bits 128 word }
{
    far_tables::entry_9((word >> 56) as usize)
        ^ far_tables::entry_10((word >> 48) as usize % 256)
        ^ far_tables::entry_11((word >> 40) as usize % 256)
        ^ far_tables::entry_12((word >> 32) as usize % 256)
        ^ far_tables::entry_13((word >> 24) as usize % 256)
        ^ far_tables::entry_14((word >> 16) as usize % 256)
        ^ far_tables::entry_15((word >> 8) as usize % 256)
        ^ far_tables::entry_16(word as usize % 256)
}
