ghost use Rattle.std.specs.Prelude.{◌≡◌, ◌+◌, ◌≤◌, ◌++◌, length, take};
ghost use Rattle.byteorder.specs.Endian.{little_bytes};
ghost use Rattle.heap_redo.specs.TupleHeads.{head_of, head_bytes, set_for, marked_mask, marked_mask2, marked, pointing_to, hot, pointing_after_delete, taken_back, deleted, replaced, unlinked_if_locked, locked, frozen};

use crate::bits::{
    EXCLUSIVE, IS_MULTI, KEY_SHARE, KEYS_UPDATED, LOCK_ONLY, PARTITION_MOVE, TAKEN_BACK, XMAX_BITS,
    has_bits,
};
use byteorder::{ByteOrder, LittleEndian};
use heap_tuple::is_lock_only;
use pg_types::{u16_at, u32_at};

/// What an update says of its two versions.
#[derive(Clone, Copy)]
pub struct Versions {
    pub old_xmax: u64,
    pub old_line: u16,
    pub old_bits: u8,
    pub new_xmax: u64,
    pub new_line: u16,
    /// The new version is heap-only.
    pub is_hot: bool,
}

/// The fields of a tuple's first 23 bytes (`HeapTupleHeaderData`, htup_details.h).
#[derive(Clone, Copy)]
pub struct Header {
    /// Its low 32 bits are stored, and those of `xmax`.
    pub xmin: u64,
    pub xmax: u64,
    pub cid: u32,
    pub ctid_block: u32,
    pub ctid_line: u16,
    pub mask2: u16,
    pub mask: u16,
    pub hoff: u8,
}

/// A flag that a bit of the record sets.
fn set_for(bits: u8, bit: u8, flag: u16) -> u16
    ensures { result ≡ set_for bits bit flag }
{
    if has_bits(bits, bit) { flag } else { 0 }
}

/// The infomask after a mark.
#[tactic(auto, unfolding(crate::specs::TupleHeads::marked_mask))]
fn marked_mask(bits: u8, mask: u16) -> u16
    ensures { result ≡ marked_mask bits mask }
{
    mask & (65535 - XMAX_BITS)
        | set_for(bits, IS_MULTI, 0x1000)
        | set_for(bits, LOCK_ONLY, 0x0080)
        | set_for(bits, EXCLUSIVE, 0x0040)
        | set_for(bits, KEY_SHARE, 0x0010)
}

/// The infomask2 after a mark.
#[tactic(auto, unfolding(crate::specs::TupleHeads::marked_mask2))]
fn marked_mask2(bits: u8, mask2: u16) -> u16
    ensures { result ≡ marked_mask2 bits mask2 }
{
    mask2 & (65535 - 0x2000) | set_for(bits, KEYS_UPDATED, 0x2000)
}

impl Header {
    ghost use Rattle.heap_redo.specs.Heads.{head_in};

    /// The header of a tuple.
    #[tactic(auto, unfolding(crate::specs::TupleHeads::head_of))]
    pub fn read(tuple: &[u8]) -> Header
        requires { 23 ≤ length tuple.now }
        ensures { head_in result ≡ head_of tuple.now }
    {
        Header {
            xmin: u64::from(u32_at(tuple, 0)),
            xmax: u64::from(u32_at(tuple, 4)),
            cid: u32_at(tuple, 8),
            ctid_block: u32::from(u16_at(tuple, 12)) * 65536 + u32::from(u16_at(tuple, 14)),
            ctid_line: u16_at(tuple, 16),
            mask2: u16_at(tuple, 18),
            mask: u16_at(tuple, 20),
            hoff: tuple[22],
        }
    }

    /// The header's 23 bytes.
    pub fn bytes(&self) -> [u8; 23]
        ensures { result ≡ head_bytes (head_in self.now) }
    {
        let mut bytes = [0u8; 23];
        put_u32(&mut bytes, 0, (self.xmin % 4_294_967_296) as u32);
        put_u32(&mut bytes, 4, (self.xmax % 4_294_967_296) as u32);
        put_u32(&mut bytes, 8, self.cid);
        put_u16(&mut bytes, 12, (self.ctid_block / 65536) as u16);
        put_u16(&mut bytes, 14, (self.ctid_block % 65536) as u16);
        put_u16(&mut bytes, 16, self.ctid_line);
        put_u16(&mut bytes, 18, self.mask2);
        put_u16(&mut bytes, 20, self.mask);
        bytes[22] = self.hoff;
        bytes
    }

    /// A deleter or locker is marked.
    pub fn marked(self, xmax: u64, bits: u8) -> Header
        ensures { head_in result ≡ marked xmax bits (head_in self) }
    {
        Header {
            xmax,
            mask: marked_mask(bits, self.mask),
            mask2: marked_mask2(bits, self.mask2),
            ..self
        }
    }

    /// The next version is at this place.
    pub fn pointing_to(self, block: u32, line: u16) -> Header
        ensures { head_in result ≡ pointing_to block line (head_in self) }
    {
        Header {
            ctid_block: block,
            ctid_line: line,
            ..self
        }
    }

    /// The next version is heap-only, or not.
    fn hot(self, is_hot: bool) -> Header
        ensures { head_in result ≡ hot is_hot (head_in self) }
    {
        let mask2 = if is_hot {
            self.mask2 | 0x4000
        } else {
            self.mask2 & (65535 - 0x4000)
        };
        Header { mask2, ..self }
    }

    /// Where a deleted tuple points.
    fn pointing_after_delete(self, flags: u8, block: u32, line: u16) -> Header
        ensures { head_in result ≡ pointing_after_delete flags block line (head_in self) }
    {
        if has_bits(flags, PARTITION_MOVE) {
            self.pointing_to(0xFFFF_FFFF, 0xFFFD)
        } else {
            self.pointing_to(block, line)
        }
    }

    /// A speculative insertion is taken back, if the flag says so: xmax is as it was before.
    fn taken_back(self, flags: u8, before: u64) -> Header
        ensures { head_in result ≡ taken_back flags before (head_in self) }
    {
        if has_bits(flags, TAKEN_BACK) {
            Header {
                xmin: 0,
                xmax: before,
                ..self
            }
        } else {
            self
        }
    }

    /// The header of a tuple that is deleted where it stands, at this block and line.
    #[tactic(auto, unfolding(crate::specs::TupleHeads::deleted))]
    pub fn deleted(self, xmax: u64, bits: u8, flags: u8, block: u32, line: u16) -> Header
        ensures { head_in result ≡ deleted xmax bits flags block line (head_in self) }
    {
        self.marked(xmax, bits)
            .hot(false)
            .pointing_after_delete(flags, block, line)
            .taken_back(flags, self.xmax)
    }

    /// The header of an updated tuple, whose next version is at this place.
    #[tactic(auto, unfolding(crate::specs::TupleHeads::replaced))]
    pub fn replaced(self, versions: Versions, block: u32) -> Header
        ensures { head_in result
            ≡ replaced versions.old_xmax versions.old_bits versions.is_hot block versions.new_line (head_in self) }
    {
        self.marked(versions.old_xmax, versions.old_bits)
            .hot(versions.is_hot)
            .pointing_to(block, versions.new_line)
    }

    /// A tuple that is only locked has no next version.
    fn unlinked_if_locked(self, block: u32, line: u16) -> Header
        ensures { head_in result ≡ unlinked_if_locked block line (head_in self) }
    {
        if is_lock_only(self.mask) {
            self.hot(false).pointing_to(block, line)
        } else {
            self
        }
    }

    /// The header of a tuple that is locked where it stands, at this block and line.
    #[tactic(auto, unfolding(crate::specs::TupleHeads::locked))]
    pub fn locked(self, xmax: u64, bits: u8, block: u32, line: u16) -> Header
        ensures { head_in result ≡ locked xmax bits block line (head_in self) }
    {
        self.marked(xmax, bits).unlinked_if_locked(block, line)
    }

    /// The header of a tuple that is frozen: its xmax and both masks are these.
    pub fn frozen(self, xmax: u64, mask2: u16, mask: u16) -> Header
        ensures { head_in result ≡ frozen xmax mask2 mask (head_in self) }
    {
        Header {
            xmax,
            mask2,
            mask,
            ..self
        }
    }
}

/// Puts bytes from `at` on.
fn put_bytes(bytes: &mut [u8; 23], at: usize, part: &[u8])
    requires { at + length part.now ≤ 23 }
    ensures { take (at + length part.now) bytes.new ≡ take at bytes.old ++ part.now }
{
    bytes[at..at + part.len()].copy_from_slice(part);
}

/// Puts a number into the four bytes from `at` on.
fn put_u32(bytes: &mut [u8; 23], at: usize, number: u32)
    requires { at + 4 ≤ 23 }
    ensures { take (at + 4) bytes.new ≡ take at bytes.old ++ little_bytes 4 number }
{
    let mut spelled = [0u8; 4];
    LittleEndian::write_u32(&mut spelled, number);
    put_bytes(bytes, at, &spelled);
}

/// Puts a number into the two bytes from `at` on.
fn put_u16(bytes: &mut [u8; 23], at: usize, number: u16)
    requires { at + 2 ≤ 23 }
    ensures { take (at + 2) bytes.new ≡ take at bytes.old ++ little_bytes 2 number }
{
    let mut spelled = [0u8; 2];
    LittleEndian::write_u16(&mut spelled, number);
    put_bytes(bytes, at, &spelled);
}
