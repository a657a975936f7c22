ghost use Rattle.std.specs.Prelude.{◌≡◌, ◌+◌, ◌-◌, ◌^◌, ◌≤◌, ◌<◌, length, replicate, ℕ, slice_index, take, drop};
ghost use Rattle.heap_page.specs.Write.{number_bytes, written};

use byteorder::{ByteOrder, LittleEndian};

/// Puts a number into the two bytes from `at` on.
#[tactic(auto, unfolding(crate::specs::Write::number_bytes))]
pub fn write_u16(page: &mut [u8], at: usize, number: u16)
    requires { at + 2 ≤ length page.old }
    ensures { page.new ≡ written page.old at (number_bytes 2 number) }
{
    let mut spelled = [0u8; 2];
    LittleEndian::write_u16(&mut spelled, number);
    write_bytes(page, at, &spelled);
}

/// Puts a number into the four bytes from `at` on.
#[tactic(auto, unfolding(crate::specs::Write::number_bytes))]
pub fn write_u32(page: &mut [u8], at: usize, number: u32)
    requires { at + 4 ≤ length page.old }
    ensures { page.new ≡ written page.old at (number_bytes 4 number) }
{
    let mut spelled = [0u8; 4];
    LittleEndian::write_u32(&mut spelled, number);
    write_bytes(page, at, &spelled);
}

/// Puts bytes from `at` on.
#[tactic(auto, unfolding(crate::specs::Write::written))]
pub fn write_bytes(page: &mut [u8], at: usize, bytes: &[u8])
    requires { at + length bytes.now ≤ length page.old }
    ensures { page.new ≡ written page.old at bytes.now }
{
    page[at..at + bytes.len()].copy_from_slice(bytes);
}

/// Puts zeros from `start` up to `end`.
#[tactic(auto, unfolding(crate::specs::Write::written))]
pub fn write_zeros(page: &mut [u8], start: usize, end: usize)
    requires order { start ≤ end }
    requires inside { end ≤ length page.old }
    ensures { page.new ≡ written page.old start (replicate (end - start) 0) }
{
    page[start..end].fill(0);
}

/// Makes each byte zero.
pub fn zero_out(page: &mut [u8])
    ensures { (i : ℕ) → slice_index page.new i ≡ 0 }
{
    page.fill(0);
}

/// The `len` bytes from `start` on.
pub fn part(page: &[u8], start: usize, len: usize) -> &[u8]
    requires { start + len ≤ length page.now }
    ensures { result.now ≡ take len (drop start page.now) }
{
    &page[start..start + len]
}
