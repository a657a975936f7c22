ghost use Rattle.std.specs.Prelude.{◌≡◌, ◌+◌, ◌≤◌, ◌<◌, length, IsTrue};
ghost use Rattle.heap_page.specs.Item.{aligned};
ghost use Rattle.heap_page.specs.Page.{pointer_of, line_count, is_zeros, is_header, is_placed, are_apart, all_below, is_laid, is_page};
ghost use Rattle.heap_page.specs.Parts.{HasParts};
ghost use Rattle.heap_page.specs.Unit.{AreFree, ArePlaced, TakesUnits};

use crate::block_parts::BlockParts;
use crate::line::Page;
use crate::pointer::{NORMAL, Pointer, pointer_of_word};

/// Whether the block keeps the page rule: all of it is zero, or it has the header of a heap page, each
/// line that points to a tuple points to one at a multiple of 8 in the upper part, and no two of these
/// overlap.
#[tactic(auto, using(std::proofs::lemmas::Bool::Decides::nat_tests), unfolding(crate::specs::Page::is_page))]
pub fn check(page: &Page) -> bool
    ensures { result ≡ is_page page.now }
{
    check_parts(&BlockParts::block(page))
}

/// Whether the block that is shown keeps it.
#[tactic(auto, using(std::proofs::lemmas::Bool::Decides::nat_tests, crate::proofs::Parted::parted_page))]
pub fn check_parts(page: &BlockParts<'_>) -> bool
    ensures { result ≡ is_page page.now }
{
    page.keeps_size();
    page.is_zeros() || is_laid(page)
}

/// Whether the block is laid out as a heap page.
#[tactic(auto, unfolding(crate::specs::Page::is_laid))]
fn is_laid(page: &BlockParts<'_>) -> bool
    ensures { result ≡ is_laid page.now }
{
    is_header(page) && lines_are_placed(page) && lines_are_apart(page)
}

/// Whether the header is that of a heap page.
#[tactic(auto, using(std::proofs::lemmas::Bool::Decides::nat_tests), unfolding(crate::specs::Page::is_header))]
fn is_header(page: &BlockParts<'_>) -> bool
    ensures { result ≡ is_header page.now }
{
    let lower = page.u16_at(12);
    let upper = page.u16_at(14);
    page.u16_at(18) == 0x2004
        && page.u16_at(16) == 8192
        && 24 <= lower
        && lower <= upper
        && upper <= 8192
        && lower % 4 == 0
}

/// Line pointer `k`, from 0.
fn pointer_at(page: &BlockParts<'_>, k: usize) -> Pointer
    requires { k < 2042 }
    ensures { HasParts result (pointer_of page.now k) }
{
    pointer_of_word(page.u32_at(24 + 4 * k))
}

/// How many line pointers the block has.
fn line_count(page: &BlockParts<'_>) -> usize
    ensures { result ≡ line_count page.now }
{
    (page.u16_at(12) as usize).saturating_sub(24) / 4
}

/// Whether a line, if it points to a tuple, points to one in the upper part.
#[tactic(auto, using(std::proofs::lemmas::Bool::Decides::nat_tests), unfolding(crate::specs::Page::is_placed))]
fn is_placed(page: &BlockParts<'_>, k: usize) -> bool
    requires { k < 2042 }
    ensures { result ≡ is_placed page.now (pointer_of page.now k) }
{
    let pointer = pointer_at(page, k);
    if pointer.state != NORMAL {
        return true;
    }
    let start = pointer.offset as usize;
    let end = start + pointer.length as usize;
    if start % 8 != 0 || start < page.u16_at(14) as usize || 8192 < end {
        return false;
    }
    page.has_tuple(start, end)
}

/// Whether each line is placed.
fn lines_are_placed(page: &BlockParts<'_>) -> bool
    requires { IsTrue (is_header page.now) }
    ensures { result ≡ all_below (λ k. is_placed page.now (pointer_of page.now k)) (line_count page.now) }
{
    for k in 0..line_count(page) {
        if !is_placed(page, k) {
            return false;
        }
    }
    true
}

/// The end of a tuple's room.
fn end_of_room(pointer: Pointer) -> usize
    ensures { result ≡ pointer.offset + aligned pointer.length }
{
    pointer.offset as usize + (pointer.length as usize + 7) / 8 * 8
}

/// Takes the units of 8 bytes from `first` up to `end`, and answers whether each of them was free. After
/// a refusal some of them are taken.
fn take_units(taken: &mut [bool], first: usize, end: usize) -> bool
    requires order { first ≤ end }
    requires units { end ≤ length taken.old }
    ensures { TakesUnits taken.old taken.new first end result }
{
    for unit in first..end {
        if taken[unit] {
            return false;
        }
        taken[unit] = true;
    }
    true
}

/// Whether no unit of 8 bytes is taken by the tuples of two lines. All units are free before.
fn units_are_taken_once(page: &BlockParts<'_>, taken: &mut [bool]) -> bool
    requires lines { ArePlaced page.now }
    requires units { length taken.old ≡ 1024 }
    requires free { AreFree taken.old 0 1024 }
    ensures { result ≡ all_below
        (λ k. all_below (λ j. are_apart (pointer_of page.now j) (pointer_of page.now k)) k)
        (line_count page.now) }
{
    page.keeps_size();
    for k in 0..line_count(page) {
        let pointer = pointer_at(page, k);
        if pointer.state == NORMAL {
            let first = pointer.offset as usize / 8;
            if !take_units(taken, first, end_of_room(pointer) / 8) {
                return false;
            }
        }
    }
    true
}

/// Whether each tuple ends at or before the begin of the one of the line before it, as on a page that was
/// only filled. Such lines are apart.
fn lines_descend(page: &BlockParts<'_>) -> bool
    requires { IsTrue (is_header page.now) }
    ensures { IsTrue result → IsTrue (all_below
        (λ k. all_below (λ j. are_apart (pointer_of page.now j) (pointer_of page.now k)) k)
        (line_count page.now)) }
{
    let mut lowest = 8192;
    for k in 0..line_count(page) {
        let pointer = pointer_at(page, k);
        if pointer.state == NORMAL {
            if lowest < end_of_room(pointer) {
                return false;
            }
            lowest = pointer.offset as usize;
        }
    }
    true
}

/// Whether each two lines, all of them placed, are apart.
fn lines_are_apart(page: &BlockParts<'_>) -> bool
    requires { ArePlaced page.now }
    ensures { result ≡ all_below
        (λ k. all_below (λ j. are_apart (pointer_of page.now j) (pointer_of page.now k)) k)
        (line_count page.now) }
{
    if lines_descend(page) {
        return true;
    }
    let mut taken = [false; 1024];
    units_are_taken_once(page, &mut taken)
}
