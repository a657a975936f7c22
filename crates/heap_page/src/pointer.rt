ghost use Rattle.std.specs.Prelude.{◌≡◌, ◌≢◌, ◌+◌, ◌*◌, ◌≤◌, ◌<◌, ◌%◌, ◌++◌, ℕ, List, length, take, drop, IsTrue, []};
ghost use Rattle.heap_tuple.specs.Tuple.{IsTuple};
ghost use Rattle.heap_page.specs.Change.{Becomes};
ghost use Rattle.heap_page.specs.Item.{with_item, normal, aligned};
ghost use Rattle.heap_page.specs.Page.{pointer_of, state_in, bytes_at, item_of, line_count, lower_of, upper_of, items_of, is_laid};
ghost use Rattle.heap_page.specs.Parts.{HasParts};
ghost use Rattle.heap_page.specs.Put.{with_head};
ghost use Rattle.heap_page.specs.Shown.{item_to, IsState};

use crate::bytes::{write_bytes, write_u16, write_u32, write_zeros};
use crate::line::{LineState, Page};
use pg_types::{u16_at, u32_at};

/// The state of a line pointer that points to a tuple.
pub const NORMAL: u8 = 1;
/// The state of a line pointer that names another line.
pub const REDIRECT: u8 = 2;
/// The state of a line pointer whose tuple was taken away.
pub const DEAD: u8 = 3;

/// The parts of a line pointer (`ItemIdData`, itemid.h), which has 15, 2 and 15 bits for them.
#[derive(Clone, Copy)]
pub struct Pointer {
    pub offset: u16,
    pub state: u8,
    pub length: u16,
}

/// Line pointer `k`, from 0.
pub fn pointer_at(page: &Page, k: usize) -> Pointer
    requires { k < 2042 }
    ensures { HasParts result (pointer_of page.now k) }
{
    pointer_of_word(u32_at(page, 24 + 4 * k))
}

/// The parts of a line pointer's word.
pub fn pointer_of_word(word: u32) -> Pointer
    ensures { HasParts result word }
{
    Pointer {
        offset: (word % 32768) as u16,
        state: (word / 32768 % 4) as u8,
        length: (word / 131072) as u16,
    }
}

/// How many line pointers the page has.
pub fn line_count(page: &Page) -> usize
    ensures { result ≡ line_count page.now }
{
    let lower = u16_at(page, 12) as usize;
    lower.saturating_sub(24) / 4
}

/// Gives a line a state without a tuple.
pub fn change_line(page: &mut Page, k: usize, to: LineState)
    requires laid { IsTrue (is_laid page.old) }
    requires line { k < line_count page.old }
    requires state { IsState to }
    ensures { Becomes page.old page.new (with_item (items_of page.old) k (item_to to))
        (lower_of page.old) (upper_of page.old) }
{
    write_u32(page, 24 + 4 * k, empty_pointer(to));
}

/// The line pointer of a line without a tuple.
fn empty_pointer(to: LineState) -> u32
    requires { IsState to }
    ensures empty { state_in result ≢ 1 }
    ensures item { (page : List ℕ) → item_of page result ≡ item_to to }
{
    match to {
        LineState::Unused => 0,
        LineState::Redirect(line) => line as u32 + 2 * 32768,
        LineState::Dead => 3 * 32768,
    }
}

/// Adds unused lines up to `count` of them.
pub fn add_lines(page: &mut Page, count: usize)
    requires laid { IsTrue (is_laid page.old) }
    requires more { line_count page.old ≤ count }
    requires room { 24 + 4 * count ≤ upper_of page.old }
    ensures { Becomes page.old page.new (items_of page.old) (24 + 4 * count) (upper_of page.old) }
{
    let start = u16_at(page, 12) as usize;
    let end = 24 + 4 * count;
    write_zeros(page, start, end);
    write_u16(page, 12, end as u16);
}

/// Puts a tuple's bytes between the line pointers and the tuples.
pub fn write_tuple(page: &mut Page, at: usize, head: &[u8], rest: &[u8])
    requires laid { IsTrue (is_laid page.old) }
    requires past { lower_of page.old ≤ at }
    requires room { at + (length head.now + length rest.now) ≤ upper_of page.old }
    ensures same { Becomes page.old page.new (items_of page.old) (lower_of page.old) (upper_of page.old) }
    ensures tuple { take (length head.now + length rest.now) (drop at page.new) ≡ head.now ++ rest.now }
{
    write_bytes(page, at, head);
    write_bytes(page, at + head.len(), rest);
}

/// Points a line to the tuple that was written before all others.
pub fn point_line(page: &mut Page, k: usize, at: u16, length: u16)
    requires laid { IsTrue (is_laid page.old) }
    requires line { k < line_count page.old }
    requires multiple { at % 8 ≡ 0 }
    requires past { lower_of page.old ≤ at }
    requires room { at + aligned length ≤ upper_of page.old }
    requires tuple { IsTuple (take length (drop at page.old)) }
    ensures { Becomes page.old page.new
        (with_item (items_of page.old) k (normal (take length (drop at page.old))))
        (lower_of page.old) at }
{
    let pointer = at as u32 + 32768 + length as u32 * 131072;
    write_u32(page, 24 + 4 * k, pointer);
    write_u16(page, 14, at);
}

/// Puts another header into the tuple of line `k`.
pub fn overwrite_head(page: &mut Page, k: usize, head: &[u8; 23])
    requires laid { IsTrue (is_laid page.old) }
    requires line { k < line_count page.old }
    requires normal { state_in (pointer_of page.old k) ≡ 1 }
    requires tuple { IsTuple (with_head (bytes_at page.old (pointer_of page.old k)) head.now) }
    ensures { Becomes page.old page.new
        (with_item (items_of page.old) k
        (normal (with_head (bytes_at page.old (pointer_of page.old k)) head.now)))
        (lower_of page.old) (upper_of page.old) }
{
    let start = pointer_at(page, k).offset as usize;
    write_bytes(page, start, head);
}

/// Takes away all lines.
pub fn clear(page: &mut Page)
    requires { IsTrue (is_laid page.old) }
    ensures { Becomes page.old page.new [] 24 8192 }
{
    write_u16(page, 12, 24);
    write_u16(page, 14, 8192);
}
