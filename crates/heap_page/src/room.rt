ghost use Rattle.std.specs.Prelude.{◌≡◌, ◌+◌, ◌-◌, ◌*◌, ◌/◌, ◌%◌, ◌^◌, ◌≤◌, ◌<◌, ◌++◌, max, length, IsTrue};
ghost use Rattle.heap_tuple.specs.Tuple.{IsTuple};
ghost use Rattle.heap_page.specs.Change.{Becomes};
ghost use Rattle.heap_page.specs.Item.{normal, with_item, item_in, aligned, room_of, room_in};
ghost use Rattle.heap_page.specs.Shown.{item_to, IsState};
ghost use Rattle.heap_page.specs.Page.{lsn_of, lower_of, upper_of, line_count, lines_of, items_of, is_laid, IsPage};

use crate::bytes::part;
use crate::line::{Item, LineState, Page};
use crate::page::{item_at, lines};
use crate::pointer::{
    NORMAL, add_lines, change_line, clear, line_count, point_line, pointer_at, write_tuple,
};
use pg_types::u16_at;

/// Rounded up to a multiple of 8.
pub fn aligned(len: usize) -> usize
    requires { len < 2 ^ 63 + 2 ^ 62 }
    ensures { result ≡ aligned len }
{
    (len + 7) / 8 * 8
}

/// The room that the tuple of line `k` takes, from 0.
fn room_of_line(page: &Page, k: usize) -> usize
    requires page { IsPage page.now }
    requires line { k < line_count page.now }
    ensures room { result ≡ room_of (item_in (lines_of page.now) k) }
    ensures bound { result ≤ 65544 }
{
    let pointer = pointer_at(page, k);
    if pointer.state == NORMAL {
        return aligned(pointer.length as usize);
    }
    0
}

/// The room that the tuples of all lines take.
pub fn room_in(page: &Page) -> usize
    requires { IsPage page.now }
    ensures room { result ≡ room_in (items_of page.now) }
    ensures bound { result ≤ 65544 * 2042 }
{
    let mut total = 0;
    for k in 0..line_count(page) {
        total += room_of_line(page, k);
    }
    total
}

/// Adds unused lines up to line `k`, from 0, where it is not there.
fn reach_line(page: &mut Page, k: usize)
    requires laid { IsTrue (is_laid page.old) }
    requires room { 24 + 4 * max (line_count page.old) (k + 1) ≤ upper_of page.old }
    ensures { Becomes page.old page.new (items_of page.old)
        (24 + 4 * max (line_count page.old) (k + 1)) (upper_of page.old) }
{
    if line_count(page) <= k {
        add_lines(page, k + 1);
    }
}

/// Puts a tuple at line `k`, from 0, into the free part, which has the room.
pub fn place(page: &mut Page, k: usize, head: &[u8], rest: &[u8])
    requires laid { IsTrue (is_laid page.old) }
    requires room { 24 + 4 * max (line_count page.old) (k + 1)
        + aligned (length head.now + length rest.now) ≤ upper_of page.old / 8 * 8 }
    requires tuple { IsTuple (head.now ++ rest.now) }
    ensures { Becomes page.old page.new
        (with_item (items_of page.old) k (normal (head.now ++ rest.now)))
        (24 + 4 * max (line_count page.old) (k + 1))
        (upper_of page.old / 8 * 8 - aligned (length head.now + length rest.now)) }
{
    reach_line(page, k);
    let len = head.len() + rest.len();
    let at = u16_at(page, 14) as usize / 8 * 8 - aligned(len);
    write_tuple(page, at, head, rest);
    point_line(page, k, at as u16, len as u16);
}

/// Adds the line `k` of another page, from 0, behind the lines.
fn add_line(page: &mut Page, from: &Page, k: usize)
    requires laid { IsTrue (is_laid page.old) }
    requires from { IsPage from.now }
    requires line { k < line_count from.now }
    requires lines { line_count page.old ≡ k }
    requires multiple { upper_of page.old % 8 ≡ 0 }
    requires room { 24 + 4 * (k + 1) + room_of (item_in (lines_of from.now) k) ≤ upper_of page.old }
    ensures { Becomes page.old page.new
        (with_item (items_of page.old) k (item_in (lines_of from.now) k))
        (24 + 4 * (k + 1))
        (upper_of page.old - room_of (item_in (lines_of from.now) k)) }
{
    match item_at(from, k) {
        Item::Normal(bytes) => place(
            page,
            k,
            part(bytes, 0, 23),
            part(bytes, 23, bytes.len() - 23),
        ),
        Item::Redirect(line) => add_state(page, k, LineState::Redirect(line)),
        Item::Dead => add_state(page, k, LineState::Dead),
        Item::Unused => add_state(page, k, LineState::Unused),
    }
}

/// Adds a line without a tuple behind the lines.
fn add_state(page: &mut Page, k: usize, to: LineState)
    requires laid { IsTrue (is_laid page.old) }
    requires lines { line_count page.old ≡ k }
    requires room { 24 + 4 * (k + 1) ≤ upper_of page.old }
    requires state { IsState to }
    ensures { Becomes page.old page.new (with_item (items_of page.old) k (item_to to))
        (24 + 4 * (k + 1)) (upper_of page.old) }
{
    add_lines(page, k + 1);
    change_line(page, k, to);
}

/// Packs the tuples at the page's end, one behind the other, and drops the unused lines at the end.
pub fn compact(page: &mut Page)
    requires laid { IsTrue (is_laid page.old) }
    requires room { 24 + 4 * length (items_of page.old) + room_in (items_of page.old) ≤ 8192 }
    ensures { Becomes page.old page.new (items_of page.old)
        (24 + 4 * length (items_of page.old)) (8192 - room_in (items_of page.old)) }
{
    let mut packed = *page;
    clear(&mut packed);
    for k in 0..lines(page) as usize {
        add_line(&mut packed, page, k);
    }
    *page = packed;
}
