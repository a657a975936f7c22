ghost use Rattle.std.specs.Prelude.{◌≡◌, ◌+◌, ◌*◌, ◌/◌, ◌^◌, ◌≤◌, ◌<◌, ◌++◌, max, nat_le, length, IsTrue};
ghost use Rattle.heap_tuple.specs.Tuple.{is_tuple};
ghost use Rattle.heap_page.specs.Change.{IsLaid};
ghost use Rattle.heap_page.specs.Item.{aligned, room_in};
ghost use Rattle.heap_page.specs.Page.{upper_of, line_count, items_of, is_laid};

use crate::line::Page;
use crate::pointer::line_count;
use crate::room::{aligned, compact};
use heap_tuple::is_tuple_head;
use pg_types::u16_at;

/// Whether a header and what follows it are a tuple.
pub fn is_joined_tuple(head: &[u8; 23], rest: &[u8]) -> bool
    ensures { result ≡ is_tuple (head.now ++ rest.now) }
{
    is_tuple_head(head, 23 + rest.len())
}

/// Whether a tuple of this length and its line, numbered from 1, fit into the free part as it is.
#[tactic(auto, using(std::proofs::lemmas::Bool::Decides::nat_tests))]
pub fn has_gap(page: &Page, line: u16, len: usize) -> bool
    requires few { line_count page.now ≤ 2042 }
    requires length { len < 2 ^ 63 + 2 ^ 61 }
    ensures { result ≡ nat_le (24 + 4 * max (line_count page.now) line + aligned len)
        (upper_of page.now / 8 * 8) }
{
    let count = line_count(page).max(line as usize);
    24 + 4 * count + aligned(len) <= u16_at(page, 14) as usize / 8 * 8
}

/// Makes room in the free part for a tuple of this length at a line, numbered from 1. The room is there
/// once the tuples stand one behind the other.
#[tactic(auto, using(std::proofs::lemmas::Bool::Decides::nat_tests))]
pub fn make_room(page: &mut Page, line: u16, len: usize)
    requires laid { IsTrue (is_laid page.old) }
    requires room { 24 + 4 * max (length (items_of page.old)) line
        + (room_in (items_of page.old) + aligned len) ≤ 8192 }
    ensures same { IsLaid page.old page.new }
    ensures fits { 24 + 4 * max (line_count page.new) line + aligned len ≤ upper_of page.new / 8 * 8 }
{
    if !has_gap(page, line, len) {
        compact(page);
    }
}
