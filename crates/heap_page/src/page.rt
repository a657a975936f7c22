ghost use Rattle.std.specs.Prelude.{◌≡◌, ◌<◌, ℕ, length, slice_index};
ghost use Rattle.heap_page.specs.Change.{IsEmpty, IsLaid};
ghost use Rattle.heap_page.specs.Item.{item_in, is_unused};
ghost use Rattle.heap_page.specs.Page.{line_count, lines_of, items_of, IsPage};
ghost use Rattle.heap_page.specs.Shown.{shown, KeepsRule};

use crate::bytes::{part, write_u16};
use crate::line::{Item, Page};
use crate::pointer::{DEAD, NORMAL, REDIRECT, line_count, pointer_at};
use pg_types::u16_at;

/// Makes a block that is all zero a page without items and of position 0.
pub fn begin(page: &mut Page)
    requires { (i : ℕ) → slice_index page.old i ≡ 0 }
    ensures { IsEmpty page.new }
{
    write_u16(page, 12, 24);
    write_u16(page, 14, 8192);
    write_u16(page, 16, 8192);
    write_u16(page, 18, 0x2004);
}

/// Lays out a block that is all zero; it is a page without items before and after.
pub fn lay_out(page: &mut Page)
    requires { IsPage page.old }
    ensures { IsLaid page.old page.new }
{
    if u16_at(page, 18) == 0 {
        begin(page);
    }
}

/// The number of the last line that is not unused, and 0 where there is none.
pub fn lines(page: &Page) -> u16
    requires { IsPage page.now }
    ensures { result ≡ length (items_of page.now) }
{
    let mut count = line_count(page);
    while count > 0 && is_unused_at(page, count - 1) {
        count -= 1;
    }
    count as u16
}

/// Whether line `k`, from 0, is unused.
fn is_unused_at(page: &Page, k: usize) -> bool
    requires page { IsPage page.now }
    requires line { k < line_count page.now }
    ensures { result ≡ is_unused (item_in (lines_of page.now) k) }
{
    match item_at(page, k) {
        Item::Unused => true,
        _ => false,
    }
}

/// What stands at line `k`, from 0.
pub fn item_at(page: &Page, k: usize) -> Item<'_>
    requires page { IsPage page.now }
    requires line { k < line_count page.now }
    ensures item { shown result ≡ item_in (lines_of page.now) k }
    ensures rule { KeepsRule result }
{
    let pointer = pointer_at(page, k);
    if pointer.state == NORMAL {
        let bytes = part(page, pointer.offset as usize, pointer.length as usize);
        return Item::Normal(bytes);
    }
    if pointer.state == REDIRECT {
        return Item::Redirect(pointer.offset);
    }
    if pointer.state == DEAD {
        return Item::Dead;
    }
    Item::Unused
}
