ghost use Rattle.std.specs.Prelude.{◌≡◌, ◌+◌, ◌-◌, ◌*◌, ◌^◌, ◌<◌, ◌++◌, max, nat_lt, length, replicate, Some, None, if◌then◌else◌};
ghost use Rattle.heap_page.specs.Change.{Changes, IsEmpty, IsSet};
ghost use Rattle.heap_page.specs.Item.{normal, with_item, numbered, tuple_in, aligned, room_in, is_unused};
ghost use Rattle.heap_page.specs.Page.{lsn_of, items_of, is_page, IsPage};
ghost use Rattle.heap_page.specs.Put.{is_free, put_answer, set_line_answer, set_head_answer, with_head, restored};
ghost use Rattle.heap_page.specs.Shown.{shown, item_to, IsState, KeepsRule};

use crate::bytes::{part, write_u32, zero_out};
use crate::change::{has_gap, is_joined_tuple, make_room};
use crate::image::assemble_image;
use crate::line::{Item, LineState, Page, PageError, PageImage};
use crate::page::{begin, item_at, lay_out, lines};
use crate::pointer::{change_line, line_count, overwrite_head};
use crate::room::{aligned, place, room_in};
use crate::rule::check;
use pg_types::{Lsn, u32_at};
use std::marker::Model;

/// A page of a heap: a block that keeps the page rule. Contracts see its bytes. The rule is tested where
/// bytes become a page (`read`, `shows_page`), and each change keeps it.
#[derive(Clone, Copy)]
pub struct HeapPage {
    bytes: Page,
}

impl Model for HeapPage {
    ghost use Rattle.std.specs.Prelude.{List, ℕ};
    ghost use Rattle.heap_page.specs.Page.{IsPage};

    ghost Value = { List ℕ };

    ghost view = { λ page. page.bytes };

    ghost invariant = { λ page. IsPage page.bytes };

    ghost inverse = { λ bytes. record { bytes = bytes } };
}

impl HeapPage {
    /// A page without items and of position 0.
    pub fn new() -> HeapPage
        ensures { IsEmpty result }
    {
        let mut bytes = [0; 8192];
        begin(&mut bytes);
        HeapPage { bytes }
    }

    /// A block that was added to the file and never written; it is a page without items.
    pub fn zeros() -> HeapPage
        ensures { result ≡ replicate 8192 0 }
    {
        HeapPage { bytes: [0; 8192] }
    }

    /// The page of a block that was read, `None` exactly where its bytes break the page rule.
    pub fn read(bytes: &Page) -> Option<HeapPage>
        ensures { result ≡ (if is_page bytes.now then Some bytes.now else None) }
    {
        if !check(bytes) {
            return None;
        }
        Some(HeapPage { bytes: *bytes })
    }

    /// The page's bytes, as they stand in a block.
    pub fn bytes(&self) -> &Page
        ensures { result.now ≡ self.now }
    {
        &self.bytes
    }

    /// The law that a page keeps the page rule.
    pub fn keeps_rule(&self)
        ensures { IsPage self.now }
    {
        let _bytes = &self.bytes;
    }

    /// Makes the block a page without items and of position 0 (`PageInit`, bufpage.c).
    pub fn init(&mut self)
        ensures { IsEmpty self.new }
    {
        zero_out(&mut self.bytes);
        begin(&mut self.bytes);
    }

    /// The end of the last record that changed the page.
    #[tactic(auto, unfolding(crate::specs::Page::lsn_of))]
    pub fn lsn(&self) -> Lsn
        ensures { result.0 ≡ lsn_of self.now }
    {
        let high = u64::from(u32_at(&self.bytes, 0));
        let low = u64::from(u32_at(&self.bytes, 4));
        Lsn(high * 4294967296 + low)
    }

    /// Sets the end of the last record that changed the page.
    pub fn set_lsn(&mut self, lsn: Lsn)
        ensures { IsSet self.old self.new lsn.0 }
    {
        lay_out(&mut self.bytes);
        write_u32(&mut self.bytes, 0, (lsn.0 / 4294967296) as u32);
        write_u32(&mut self.bytes, 4, (lsn.0 % 4294967296) as u32);
    }

    /// The number of the last line that is not unused, and 0 where there is none.
    pub fn lines(&self) -> u16
        ensures { result ≡ length (items_of self.now) }
    {
        lines(&self.bytes)
    }

    /// What stands at a line, numbered from 1. Line 0 and a line past the last are unused. The bytes of a
    /// tuple keep the tuple rule.
    pub fn item(&self, line: u16) -> Item<'_>
        ensures item { shown result ≡ numbered (items_of self.now) line }
        ensures rule { KeepsRule result }
    {
        if line == 0 || line_count(&self.bytes) < line as usize {
            return Item::Unused;
        }
        item_at(&self.bytes, line as usize - 1)
    }

    /// Whether a line, numbered from 1, is unused.
    fn is_unused(&self, line: u16) -> bool
        ensures { result ≡ is_unused (numbered (items_of self.now) line) }
    {
        match self.item(line) {
            Item::Unused => true,
            _ => false,
        }
    }

    /// Gives a line, numbered from 1, a state without a tuple. `NoLine` comes exactly where the line is
    /// unused.
    #[tactic(auto, unfolding(crate::specs::Put::set_line_answer))]
    pub fn set_line(&mut self, line: u16, to: LineState) -> Result<(), PageError>
        requires { IsState to }
        ensures { Changes (set_line_answer (items_of self.old) line)
            (with_item (items_of self.old) (line - 1) (item_to to)) self.old self.new result }
    {
        if self.is_unused(line) {
            return Err(PageError::NoLine);
        }
        change_line(&mut self.bytes, line as usize - 1, to);
        Ok(())
    }

    /// What `set_head` would answer. It changes nothing.
    #[tactic(auto, unfolding(crate::specs::Put::set_head_answer))]
    pub fn check_head(&self, line: u16, head: &[u8; 23]) -> Result<(), PageError>
        ensures { result ≡ set_head_answer (items_of self.now) line head.now }
    {
        let Item::Normal(bytes) = self.item(line) else {
            return Err(PageError::NoLine);
        };
        if !is_joined_tuple(head, part(bytes, 23, bytes.len() - 23)) {
            return Err(PageError::BadPage);
        }
        Ok(())
    }

    /// Puts another header into the tuple of a line, numbered from 1; its bytes from 23 on stay. `NoLine`
    /// comes exactly where the line has no tuple, then `BadPage` exactly where the tuple would break the
    /// tuple rule.
    pub fn set_head(&mut self, line: u16, head: &[u8; 23]) -> Result<(), PageError>
        ensures { Changes (set_head_answer (items_of self.old) line head.now)
            (with_item (items_of self.old) (line - 1)
            (normal (with_head (tuple_in (numbered (items_of self.old) line)) head.now))) self.old self.new result }
    {
        match self.check_head(line, head) {
            Ok(()) => {}
            Err(error) => return Err(error),
        }
        overwrite_head(&mut self.bytes, line as usize - 1, head);
        Ok(())
    }

    /// Whether a tuple may be put at a line, numbered from 1.
    fn is_free(&self, line: u16) -> bool
        ensures { result ≡ is_free (items_of self.now) line }
    {
        line != 0 && self.is_unused(line)
    }

    /// Whether the page has no room for a tuple of this length at a line, numbered from 1, however its
    /// tuples stand. Where the free part has the room, the lines are not summed.
    #[tactic(auto, using(std::proofs::lemmas::Bool::Decides::nat_tests))]
    fn is_full(&self, line: u16, len: usize) -> bool
        requires { len < 2 ^ 63 + 2 ^ 61 }
        ensures { result ≡ nat_lt 8192 (24 + 4 * max (length (items_of self.now)) line
            + (room_in (items_of self.now) + aligned len)) }
    {
        if has_gap(&self.bytes, line, len) {
            return false;
        }
        let count = self.lines().max(line) as usize;
        8192 < 24 + 4 * count + (room_in(&self.bytes) + aligned(len))
    }

    /// What `put` would answer. It changes nothing.
    #[tactic(auto, using(std::proofs::lemmas::Bool::Decides::nat_tests), unfolding(crate::specs::Put::put_answer))]
    pub fn check_put(&self, line: u16, head: &[u8; 23], rest: &[u8]) -> Result<(), PageError>
        ensures { result ≡ put_answer (items_of self.now) line (head.now ++ rest.now) }
    {
        if !self.is_free(line) {
            return Err(PageError::NoLine);
        }
        if !is_joined_tuple(head, rest) {
            return Err(PageError::BadPage);
        }
        if self.is_full(line, 23 + rest.len()) {
            return Err(PageError::Full);
        }
        Ok(())
    }

    /// Puts a tuple at a free line, numbered from 1: its header and its bytes from 23 on. Lines between
    /// the last and the new one become unused. `NoLine` comes exactly where the line is 0 or not free,
    /// then `BadPage` exactly where the bytes break the tuple rule, then `Full` exactly where the page has
    /// no room, however its tuples stand.
    pub fn put(&mut self, line: u16, head: &[u8; 23], rest: &[u8]) -> Result<(), PageError>
        ensures { Changes (put_answer (items_of self.old) line (head.now ++ rest.now))
            (with_item (items_of self.old) (line - 1) (normal (head.now ++ rest.now))) self.old self.new result }
    {
        match self.check_put(line, head, rest) {
            Ok(()) => {}
            Err(error) => return Err(error),
        }
        lay_out(&mut self.bytes);
        make_room(&mut self.bytes, line, 23 + rest.len());
        place(&mut self.bytes, line as usize - 1, head, rest);
        Ok(())
    }

    /// Makes the block the page that a full-page image shows, whatever the block held.
    pub fn restore(&mut self, image: &PageImage<'_>)
        requires { IsPage (restored image.now.hole_at image.now.bytes.now) }
        ensures { self.new ≡ restored image.now.hole_at image.now.bytes.now }
    {
        assemble_image(&mut self.bytes, image);
    }
}
