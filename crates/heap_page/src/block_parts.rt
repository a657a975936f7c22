ghost use Rattle.std.specs.Prelude.{◌≡◌, ◌+◌, ◌-◌, ◌≤◌, ◌<◌, get_or, take, drop, length};
ghost use Rattle.pg_types.specs.Numbers.{number_at};
ghost use Rattle.heap_tuple.specs.Tuple.{is_tuple};
ghost use Rattle.heap_page.specs.Page.{is_zeros};
ghost use Rattle.heap_page.specs.Put.{restored};

use crate::image::{assemble, image_parts};
use crate::line::{Page, PageImage};
use heap_tuple::is_tuple;
use pg_types::{u16_at, u32_at};
use std::marker::Model;

/// A block as an image shows it: a first part, zeros, and the rest at its end. Contracts see the whole block. What is
/// read of it is read where it stands.
#[derive(Drop)]
pub struct BlockParts<'a> {
    first: &'a [u8],
    rest: &'a [u8],
}

impl<'a> Model for BlockParts<'a> {
    ghost use Rattle.std.specs.Prelude.{ℕ, List, ◌+◌, ◌≤◌, length};
    ghost use Rattle.heap_page.specs.Joined.{joined};

    ghost Value = { List ℕ };

    ghost view = { λ parts. joined parts.first.now parts.rest.now };

    ghost invariant = { λ parts. length parts.first.now + length parts.rest.now ≤ 8192 };
}

impl<'a> BlockParts<'a> {
    /// A block as it is.
    pub fn block(page: &'a Page) -> BlockParts<'a>
        ensures { result ≡ page.now }
    {
        BlockParts {
            first: page,
            rest: &[],
        }
    }

    /// The block that a full-page image shows.
    pub fn image(image: &PageImage<'a>) -> BlockParts<'a>
        requires { length image.now.bytes.now ≤ 8192 }
        ensures { result ≡ restored image.now.hole_at image.now.bytes.now }
    {
        let (first, rest) = image_parts(image);
        BlockParts { first, rest }
    }

    /// Whether each byte is zero.
    pub fn is_zeros(&self) -> bool
        ensures { result ≡ is_zeros self.now }
    {
        are_zeros(self.first) && are_zeros(self.rest)
    }

    /// The law that it is a whole block.
    pub fn keeps_size(&self)
        ensures { length self.now ≡ 8192 }
    {
        let _first = self.first;
    }

    /// The byte at a place.
    fn byte_at(&self, at: usize) -> u8
        requires { at < 8192 }
        ensures { result ≡ get_or self.now at 0 }
    {
        let start = 8192 - self.rest.len();
        if at < self.first.len() {
            self.first[at]
        } else if start <= at {
            self.rest[at - start]
        } else {
            0
        }
    }

    /// The number in the two bytes from `at` on.
    pub fn u16_at(&self, at: usize) -> u16
        requires { at + 2 ≤ 8192 }
        ensures { result ≡ number_at 2 self.now at }
    {
        let start = 8192 - self.rest.len();
        if at + 2 <= self.first.len() {
            u16_at(self.first, at)
        } else if start <= at {
            u16_at(self.rest, at - start)
        } else {
            u16_at(&[self.byte_at(at), self.byte_at(at + 1)], 0)
        }
    }

    /// The number in the four bytes from `at` on.
    pub fn u32_at(&self, at: usize) -> u32
        requires { at + 4 ≤ 8192 }
        ensures { result ≡ number_at 4 self.now at }
    {
        let start = 8192 - self.rest.len();
        if at + 4 <= self.first.len() {
            u32_at(self.first, at)
        } else if start <= at {
            u32_at(self.rest, at - start)
        } else {
            let bytes = [
                self.byte_at(at),
                self.byte_at(at + 1),
                self.byte_at(at + 2),
                self.byte_at(at + 3),
            ];
            u32_at(&bytes, 0)
        }
    }

    /// Whether the bytes from `at` up to `end` keep the tuple rule.
    pub fn has_tuple(&self, at: usize, end: usize) -> bool
        requires order { at ≤ end }
        requires inside { end ≤ 8192 }
        ensures { result ≡ is_tuple (take (end - at) (drop at self.now)) }
    {
        let start = 8192 - self.rest.len();
        if end <= self.first.len() {
            is_tuple(&self.first[at..end])
        } else if start <= at {
            is_tuple(&self.rest[at - start..end - start])
        } else {
            let mut page = [0; 8192];
            assemble(&mut page, self.first, self.rest);
            is_tuple(&page[at..end])
        }
    }
}

/// Whether each byte is zero.
fn are_zeros(bytes: &[u8]) -> bool
    ensures { result ≡ is_zeros bytes.now }
{
    bytes.iter().all(|byte| *byte == 0)
}
