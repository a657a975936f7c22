ghost use Rattle.std.specs.Prelude.{◌≡◌, ◌+◌, ◌≤◌, length};
ghost use Rattle.heap_page.specs.Joined.{joined};
ghost use Rattle.heap_page.specs.Page.{is_page};
ghost use Rattle.heap_page.specs.Put.{restored};

use crate::block_parts::BlockParts;
use crate::bytes::{write_bytes, write_zeros};
use crate::line::{Page, PageImage};
use crate::rule::check_parts;

/// Puts `first` at the begin of the page and `rest` at its end, and zeros between them.
#[tactic(auto, unfolding(crate::specs::Joined::joined))]
pub fn assemble(page: &mut Page, first: &[u8], rest: &[u8])
    requires { length first.now + length rest.now ≤ 8192 }
    ensures { page.new ≡ joined first.now rest.now }
{
    let end = 8192 - rest.len();
    write_bytes(page, 0, first);
    write_zeros(page, first.len(), end);
    write_bytes(page, end, rest);
}

/// What an image holds of its block: the bytes before its hole, and those behind it.
pub fn image_parts<'a>(image: &PageImage<'a>) -> (&'a [u8], &'a [u8])
    ensures joined { joined result.0.now result.1.now ≡ restored image.now.hole_at image.now.bytes.now }
    ensures length { length result.0.now + length result.1.now ≡ length image.now.bytes.now }
{
    let bytes = image.bytes;
    let hole_at = (image.hole_at as usize).min(bytes.len());
    bytes.split_at(hole_at)
}

/// Puts the block that an image shows in place of what stood there.
pub fn assemble_image(page: &mut Page, image: &PageImage<'_>)
    requires { length image.now.bytes.now ≤ 8192 }
    ensures { page.new ≡ restored image.now.hole_at image.now.bytes.now }
{
    let (first, rest) = image_parts(image);
    assemble(page, first, rest);
}

/// Whether the block that a full-page image shows keeps the page rule. It assembles no page.
pub fn shows_page(image: &PageImage<'_>) -> bool
    ensures { result ≡ is_page (restored image.now.hole_at image.now.bytes.now) }
{
    if 8192 < image.bytes.len() {
        return false;
    }
    check_parts(&BlockParts::image(image))
}
