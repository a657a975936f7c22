ghost use Rattle.std.specs.Prelude.{◌≡◌, [], true, false, is_some, None, Some, OnErr};
ghost use Rattle.heap_page.specs.Page.{items_of};
ghost use Rattle.heap_redo.specs.After.{applied, is_images};
ghost use Rattle.page_store.specs.Seen.{Seen, seen};
ghost use Rattle.heap_redo.specs.OneBlock.{IsChanged};
ghost use Rattle.heap_redo.specs.Redone.{is_anew, is_left, redone_block, seen_outcome};

use crate::change::change;
use crate::fault::BlockFault;
use heap_page::HeapPage;
use wal_bodies::{Rec, RecBlock, RecKind};

/// Whether the block has an image that is restored.
fn has_applied(block: &RecBlock<'_>) -> bool
    ensures { result ≡ is_some (applied block.now.image) }
{
    match &block.image {
        Some(image) => image.apply,
        None => false,
    }
}

/// Whether the record changes nothing of a block without an image: it is one of images, or of visibility.
fn is_images(rec: &Rec<'_>) -> bool
    ensures { result ≡ is_images rec.now.kind }
{
    match &rec.kind {
        RecKind::Images | RecKind::Visible { .. } => true,
        _ => false,
    }
}

/// Whether the page is restored from an image or made anew.
pub fn is_anew(block: &RecBlock<'_>) -> bool
    ensures { result ≡ is_anew block.now }
{
    has_applied(block) || block.will_init
}

/// Whether a record of images leaves the block as it is.
pub fn is_left(rec: &Rec<'_>, block: &RecBlock<'_>) -> bool
    ensures { result ≡ is_left rec.now block.now }
{
    is_images(rec) && !has_applied(block)
}

/// What a record leaves of a page without items that it makes anew.
pub fn anew(page: &mut HeapPage, rec: &Rec<'_>, block: &RecBlock<'_>) -> Result<(), BlockFault>
    requires items { items_of page.old ≡ [] }
    requires plain { applied block.now.image ≡ None }
    requires anew { is_anew block.now ≡ true }
    requires changes { IsChanged rec.now block.now }
    ensures { (before : Seen) → seen_outcome page.new result ≡ redone_block rec.now block.now before }
{
    change(page, rec, block)?;
    page.set_lsn(rec.end);
    Ok(())
}

/// What a record leaves of a block that is there, and that it does not make anew. A page that is refused
/// stays as it is.
pub fn changed(page: &mut HeapPage, rec: &Rec<'_>, block: &RecBlock<'_>) -> Result<(), BlockFault>
    requires anew { is_anew block.now ≡ false }
    requires changes { IsChanged rec.now block.now }
    ensures answer { seen_outcome page.new result ≡ redone_block rec.now block.now (seen (Some page.old)) }
    ensures err { OnErr result (page.new ≡ page.old) }
{
    page.keeps_rule();
    if rec.end.0 <= page.lsn().0 {
        return Ok(());
    }
    change(page, rec, block)?;
    page.set_lsn(rec.end);
    Ok(())
}
