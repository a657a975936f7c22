ghost use Rattle.std.specs.Prelude.{◌≡◌, ◌<◌, ◌≤◌, ◌^◌, true, false, length, None, Some, OnErr};
ghost use Rattle.page_store.specs.Content.{content, table_count};
ghost use Rattle.heap_redo.specs.After.{applied};
ghost use Rattle.page_store.specs.Seen.{seen, view_of};
ghost use Rattle.heap_redo.specs.OneBlock.{IsChanged, IsRedone};
ghost use Rattle.heap_redo.specs.Redone.{fault_by, fault_outcome, is_anew, redone_block, redone_in, redone_at, cut_by, view_outcome, Stands};
ghost use Rattle.table_schema.specs.Description.{locators};

use crate::block::{anew, changed, is_anew, is_left};
use crate::cut::{cut, table_of};
use crate::fault::{BlockFault, RedoFault, fault_at, pool_fault};
use heap_page::{HeapPage, PageImage, shows_page};
use page_store::Pool;
use pg_types::{Locator, Tag};
use table_schema::Tables;
use wal_bodies::{Rec, RecBlock, RecImage};

/// Changes the page of a block, or answers why not.
fn change_page(page: &mut HeapPage, rec: &Rec<'_>, block: &RecBlock<'_>) -> Result<(), RedoFault>
    requires anew { is_anew block.now ≡ false }
    requires changes { IsChanged rec.now block.now }
    ensures answer { fault_outcome page.new result ≡ fault_by block.now (redone_block rec.now block.now (seen (Some page.old))) }
    ensures err { OnErr result (page.new ≡ page.old) }
{
    match changed(page, rec, block) {
        Ok(()) => Ok(()),
        Err(refusal) => Err(fault_at(block, refusal)),
    }
}

/// Changes a block that is there.
fn change(pool: &mut Pool, table: u16, rec: &Rec<'_>, block: &RecBlock<'_>) -> Result<(), RedoFault>
    requires table { table < table_count pool.old }
    requires anew { is_anew block.now ≡ false }
    requires changes { IsChanged rec.now block.now }
    ensures answer { view_outcome (view_of (content pool.new)) result
        ≡ redone_in rec.now block.now (view_of (content pool.old)) (Some table) }
    ensures err { OnErr result (content pool.new ≡ content pool.old) }
    ensures tables { table_count pool.new ≡ table_count pool.old }
{
    let tag = Tag {
        table,
        block: block.block,
    };
    match pool.page(tag) {
        Ok(page) => change_page(page, rec, block),
        Err(fault) => Err(pool_fault(block, fault)),
    }
}

/// Makes a block the page that its image shows, whatever stands there: in place, since the image is
/// tested before.
fn restore(
    pool: &mut Pool,
    table: u16,
    rec: &Rec<'_>,
    block: &RecBlock<'_>,
    image: &RecImage<'_>,
) -> Result<(), RedoFault>
    requires table { table < table_count pool.old }
    requires image { applied block.now.image ≡ Some image.now }
    requires block { block.now.block < 4294967295 }
    ensures { IsRedone pool.old pool.new result
        (redone_in rec.now block.now (view_of (content pool.old)) (Some table)) }
{
    let view = PageImage {
        hole_at: image.hole_at,
        bytes: image.bytes.as_slice(),
    };
    if !shows_page(&view) {
        return Err(fault_at(block, BlockFault::BadPage));
    }
    let tag = Tag {
        table,
        block: block.block,
    };
    match pool.fresh(tag) {
        Ok(page) => {
            page.restore(&view);
            page.set_lsn(rec.end);
            Ok(())
        }
        Err(fault) => Err(pool_fault(block, fault)),
    }
}

/// Makes a block anew by the record's change of a page without items, whatever stands there.
fn rebuild(
    pool: &mut Pool,
    table: u16,
    rec: &Rec<'_>,
    block: &RecBlock<'_>,
) -> Result<(), RedoFault>
    requires table { table < table_count pool.old }
    requires plain { applied block.now.image ≡ None }
    requires anew { is_anew block.now ≡ true }
    requires changes { IsChanged rec.now block.now }
    ensures { IsRedone pool.old pool.new result
        (redone_in rec.now block.now (view_of (content pool.old)) (Some table)) }
{
    let mut page = HeapPage::new();
    if let Err(refusal) = anew(&mut page, rec, block) {
        return Err(fault_at(block, refusal));
    }
    let tag = Tag {
        table,
        block: block.block,
    };
    match pool.fresh(tag) {
        Ok(fresh) => {
            *fresh = page;
            Ok(())
        }
        Err(fault) => Err(pool_fault(block, fault)),
    }
}

/// Makes a block anew, whatever stands there: as its image shows, if one is restored.
fn remake(pool: &mut Pool, table: u16, rec: &Rec<'_>, block: &RecBlock<'_>) -> Result<(), RedoFault>
    requires table { table < table_count pool.old }
    requires anew { is_anew block.now ≡ true }
    requires changes { IsChanged rec.now block.now }
    ensures { IsRedone pool.old pool.new result
        (redone_in rec.now block.now (view_of (content pool.old)) (Some table)) }
{
    if let Some(image) = &block.image {
        if image.apply {
            return restore(pool, table, rec, block, image);
        }
    }
    rebuild(pool, table, rec, block)
}

/// One block of a record. A block of another table is passed over.
fn redo_block(
    pool: &mut Pool,
    rec: &Rec<'_>,
    block: &RecBlock<'_>,
    known: &[Locator],
) -> Result<(), RedoFault>
    requires tables { length known.now ≤ table_count pool.old }
    requires few { length known.now < 2 ^ 16 }
    ensures { IsRedone pool.old pool.new result (redone_at rec.now known.now block.now (view_of (content pool.old))) }
{
    let Some(table) = table_of(known, block.locator) else {
        return Ok(());
    };
    if block.block == 4_294_967_295 {
        return Err(fault_at(block, BlockFault::NoPage));
    }
    if is_left(rec, block) {
        return Ok(());
    }
    if is_anew(block) {
        remake(pool, table as u16, rec, block)
    } else {
        change(pool, table as u16, rec, block)
    }
}

/// Applies a record that changes its blocks to those of the tables of which `known` has the files, in the
/// order of their numbers.
fn redo_blocks(rec: &Rec<'_>, known: &[Locator], pool: &mut Pool) -> Result<(), RedoFault>
    requires tables { length known.now ≤ table_count pool.old }
    requires few { length known.now < 2 ^ 16 }
    requires uncut { cut_by rec.now rec.now.kind known.now (view_of (content pool.old)) ≡ None }
    ensures answer { Stands rec.now known.now (view_of (content pool.old)) (view_of (content pool.new)) result }
    ensures tables { table_count pool.new ≡ table_count pool.old }
{
    for block in rec.blocks.again() {
        redo_block(pool, rec, &block, known)?;
    }
    Ok(())
}

/// Applies a record to the blocks of the described tables. Blocks of other tables are passed over.
///
/// A truncation cuts its table to its number of blocks (`smgr_redo`, storage.c), and a commit takes all
/// blocks of the tables whose files it drops (`xact_redo_commit`, xact.c); the files of an abort stay. Any
/// other record changes its blocks.
///
/// An image that is to be applied is restored whatever the page's position, and a block that the record
/// makes anew begins without items. Else the change is skipped where the page's position is at least the
/// record's end. Afterwards the page's position is the record's end.
///
/// # Errors
/// A record that takes blocks away is not refused, and takes no memory. Each fault but `Memory` names the
/// place. Each block is then as before the record or after it, the blocks up to one after and the others
/// before, and the record is refused again. After `Memory` too, and the block at which it came is not
/// refused; a repeated call then leaves what one call leaves.
pub fn redo(rec: &Rec<'_>, tables: &Tables, pool: &mut Pool) -> Result<(), RedoFault>
    requires tables { length tables.now.tables ≤ table_count pool.old }
    ensures answer { Stands rec.now (locators tables.now) (view_of (content pool.old)) (view_of (content pool.new)) result }
    ensures tables { table_count pool.new ≡ table_count pool.old }
{
    let known = tables.locators();
    if cut(pool, known, rec) {
        return Ok(());
    }
    redo_blocks(rec, known, pool)
}
