ghost use Rattle.std.specs.Prelude.{◌≡◌, ◌<◌, ◌≤◌, ◌^◌, false, length, None, Some, IfSome, if◌then◌else◌};
ghost use Rattle.page_store.specs.Content.{content, table_count};
ghost use Rattle.page_store.specs.Seen.{view_of};
ghost use Rattle.wal_bodies.specs.Typed.{is_commit};
ghost use Rattle.heap_redo.specs.Redone.{table_of, cut_file, drop_files, cut_by};

use page_store::Pool;
use pg_types::Locator;
use record_fields::Locators;
use wal_bodies::{Rec, RecKind};

/// The number of the table that has this file.
pub fn table_of(known: &[Locator], locator: Locator) -> Option<usize>
    ensures value { result ≡ table_of known.now locator }
    ensures bound { IfSome result (λ table. table < length known.now) }
{
    known.iter().position(|described| *described == locator)
}

/// Cuts the table that has this file to so many blocks, if one has it.
fn cut_file(pool: &mut Pool, known: &[Locator], file: Locator, blocks: u32)
    requires tables { length known.now ≤ table_count pool.old }
    requires few { length known.now < 2 ^ 16 }
    ensures view { view_of (content pool.new) ≡ cut_file (view_of (content pool.old)) blocks (table_of known.now file) }
    ensures tables { table_count pool.new ≡ table_count pool.old }
{
    if let Some(table) = table_of(known, file) {
        pool.truncate(table as u16, blocks);
    }
}

/// Drops the tables that have these files: none of their blocks is left.
fn drop_files(pool: &mut Pool, known: &[Locator], files: &Locators<'_>)
    requires tables { length known.now ≤ table_count pool.old }
    requires few { length known.now < 2 ^ 16 }
    ensures view { view_of (content pool.new) ≡ drop_files known.now files.now (view_of (content pool.old)) }
    ensures tables { table_count pool.new ≡ table_count pool.old }
{
    for file in files.again() {
        cut_file(pool, known, file, 0);
    }
}

/// Drops the files that stand in the end of a transaction, if it is a commit. Those of an abort stay.
fn drop_committed(pool: &mut Pool, known: &[Locator], rec: &Rec<'_>, files: &Locators<'_>)
    requires tables { length known.now ≤ table_count pool.old }
    requires few { length known.now < 2 ^ 16 }
    ensures view { view_of (content pool.new)
        ≡ (if is_commit rec.now.head then drop_files known.now files.now (view_of (content pool.old)) else view_of (content pool.old)) }
    ensures tables { table_count pool.new ≡ table_count pool.old }
{
    if rec.head.info & 0x70 == 0x00 {
        drop_files(pool, known, files);
    }
}

/// Takes away the blocks that a truncation or the end of a transaction takes away (`smgr_redo`, storage.c;
/// `xact_redo_commit`, xact.c), and answers whether the record is one of these. Any other changes its blocks.
pub fn cut(pool: &mut Pool, known: &[Locator], rec: &Rec<'_>) -> bool
    requires tables { length known.now ≤ table_count pool.old }
    requires few { length known.now < 2 ^ 16 }
    ensures view { cut_by rec.now rec.now.kind known.now (view_of (content pool.old))
        ≡ (if result then Some (view_of (content pool.new)) else None) }
    ensures kept { result ≡ false → content pool.new ≡ content pool.old }
    ensures tables { table_count pool.new ≡ table_count pool.old }
{
    match &rec.kind {
        RecKind::Truncate { block, locator, .. } => {
            cut_file(pool, known, *locator, *block);
            true
        }
        RecKind::Ended { files, .. } => {
            drop_committed(pool, known, rec, files);
            true
        }
        _ => false,
    }
}
