ghost use Rattle.std.specs.Prelude.{◌≡◌, ◌≢◌, ◌<◌, IfOk, OnOk, OnErr};
ghost use Rattle.heap_page.specs.Page.{items_of};
ghost use Rattle.page_store.specs.Content.{content, table_count};
ghost use Rattle.page_store.specs.Seen.{seen};
ghost use Rattle.standby_snapshot.specs.Snapshot.{in_numbers};
ghost use Rattle.subtrans.specs.Parents.{topmost_of};
ghost use Rattle.tuple_visibility.specs.Visible.{visible_of};
ghost use Rattle.seq_scan.specs.BlockRows.{NoPage, ends, block_rows, rows_from};
ghost use Rattle.seq_scan.specs.Meaning.{meaning, seen_by};

use crate::line::{Found, read_line};
use crate::rows::{BlockEnd, BlockRows, Rows};
use heap_page::HeapPage;
use heap_tuple::Column;
use page_store::{Pool, PoolFault};
use pg_types::{NoMemory, Tag};
use standby_snapshot::Snapshot;
use std::alloc::Global;
use tuple_visibility::Statuses;

/// Reads the rows of a page.
fn read_page<S: Statuses>(
    alloc: Global,
    page: &HeapPage,
    columns: &[Column],
    snapshot: &Snapshot,
    statuses: &S,
) -> Result<BlockRows, NoMemory>
    ensures { let sees = seen_by (in_numbers snapshot.now) (S.parents_of statuses.now) (S.status_of statuses.now) (S.updater_of statuses.now) in
        IfOk result (λ block. meaning block ≡ rows_from columns.now sees 1 (items_of page.now)) }
{
    let mut rows = Rows::new(alloc);
    for k in 0..page.lines() {
        match read_line(alloc, page, k + 1, columns, snapshot, statuses)? {
            Found::Nothing => {}
            Found::Row(row) => rows.push(row)?,
            Found::End(end) => return Ok(BlockRows { rows, end }),
        }
    }
    Ok(BlockRows {
        rows,
        end: BlockEnd::Whole,
    })
}

/// No rows, of a block whose page is not lent.
fn no_page(alloc: Global, fault: PoolFault) -> Result<BlockRows, NoMemory>
    ensures rows { IfOk result (λ block. meaning block ≡ ends NoPage) }
    ensures ok { OnOk result (fault ≢ PoolFault.Memory) }
    ensures err { OnErr result (fault ≡ PoolFault.Memory) }
{
    match fault {
        PoolFault::Missing | PoolFault::BadPage => Ok(BlockRows {
            rows: Rows::new(alloc),
            end: BlockEnd::NoPage,
        }),
        PoolFault::Memory => Err(NoMemory),
    }
}

/// Reads the rows of a block. It changes nothing of the pool's content.
pub fn read_block<S: Statuses>(
    alloc: Global,
    pool: &mut Pool,
    tag: Tag,
    columns: &[Column],
    snapshot: &Snapshot,
    statuses: &S,
) -> Result<BlockRows, NoMemory>
    requires table { tag.table < table_count pool.old }
    ensures rows { IfOk result (λ block. meaning block ≡ block_rows columns.now
        (λ tuple. visible_of tuple (in_numbers snapshot.now) (topmost_of (S.parents_of statuses.now)) (S.status_of statuses.now) (S.updater_of statuses.now))
        (seen (content pool.old tag.table tag.block))) }
    ensures content { content pool.new ≡ content pool.old }
    ensures tables { table_count pool.new ≡ table_count pool.old }
{
    match pool.look(tag) {
        Ok(page) => read_page(alloc, page, columns, snapshot, statuses),
        Err(fault) => no_page(alloc, fault),
    }
}
