ghost use Rattle.std.specs.Prelude.{◌≡◌, ◌≢◌, ◌<◌, IfOk, OnErr, OnOk};
ghost use Rattle.heap_tuple.specs.Tuple.{IsTuple};
ghost use Rattle.heap_tuple.specs.Values.{row_of};
ghost use Rattle.heap_page.specs.Item.{numbered};
ghost use Rattle.heap_page.specs.Page.{items_of};
ghost use Rattle.page_store.specs.Content.{content, table_count};
ghost use Rattle.page_store.specs.Seen.{seen};
ghost use Rattle.standby_snapshot.specs.Snapshot.{in_numbers};
ghost use Rattle.subtrans.specs.Parents.{topmost_of};
ghost use Rattle.tuple_visibility.specs.Visible.{visible_of};
ghost use Rattle.seq_scan.specs.BlockRows.{BlockRows, NoPage, block_rows, rows_from, with_tuple, with_values};
ghost use Rattle.seq_scan.specs.Meaning.{block_end, seen_by, with_item};
ghost use Rattle.seq_scan.specs.Printed.{printed_before, printed_rows};

use crate::rows::BlockEnd;
use heap_page::{HeapPage, Item};
use heap_tuple::{Column, RowFault, TupleView};
use page_store::{Pool, PoolFault};
use pg_types::{NoMemory, Tag};
use standby_snapshot::Snapshot;
use table_schema::print_tuple;
use tuple_visibility::{Statuses, visible};

/// Prints the line of the tuple of a line, which the snapshot sees, or answers what ends the rows.
fn print_row(
    tuple: &TupleView<'_>,
    line: u16,
    columns: &[Column],
    head: &[u8],
    out: &mut Vec<u8>,
) -> Result<Option<BlockEnd>, NoMemory>
    ensures { IfOk result (λ found. (rest : BlockRows) → printed_before head.now columns.now out.new.items found rest ≡ printed_rows head.now columns.now out.old.items (with_values line (row_of tuple.now columns.now) rest)) }
{
    let start = out.len();
    out.extend_from_slice(head)?;
    match print_tuple(columns, tuple, out) {
        Ok(()) => {
            out.push(b'\n')?;
            Ok(None)
        }
        Err(RowFault::Toasted { column }) => {
            out.truncate(start);
            Ok(Some(BlockEnd::Toasted { line, column }))
        }
        Err(RowFault::Bad { column }) => {
            out.truncate(start);
            Ok(Some(BlockEnd::Bad { line, column }))
        }
        Err(RowFault::Memory) => Err(NoMemory),
    }
}

/// Prints what a line gives whose tuple has these bytes.
fn print_seen<S: Statuses>(
    bytes: &[u8],
    line: u16,
    columns: &[Column],
    snapshot: &Snapshot,
    statuses: &S,
    head: &[u8],
    out: &mut Vec<u8>,
) -> Result<Option<BlockEnd>, NoMemory>
    requires { IsTuple bytes.now }
    ensures { let sees = seen_by (in_numbers snapshot.now) (S.parents_of statuses.now) (S.status_of statuses.now) (S.updater_of statuses.now) in
        IfOk result (λ found. (rest : BlockRows) → printed_before head.now columns.now out.new.items found rest ≡ printed_rows head.now columns.now out.old.items (with_tuple columns.now line bytes.now (sees bytes.now) rest)) }
{
    let Some(tuple) = TupleView::read(bytes) else {
        unreachable!()
    };
    match visible(&tuple, snapshot, statuses) {
        Ok(true) => print_row(&tuple, line, columns, head, out),
        Ok(false) => Ok(None),
        Err(unknown) => Ok(Some(BlockEnd::Unknown {
            line,
            id: unknown.id,
        })),
    }
}

/// Prints what a line gives, numbered from 1. A line without a tuple gives nothing.
fn print_line<S: Statuses>(
    page: &HeapPage,
    line: u16,
    columns: &[Column],
    snapshot: &Snapshot,
    statuses: &S,
    head: &[u8],
    out: &mut Vec<u8>,
) -> Result<Option<BlockEnd>, NoMemory>
    ensures { let sees = seen_by (in_numbers snapshot.now) (S.parents_of statuses.now) (S.status_of statuses.now) (S.updater_of statuses.now) in
        IfOk result (λ found. (rest : BlockRows) → printed_before head.now columns.now out.new.items found rest ≡ printed_rows head.now columns.now out.old.items (with_item columns.now sees line (numbered (items_of page.now) line) rest)) }
{
    match page.item(line) {
        Item::Normal(bytes) => print_seen(bytes, line, columns, snapshot, statuses, head, out),
        _ => Ok(None),
    }
}

/// Prints the rows of a page, and answers how they end.
fn print_page<S: Statuses>(
    page: &HeapPage,
    columns: &[Column],
    snapshot: &Snapshot,
    statuses: &S,
    head: &[u8],
    out: &mut Vec<u8>,
) -> Result<BlockEnd, NoMemory>
    ensures { let sees = seen_by (in_numbers snapshot.now) (S.parents_of statuses.now) (S.status_of statuses.now) (S.updater_of statuses.now) in
        IfOk result (λ end. (out.new.items, block_end end) ≡ printed_rows head.now columns.now out.old.items (rows_from columns.now sees 1 (items_of page.now))) }
{
    for k in 0..page.lines() {
        match print_line(page, k + 1, columns, snapshot, statuses, head, out)? {
            None => {}
            Some(end) => return Ok(end),
        }
    }
    Ok(BlockEnd::Whole)
}

/// How the rows of a block end whose page is not lent.
fn end_without(fault: PoolFault) -> Result<BlockEnd, NoMemory>
    ensures end { IfOk result (λ end. block_end end ≡ NoPage) }
    ensures ok { OnOk result (fault ≢ PoolFault.Memory) }
    ensures err { OnErr result (fault ≡ PoolFault.Memory) }
{
    match fault {
        PoolFault::Missing | PoolFault::BadPage => Ok(BlockEnd::NoPage),
        PoolFault::Memory => Err(NoMemory),
    }
}

/// Prints the rows of a block that `read_block` reads, without making them: behind what stands in `out` a
/// line for each, of `head`, the row's values (`Tables::print_row`) and a newline. Answers how they end.
/// It changes nothing of the pool's content. After an error a part of the lines may stand there.
pub fn print_block<S: Statuses>(
    pool: &mut Pool,
    tag: Tag,
    columns: &[Column],
    snapshot: &Snapshot,
    statuses: &S,
    head: &[u8],
    out: &mut Vec<u8>,
) -> Result<BlockEnd, NoMemory>
    requires table { tag.table < table_count pool.old }
    ensures rows { IfOk result (λ end. (out.new.items, block_end end) ≡ printed_rows head.now columns.now out.old.items (block_rows columns.now
        (λ tuple. visible_of tuple (in_numbers snapshot.now) (topmost_of (S.parents_of statuses.now)) (S.status_of statuses.now) (S.updater_of statuses.now))
        (seen (content pool.old tag.table tag.block)))) }
    ensures content { content pool.new ≡ content pool.old }
    ensures tables { table_count pool.new ≡ table_count pool.old }
{
    match pool.look(tag) {
        Ok(page) => print_page(page, columns, snapshot, statuses, head, out),
        Err(fault) => end_without(fault),
    }
}
