ghost use Rattle.std.specs.Prelude.{◌≡◌, IfOk};
ghost use Rattle.heap_tuple.specs.Tuple.{IsTuple};
ghost use Rattle.heap_tuple.specs.Values.{row_of};
ghost use Rattle.heap_page.specs.Item.{numbered};
ghost use Rattle.heap_page.specs.Page.{items_of};
ghost use Rattle.standby_snapshot.specs.Snapshot.{in_numbers};
ghost use Rattle.seq_scan.specs.BlockRows.{BlockRows, with_values, with_tuple};
ghost use Rattle.seq_scan.specs.Meaning.{before, seen_by, with_item};

use crate::rows::BlockEnd;
use heap_page::{HeapPage, Item};
use heap_tuple::{Column, Row, RowFault, TupleView};
use pg_types::NoMemory;
use standby_snapshot::Snapshot;
use std::alloc::Global;
use tuple_visibility::{Statuses, visible};

/// What a scan finds at a line: no row, a row, or what ends the rows.
#[derive(Drop)]
pub enum Found {
    Nothing,
    Row(Row),
    End(BlockEnd),
}

/// The row of the tuple of a line, which the snapshot sees.
fn read_row(
    alloc: Global,
    tuple: &TupleView<'_>,
    line: u16,
    columns: &[Column],
) -> Result<Found, NoMemory>
    ensures { IfOk result (λ found. (rest : BlockRows) → before found rest ≡ with_values line (row_of tuple.now columns.now) rest) }
{
    match tuple.deform(alloc, columns) {
        Ok(row) => Ok(Found::Row(row)),
        Err(RowFault::Toasted { column }) => Ok(Found::End(BlockEnd::Toasted { line, column })),
        Err(RowFault::Bad { column }) => Ok(Found::End(BlockEnd::Bad { line, column })),
        Err(RowFault::Memory) => Err(NoMemory),
    }
}

/// What a line gives whose tuple has these bytes.
fn read_tuple<S: Statuses>(
    alloc: Global,
    bytes: &[u8],
    line: u16,
    columns: &[Column],
    snapshot: &Snapshot,
    statuses: &S,
) -> Result<Found, NoMemory>
    requires { IsTuple bytes.now }
    ensures { let sees = seen_by (in_numbers snapshot.now) (S.parents_of statuses.now) (S.status_of statuses.now) (S.updater_of statuses.now) in
        IfOk result (λ found. (rest : BlockRows) → before found rest ≡ with_tuple columns.now line bytes.now (sees bytes.now) rest) }
{
    let Some(tuple) = TupleView::read(bytes) else {
        unreachable!()
    };
    match visible(&tuple, snapshot, statuses) {
        Ok(true) => read_row(alloc, &tuple, line, columns),
        Ok(false) => Ok(Found::Nothing),
        Err(unknown) => Ok(Found::End(BlockEnd::Unknown {
            line,
            id: unknown.id,
        })),
    }
}

/// What a line gives, numbered from 1. A line without a tuple gives nothing.
pub fn read_line<S: Statuses>(
    alloc: Global,
    page: &HeapPage,
    line: u16,
    columns: &[Column],
    snapshot: &Snapshot,
    statuses: &S,
) -> Result<Found, NoMemory>
    ensures { let sees = seen_by (in_numbers snapshot.now) (S.parents_of statuses.now) (S.status_of statuses.now) (S.updater_of statuses.now) in
        IfOk result (λ found. (rest : BlockRows) → before found rest ≡ with_item columns.now sees line (numbered (items_of page.now) line) rest) }
{
    match page.item(line) {
        Item::Normal(bytes) => read_tuple(alloc, bytes, line, columns, snapshot, statuses),
        _ => Ok(Found::Nothing),
    }
}
