//! Rows of tuples.
use case_text::{Answer, Wrong};
use heap_tuple::{Cell, Column, Row, RowFault, TupleView};
use std::alloc::Global;

/// A value: bytes in hex, behind a mark.
pub fn show_cell(answer: &mut Answer, mark: &str, cell: &Cell) {
    match cell {
        Cell::Null => answer.say("null"),
        Cell::Bool(true) => answer.say("true"),
        Cell::Bool(false) => answer.say("false"),
        Cell::Int(number) => answer.signed(*number),
        Cell::Bytes(bytes) => {
            answer.say(mark);
            answer.bytes(bytes.as_slice());
        }
    }
}

/// A row as `(1, null)`: bytes as `\x0a`, as PostgreSQL does.
pub fn show_row(answer: &mut Answer, row: &Row) {
    let mut is_first = true;
    for cell in row.as_slice() {
        answer.say(if is_first { "(" } else { ", " });
        show_cell(answer, "\\x", cell);
        is_first = false;
    }
    answer.say(if row.is_empty() { "()" } else { ")" });
}

/// The row of the tuple that these bytes are, or why it has none.
pub fn row_text(alloc: Global, bytes: &[u8], columns: &[Column]) -> Result<String, Wrong> {
    let Some(view) = TupleView::read(bytes) else {
        return Ok(String::from_str(alloc, "no tuple")?);
    };
    match view.deform(alloc, columns) {
        Ok(row) => copied_text(alloc, &row),
        Err(fault) => refused(alloc, fault),
    }
}

/// Why a tuple has no row.
pub fn refused(alloc: Global, fault: RowFault) -> Result<String, Wrong> {
    let mut answer = Answer::new(alloc);
    match fault {
        RowFault::Toasted { column } => answer.field("toasted, column ", u64::from(column)),
        RowFault::Bad { column } => answer.field("bad, column ", u64::from(column)),
        RowFault::Memory => return Err(Wrong::Memory),
    }
    answer.finish()
}

/// The cells of a row, copied one by one.
fn copied_text(alloc: Global, row: &Row) -> Result<String, Wrong> {
    let mut copy = Row::new(alloc);
    for cell in row.as_slice() {
        copy.push(cell.copy(alloc)?)?;
    }
    let mut answer = Answer::new(alloc);
    show_row(&mut answer, &copy);
    answer.finish()
}
