//! Rows as they are printed. A tab is shown as `~`.
use crate::items::tuple;
use crate::kinds::kind;
use crate::rows::refused;
use case_text::{Wrong, bytes};
use heap_tuple::{Cell, Column, Kind, Row, TupleView};
use pg_types::Bytes;
use std::alloc::Global;
use table_schema::{Tables, print_tuple, read_schema};

/// The text of a row, whose values are between bars, each behind its type: `int4=5|text=6162|bool=null`. Bytes
/// are in hex.
pub fn answer(alloc: Global, word: &str) -> Result<String, Wrong> {
    let mut columns = String::new(alloc);
    let mut row = Row::new(alloc);
    for (i, part) in word.split('|').enumerate() {
        let (type_name, value) = part.split_once('=').ok_or(Wrong::Line)?;
        columns = format!(in alloc; "{columns}{{name='c{i}',type='{type_name}'}},")?;
        row.push(cell(alloc, kind(type_name)?, value)?)?;
    }
    let tables = described(alloc, columns.as_str())?;
    print(alloc, &tables, &row)
}

/// The text of the row that a tuple has: the columns as `int4,text='old'`, each with the value of older tuples
/// as TOML writes it, and the tuple by its fields.
pub fn of_tuple(alloc: Global, columns: &str, fields: &[&str]) -> Result<String, Wrong> {
    let mut text = String::new(alloc);
    for (i, part) in columns.split(',').enumerate() {
        text = match part.split_once('=') {
            Some((name, old)) => {
                format!(in alloc; "{text}{{name='c{i}',type='{name}',missing={old}}},")?
            }
            None => format!(in alloc; "{text}{{name='c{i}',type='{part}'}},")?,
        };
    }
    let tables = described(alloc, text.as_str())?;
    let bytes = tuple(alloc, fields)?;
    match TupleView::read(bytes.as_slice()) {
        Some(view) => deformed(alloc, &tables, &view),
        None => Ok(String::from_str(alloc, "no tuple")?),
    }
}

/// The text of a tuple's row, or why it has none: of the row that is made of the tuple, and of the tuple alone.
/// Where they are not the same both are shown.
fn deformed(alloc: Global, tables: &Tables, view: &TupleView<'_>) -> Result<String, Wrong> {
    if tables.locators().is_empty() {
        return Err(Wrong::Line);
    }
    let columns = tables.columns(0);
    let alone = undeformed(alloc, columns, view)?;
    let made = match view.deform(alloc, columns) {
        Ok(row) => print(alloc, tables, &row)?,
        Err(fault) => refused(alloc, fault)?,
    };
    if made.as_str() == alone.as_str() {
        Ok(made)
    } else {
        Ok(format!(in alloc; "{made}, but of the tuple alone {alone}")?)
    }
}

/// The text that is printed of a tuple without making its row, or why there is none.
fn undeformed(alloc: Global, columns: &[Column], view: &TupleView<'_>) -> Result<String, Wrong> {
    let mut out = Vec::new(alloc);
    match print_tuple(columns, view, &mut out) {
        Ok(()) => shown(alloc, out),
        Err(fault) => refused(alloc, fault),
    }
}

/// A table with these columns.
fn described(alloc: Global, columns: &str) -> Result<Tables, Wrong> {
    let text = format!(in alloc;
        "database=1\n[[table]]\nname='t'\noid=1\nfile=1\ncolumn=[{columns}]\n"
    )?;
    read_schema(alloc, text.as_bytes()).map_err(|_| Wrong::Line)
}

/// The text of a row of the first table.
fn print(alloc: Global, tables: &Tables, row: &Row) -> Result<String, Wrong> {
    if tables.locators().is_empty() {
        return Err(Wrong::Line);
    }
    let mut out = Vec::new(alloc);
    tables.print_row(0, row, &mut out)?;
    shown(alloc, out)
}

/// A text with its tabs as `~`.
fn shown(alloc: Global, mut out: Vec<u8>) -> Result<String, Wrong> {
    for byte in out.as_mut_slice() {
        if *byte == b'\t' {
            *byte = b'~';
        }
    }
    let text = str::from_utf8(out.as_slice()).map_err(|_| Wrong::Bytes)?;
    Ok(String::from_str(alloc, text)?)
}

fn cell(alloc: Global, kind: Kind, value: &str) -> Result<Cell, Wrong> {
    if value == "null" {
        return Ok(Cell::Null);
    }
    match kind {
        Kind::Bool => match value {
            "true" => Ok(Cell::Bool(true)),
            "false" => Ok(Cell::Bool(false)),
            _ => Err(Wrong::Line),
        },
        Kind::Int2 | Kind::Int4 | Kind::Int8 | Kind::Oid => {
            Ok(Cell::Int(value.parse::<i64>().map_err(|_| Wrong::Number)?))
        }
        _ => {
            let data = bytes(alloc, value)?;
            Ok(Cell::Bytes(Bytes::from_slice(alloc, data.as_slice())?))
        }
    }
}
