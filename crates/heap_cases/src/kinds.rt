use case_text::{Wrong, bytes, number_u32, yes};
use heap_tuple::{Cell, Column, Kind};
use pg_types::Bytes;
use std::alloc::Global;

/// The types, each with its word.
static KINDS: [(&str, Kind); 10] = [
    ("bool", Kind::Bool),
    ("int2", Kind::Int2),
    ("int4", Kind::Int4),
    ("int8", Kind::Int8),
    ("oid", Kind::Oid),
    ("uuid", Kind::Uuid),
    ("text", Kind::Text),
    ("bytea", Kind::Bytea),
    ("raw4", Kind::Raw4),
    ("raw8", Kind::Raw8),
];

/// The type that a word names.
pub fn kind(word: &str) -> Result<Kind, Wrong> {
    for (name, kind) in KINDS.iter() {
        if *name == word {
            return Ok(*kind);
        }
    }
    Err(Wrong::Line)
}

/// The word for a type.
pub fn word(kind: Kind) -> &'static str {
    for (name, other) in KINDS.iter() {
        if *other == kind {
            return *name;
        }
    }
    "another type"
}

/// A value that older tuples have.
fn missing(alloc: Global, kind: Kind, word: &str) -> Result<Cell, Wrong> {
    match kind {
        Kind::Bool => Ok(Cell::Bool(yes(word)?)),
        Kind::Int2 | Kind::Int4 | Kind::Int8 | Kind::Oid => {
            Ok(Cell::Int(i64::from(number_u32(word)?)))
        }
        _ => {
            let data = bytes(alloc, word)?;
            Ok(Cell::Bytes(Bytes::from_slice(alloc, data.as_slice())?))
        }
    }
}

/// A column by its type, as `int4`, and the value that older tuples have, as `bytea=6f6c64`.
fn column(alloc: Global, word: &str) -> Result<Column, Wrong> {
    match word.split_once('=') {
        Some((name, value)) => {
            let kind = kind(name)?;
            let missing = Some(missing(alloc, kind, value)?);
            Ok(Column { kind, missing })
        }
        None => Ok(Column {
            kind: kind(word)?,
            missing: None,
        }),
    }
}

/// Columns between commas, or none as `-`.
pub fn columns(alloc: Global, word: &str) -> Result<Vec<Column>, Wrong> {
    let mut columns = Vec::new(alloc);
    if word == "-" {
        return Ok(columns);
    }
    for part in word.split(',') {
        columns.push(column(alloc, part)?)?;
    }
    Ok(columns)
}
