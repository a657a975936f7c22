ghost use Rattle.std.specs.Prelude.{◌≡◌, IfOk};

use pg_types::{Bytes, List, NoMemory};
use std::alloc::Global;

/// The types of column that are described. `Raw4` and `Raw8` are values of that many bytes which are
/// shown as they are stored.
#[derive(Clone, Copy)]
pub enum Kind {
    Bool,
    Int2,
    Int4,
    Int8,
    Oid,
    Uuid,
    Text,
    Bytea,
    Raw4,
    Raw8,
}

/// One value of a row. `Int` has the integers and `Oid`; `Bytes` has the bytes of a text or a bytea
/// without their header, and those of a uuid or a raw value as they are stored.
#[derive(Drop)]
pub enum Cell {
    Null,
    Bool(bool),
    Int(i64),
    Bytes(Bytes),
}

impl Cell {
    /// The same cell, with memory of its own.
    pub fn copy(&self, alloc: Global) -> Result<Cell, NoMemory>
        ensures { IfOk result (λ cell. cell ≡ self.now) }
    {
        match self {
            Cell::Null => Ok(Cell::Null),
            Cell::Bool(truth) => Ok(Cell::Bool(*truth)),
            Cell::Int(number) => Ok(Cell::Int(*number)),
            Cell::Bytes(bytes) => Ok(Cell::Bytes(Bytes::from_slice(alloc, bytes.as_slice())?)),
        }
    }
}

/// A described column: its type, and the value that it has in tuples that were written before the
/// column was added; `None` is null.
#[derive(Drop)]
pub struct Column {
    pub kind: Kind,
    pub missing: Option<Cell>,
}

/// The cells of a row, one for each described column.
pub type Row = List<Cell>;
