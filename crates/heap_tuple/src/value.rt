ghost use Rattle.std.specs.Prelude.{◌≡◌, ◌∷◌, ◌++◌, [], IfOk, OnOk};
ghost use Rattle.heap_tuple.specs.Lent.{meant};

use crate::cell::{Cell, Row};
use pg_types::{Bytes, NoMemory};
use std::alloc::Global;

/// One value of a row as it stands in its tuple. Its variants are those of `Cell`.
#[derive(Clone, Copy)]
pub enum Value<'a> {
    Null,
    Bool(bool),
    Int(i64),
    Bytes(&'a [u8]),
}

impl Cell {
    /// The value that the cell has.
    pub fn lend(&self) -> Value<'_>
        ensures { meant result ≡ self.now }
    {
        match self {
            Cell::Null => Value::Null,
            Cell::Bool(truth) => Value::Bool(*truth),
            Cell::Int(number) => Value::Int(*number),
            Cell::Bytes(bytes) => Value::Bytes(bytes.as_slice()),
        }
    }
}

/// The value with memory of its own.
fn owned(alloc: Global, value: &Value<'_>) -> Result<Cell, NoMemory>
    ensures { IfOk result (λ cell. cell ≡ meant value.now) }
{
    match value {
        Value::Null => Ok(Cell::Null),
        Value::Bool(truth) => Ok(Cell::Bool(*truth)),
        Value::Int(number) => Ok(Cell::Int(*number)),
        Value::Bytes(bytes) => Ok(Cell::Bytes(Bytes::from_slice(alloc, bytes)?)),
    }
}

/// Puts the value behind the cells of a row, with memory of its own.
pub fn push_owned(alloc: Global, value: &Value<'_>, row: &mut Row) -> Result<(), NoMemory>
    ensures { OnOk result (row.new ≡ row.old ++ meant value.now ∷ []) }
{
    row.push(owned(alloc, value)?)
}
