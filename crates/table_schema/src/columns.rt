ghost use Rattle.std.specs.Prelude.{◌≡◌, ◌&&◌, [], nat_le};
ghost use Rattle.toml.specs.Data.{as_table};
ghost use Rattle.toml.specs.View.{view, items_view, table_view};
ghost use Rattle.table_schema.specs.Reading.{Says, column_in, column_of, columns_from, columns_in};

use crate::fault::{Key, SchemaFault};
use crate::look_up::place_of_name;
use crate::members::{Level, array_at, has_other, kind_at, missing_at, name_at};
use crate::name::Name;
use crate::tables::ColumnsRead;
use heap_tuple::Column;
use std::alloc::Global;
use toml::Value;
use toml::value::Table;

/// A column and its name, behind those with these names.
#[tactic(auto, unfolding(crate::specs::Reading::column_in))]
fn column_in(
    alloc: Global,
    table: u16,
    names: &[Name],
    members: &Table,
) -> Result<(Name, Column), SchemaFault>
    ensures { Says result (column_in table names.now (table_view members.now)) }
{
    let name = name_at(alloc, table, members)?;
    if place_of_name(names, name.as_str()).is_some() {
        return Err(SchemaFault::Twice { name });
    }
    let kind = kind_at(table, members)?;
    let missing = missing_at(alloc, table, kind, members)?;
    if has_other(Level::OfColumn, members) {
        return Err(SchemaFault::Field {
            table,
            key: Key::Other,
        });
    }
    Ok((name, Column { kind, missing }))
}

/// The column that a value describes.
fn column_of(
    alloc: Global,
    table: u16,
    names: &[Name],
    value: &Value,
) -> Result<(Name, Column), SchemaFault>
    ensures { Says result (column_of table names.now (view value.now)) }
{
    match value.as_table() {
        Some(members) => column_in(alloc, table, names, members),
        None => Err(SchemaFault::Field {
            table,
            key: Key::Column,
        }),
    }
}

/// The columns that these values describe.
fn columns_of(alloc: Global, table: u16, values: &[Value]) -> Result<ColumnsRead, SchemaFault>
    ensures { Says result (columns_from table [] [] (items_view values.now)) }
{
    let mut names = Vec::new(alloc);
    let mut columns = Vec::new(alloc);
    for value in values {
        match column_of(alloc, table, names.as_slice(), value) {
            Ok((name, column)) => {
                names.push(name)?;
                columns.push(column)?;
            }
            Err(fault) => return Err(fault),
        }
    }
    Ok(ColumnsRead::new(names, columns))
}

/// Whether a table may have so many columns (MaxHeapAttributeNumber, htup_details.h).
fn is_column_count(count: usize) -> bool
    ensures { result ≡ (nat_le 1 count && nat_le count 1600) }
{
    1 <= count && count <= 1600
}

/// The columns at the key `column`.
#[tactic(auto, unfolding(crate::specs::Reading::columns_in))]
pub fn columns_at(alloc: Global, table: u16, members: &Table) -> Result<ColumnsRead, SchemaFault>
    ensures { Says result (columns_in table (table_view members.now)) }
{
    let Some(array) = array_at(members, "column") else {
        return Err(SchemaFault::Field {
            table,
            key: Key::Column,
        });
    };
    let values = array.as_slice();
    if !is_column_count(values.len()) {
        return Err(SchemaFault::Field {
            table,
            key: Key::Column,
        });
    }
    columns_of(alloc, table, values)
}
