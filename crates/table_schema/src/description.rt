ghost use Rattle.std.specs.Prelude.{◌≡◌, [], ◌≤◌, ◌<◌, length, nat_le};
ghost use Rattle.toml.specs.View.{view, items_view, table_view};
ghost use Rattle.table_schema.specs.Reading.{IsAnswer, Says, described_by, description_in, table_in, table_of};

use crate::columns::columns_at;
use crate::fault::{Key, SchemaFault};
use crate::look_up::{place_named, place_with_file, place_with_oid};
use crate::members::{Level, array_at, has_other, name_at, number_at};
use crate::tables::{Described, Tables};
use std::alloc::Global;
use toml::Value;
use toml::value::Table;

/// The tables that a text describes: TOML 1.1 in UTF-8, of at most 1 MiB. The top level has `database`, an
/// oid, and the array `table`, of at most 256 tables. A table has `name`, `oid`, `file` and the array
/// `column`, of 1 to 1600 columns. A column has `name`, `type` and, if it was added with a default,
/// `missing`, the value that older tuples have (`pg_attribute.attmissingval`). After an error other than
/// `Memory` the same text gives the same one again.
pub fn read_schema(alloc: Global, text: &[u8]) -> Result<Tables, SchemaFault>
    ensures { IsAnswer text.now result }
{
    if 1048576 < text.len() {
        return Err(SchemaFault::TooLong);
    }
    match toml::table_from_slice(alloc, text) {
        Ok(members) => description_in(alloc, &members),
        Err(error) => {
            if error.is_memory() {
                Err(SchemaFault::Memory)
            } else {
                Err(SchemaFault::Toml)
            }
        }
    }
}

/// Whether a description may have so many tables.
fn is_table_count(count: usize) -> bool
    ensures { result ≡ nat_le count 256 }
{
    count <= 256
}

/// The tables that a document describes.
#[tactic(auto, unfolding(crate::specs::Reading::description_in))]
fn description_in(alloc: Global, members: &Table) -> Result<Tables, SchemaFault>
    ensures { Says result (description_in (table_view members.now)) }
{
    let database = number_at(0, Key::Database, members, "database")?;
    let Some(array) = array_at(members, "table") else {
        return Err(SchemaFault::Field {
            table: 0,
            key: Key::Table,
        });
    };
    let values = array.as_slice();
    if !is_table_count(values.len()) {
        return Err(SchemaFault::Many);
    }
    let tables = match tables_of(alloc, database, values) {
        Ok(tables) => tables,
        Err(fault) => return Err(fault),
    };
    if has_other(Level::Top, members) {
        return Err(SchemaFault::Field {
            table: 0,
            key: Key::Other,
        });
    }
    Ok(tables)
}

/// The tables that these values describe.
fn tables_of(alloc: Global, database: u32, values: &[Value]) -> Result<Tables, SchemaFault>
    requires { length values.now ≤ 256 }
    ensures { Says result (described_by database (items_view values.now)) }
{
    let mut tables = Vec::new(alloc);
    for value in values {
        match table_of(alloc, tables.as_slice(), value) {
            Ok(table) => tables.push(table)?,
            Err(fault) => return Err(fault),
        }
    }
    Ok(Tables::new(alloc, database, tables)?)
}

/// The table that a value describes, behind those before it.
fn table_of(alloc: Global, before: &[Described], value: &Value) -> Result<Described, SchemaFault>
    requires { length before.now < 256 }
    ensures { Says result (table_of before.now (view value.now)) }
{
    match value.as_table() {
        Some(members) => table_in(alloc, before.len() as u16 + 1, before, members),
        None => Err(SchemaFault::Field {
            table: 0,
            key: Key::Table,
        }),
    }
}

/// The table with this number, behind those before it.
#[tactic(auto, unfolding(crate::specs::Reading::table_in))]
fn table_in(
    alloc: Global,
    table: u16,
    before: &[Described],
    members: &Table,
) -> Result<Described, SchemaFault>
    ensures { Says result (table_in table before.now (table_view members.now)) }
{
    let name = name_at(alloc, table, members)?;
    if place_named(before, name.as_str()).is_some() {
        return Err(SchemaFault::Twice { name });
    }
    let oid = number_at(table, Key::Oid, members, "oid")?;
    if place_with_oid(before, oid).is_some() {
        return Err(SchemaFault::Twice { name });
    }
    let file = number_at(table, Key::File, members, "file")?;
    if place_with_file(before, file).is_some() {
        return Err(SchemaFault::Twice { name });
    }
    let columns = columns_at(alloc, table, members)?;
    if has_other(Level::OfTable, members) {
        return Err(SchemaFault::Field {
            table,
            key: Key::Other,
        });
    }
    Ok(Described::new(name, oid, file, columns))
}
