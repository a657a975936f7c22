ghost use Rattle.std.specs.Prelude.{◌≡◌, IfOk, option_map, option_and_then};
ghost use Rattle.toml.specs.Data.{get_member, as_str, as_integer, as_array};
ghost use Rattle.toml.specs.View.{view, array_view, table_view};
ghost use Rattle.table_schema.specs.Reading.{Says, has_other, int_cell, is_key, is_name, is_name_byte, missing_in, cell_from, kind_in, kind_of, name_in, number_in, number_of};

use crate::fault::{Key, SchemaFault};
use crate::name::Name;
use heap_tuple::{Cell, Kind};
use pg_types::{Bytes, NoMemory};
use std::alloc::Global;
use toml::Value;
use toml::value::{Array, Table};

/// The levels of a description.
#[derive(Clone, Copy)]
pub enum Level {
    Top,
    OfTable,
    OfColumn,
}

/// The value at a key.
pub fn value_at<'a>(members: &'a Table, word: &str) -> Option<&'a Value>
    ensures { option_map (λ v. view v.now) result ≡ get_member word.now (table_view members.now) }
{
    members.get(word)
}

/// The string at a key.
pub fn string_at<'a>(members: &'a Table, word: &str) -> Option<&'a str>
    ensures { option_map (λ s. s.now) result ≡ option_and_then as_str (get_member word.now (table_view members.now)) }
{
    match value_at(members, word) {
        Some(value) => value.as_str(),
        None => None,
    }
}

/// The integer at a key.
pub fn integer_at(members: &Table, word: &str) -> Option<i64>
    ensures { result ≡ option_and_then as_integer (get_member word.now (table_view members.now)) }
{
    match value_at(members, word) {
        Some(value) => value.as_integer(),
        None => None,
    }
}

/// The array at a key.
pub fn array_at<'a>(members: &'a Table, word: &str) -> Option<&'a Array>
    ensures { option_map (λ a. array_view a.now) result ≡ option_and_then as_array (get_member word.now (table_view members.now)) }
{
    match value_at(members, word) {
        Some(value) => value.as_array(),
        None => None,
    }
}

/// An oid or the number of a file, from 1 to 2^32 - 1.
fn number_of(number: i64) -> Option<u32>
    ensures { result ≡ number_of number }
{
    if 1 <= number && number <= 4294967295 {
        Some(number as u32)
    } else {
        None
    }
}

/// The number at a key.
#[tactic(auto, unfolding(crate::specs::Reading::number_in))]
pub fn number_at(table: u16, key: Key, members: &Table, word: &str) -> Result<u32, SchemaFault>
    ensures { result ≡ number_in table key word.now (table_view members.now) }
{
    match integer_at(members, word) {
        Some(number) => match number_of(number) {
            Some(number) => Ok(number),
            None => Err(SchemaFault::Field { table, key }),
        },
        None => Err(SchemaFault::Field { table, key }),
    }
}

/// Whether a byte is no space and no control character.
fn is_name_byte(byte: u8) -> bool
    ensures { result ≡ is_name_byte byte }
{
    32 < byte && byte != 127
}

/// Whether a text is a name: 1 to 63 bytes (NAMEDATALEN is 64), without space or control characters.
#[tactic(auto, unfolding(crate::specs::Reading::is_name))]
fn is_name(text: &str) -> bool
    ensures { result ≡ is_name text.now }
{
    let bytes = text.as_bytes();
    if bytes.is_empty() || 63 < bytes.len() {
        return false;
    }
    for byte in bytes {
        if !is_name_byte(*byte) {
            return false;
        }
    }
    true
}

/// The name at the key `name`.
#[tactic(auto, unfolding(crate::specs::Reading::name_in))]
pub fn name_at(alloc: Global, table: u16, members: &Table) -> Result<Name, SchemaFault>
    ensures { Says result (name_in table (table_view members.now)) }
{
    let Some(text) = string_at(members, "name") else {
        return Err(SchemaFault::Field {
            table,
            key: Key::Name,
        });
    };
    if !is_name(text) {
        return Err(SchemaFault::Field {
            table,
            key: Key::Name,
        });
    }
    match Name::from_str(alloc, text) {
        Ok(name) => Ok(name),
        Err(_) => Err(SchemaFault::Memory),
    }
}

/// The type that a word names (`pg_type.typname`; raw4 and raw8 are this program's own).
#[tactic(auto, unfolding(crate::specs::Reading::kind_of))]
fn kind_of(word: &str) -> Option<Kind>
    ensures { result ≡ kind_of word.now }
{
    if word == "bool" {
        Some(Kind::Bool)
    } else if word == "int2" {
        Some(Kind::Int2)
    } else if word == "int4" {
        Some(Kind::Int4)
    } else if word == "int8" {
        Some(Kind::Int8)
    } else if word == "oid" {
        Some(Kind::Oid)
    } else if word == "uuid" {
        Some(Kind::Uuid)
    } else if word == "text" {
        Some(Kind::Text)
    } else if word == "bytea" {
        Some(Kind::Bytea)
    } else if word == "raw4" {
        Some(Kind::Raw4)
    } else if word == "raw8" {
        Some(Kind::Raw8)
    } else {
        None
    }
}

/// The type at the key `type`.
#[tactic(auto, unfolding(crate::specs::Reading::kind_in))]
pub fn kind_at(table: u16, members: &Table) -> Result<Kind, SchemaFault>
    ensures { result ≡ kind_in table (table_view members.now) }
{
    match string_at(members, "type") {
        Some(word) => match kind_of(word) {
            Some(kind) => Ok(kind),
            None => Err(SchemaFault::Field {
                table,
                key: Key::Kind,
            }),
        },
        None => Err(SchemaFault::Field {
            table,
            key: Key::Kind,
        }),
    }
}

/// The cell of an integer between these.
fn int_cell(least: i64, greatest: i64, value: &Value) -> Option<Cell>
    ensures { result ≡ int_cell least greatest (view value.now) }
{
    match value.as_integer() {
        Some(number) if least <= number && number <= greatest => Some(Cell::Int(number)),
        _ => None,
    }
}

#[tactic(auto, unfolding(crate::specs::Reading::cell_from))]
fn bool_cell(value: &Value) -> Option<Cell>
    ensures { result ≡ cell_from Kind.Bool (view value.now) }
{
    match value.as_bool() {
        Some(truth) => Some(Cell::Bool(truth)),
        None => None,
    }
}

#[tactic(auto, unfolding(crate::specs::Reading::cell_from))]
fn text_cell(alloc: Global, value: &Value) -> Result<Option<Cell>, NoMemory>
    ensures { IfOk result (λ cell. cell ≡ cell_from Kind.Text (view value.now)) }
{
    match value.as_str() {
        Some(text) => {
            let bytes = Bytes::from_slice(alloc, text.as_bytes())?;
            Ok(Some(Cell::Bytes(bytes)))
        }
        None => Ok(None),
    }
}

/// The cell of a value that older tuples have, where a column of this type may have it.
#[tactic(auto, unfolding(crate::specs::Reading::cell_from))]
fn cell_from(alloc: Global, kind: Kind, value: &Value) -> Result<Option<Cell>, NoMemory>
    ensures { IfOk result (λ cell. cell ≡ cell_from kind (view value.now)) }
{
    match kind {
        Kind::Bool => Ok(bool_cell(value)),
        Kind::Int2 => Ok(int_cell(-32768, 32767, value)),
        Kind::Int4 => Ok(int_cell(-2147483648, 2147483647, value)),
        Kind::Int8 => Ok(int_cell(i64::MIN, i64::MAX, value)),
        Kind::Oid => Ok(int_cell(0, 4294967295, value)),
        Kind::Text => text_cell(alloc, value),
        Kind::Uuid => Ok(None),
        Kind::Bytea => Ok(None),
        Kind::Raw4 => Ok(None),
        Kind::Raw8 => Ok(None),
    }
}

/// The value at the key `missing`, which a column need not have.
#[tactic(auto, unfolding(crate::specs::Reading::missing_in))]
pub fn missing_at(
    alloc: Global,
    table: u16,
    kind: Kind,
    members: &Table,
) -> Result<Option<Cell>, SchemaFault>
    ensures { Says result (missing_in table kind (table_view members.now)) }
{
    let Some(value) = value_at(members, "missing") else {
        return Ok(None);
    };
    match cell_from(alloc, kind, value) {
        Ok(Some(cell)) => Ok(Some(cell)),
        Ok(None) => Err(SchemaFault::Field {
            table,
            key: Key::Missing,
        }),
        Err(_) => Err(SchemaFault::Memory),
    }
}

/// Whether the level has this key.
#[tactic(auto, unfolding(crate::specs::Reading::is_key))]
fn is_key(level: Level, word: &str) -> bool
    ensures { result ≡ is_key level word.now }
{
    match level {
        Level::Top => word == "database" || word == "table",
        Level::OfTable => word == "name" || word == "oid" || word == "file" || word == "column",
        Level::OfColumn => word == "name" || word == "type" || word == "missing",
    }
}

/// Whether there is a key that the level does not have.
pub fn has_other(level: Level, members: &Table) -> bool
    ensures { result ≡ has_other level (table_view members.now) }
{
    'members: for (word, _value) in members.iter() {
        if !is_key(level, word.as_str()) {
            return true;
        }
    }
    false
}
