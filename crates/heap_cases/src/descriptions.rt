//! Descriptions of tables: texts with what they describe or why they describe nothing, and look-ups.
ghost use Rattle.std.specs.Prelude.{◌<◌, length};

use crate::kinds::word;
use crate::printed;
use crate::rows::show_cell;
use crate::texts::text;
use case_text::{Answer, Wrong, locator, number_u32};
use heap_tuple::Column;
use pg_types::Locator;
use std::alloc::Global;
use table_schema::{SchemaFault, Tables, read_schema};

/// Answers a line: `schema` and a text, `tables` and a text whose tables the next lines look up in, `find NAME`,
/// `oid N`, `file LOCATOR`, or `row` and a row.
pub fn answer(
    alloc: Global,
    tables: &mut Option<Tables>,
    what: &str,
    rest: &str,
) -> Result<String, Wrong> {
    match what {
        "schema" => match read_schema(alloc, text(alloc, rest)?.as_slice()) {
            Ok(read) => tables_text(alloc, &read),
            Err(fault) => fault_text(alloc, fault),
        },
        "row" => printed::answer(alloc, rest),
        "tables" => {
            let read = read_schema(alloc, text(alloc, rest)?.as_slice()).map_err(|_| Wrong::Line)?;
            let text = tables_text(alloc, &read)?;
            *tables = Some(read);
            Ok(text)
        }
        _ => match tables {
            Some(tables) => found(alloc, tables, what, rest),
            None => Err(Wrong::Line),
        },
    }
}

/// The answer to a look-up: the number of a table, from 0, or none.
fn found(alloc: Global, tables: &Tables, what: &str, word: &str) -> Result<String, Wrong> {
    let found = match what {
        "find" => tables.find(word),
        "oid" => tables.by_oid(number_u32(word)?),
        "file" => tables.by_locator(locator(word)?),
        _ => return Err(Wrong::Line),
    };
    let mut answer = Answer::new(alloc);
    match found {
        Some(table) => answer.field("table ", u64::from(table)),
        None => answer.say("none"),
    }
    answer.finish()
}

fn fault_text(alloc: Global, fault: SchemaFault) -> Result<String, Wrong> {
    let mut answer = Answer::new(alloc);
    match fault {
        SchemaFault::TooLong => answer.say("long"),
        SchemaFault::Toml => answer.say("toml"),
        SchemaFault::Field { table, key } => {
            answer.field("field ", u64::from(table));
            answer.say(" ");
            answer.say(key.word());
        }
        SchemaFault::Twice { name } => {
            answer.say("twice ");
            answer.say(name.as_str());
        }
        SchemaFault::Many => answer.say("many"),
        SchemaFault::Memory => return Err(Wrong::Memory),
    }
    answer.finish()
}

/// What tables a description has, or how many where there are more than four.
fn tables_text(alloc: Global, tables: &Tables) -> Result<String, Wrong> {
    let mut answer = Answer::new(alloc);
    answer.field("database ", u64::from(tables.database()));
    let locators = tables.locators();
    if 4 < locators.len() {
        answer.field("; ", locators.len() as u64);
        answer.say(" tables");
    } else {
        for (table, locator) in locators.iter().enumerate() {
            show_table(&mut answer, tables, table as u16, *locator);
        }
    }
    answer.finish()
}

/// A table: its name, oid and file, and its columns.
fn show_table(answer: &mut Answer, tables: &Tables, table: u16, locator: Locator)
    requires { table < length tables.now.tables }
{
    answer.say("; ");
    answer.say(tables.name(table).as_str());
    answer.field(" oid ", u64::from(tables.oid(table)));
    answer.field(" file ", u64::from(locator.space));
    answer.field("/", u64::from(locator.db));
    answer.field("/", u64::from(locator.rel));
    answer.say(" (");
    show_columns(answer, tables, table);
    answer.say(")");
}

/// The columns of a table, or how many where there are more than ten.
fn show_columns(answer: &mut Answer, tables: &Tables, table: u16)
    requires { table < length tables.now.tables }
{
    let columns = tables.columns(table);
    if 10 < columns.len() {
        answer.number(columns.len() as u64);
        answer.say(" columns");
        return;
    }
    for (i, column) in columns.iter().enumerate() {
        answer.say(if i == 0 { "" } else { ", " });
        answer.say(tables.column_name(table, i as u16).as_str());
        answer.say(" ");
        show_column(answer, column);
    }
}

/// A column's type, and the value that older tuples have: bytes in hex.
fn show_column(answer: &mut Answer, column: &Column) {
    answer.say(word(column.kind));
    if let Some(cell) = &column.missing {
        answer.say("=");
        show_cell(answer, "", cell);
    }
}
