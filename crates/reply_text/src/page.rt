ghost use Rattle.std.specs.Prelude.{◌≡◌, ◌<◌, ◌++◌, ℕ, Bool, OnOk, length};
ghost use Rattle.seq_scan.specs.BlockRows.{BlockEnd};
ghost use Rattle.seq_scan.specs.Scans.{end_at};
ghost use Rattle.table_schema.specs.Tables.{table_with};
ghost use Rattle.session_model.specs.Texts.{column_name, end_line};
ghost use Rattle.reply_text.specs.Pieces.{column_text, damage_text};

use crate::words::{push_numbered, push_placed, push_word};
use pg_types::{NoMemory, Place};
use seq_scan::{Damage, PageEnd};
use std::alloc::Global;
use table_schema::Tables;

/// Appends the line of how a page of the scan with this id ends, which is of the table with this number.
#[tactic(auto, unfolding(session_model::specs::Texts::end_line))]
pub fn push_page_end(
    alloc: Global,
    tables: &Tables,
    id: u64,
    table: u16,
    end: PageEnd,
    text: &mut Vec<u8>,
) -> Result<(), NoMemory>
    requires { table < length tables.now.tables }
    ensures { OnOk result ((block : ℕ) (more : Bool) (last : BlockEnd) → end ≡ end_at block more last
        → text.new.items ≡ text.old.items ++ end_line id (table_with tables.now table) block more last) }
{
    match end {
        PageEnd::Rows { more: true } => push_numbered(alloc, b"more ", id, text)?,
        PageEnd::Rows { more: false } => push_numbered(alloc, b"end ", id, text)?,
        PageEnd::Toasted { place, column } => {
            push_numbered(alloc, b"toasted ", id, text)?;
            push_column(alloc, tables, table, place, column, text)?;
        }
        PageEnd::BadRow { place, column } => {
            push_numbered(alloc, b"bad row ", id, text)?;
            push_column(alloc, tables, table, place, column, text)?;
        }
        PageEnd::Damaged { place, what } => {
            push_numbered(alloc, b"damaged ", id, text)?;
            push_damage(alloc, place, what, text)?;
        }
    }
    text.push(b'\n')?;
    Ok(())
}

/// Appends a place and the name of the column that is refused there.
fn push_column(
    alloc: Global,
    tables: &Tables,
    table: u16,
    place: Place,
    column: u16,
    text: &mut Vec<u8>,
) -> Result<(), NoMemory>
    requires { table < length tables.now.tables }
    ensures { OnOk result (text.new.items ≡ text.old.items ++ column_text (table_with tables.now table) place column) }
{
    push_placed(alloc, b" ", place, text)?;
    push_word(b" ", column_name(tables, table, column), text)
}

/// Appends a place and what is damaged there.
fn push_damage(
    alloc: Global,
    place: Place,
    what: Damage,
    text: &mut Vec<u8>,
) -> Result<(), NoMemory>
    ensures { OnOk result (text.new.items ≡ text.old.items ++ damage_text place what) }
{
    push_placed(alloc, b" ", place, text)?;
    match what {
        Damage::Page => text.extend_from_slice(b" page")?,
        Damage::Multi(id) => push_numbered(alloc, b" multi ", u64::from(id), text)?,
    }
    Ok(())
}

/// The name of a column of the table with this number.
fn column_name(tables: &Tables, table: u16, column: u16) -> &str
    requires { table < length tables.now.tables }
    ensures { result.now ≡ column_name (table_with tables.now table) column }
{
    if usize::from(column) < tables.columns(table).len() {
        tables.column_name(table, column).as_str()
    } else {
        ""
    }
}
