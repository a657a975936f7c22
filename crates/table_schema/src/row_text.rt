ghost use Rattle.std.specs.Prelude.{◌≡◌, ◌++◌, ◌∷◌, [], ◌<◌, ◌≤◌, false, length, take, OnOk, option_map, Some};
ghost use Rattle.std.specs.Bool.{OnTrue};
ghost use Rattle.std.specs.List.{flat_map};
ghost use Rattle.std.specs.Fmt.{digit_glyph};
ghost use Rattle.heap_tuple.specs.Lent.{meant};
ghost use Rattle.table_schema.specs.Description.{table_at};
ghost use Rattle.table_schema.specs.RowText.{bytes_text, cell_text, dash_before, escaped_byte, further_text, hex_byte, row_text, uuid_from};

use crate::tables::Tables;
use heap_tuple::{Cell, Column, Kind, Row, Value};
use itoa::Buffer;
use pg_types::NoMemory;

impl Tables {
    /// Appends the row of a table much as `COPY` prints it (copyto.c): its values with tabs between them, each
    /// as its column's type prints it, and `\N` for null. Of the control characters of a text only tab, newline
    /// and return are escaped, and a backslash. A value past the last column is left out. After `NoMemory` a
    /// part of the row may stand there.
    pub fn print_row(&self, table: u16, row: &Row, out: &mut Vec<u8>) -> Result<(), NoMemory>
        requires { table < length self.now.tables }
        ensures { OnOk result (Some out.new.items ≡ option_map (λ t. out.old.items ++ row_text t.columns row.now) (table_at self.now table)) }
    {
        push_row(self.columns(table), row.as_slice(), out)
    }
}

/// Appends the values of a row, with a tab between them.
fn push_row(columns: &[Column], cells: &[Cell], out: &mut Vec<u8>) -> Result<(), NoMemory>
    ensures { OnOk result (out.new.items ≡ out.old.items ++ row_text columns.now cells.now) }
{
    let Some((column, columns)) = columns.split_first() else {
        return Ok(());
    };
    let Some((cell, cells)) = cells.split_first() else {
        return Ok(());
    };
    push_cell(column.kind, cell, out)?;
    push_further(columns, cells, out)
}

/// Appends further values, each behind a tab.
fn push_further(columns: &[Column], cells: &[Cell], out: &mut Vec<u8>) -> Result<(), NoMemory>
    ensures { OnOk result (out.new.items ≡ out.old.items ++ further_text columns.now cells.now) }
{
    for (i, cell) in cells.iter().enumerate() {
        if columns.len() <= i {
            return Ok(());
        }
        push_tabbed(columns[i].kind, cell, out)?;
    }
    Ok(())
}

fn push_tabbed(kind: Kind, cell: &Cell, out: &mut Vec<u8>) -> Result<(), NoMemory>
    ensures { OnOk result (out.new.items ≡ out.old.items ++ 9 ∷ cell_text kind cell.now) }
{
    out.push(b'\t')?;
    push_cell(kind, cell, out)
}

fn push_cell(kind: Kind, cell: &Cell, out: &mut Vec<u8>) -> Result<(), NoMemory>
    ensures { OnOk result (out.new.items ≡ out.old.items ++ cell_text kind cell.now) }
{
    push_value(kind, &cell.lend(), out)
}

/// Appends a value.
#[tactic(auto, unfolding(crate::specs::RowText::cell_text))]
pub fn push_value(kind: Kind, value: &Value<'_>, out: &mut Vec<u8>) -> Result<(), NoMemory>
    ensures { OnOk result (out.new.items ≡ out.old.items ++ cell_text kind (meant value.now)) }
{
    match value {
        Value::Null => out.extend_from_slice(b"\\N")?,
        Value::Bool(true) => out.push(b't')?,
        Value::Bool(false) => out.push(b'f')?,
        Value::Int(number) => {
            let mut digits = Buffer::new();
            out.extend_from_slice(digits.format(*number).as_bytes())?;
        }
        Value::Bytes(bytes) => push_bytes(kind, bytes, out)?,
    }
    Ok(())
}

/// Appends a value of bytes as its type prints it.
#[tactic(auto, unfolding(crate::specs::RowText::bytes_text))]
fn push_bytes(kind: Kind, bytes: &[u8], out: &mut Vec<u8>) -> Result<(), NoMemory>
    ensures { OnOk result (out.new.items ≡ out.old.items ++ bytes_text kind bytes.now) }
{
    match kind {
        Kind::Uuid => push_uuid(bytes, out),
        Kind::Bytea => {
            out.extend_from_slice(b"\\x")?;
            push_hex(bytes, out)
        }
        Kind::Raw4 => push_hex(bytes, out),
        Kind::Raw8 => push_hex(bytes, out),
        Kind::Bool => push_escaped(bytes, out),
        Kind::Int2 => push_escaped(bytes, out),
        Kind::Int4 => push_escaped(bytes, out),
        Kind::Int8 => push_escaped(bytes, out),
        Kind::Oid => push_escaped(bytes, out),
        Kind::Text => push_escaped(bytes, out),
    }
}

/// Appends a text, with backslash, tab, newline and return escaped.
fn push_escaped(bytes: &[u8], out: &mut Vec<u8>) -> Result<(), NoMemory>
    ensures { OnOk result (out.new.items ≡ out.old.items ++ flat_map escaped_byte bytes.now) }
{
    if is_plain(bytes) {
        out.extend_from_slice(bytes)?;
        return Ok(());
    }
    push_runs(bytes, out)
}

/// Whether no byte of a text needs an escape. All are looked at, so that many are at a time.
fn is_plain(bytes: &[u8]) -> bool
    ensures { OnTrue result (flat_map escaped_byte bytes.now ≡ bytes.now) }
{
    let mut plain = true;
    for byte in bytes {
        plain &= is_plain_byte(*byte);
    }
    plain
}

/// Whether a byte of a text needs no escape.
#[tactic(auto, using(std::proofs::lemmas::Bool::Decides::nat_tests))]
fn is_plain_byte(byte: u8) -> bool
    ensures { OnTrue result (escaped_byte byte ≡ byte ∷ []) }
{
    byte != b'\\' && byte != b'\t' && byte != b'\n' && byte != b'\r'
}

/// Appends a text, what stands between two escapes at once.
fn push_runs(bytes: &[u8], out: &mut Vec<u8>) -> Result<(), NoMemory>
    ensures { OnOk result (out.new.items ≡ out.old.items ++ flat_map escaped_byte bytes.now) }
{
    let mut at = 0;
    while at < bytes.len() {
        let rest = &bytes[at..];
        let len = plain_len(rest);
        out.extend_from_slice(&rest[..len])?;
        if len < rest.len() {
            push_escaped_byte(rest[len], out)?;
        }
        at += len + 1;
    }
    Ok(())
}

/// How many bytes of a text stand before the first that needs an escape.
fn plain_len(bytes: &[u8]) -> usize
    ensures bound { result ≤ length bytes.now }
    ensures plain { flat_map escaped_byte (take result bytes.now) ≡ take result bytes.now }
{
    let mut len = 0;
    while len < bytes.len() && is_plain_byte(bytes[len]) {
        len += 1;
    }
    len
}

fn push_escaped_byte(byte: u8, out: &mut Vec<u8>) -> Result<(), NoMemory>
    ensures { OnOk result (out.new.items ≡ out.old.items ++ escaped_byte byte) }
{
    match byte {
        b'\\' => out.extend_from_slice(b"\\\\")?,
        b'\t' => out.extend_from_slice(b"\\t")?,
        b'\n' => out.extend_from_slice(b"\\n")?,
        b'\r' => out.extend_from_slice(b"\\r")?,
        other => out.push(other)?,
    }
    Ok(())
}

/// Appends bytes as hex digits.
fn push_hex(bytes: &[u8], out: &mut Vec<u8>) -> Result<(), NoMemory>
    ensures { OnOk result (out.new.items ≡ out.old.items ++ flat_map hex_byte bytes.now) }
{
    for byte in bytes {
        push_hex_byte(*byte, out)?;
    }
    Ok(())
}

fn push_hex_byte(byte: u8, out: &mut Vec<u8>) -> Result<(), NoMemory>
    ensures { OnOk result (out.new.items ≡ out.old.items ++ hex_byte byte) }
{
    out.extend_from_slice(&[hex_digit(byte / 16), hex_digit(byte % 16)])?;
    Ok(())
}

fn hex_digit(digit: u8) -> u8
    requires { digit < 16 }
    ensures { result ≡ digit_glyph false digit }
{
    if digit < 10 {
        b'0' + digit
    } else {
        b'a' - 10 + digit
    }
}

/// Appends a uuid's bytes as hex digits, in groups of 8, 4, 4, 4 and 12 (uuid_out, uuid.c).
fn push_uuid(bytes: &[u8], out: &mut Vec<u8>) -> Result<(), NoMemory>
    ensures { OnOk result (out.new.items ≡ out.old.items ++ uuid_from 0 bytes.now) }
{
    for (i, byte) in bytes.iter().enumerate() {
        push_grouped(i, *byte, out)?;
    }
    Ok(())
}

fn push_grouped(i: usize, byte: u8, out: &mut Vec<u8>) -> Result<(), NoMemory>
    ensures { OnOk result (out.new.items ≡ out.old.items ++ (dash_before i ++ hex_byte byte)) }
{
    if i == 4 || i == 6 || i == 8 || i == 10 {
        out.push(b'-')?;
    }
    push_hex_byte(byte, out)
}
