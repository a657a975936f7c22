ghost use Rattle.std.specs.Prelude.{◌≡◌, ◌+◌, ◌^◌, ◌≤◌, ◌<◌, ◌-◌, length, IfOk, IfErr, unwrap_or};
ghost use Rattle.heap_tuple.specs.declared.cell.Cell.TheVariants.{Null};
ghost use Rattle.heap_tuple.specs.Values.{aligned_to, within, fixed_span, varlena_at, varlena_span, span_of, truth_of, cell_of, least_width, value_of, has_value, stored_column, fault_in, cells_from, row_of, SaysRow};
ghost use Rattle.heap_tuple.specs.Lent.{meant_at, meant_value};
ghost use Rattle.heap_tuple.specs.Tuple.{columns_of, hoff_of};

use crate::cell::{Cell, Column, Kind, Row};
use crate::infomask;
use crate::tuple_view::TupleView;
use crate::value::{Value, push_owned};
use byteorder::{ByteOrder, LittleEndian};
use pg_types::{NoMemory, u32_at};
use std::alloc::Global;
use thiserror::Error;

/// Why a tuple's row is not given. Columns are numbered from 0.
#[derive(Clone, Copy, Debug, Error)]
pub enum RowFault {
    /// The column's value is stored outside or compressed.
    #[error("a value is stored outside the tuple or compressed")]
    Toasted { column: u16 },
    /// The tuple has more columns than are described (the last described one is named), or the
    /// column's value passes the tuple's end, is shorter than its header or no truth value.
    #[error("a value is malformed")]
    Bad { column: u16 },
    #[error("out of memory")]
    Memory,
}

impl From<NoMemory> for RowFault {
    ghost use Rattle.std.specs.Prelude.{◌≡◌};
    ghost use Rattle.heap_tuple.specs.declared.values.RowFault.TheVariants.{Memory};

    ghost from_gives = { λ _ fault. fault ≡ Memory };

    fn from(_: NoMemory) -> RowFault {
        RowFault::Memory
    }
}

/// Why one value is refused.
#[derive(Clone, Copy)]
pub enum ValueRefusal {
    Toasted,
    Bad,
}

/// The next multiple of `n`.
fn aligned_to(n: usize, at: usize) -> usize
    requires positive { 0 < n }
    requires small { n ≤ 8 }
    requires fits { at + 8 < 2 ^ 64 }
    ensures value { result ≡ aligned_to n at }
    ensures bound { result ≤ at + 7 }
{
    (at + (n - 1)) / n * n
}

/// The place from `start` up to `end`, where the data reaches so far.
fn within(content: &[u8], start: usize, end: usize) -> Result<(usize, usize), ValueRefusal>
    ensures value { result ≡ within content.now start end }
    ensures placed { IfOk result (λ s. (s.0 ≡ start) × (s.1 ≡ end) × (end ≤ length content.now)) }
{
    if end <= content.len() {
        Ok((start, end))
    } else {
        Err(ValueRefusal::Bad)
    }
}

/// Where a value of `width` bytes stands.
fn fixed_span(
    width: usize,
    align: usize,
    content: &[u8],
    at: usize,
) -> Result<(usize, usize), ValueRefusal>
    requires positive { 0 < align }
    requires small { align ≤ 8 }
    requires narrow { width ≤ 16 }
    requires inside { at ≤ length content.now }
    ensures value { result ≡ fixed_span width align content.now at }
    ensures placed { IfOk result (λ s. (s.0 + width ≤ s.1) × (s.1 ≤ length content.now)) }
{
    let start = aligned_to(align, at);
    within(content, start, start + width)
}

/// Where the content of the varlena stands whose header begins at `at`.
#[tactic(auto, using(std::proofs::lemmas::Bool::Decides::nat_tests), unfolding(crate::specs::Values::varlena_at))]
fn varlena_at(content: &[u8], at: usize) -> Result<(usize, usize), ValueRefusal>
    ensures value { result ≡ varlena_at content.now at }
    ensures placed { IfOk result (λ s. (s.0 ≤ s.1) × (s.1 ≤ length content.now)) }
{
    if content.len() <= at {
        return Err(ValueRefusal::Bad);
    }
    let first = content[at] as usize;
    if first == 1 {
        return Err(ValueRefusal::Toasted);
    }
    if first % 2 == 1 {
        return within(content, at + 1, at + first / 2);
    }
    if content.len() < at + 4 {
        return Err(ValueRefusal::Bad);
    }
    if first % 4 == 2 {
        return Err(ValueRefusal::Toasted);
    }
    let size = (u32_at(content, at) / 4) as usize;
    if size < 4 {
        return Err(ValueRefusal::Bad);
    }
    within(content, at + 4, at + size)
}

/// Where the content of the next varlena stands, whose header is aligned where a zero byte stands.
fn varlena_span(content: &[u8], at: usize) -> Result<(usize, usize), ValueRefusal>
    requires { at ≤ length content.now }
    ensures value { result ≡ varlena_span content.now at }
    ensures placed { IfOk result (λ s. (s.0 ≤ s.1) × (s.1 ≤ length content.now)) }
{
    if at < content.len() && content[at] != 0 {
        return varlena_at(content, at);
    }
    varlena_at(content, aligned_to(4, at))
}

/// Where the next value of this type stands.
#[tactic(auto, unfolding(crate::specs::Values::span_of))]
fn span(kind: Kind, content: &[u8], at: usize) -> Result<(usize, usize), ValueRefusal>
    requires { at ≤ length content.now }
    ensures value { result ≡ span_of kind content.now at }
    ensures placed { IfOk result (λ s. (s.0 + least_width kind ≤ s.1) × (s.1 ≤ length content.now)) }
{
    match kind {
        Kind::Bool => fixed_span(1, 1, content, at),
        Kind::Int2 => fixed_span(2, 2, content, at),
        Kind::Int4 => fixed_span(4, 4, content, at),
        Kind::Int8 => fixed_span(8, 8, content, at),
        Kind::Oid => fixed_span(4, 4, content, at),
        Kind::Uuid => fixed_span(16, 1, content, at),
        Kind::Text => varlena_span(content, at),
        Kind::Bytea => varlena_span(content, at),
        Kind::Raw4 => fixed_span(4, 4, content, at),
        Kind::Raw8 => fixed_span(8, 8, content, at),
    }
}

/// The truth value of a byte.
#[tactic(auto, using(std::proofs::lemmas::Bool::Decides::nat_tests))]
fn truth<'a>(byte: u8) -> Result<Value<'a>, ValueRefusal>
    ensures { meant_value result ≡ truth_of byte }
{
    match byte {
        0 => Ok(Value::Bool(false)),
        1 => Ok(Value::Bool(true)),
        _ => Err(ValueRefusal::Bad),
    }
}

/// The value of this type that the bytes store.
#[tactic(auto, unfolding(crate::specs::Values::cell_of, pg_types::specs::Numbers::number_at))]
fn stored(kind: Kind, bytes: &[u8]) -> Result<Value<'_>, ValueRefusal>
    requires { least_width kind ≤ length bytes.now }
    ensures { meant_value result ≡ cell_of kind bytes.now }
{
    match kind {
        Kind::Bool => truth(bytes[0]),
        Kind::Int2 => Ok(Value::Int(i64::from(LittleEndian::read_i16(bytes)))),
        Kind::Int4 => Ok(Value::Int(i64::from(LittleEndian::read_i32(bytes)))),
        Kind::Int8 => Ok(Value::Int(LittleEndian::read_i64(bytes))),
        Kind::Oid => Ok(Value::Int(i64::from(u32_at(bytes, 0)))),
        Kind::Uuid => Ok(Value::Bytes(bytes)),
        Kind::Text => Ok(Value::Bytes(bytes)),
        Kind::Bytea => Ok(Value::Bytes(bytes)),
        Kind::Raw4 => Ok(Value::Bytes(bytes)),
        Kind::Raw8 => Ok(Value::Bytes(bytes)),
    }
}

/// The next value of this type in the user content, and where it ends.
fn value(kind: Kind, content: &[u8], at: usize) -> Result<(Value<'_>, usize), ValueRefusal>
    requires { at ≤ length content.now }
    ensures value { meant_at result ≡ value_of kind content.now at }
    ensures inside { IfOk result (λ r. r.1 ≤ length content.now) }
{
    let (start, end) = span(kind, content, at)?;
    let value = stored(kind, &content[start..end])?;
    Ok((value, end))
}

/// Whether the tuple has a value in column `i`, by its bitmap of nulls.
#[tactic(auto, using(std::proofs::lemmas::Bool::Decides::nat_tests), unfolding(crate::specs::Values::has_value))]
fn has_value(tuple: &TupleView, i: usize) -> bool
    requires { i < columns_of tuple.now }
    ensures { result ≡ has_value tuple.now i }
{
    if tuple.infomask() & infomask::HAS_NULL == 0 {
        return true;
    }
    let bits = tuple.bytes()[23 + i / 8];
    bits >> (i % 8) & 1 == 1
}

/// Column `i` of the tuple, from 0, whose next value is looked for from `at` on in the user data, and where
/// the one after it is. A column that the tuple does not have has the value that is described as missing,
/// or null. It takes no memory.
/// What a column has in a tuple that ends before it.
fn missing_cell(alloc: Global, column: &Column) -> Result<Cell, NoMemory>
    ensures { IfOk result (λ cell. cell ≡ unwrap_or column.now.missing Null) }
{
    match &column.missing {
        Some(cell) => cell.copy(alloc),
        None => Ok(Cell::Null),
    }
}

/// The fault of a row whose column `i` is refused so.
pub fn fault_in(i: usize, refusal: ValueRefusal) -> RowFault
    requires { i < 2048 }
    ensures { result ≡ fault_in i refusal }
{
    match refusal {
        ValueRefusal::Toasted => RowFault::Toasted { column: i as u16 },
        ValueRefusal::Bad => RowFault::Bad { column: i as u16 },
    }
}

impl<'a> TupleView<'a> {
    /// The row that the tuple stores for these columns. Where several columns are at fault the first
    /// one is named, and before all `Bad` with the last described column where the tuple has more
    /// columns than are described.
    #[tactic(auto, using(std::proofs::lemmas::Bool::Decides::nat_tests), unfolding(crate::specs::Values::row_of))]
    pub fn deform(&self, alloc: Global, columns: &[Column]) -> Result<Row, RowFault>
        ensures { SaysRow result (row_of self.now columns.now) }
    {
        if columns.len() < self.columns() as usize {
            let last = columns.len().saturating_sub(1);
            return Err(RowFault::Bad {
                column: last as u16,
            });
        }
        self.cells_of(alloc, columns)
    }

    /// The value of column `i`, from 0, one of this type that the tuple has. It is looked for from `at` on
    /// in the user data, and comes with where the one after it is. It takes no memory.
    #[tactic(auto, using(std::proofs::lemmas::Bool::Decides::nat_tests))]
    pub fn value_at(
        &self,
        i: usize,
        at: usize,
        kind: Kind,
    ) -> Result<(Value<'a>, usize), ValueRefusal>
        requires column { i < columns_of self.now }
        requires inside { at ≤ length self.now - hoff_of self.now }
        ensures value { meant_at result ≡ stored_column self.now i at kind }
        ensures inside { IfOk result (λ r. r.1 ≤ length self.now - hoff_of self.now) }
        ensures few { i < 2048 }
    {
        if has_value(self, i) {
            return value(kind, self.user_data(), at);
        }
        Ok((Value::Null, at))
    }

    /// The cells of the columns, one after the other.
    fn cells_of(&self, alloc: Global, columns: &[Column]) -> Result<Row, RowFault>
        ensures { SaysRow result (cells_from self.now 0 0 columns.now) }
    {
        let mut row = Row::new(alloc);
        let mut at = 0;
        for (i, column) in columns.iter().enumerate() {
            if self.columns() as usize <= i {
                row.push(missing_cell(alloc, column)?)?;
            } else {
                match self.value_at(i, at, column.kind) {
                    Ok((value, end)) => {
                        push_owned(alloc, &value, &mut row)?;
                        at = end;
                    }
                    Err(refusal) => return Err(fault_in(i, refusal)),
                }
            }
        }
        Ok(row)
    }
}
