ghost use Rattle.std.specs.Prelude.{◌≡◌, ◌≢◌, ◌++◌, Ok, Err, IfErr, OnOk, length, take, unwrap_or};
ghost use Rattle.heap_tuple.specs.declared.cell.Cell.TheVariants.{Null};
ghost use Rattle.heap_tuple.specs.Lent.{meant};
ghost use Rattle.heap_tuple.specs.Values.{SaysRow, cells_from, row_of};
ghost use Rattle.table_schema.specs.RowText.{cell_text, printed, tab_before};

use crate::row_text::push_value;
use heap_tuple::{Column, Kind, RowFault, TupleView, Value, fault_in};
use pg_types::NoMemory;

/// Appends the row that a tuple stores for these columns, as `Tables::print_row` does, without making it.
/// The faults are those of `TupleView::deform`; where the row is refused nothing is appended, and after
/// `Memory` a part of it may stand there.
#[tactic(auto, using(std::proofs::lemmas::Bool::Decides::nat_tests), unfolding(heap_tuple::specs::Values::row_of))]
pub fn print_tuple(
    columns: &[Column],
    tuple: &TupleView<'_>,
    out: &mut Vec<u8>,
) -> Result<(), RowFault>
    ensures text { OnOk result (printed columns.now out.old.items (row_of tuple.now columns.now) ≡ Ok out.new.items) }
    ensures refused { IfErr result (λ fault. SaysRow (Err fault) (row_of tuple.now columns.now)) }
    ensures kept { IfErr result (λ fault. fault ≢ RowFault.Memory → out.new.items ≡ out.old.items) }
{
    if columns.len() < tuple.columns() as usize {
        let last = columns.len().saturating_sub(1);
        return Err(RowFault::Bad {
            column: last as u16,
        });
    }
    let start = out.len();
    match push_values(columns, tuple, out) {
        Ok(()) => Ok(()),
        Err(fault) => {
            out.truncate(start);
            Err(fault)
        }
    }
}

/// Appends the values of the columns, with a tab between them, up to the first that is refused.
fn push_values(columns: &[Column], tuple: &TupleView<'_>, out: &mut Vec<u8>) -> Result<(), RowFault>
    ensures text { OnOk result (printed columns.now out.old.items (cells_from tuple.now 0 0 columns.now) ≡ Ok out.new.items) }
    ensures refused { IfErr result (λ fault. SaysRow (Err fault) (cells_from tuple.now 0 0 columns.now)) }
    ensures kept { IfErr result (λ fault. fault ≢ RowFault.Memory → take (length out.old.items) out.new.items ≡ out.old.items) }
{
    let mut at = 0;
    for (i, column) in columns.iter().enumerate() {
        if tuple.columns() as usize <= i {
            push_column(i, column.kind, &missing(column), out)?;
        } else {
            match tuple.value_at(i, at, column.kind) {
                Ok((value, end)) => {
                    push_column(i, column.kind, &value, out)?;
                    at = end;
                }
                Err(refusal) => return Err(fault_in(i, refusal)),
            }
        }
    }
    Ok(())
}

/// What a column has in a tuple that ends before it.
fn missing(column: &Column) -> Value<'_>
    ensures { meant result ≡ unwrap_or column.now.missing Null }
{
    match &column.missing {
        Some(cell) => cell.lend(),
        None => Value::Null,
    }
}

/// Appends the value of column `i`, from 0.
fn push_column(i: usize, kind: Kind, value: &Value<'_>, out: &mut Vec<u8>) -> Result<(), NoMemory>
    ensures { OnOk result (out.new.items ≡ out.old.items ++ (tab_before i ++ cell_text kind (meant value.now))) }
{
    if i > 0 {
        out.push(b'\t')?;
    }
    push_value(kind, value, out)
}
