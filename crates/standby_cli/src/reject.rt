ghost use Rattle.std.specs.Prelude.{◌≡◌, ◌≢◌, ◌++◌, OnOk, IfOk, codes};
ghost use Rattle.std.specs.Fmt.{decimal};
ghost use Rattle.table_schema.specs.Keys.{key_text};
ghost use Rattle.run_model.specs.Starts.{rejection_status, rejection_text, schema_text};
ghost use Rattle.run_model.specs.Leaves.{RejectionLeaves};
ghost use Rattle.outside.specs.Faults.{Rose};
ghost use Rattle.standby_cli.specs.Meaning.{rejection_meaning};
ghost use Rattle.standby_cli.specs.Watched.{watched};

use crate::begin::Rejection;
use crate::fault::write_fault;
use outside::Sink;
use pg_types::{Fail, NoMemory};
use reply_text::{push_numbered, push_word};
use std::alloc::Global;
use table_schema::{Key, SchemaFault};

/// Writes why a run is rejected, and gives its status.
pub fn reject<O: Sink>(alloc: Global, rejection: &Rejection, out: &mut O) -> u8
    ensures leaves { RejectionLeaves (rejection_meaning rejection.now) result
        (watched (O.fault_count out.old) (O.fault_count out.new) (O.short_count out.old) (O.short_count out.new) ⊥ (O.written out.old) (O.written out.new)) }
    ensures no_archive { result ≢ 7 }
    ensures sink_failed { result ≡ 9 → Rose (O.fault_count out.old) (O.fault_count out.new) }
{
    let text = match rejection_text(alloc, rejection) {
        Err(_) => return write_fault(12, b"fault memory\n", out),
        Ok(text) => text,
    };
    match out.write(text.as_slice()) {
        Err(Fail::Failed) => 9,
        Err(Fail::Memory) => write_fault(12, b"fault memory\n", out),
        Ok(()) => rejection_status(rejection),
    }
}

/// The exit status of a rejection.
fn rejection_status(rejection: &Rejection) -> u8
    ensures { result ≡ rejection_status (rejection_meaning rejection.now) }
{
    match rejection {
        Rejection::BadWords => 2,
        Rejection::SchemaMissing => 4,
        Rejection::SchemaRefused(_) => 3,
    }
}

/// The line of a rejection.
#[tactic(auto, unfolding(run_model::specs::Starts::rejection_text))]
fn rejection_text(alloc: Global, rejection: &Rejection) -> Result<Vec<u8>, NoMemory>
    ensures { IfOk result (λ text. text.items ≡ rejection_text (rejection_meaning rejection.now)) }
{
    let mut text = Vec::new(alloc);
    match rejection {
        Rejection::BadWords => text.extend_from_slice(b"fault words")?,
        Rejection::SchemaMissing => text.extend_from_slice(b"fault base missing schema.toml")?,
        Rejection::SchemaRefused(fault) => {
            text.extend_from_slice(b"fault schema ")?;
            push_schema_fault(alloc, fault, &mut text)?;
        }
    }
    text.push(b'\n')?;
    Ok(text)
}

/// Appends why a description is refused.
fn push_schema_fault(alloc: Global, fault: &SchemaFault, text: &mut Vec<u8>) -> Result<(), NoMemory>
    ensures { OnOk result (text.new.items ≡ text.old.items ++ schema_text fault.now) }
{
    match fault {
        SchemaFault::TooLong => text.extend_from_slice(b"long")?,
        SchemaFault::Toml => text.extend_from_slice(b"toml")?,
        SchemaFault::Field { table, key } => push_field(alloc, *table, *key, text)?,
        SchemaFault::Twice { name } => push_word(b"twice ", name.as_str(), text)?,
        SchemaFault::Many => text.extend_from_slice(b"many")?,
        SchemaFault::Memory => text.extend_from_slice(b"memory")?,
    }
    Ok(())
}

/// Appends the number of a table and a key of it.
fn push_field(alloc: Global, table: u16, key: Key, text: &mut Vec<u8>) -> Result<(), NoMemory>
    ensures { OnOk result (text.new.items ≡ text.old.items ++ (codes "field " ++ decimal table ++ codes " " ++ key_text key)) }
{
    push_numbered(alloc, b"field ", u64::from(table), text)?;
    push_word(b" ", key.word(), text)
}
