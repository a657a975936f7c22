ghost use Rattle.std.specs.Prelude.{◌≡◌, ◌≢◌, ◌↔◌, ◌≤◌, ℕ, List, Option, Result, length, IfOk, IfSome, IsTrue, OnOk, Err};
ghost use Rattle.outside.specs.Faults.{Rose};
ghost use Rattle.table_schema.specs.Description.{Description};
ghost use Rattle.table_schema.specs.Reading.{Answers};
ghost use Rattle.schema_file.specs.SchemaFile.{AnswersFile, Read};
ghost use Rattle.schema_file.specs.Meaning.{reading};

use outside::BaseDir;
use pg_types::{Fail, NoMemory};
use std::alloc::Global;
use table_schema::{SchemaFault, Tables, read_schema};

/// One byte more than a description may have, so that a longer text is seen to be so.
const ROOM: usize = 1048577;

/// What the file of a description says.
#[derive(Drop)]
pub enum SchemaFile {
    /// There is no such file.
    Absent,
    /// It describes these tables.
    Described(Tables),
    /// It is no description, by the first test that its text fails.
    Refused(SchemaFault),
}

/// Reads the description in the file with this name.
///
/// # Errors
/// `Failed` only where the folder's faults rose, `Memory` for want of memory.
pub fn read_tables<B: BaseDir>(alloc: Global, base: &mut B, name: &str) -> Result<SchemaFile, Fail>
    ensures told { IfOk result (λ file. IfSome (B.files base.old) (λ files. AnswersFile (files name.now) (reading file))) }
    ensures some { IfOk result (λ file. (contents : Option (List ℕ)) × AnswersFile contents (reading file)) }
    ensures named { IfOk result (λ file. file ≢ SchemaFile.Refused SchemaFault.Memory) }
    ensures stays { B.files base.new ≡ B.files base.old }
    ensures failed { result ≡ Err Fail.Failed → Rose (B.fault_count base.old) (B.fault_count base.new) }
    ensures uncounted { result ≢ Err Fail.Failed → B.fault_count base.new ≡ B.fault_count base.old }
{
    let mut text = match room(alloc) {
        Ok(text) => text,
        Err(_) => return Err(Fail::Memory),
    };
    match base.fetch(name, 0, text.as_mut_slice()) {
        Ok(Some(count)) => tables_in(alloc, &text[..count]),
        Ok(None) => Ok(SchemaFile::Absent),
        Err(fail) => Err(fail),
    }
}

/// Room for a text.
fn room(alloc: Global) -> Result<Vec<u8>, NoMemory>
    ensures { IfOk result (λ bytes. length bytes.items ≡ 1048577) }
{
    Ok(vec![in alloc; 0; ROOM]?)
}

/// The tables that a text describes.
fn tables_in(alloc: Global, text: &[u8]) -> Result<SchemaFile, Fail>
    ensures says { IfOk result (λ file. (answer : Result Description SchemaFault) × Answers text.now answer × (reading file ≡ Read answer)) }
    ensures named { IfOk result (λ file. file ≢ SchemaFile.Refused SchemaFault.Memory) }
    ensures no_fault { result ≢ Err Fail.Failed }
{
    match read_schema(alloc, text) {
        Ok(tables) => Ok(SchemaFile::Described(tables)),
        Err(fault) => refused(fault),
    }
}

/// A text that is refused, unless memory ran out.
fn refused(fault: SchemaFault) -> Result<SchemaFile, Fail>
    ensures refused { IfOk result (λ file. file ≡ SchemaFile.Refused fault) }
    ensures named { OnOk result (fault ≢ SchemaFault.Memory) }
    ensures no_fault { result ≢ Err Fail.Failed }
{
    if is_memory(&fault) {
        Err(Fail::Memory)
    } else {
        Ok(SchemaFile::Refused(fault))
    }
}

fn is_memory(fault: &SchemaFault) -> bool
    ensures { IsTrue result ↔ (fault.now ≡ SchemaFault.Memory) }
{
    matches!(fault, SchemaFault::Memory)
}
