ghost use Rattle.std.specs.Prelude.{◌≡◌, ◌≢◌, Err, IfOk, IfSome, IsOkAnd, map, string_bytes};
ghost use Rattle.outside.specs.Faults.{Rose};
ghost use Rattle.schema_file.specs.Meaning.{reading};
ghost use Rattle.run_model.specs.Starts.{BadWords, Holds, HoldsSession, NoCommand, Rejects, Scans, ScansTable, Starts, StartsWith, command_of, start_by};
ghost use Rattle.standby_cli.specs.Meaning.{command_meaning, start_meaning};

use outside::BaseDir;
use pg_types::Fail;
use schema_file::{SchemaFile, read_tables};
use std::alloc::Global;
use table_schema::{SchemaFault, Tables};

/// What the words ask.
#[derive(Clone, Copy)]
pub enum Command<'a> {
    /// A scan of the table with this name.
    Scan { name: &'a str },
    Session,
    /// Nothing that is understood.
    Unknown,
}

/// Why a run ends before it begins.
#[derive(Drop)]
pub enum Rejection {
    /// The words are not understood.
    BadWords,
    /// The base folder has no description of tables.
    SchemaMissing,
    /// What stands there is no description.
    SchemaRefused(SchemaFault),
}

/// How a run begins.
#[derive(Drop)]
pub enum Start<'a> {
    Rejected(Rejection),
    /// The table with this name is scanned, among these.
    Scans { tables: Tables, name: &'a str },
    /// A session is held over these tables.
    Holds { tables: Tables },
}

/// How a run with these words begins, by the description in the base folder. Words that are not understood are not asked
/// for it.
///
/// # Errors
/// `Failed` only where the base folder's faults rose, `Memory` for want of memory.
pub fn begin<'a, B: BaseDir>(
    alloc: Global,
    words: &'a [String],
    base: &mut B,
) -> Result<Start<'a>, Fail>
    ensures told { IfOk result (λ start. IfSome (B.files base.old) (λ described. Starts (map string_bytes words.now) described (start_meaning start))) }
    ensures bad_words { IfOk result (λ start. start_meaning start ≡ Rejects BadWords → command_of (map string_bytes words.now) ≡ NoCommand) }
    ensures at_once { command_of (map string_bytes words.now) ≡ NoCommand → IsOkAnd result (λ start. start_meaning start ≡ Rejects BadWords) }
    ensures failed { result ≡ Err Fail.Failed → Rose (B.fault_count base.old) (B.fault_count base.new) }
    ensures uncounted { result ≢ Err Fail.Failed → B.fault_count base.new ≡ B.fault_count base.old }
{
    match command_of(words) {
        Command::Unknown => Ok(Start::Rejected(Rejection::BadWords)),
        Command::Session => begin_session(alloc, base),
        Command::Scan { name } => begin_scan(alloc, name, base),
    }
}

/// What the words ask.
fn command_of(words: &[String]) -> Command<'_>
    ensures { command_meaning result ≡ command_of (map string_bytes words.now) }
{
    match words.len() {
        1 if words[0].as_str() == "session" => Command::Session,
        2 if words[0].as_str() == "scan" => Command::Scan {
            name: words[1].as_str(),
        },
        _ => Command::Unknown,
    }
}

/// How a session begins over the base folder.
fn begin_session<'a, B: BaseDir>(alloc: Global, base: &mut B) -> Result<Start<'a>, Fail>
    ensures told { IfOk result (λ start. IfSome (B.files base.old) (λ described. StartsWith HoldsSession described (start_meaning start))) }
    ensures understood { IfOk result (λ start. start_meaning start ≢ Rejects BadWords) }
    ensures failed { result ≡ Err Fail.Failed → Rose (B.fault_count base.old) (B.fault_count base.new) }
    ensures uncounted { result ≢ Err Fail.Failed → B.fault_count base.new ≡ B.fault_count base.old }
{
    match read_tables(alloc, base, "schema.toml") {
        Ok(file) => Ok(start_session(file)),
        Err(fail) => Err(fail),
    }
}

/// How it begins by what was read of the description.
fn start_session<'a>(file: SchemaFile) -> Start<'a>
    ensures meaning { start_meaning result ≡ start_by Holds (reading file) }
    ensures understood { start_meaning result ≢ Rejects BadWords }
{
    match file {
        SchemaFile::Absent => Start::Rejected(Rejection::SchemaMissing),
        SchemaFile::Refused(fault) => Start::Rejected(Rejection::SchemaRefused(fault)),
        SchemaFile::Described(tables) => Start::Holds { tables },
    }
}

/// How a scan of the table with this name begins over the base folder.
fn begin_scan<'a, B: BaseDir>(alloc: Global, name: &'a str, base: &mut B) -> Result<Start<'a>, Fail>
    ensures told { IfOk result (λ start. IfSome (B.files base.old) (λ described. StartsWith (ScansTable name.now) described (start_meaning start))) }
    ensures understood { IfOk result (λ start. start_meaning start ≢ Rejects BadWords) }
    ensures failed { result ≡ Err Fail.Failed → Rose (B.fault_count base.old) (B.fault_count base.new) }
    ensures uncounted { result ≢ Err Fail.Failed → B.fault_count base.new ≡ B.fault_count base.old }
{
    match read_tables(alloc, base, "schema.toml") {
        Ok(file) => Ok(start_scan(name, file)),
        Err(fail) => Err(fail),
    }
}

/// How it begins by what was read of the description.
fn start_scan(name: &str, file: SchemaFile) -> Start<'_>
    ensures meaning { start_meaning result ≡ start_by (λ tables. Scans tables name.now) (reading file) }
    ensures understood { start_meaning result ≢ Rejects BadWords }
{
    match file {
        SchemaFile::Absent => Start::Rejected(Rejection::SchemaMissing),
        SchemaFile::Refused(fault) => Start::Rejected(Rejection::SchemaRefused(fault)),
        SchemaFile::Described(tables) => Start::Scans { tables, name },
    }
}
