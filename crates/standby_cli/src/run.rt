ghost use Rattle.std.specs.Prelude.{◌≡◌, ◌≢◌, ◌≤◌, ◌⊎◌, IfOk, IfSome};
ghost use Rattle.outside.specs.Faults.{Rose};
ghost use Rattle.wal_archive.specs.ArchiveLog.{archived_bytes};
ghost use Rattle.standby_core.specs.View.{standby};
ghost use Rattle.standby_model.specs.Archived.{segment_size};
ghost use Rattle.session_model.specs.NodeSteps.{NodeStep};
ghost use Rattle.run_model.specs.Origin.{start};
ghost use Rattle.run_model.specs.Leaves.{IsFault, ScanLeaves, SessionLeaves};
ghost use Rattle.standby_cli.specs.Endings.{EndsBy, status_of};
ghost use Rattle.standby_cli.specs.Watched.{watched};

use crate::fault::write_fault;
use outside::{Archive, Sink, Source};
use page_store::Pool;
use pg_types::{Lsn, NoMemory};
use standby_core::{Node, Origin};
use standby_session::{SessionFault, hold_session, run_scan};
use std::alloc::Global;
use table_schema::Tables;

/// Where the log begins: the redo position of the base backup, behind the long page header of segment 2.
const ORIGIN: Origin = Origin {
    system: 7,
    segsize: 16 * 1024 * 1024,
    redo: Lsn(0x200_0028),
};

/// A node at the log's begin, whose tables have no blocks.
fn start(alloc: Global, tables: Tables) -> Result<Node, NoMemory>
    ensures { IfOk result (λ node. standby node ≡ start tables) }
{
    let count = tables.locators().len() as u16;
    let pool = Pool::plain(alloc, count)?;
    Node::at_origin(alloc, tables, &ORIGIN, pool)
}

/// Scans the table with this name, among these, at the end of the archive's log, and gives the exit status.
pub fn scan<A: Archive, O: Sink>(
    alloc: Global,
    tables: Tables,
    name: &str,
    archive: &mut A,
    out: &mut O,
) -> u8
    ensures statuses { ((result ≡ 0) ⊎ ((result ≡ 1) ⊎ (result ≡ 5))) ⊎ IsFault result }
    ensures leaves { IfSome (archived_bytes (A.files archive.old) segment_size) (λ byte. ScanLeaves (NodeStep byte) (start tables) name.now result
        (watched (O.fault_count out.old) (O.fault_count out.new) (O.short_count out.old) (O.short_count out.new) ⊥ (O.written out.old) (O.written out.new))) }
    ensures archive_failed { result ≡ 7 → Rose (A.fault_count archive.old) (A.fault_count archive.new) }
    ensures uncounted { result ≢ 7 → A.fault_count archive.new ≡ A.fault_count archive.old }
    ensures sink_failed { result ≡ 9 → Rose (O.fault_count out.old) (O.fault_count out.new) }
{
    let mut node = match start(alloc, tables) {
        Err(_) => return write_fault(12, b"fault memory\n", out),
        Ok(node) => node,
    };
    match run_scan(alloc, &mut node, archive, name, out) {
        Ok(status) => status,
        Err(fault) => end_by(fault, out),
    }
}

/// Answers the lines of the source over the archive's log, with these tables, and gives the exit status.
pub fn hold<A: Archive, S: Source, O: Sink>(
    alloc: Global,
    tables: Tables,
    archive: &mut A,
    source: &mut S,
    out: &mut O,
) -> u8
    ensures statuses { ((result ≡ 0) ⊎ (result ≡ 5)) ⊎ IsFault result }
    ensures leaves { IfSome (archived_bytes (A.files archive.old) segment_size) (λ byte. IfSome (S.rest source.old) (λ lines.
        SessionLeaves (NodeStep byte) (start tables) lines result
        (watched (O.fault_count out.old) (O.fault_count out.new) (O.short_count out.old) (O.short_count out.new)
        (Rose (S.fault_count source.old) (S.fault_count source.new)) (O.written out.old) (O.written out.new)))) }
    ensures archive_failed { result ≡ 7 → Rose (A.fault_count archive.old) (A.fault_count archive.new) }
    ensures uncounted { result ≢ 7 → A.fault_count archive.new ≡ A.fault_count archive.old }
    ensures stream_failed { result ≡ 9
        → Rose (O.fault_count out.old) (O.fault_count out.new) ⊎ Rose (S.fault_count source.old) (S.fault_count source.new) }
    ensures source_uncounted { result ≢ 9 → S.fault_count source.new ≡ S.fault_count source.old }
{
    let mut node = match start(alloc, tables) {
        Err(_) => return write_fault(12, b"fault memory\n", out),
        Ok(node) => node,
    };
    match hold_session(alloc, &mut node, archive, source, out) {
        Ok(status) => status,
        Err(fault) => end_by(fault, out),
    }
}

/// Writes the line of the fault that ended a run, but of one of the sink, and gives its status.
fn end_by<O: Sink>(fault: SessionFault, out: &mut O) -> u8
    ensures status { result ≡ status_of fault }
    ensures written { EndsBy fault
        (Rose (O.fault_count out.old) (O.fault_count out.new) ⊎ Rose (O.short_count out.old) (O.short_count out.new))
        (O.written out.old) (O.written out.new) }
    ensures faults { O.fault_count out.old ≤ O.fault_count out.new }
    ensures shortages { O.short_count out.old ≤ O.short_count out.new }
    ensures sink { fault ≡ SessionFault.Sink → O.fault_count out.new ≡ O.fault_count out.old }
{
    match fault {
        SessionFault::Archive => write_fault(7, b"fault archive\n", out),
        SessionFault::Source => write_fault(9, b"fault source\n", out),
        SessionFault::Memory => write_fault(12, b"fault memory\n", out),
        SessionFault::Sink => 9,
    }
}
