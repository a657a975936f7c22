ghost use Rattle.std.specs.Prelude.{◌≡◌, ◌≢◌, ◌<◌, ◌≤◌, ◌⊎◌, ◌++◌, [], Err, IfOk, IfSome, None, Ok, OnOk};
ghost use Rattle.outside.specs.Faults.{Rose};
ghost use Rattle.wal_archive.specs.ArchiveLog.{archived_bytes};
ghost use Rattle.standby_core.specs.Scans.{scan_with};
ghost use Rattle.standby_core.specs.View.{standby};
ghost use Rattle.session_model.specs.Scans.{refused_text};
ghost use Rattle.standby_session.specs.Scanned.{ScanLeftTold};
ghost use Rattle.standby_session.specs.Scanning.{IsLastAt, IsLastPrinted, OpenedLeaves, PageLeaves, PagesLeave, PushesPage, ReplaysToTold, TableLeaves, WroteRefused, WroteText, left_of};

use crate::fault::SessionFault;
use crate::page::push_last_line;
use outside::{Archive, Sink};
use pg_types::{Fail, Lsn, NoMemory};
use reply_text::{push_closed, push_opened, push_refusal};
use seq_scan::PageEnd;
use standby_core::{Node, NodeFault, Opened, PrintedPage, Refusal, Replayed};
use std::alloc::Global;

/// Scans the table with this name: replays the archive's log to its end, opens a scan, and reads it page by page; the
/// lines of the opening and of each page are one write each. Gives the exit status: 0 where the scan was read to its end;
/// 1 where none was opened, or a row is refused; 5 where a record of the log is refused, or a block is damaged.
///
/// # Errors
/// `Archive` only where the archive's faults rose; nothing is written then. `Sink` only where the sink's faults rose, and
/// `Memory` for want of memory. All pages that were finished before it are written; of the one in which the sink failed a
/// prefix.
pub fn run_scan<A: Archive, O: Sink>(
    alloc: Global,
    node: &mut Node,
    archive: &mut A,
    table: &str,
    out: &mut O,
) -> Result<u8, SessionFault>
    ensures scanned { ScanLeftTold (archived_bytes (A.files archive.old) (standby node.old).segsize) table.now (standby node.old) (O.written out.old) (O.written out.new) result }
    ensures status { IfOk result (λ status. (status ≡ 0) ⊎ ((status ≡ 1) ⊎ (status ≡ 5))) }
    ensures no_source { result ≢ Err SessionFault.Source }
    ensures archive_failed { result ≡ Err SessionFault.Archive → Rose (A.fault_count archive.old) (A.fault_count archive.new) }
    ensures archive_uncounted { result ≢ Err SessionFault.Archive → A.fault_count archive.new ≡ A.fault_count archive.old }
    ensures sink_failed { result ≡ Err SessionFault.Sink → Rose (O.fault_count out.old) (O.fault_count out.new) }
    ensures sink_uncounted { result ≢ Err SessionFault.Sink → O.fault_count out.new ≡ O.fault_count out.old }
    ensures shortages { O.short_count out.old ≤ O.short_count out.new }
{
    match replay_all(node, archive) {
        Err(NodeFault::Archive) => Err(SessionFault::Archive),
        Err(NodeFault::Memory) => Err(SessionFault::Memory),
        Ok(Some((at, what))) => write_refused(alloc, at, what, out),
        Ok(None) => scan_table(alloc, node, table, out),
    }
}

/// Replays the archive's log to its end, or to a record that is refused, which it gives with its position.
fn replay_all<A: Archive>(
    node: &mut Node,
    archive: &mut A,
) -> Result<Option<(Lsn, Refusal)>, NodeFault>
    ensures told { ReplaysToTold (archived_bytes (A.files archive.old) (standby node.old).segsize) (standby node.old) (standby node.new) result }
    ensures failed { result ≡ Err NodeFault.Archive → Rose (A.fault_count archive.old) (A.fault_count archive.new) }
    ensures uncounted { result ≢ Err NodeFault.Archive → A.fault_count archive.new ≡ A.fault_count archive.old }
{
    'records: loop {
        match node.replay_one(archive) {
            Err(fault) => return Err(fault),
            Ok(Replayed::Applied { .. }) => {}
            Ok(Replayed::AtEnd { .. }) => return Ok(None),
            Ok(Replayed::Refused { lsn, what }) => return Ok(Some((lsn, what))),
        }
    }
}

/// Writes the line of a record that is refused, and gives the exit status.
fn write_refused<O: Sink>(
    alloc: Global,
    at: Lsn,
    what: Refusal,
    out: &mut O,
) -> Result<u8, SessionFault>
    ensures told { WroteRefused at.0 what (O.written out.old) (O.written out.new) result }
    ensures status { IfOk result (λ status. status ≡ 5) }
    ensures no_archive { result ≢ Err SessionFault.Archive }
    ensures no_source { result ≢ Err SessionFault.Source }
    ensures sink_failed { result ≡ Err SessionFault.Sink → Rose (O.fault_count out.old) (O.fault_count out.new) }
    ensures sink_uncounted { result ≢ Err SessionFault.Sink → O.fault_count out.new ≡ O.fault_count out.old }
    ensures shortages { O.short_count out.old ≤ O.short_count out.new }
{
    let mut text = Vec::new(alloc);
    match push_refused(alloc, at, what, &mut text) {
        Err(_) => Err(SessionFault::Memory),
        Ok(()) => match write_text(text.as_slice(), out) {
            Err(fault) => Err(fault),
            Ok(()) => Ok(5),
        },
    }
}

/// Appends the line of a record that is refused.
fn push_refused(alloc: Global, at: Lsn, what: Refusal, text: &mut Vec<u8>) -> Result<(), NoMemory>
    ensures { OnOk result (text.new.items ≡ text.old.items ++ refused_text at.0 what) }
{
    text.extend_from_slice(b"fault log ")?;
    at.print(text)?;
    text.extend_from_slice(b" ")?;
    push_refusal(alloc, what, text)?;
    text.push(b'\n')?;
    Ok(())
}

/// Writes a text.
fn write_text<O: Sink>(text: &[u8], out: &mut O) -> Result<(), SessionFault>
    ensures told { WroteText (O.written out.old) (O.written out.new) text.now result }
    ensures no_archive { result ≢ Err SessionFault.Archive }
    ensures no_source { result ≢ Err SessionFault.Source }
    ensures sink_failed { result ≡ Err SessionFault.Sink → Rose (O.fault_count out.old) (O.fault_count out.new) }
    ensures sink_uncounted { result ≢ Err SessionFault.Sink → O.fault_count out.new ≡ O.fault_count out.old }
    ensures shortages { O.short_count out.old ≤ O.short_count out.new }
{
    match out.write(text) {
        Err(Fail::Failed) => Err(SessionFault::Sink),
        Err(Fail::Memory) => Err(SessionFault::Memory),
        Ok(()) => Ok(()),
    }
}

/// Opens a scan of the table with this name, and writes the opening and the pages.
fn scan_table<O: Sink>(
    alloc: Global,
    node: &mut Node,
    table: &str,
    out: &mut O,
) -> Result<u8, SessionFault>
    ensures told { TableLeaves (standby node.old) table.now (O.written out.old) (O.written out.new) result }
    ensures status { IfOk result (λ status. (status ≡ 0) ⊎ ((status ≡ 1) ⊎ (status ≡ 5))) }
    ensures no_archive { result ≢ Err SessionFault.Archive }
    ensures no_source { result ≢ Err SessionFault.Source }
    ensures sink_failed { result ≡ Err SessionFault.Sink → Rose (O.fault_count out.old) (O.fault_count out.new) }
    ensures sink_uncounted { result ≢ Err SessionFault.Sink → O.fault_count out.new ≡ O.fault_count out.old }
    ensures shortages { O.short_count out.old ≤ O.short_count out.new }
{
    let mut text = Vec::new(alloc);
    match node.open_scan(table) {
        Err(_) => Err(SessionFault::Memory),
        Ok(opened) => match push_opened(alloc, &opened, &mut text) {
            Err(_) => Err(SessionFault::Memory),
            Ok(()) => match write_text(text.as_slice(), out) {
                Err(fault) => Err(fault),
                Ok(()) => write_opened(alloc, opened, node, out),
            },
        },
    }
}

/// Writes what follows the line of an opening: the pages, where a scan was opened.
fn write_opened<O: Sink>(
    alloc: Global,
    opened: Opened,
    node: &mut Node,
    out: &mut O,
) -> Result<u8, SessionFault>
    ensures told { OpenedLeaves opened (standby node.old) (O.written out.old) (O.written out.new) result }
    ensures status { IfOk result (λ status. (status ≡ 0) ⊎ ((status ≡ 1) ⊎ (status ≡ 5))) }
    ensures no_archive { result ≢ Err SessionFault.Archive }
    ensures no_source { result ≢ Err SessionFault.Source }
    ensures sink_failed { result ≡ Err SessionFault.Sink → Rose (O.fault_count out.old) (O.fault_count out.new) }
    ensures sink_uncounted { result ≢ Err SessionFault.Sink → O.fault_count out.new ≡ O.fault_count out.old }
    ensures shortages { O.short_count out.old ≤ O.short_count out.new }
{
    match opened {
        Opened::Scan { id, .. } => write_pages(alloc, id, node, out),
        Opened::NoTable => Ok(1),
        Opened::TooMany => Ok(1),
        Opened::NotAdmitted(_) => Ok(1),
        Opened::Gone { .. } => Ok(1),
        Opened::Locked { .. } => Ok(1),
    }
}

/// Writes the pages of the open scan with this id up to the last one.
fn write_pages<O: Sink>(
    alloc: Global,
    id: u64,
    node: &mut Node,
    out: &mut O,
) -> Result<u8, SessionFault>
    ensures told { PagesLeave id (standby node.old) (O.written out.old) (O.written out.new) result }
    ensures status { IfOk result (λ status. (status ≡ 0) ⊎ ((status ≡ 1) ⊎ (status ≡ 5))) }
    ensures no_archive { result ≢ Err SessionFault.Archive }
    ensures no_source { result ≢ Err SessionFault.Source }
    ensures sink_failed { result ≡ Err SessionFault.Sink → Rose (O.fault_count out.old) (O.fault_count out.new) }
    ensures sink_uncounted { result ≢ Err SessionFault.Sink → O.fault_count out.new ≡ O.fault_count out.old }
    ensures shortages { O.short_count out.old ≤ O.short_count out.new }
{
    let mut text = Vec::new(alloc);
    'pages: loop {
        text.clear();
        match write_page(alloc, id, node, &mut text, out) {
            Err(fault) => return Err(fault),
            Ok(Some(status)) => return Ok(status),
            Ok(None) => {}
        }
    }
}

/// Writes the next page of the scan with this id, in the room of an empty text, and gives the exit status of the scan
/// where it is the last one.
fn write_page<O: Sink>(
    alloc: Global,
    id: u64,
    node: &mut Node,
    text: &mut Vec<u8>,
    out: &mut O,
) -> Result<Option<u8>, SessionFault>
    requires { text.old.items ≡ [] }
    ensures told { PageLeaves id (scan_with id (standby node.old).scans) (standby node.old) (standby node.new) (O.written out.old) (O.written out.new) result }
    ensures status { IfOk result (λ last. IfSome last (λ status. (status ≡ 0) ⊎ ((status ≡ 1) ⊎ (status ≡ 5)))) }
    ensures onward { result ≡ Ok None → left_of id (standby node.new) < left_of id (standby node.old) }
    ensures no_archive { result ≢ Err SessionFault.Archive }
    ensures no_source { result ≢ Err SessionFault.Source }
    ensures sink_failed { result ≡ Err SessionFault.Sink → Rose (O.fault_count out.old) (O.fault_count out.new) }
    ensures sink_uncounted { result ≢ Err SessionFault.Sink → O.fault_count out.new ≡ O.fault_count out.old }
    ensures shortages { O.short_count out.old ≤ O.short_count out.new }
{
    match push_page(alloc, id, node, text) {
        Err(_) => Err(SessionFault::Memory),
        Ok(last) => match write_text(text.as_slice(), out) {
            Err(fault) => Err(fault),
            Ok(()) => Ok(last),
        },
    }
}

/// Gives the scan with this id its next page, appends the page's lines, and gives the exit status of the scan where it is
/// the last one.
fn push_page(
    alloc: Global,
    id: u64,
    node: &mut Node,
    text: &mut Vec<u8>,
) -> Result<Option<u8>, NoMemory>
    ensures told { IfOk result (PushesPage id (scan_with id (standby node.old).scans) (standby node.old) (standby node.new) text.old.items text.new.items) }
    ensures status { IfOk result (λ last. IfSome last (λ status. (status ≡ 0) ⊎ ((status ≡ 1) ⊎ (status ≡ 5)))) }
    ensures onward { result ≡ Ok None → left_of id (standby node.new) < left_of id (standby node.old) }
{
    match node.print_page(id, b"row ", text) {
        Err(fault) => Err(fault),
        Ok(None) => match push_closed(alloc, id, false, text) {
            Err(fault) => Err(fault),
            Ok(()) => Ok(Some(1)),
        },
        Ok(Some(page)) => match push_last_line(alloc, id, &page, node.tables(), text) {
            Err(fault) => Err(fault),
            Ok(()) => Ok(status_behind(&page)),
        },
    }
}

/// The exit status of a scan of which a page was printed so; none where there are more pages.
fn status_behind(page: &PrintedPage) -> Option<u8>
    ensures last { IsLastPrinted result page.now }
    ensures status { IfSome result (λ status. (status ≡ 0) ⊎ ((status ≡ 1) ⊎ (status ≡ 5))) }
{
    match page {
        PrintedPage::Given { end, .. } => status_at(*end),
        PrintedPage::Cancelled { .. } => Some(1),
    }
}

/// The exit status of a scan whose last page ends so; none where there are more pages.
fn status_at(end: PageEnd) -> Option<u8>
    ensures last { IsLastAt result end }
    ensures status { IfSome result (λ status. (status ≡ 0) ⊎ ((status ≡ 1) ⊎ (status ≡ 5))) }
{
    match end {
        PageEnd::Rows { more: true } => None,
        PageEnd::Rows { more: false } => Some(0),
        PageEnd::Toasted { .. } => Some(1),
        PageEnd::BadRow { .. } => Some(1),
        PageEnd::Damaged { .. } => Some(5),
    }
}
