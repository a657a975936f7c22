ghost use Rattle.std.specs.Prelude.{◌≡◌, ◌≢◌, ◌≤◌, ◌-◌, ◌++◌, false, Err, IfOk, OnOk, if◌then◌else◌};
ghost use Rattle.outside.specs.Faults.{Rose};
ghost use Rattle.wal_archive.specs.ArchiveLog.{archived_bytes};
ghost use Rattle.standby_core.specs.View.{standby};
ghost use Rattle.session_text.specs.Meaning.{asked};
ghost use Rattle.session_text.specs.Requests as requests;
ghost use Rattle.session_model.specs.Events.{NoScan, is_applied, is_trouble};
ghost use Rattle.session_model.specs.NodeSteps.{replay_reply};
ghost use Rattle.session_model.specs.Texts.{reply_text};
ghost use Rattle.standby_session.specs.Answering.{AnswersAnyhow, AnswersTold, AsksSome, ReplaysTold};

use crate::page::{is_damaged, push_last_line};
use outside::Archive;
use pg_types::NoMemory;
use reply_text::{push_closed, push_error_line, push_opened, push_replays, push_status};
use session_text::Request;
use standby_core::{Node, NodeFault, Replayed};
use std::alloc::Global;

/// Answers a request: appends the answer's lines to `text`, and answers whether a record was refused or a scan met
/// damage.
///
/// # Errors
/// `Archive` only where the archive's faults rose, `Memory` for want of memory. A part of the lines may stand in `text`
/// then.
pub fn push_answer<A: Archive>(
    alloc: Global,
    request: &Request<'_>,
    node: &mut Node,
    archive: &mut A,
    text: &mut Vec<u8>,
) -> Result<bool, NodeFault>
    requires { AsksSome (asked request.now) }
    ensures told { AnswersTold (archived_bytes (A.files archive.old) (standby node.old).segsize) (asked request.now) (standby node.old) (standby node.new) text.old.items text.new.items result }
    ensures segsize { (standby node.new).segsize ≡ (standby node.old).segsize }
    ensures archive { archived_bytes (A.files archive.new) (standby node.old).segsize ≡ archived_bytes (A.files archive.old) (standby node.old).segsize }
    ensures cause { result ≡ Err NodeFault.Archive → Rose (A.fault_count archive.old) (A.fault_count archive.new) }
    ensures uncounted { result ≢ Err NodeFault.Archive → A.fault_count archive.new ≡ A.fault_count archive.old }
{
    match request {
        Request::Status => Ok(push_standing(alloc, node, text)?),
        Request::Replay { count } => push_replay(alloc, *count, node, archive, text),
        Request::Open { table } => Ok(push_opening(alloc, table, node, text)?),
        Request::Next { id } => Ok(push_page(alloc, *id, node, text)?),
        Request::Close { id } => Ok(push_closing(alloc, *id, node, text)?),
        Request::Unreadable => Ok(push_unreadable(node, text)?),
    }
}

/// Replays up to so many records, at least one, and appends the line of it.
fn push_replay<A: Archive>(
    alloc: Global,
    count: u32,
    node: &mut Node,
    archive: &mut A,
    text: &mut Vec<u8>,
) -> Result<bool, NodeFault>
    requires { 1 ≤ count }
    ensures told { AnswersTold (archived_bytes (A.files archive.old) (standby node.old).segsize) (requests.Replays count) (standby node.old) (standby node.new) text.old.items text.new.items result }
    ensures segsize { (standby node.new).segsize ≡ (standby node.old).segsize }
    ensures archive { archived_bytes (A.files archive.new) (standby node.old).segsize ≡ archived_bytes (A.files archive.old) (standby node.old).segsize }
    ensures cause { result ≡ Err NodeFault.Archive → Rose (A.fault_count archive.old) (A.fault_count archive.new) }
    ensures uncounted { result ≢ Err NodeFault.Archive → A.fault_count archive.new ≡ A.fault_count archive.old }
{
    match replay(count, node, archive) {
        Err(fault) => Err(fault),
        Ok((applied, last)) => match push_replays(alloc, applied, &last, text) {
            Err(_) => Err(NodeFault::Memory),
            Ok(()) => Ok(is_refused(&last)),
        },
    }
}

/// Replays up to so many records, at least one. Answers how many were applied, and what came of the last replay.
fn replay<A: Archive>(
    count: u32,
    node: &mut Node,
    archive: &mut A,
) -> Result<(u32, Replayed), NodeFault>
    requires { 1 ≤ count }
    ensures told { ReplaysTold (archived_bytes (A.files archive.old) (standby node.old).segsize) count (standby node.old) (standby node.new) result }
    ensures segsize { (standby node.new).segsize ≡ (standby node.old).segsize }
    ensures archive { archived_bytes (A.files archive.new) (standby node.old).segsize ≡ archived_bytes (A.files archive.old) (standby node.old).segsize }
    ensures cause { result ≡ Err NodeFault.Archive → Rose (A.fault_count archive.old) (A.fault_count archive.new) }
    ensures uncounted { result ≢ Err NodeFault.Archive → A.fault_count archive.new ≡ A.fault_count archive.old }
{
    'records: for applied in 0..count - 1 {
        match node.replay_one(archive) {
            Err(fault) => return Err(fault),
            Ok(last) => {
                if !is_applied(&last) {
                    return Ok((applied, last));
                }
            }
        }
    }
    match node.replay_one(archive) {
        Err(fault) => Err(fault),
        Ok(last) => Ok((applied_by(count, &last), last)),
    }
}

/// How many of so many replays applied their record, of which all but the last did, and the last answered this.
fn applied_by(count: u32, last: &Replayed) -> u32
    requires { 1 ≤ count }
    ensures { result ≡ (if is_applied (replay_reply last.now) then count else count - 1) }
{
    if is_applied(last) { count } else { count - 1 }
}

/// Whether a replay applied its record.
fn is_applied(last: &Replayed) -> bool
    ensures { result ≡ is_applied (replay_reply last.now) }
{
    matches!(last, Replayed::Applied { .. })
}

/// Whether it refused it.
fn is_refused(last: &Replayed) -> bool
    ensures { result ≡ is_trouble (replay_reply last.now) }
{
    matches!(last, Replayed::Refused { .. })
}

/// Appends where the node stands.
fn push_standing(alloc: Global, node: &Node, text: &mut Vec<u8>) -> Result<bool, NoMemory>
    ensures { IfOk result (AnswersAnyhow requests.AsksStatus (standby node.now) (standby node.now) text.old.items text.new.items) }
{
    match push_status(alloc, &node.status(), text) {
        Err(fault) => Err(fault),
        Ok(()) => Ok(false),
    }
}

/// Opens a scan of the table with this name, and appends what came of it.
fn push_opening(
    alloc: Global,
    table: &str,
    node: &mut Node,
    text: &mut Vec<u8>,
) -> Result<bool, NoMemory>
    ensures told { IfOk result (AnswersAnyhow (requests.Opens table.now) (standby node.old) (standby node.new) text.old.items text.new.items) }
    ensures segsize { (standby node.new).segsize ≡ (standby node.old).segsize }
{
    match node.open_scan(table) {
        Err(fault) => Err(fault),
        Ok(opened) => match push_opened(alloc, &opened, text) {
            Err(fault) => Err(fault),
            Ok(()) => Ok(false),
        },
    }
}

/// Closes the scan with this id, and appends what came of it.
fn push_closing(
    alloc: Global,
    id: u64,
    node: &mut Node,
    text: &mut Vec<u8>,
) -> Result<bool, NoMemory>
    ensures told { IfOk result (AnswersAnyhow (requests.Closes id) (standby node.old) (standby node.new) text.old.items text.new.items) }
    ensures segsize { (standby node.new).segsize ≡ (standby node.old).segsize }
{
    let was_open = node.close_scan(id);
    match push_closed(alloc, id, was_open, text) {
        Err(fault) => Err(fault),
        Ok(()) => Ok(false),
    }
}

/// Appends that a line is not understood.
fn push_unreadable(node: &Node, text: &mut Vec<u8>) -> Result<bool, NoMemory>
    ensures { IfOk result (AnswersAnyhow requests.Unreadable (standby node.now) (standby node.now) text.old.items text.new.items) }
{
    match push_error_line(text) {
        Err(fault) => Err(fault),
        Ok(()) => Ok(false),
    }
}

/// Gives the scan with this id its next page, and appends the page's lines.
fn push_page(alloc: Global, id: u64, node: &mut Node, text: &mut Vec<u8>) -> Result<bool, NoMemory>
    ensures told { IfOk result (AnswersAnyhow (requests.Reads id) (standby node.old) (standby node.new) text.old.items text.new.items) }
    ensures segsize { (standby node.new).segsize ≡ (standby node.old).segsize }
{
    match node.print_page(id, b"row ", text) {
        Err(fault) => Err(fault),
        Ok(None) => push_no_scan(text),
        Ok(Some(page)) => match push_last_line(alloc, id, &page, node.tables(), text) {
            Err(fault) => Err(fault),
            Ok(()) => Ok(is_damaged(&page)),
        },
    }
}

/// Appends that no such scan is open.
#[tactic(auto, unfolding(session_model::specs::Texts::reply_text))]
fn push_no_scan(text: &mut Vec<u8>) -> Result<bool, NoMemory>
    ensures told { OnOk result (text.new.items ≡ text.old.items ++ reply_text NoScan) }
    ensures quiet { IfOk result (λ damaged. damaged ≡ false) }
{
    text.extend_from_slice(b"no scan\n")?;
    Ok(false)
}
