ghost use Rattle.std.specs.Prelude.{◌≡◌, ◌++◌, OnOk, if◌then◌else◌};
ghost use Rattle.session_model.specs.Answers.{NotUnderstood};
ghost use Rattle.session_model.specs.Events.{Cancelled, Closed, NoScan, Stands};
ghost use Rattle.session_model.specs.NodeSteps.{opening_reply, status_by};
ghost use Rattle.session_model.specs.Texts.{answer_text, backup_text, cause_text, reply_text, state_text};
ghost use Rattle.reply_text.specs.Pieces.{readiness_text, standing_text};

use crate::words::{push_numbered, push_position, push_word};
use known_assigned::State;
use pg_types::{Lsn, NoMemory, Xid};
use recovery_conflict::Cause;
use standby_core::{NodeStatus, Opened};
use std::alloc::Global;

/// Appends the line of a status.
#[tactic(auto, unfolding(session_model::specs::Texts::reply_text))]
pub fn push_status(alloc: Global, status: &NodeStatus, text: &mut Vec<u8>) -> Result<(), NoMemory>
    ensures { OnOk result (text.new.items ≡ text.old.items ++ reply_text (Stands (status_by status.now))) }
{
    push_standing(status, text)?;
    push_numbered(alloc, b" scans=", u64::from(status.scans), text)?;
    text.extend_from_slice(b" promoted=no")?;
    text.push(b'\n')?;
    Ok(())
}

/// Appends where a standby stands on its first timeline.
fn push_standing(status: &NodeStatus, text: &mut Vec<u8>) -> Result<(), NoMemory>
    ensures { OnOk result (text.new.items ≡ text.old.items ++ standing_text (status_by status.now)) }
{
    push_position(b"status tli=1 at=", status.at, text)?;
    push_position(b" min=", status.min, text)?;
    push_readiness(status, text)?;
    Ok(())
}

/// Appends whether the end of the backup is awaited, and what is known of running transactions.
fn push_readiness(status: &NodeStatus, text: &mut Vec<u8>) -> Result<(), NoMemory>
    ensures { OnOk result (text.new.items ≡ text.old.items ++ readiness_text (status_by status.now)) }
{
    push_word(b" backup=", backup_text(status.awaited), text)?;
    push_word(b" state=", state_text(status.state), text)
}

/// Appends the line of what an opening answered.
#[tactic(auto, unfolding(session_model::specs::Texts::reply_text))]
pub fn push_opened(alloc: Global, opened: &Opened, text: &mut Vec<u8>) -> Result<(), NoMemory>
    ensures { OnOk result (text.new.items ≡ text.old.items ++ reply_text (opening_reply opened.now)) }
{
    match opened {
        Opened::Scan { id, at } => push_scan(alloc, *id, *at, text)?,
        Opened::NoTable => text.extend_from_slice(b"no table\n")?,
        Opened::TooMany => text.extend_from_slice(b"too many\n")?,
        Opened::NotAdmitted(status) => push_not_admitted(status, text)?,
        Opened::Gone { lsn } => push_gone(*lsn, text)?,
        Opened::Locked { lsn, xid } => push_locked(alloc, *lsn, *xid, text)?,
    }
    Ok(())
}

/// Appends the line of a scan that is open.
#[tactic(auto, unfolding(session_model::specs::Texts::reply_text))]
fn push_scan(alloc: Global, id: u64, at: Lsn, text: &mut Vec<u8>) -> Result<(), NoMemory>
    ensures { OnOk result (text.new.items ≡ text.old.items ++ reply_text (opening_reply (Opened.Scan id at))) }
{
    push_numbered(alloc, b"scan ", id, text)?;
    push_position(b" at ", at, text)?;
    text.push(b'\n')?;
    Ok(())
}

/// Appends the line of a standby that does not admit scans.
#[tactic(auto, unfolding(session_model::specs::Texts::reply_text))]
fn push_not_admitted(status: &NodeStatus, text: &mut Vec<u8>) -> Result<(), NoMemory>
    ensures { OnOk result (text.new.items ≡ text.old.items ++ reply_text (opening_reply (Opened.NotAdmitted status.now))) }
{
    text.extend_from_slice(b"not admitted ")?;
    push_position(b"min=", status.min, text)?;
    push_position(b" at=", status.at, text)?;
    push_readiness(status, text)?;
    text.push(b'\n')?;
    Ok(())
}

/// Appends the line of a table whose file was dropped.
#[tactic(auto, unfolding(session_model::specs::Texts::reply_text))]
fn push_gone(lsn: Lsn, text: &mut Vec<u8>) -> Result<(), NoMemory>
    ensures { OnOk result (text.new.items ≡ text.old.items ++ reply_text (opening_reply (Opened.Gone lsn))) }
{
    push_position(b"gone ", lsn, text)?;
    text.push(b'\n')?;
    Ok(())
}

/// Appends the line of a table that is locked.
#[tactic(auto, unfolding(session_model::specs::Texts::reply_text))]
fn push_locked(alloc: Global, lsn: Lsn, xid: Xid, text: &mut Vec<u8>) -> Result<(), NoMemory>
    ensures { OnOk result (text.new.items ≡ text.old.items ++ reply_text (opening_reply (Opened.Locked lsn xid))) }
{
    push_position(b"locked ", lsn, text)?;
    push_numbered(alloc, b" ", xid.0, text)?;
    text.push(b'\n')?;
    Ok(())
}

/// Appends the line of a scan that was cancelled.
#[tactic(auto, unfolding(session_model::specs::Texts::reply_text))]
pub fn push_cancelled(
    alloc: Global,
    id: u64,
    cause: &Cause,
    text: &mut Vec<u8>,
) -> Result<(), NoMemory>
    ensures { OnOk result (text.new.items ≡ text.old.items ++ reply_text (Cancelled id cause.now)) }
{
    push_numbered(alloc, b"cancelled ", id, text)?;
    text.push(b' ')?;
    push_cause(alloc, cause, text)?;
    text.push(b'\n')?;
    Ok(())
}

/// Appends why a scan was cancelled.
fn push_cause(alloc: Global, cause: &Cause, text: &mut Vec<u8>) -> Result<(), NoMemory>
    ensures { OnOk result (text.new.items ≡ text.old.items ++ cause_text cause.now) }
{
    match cause {
        Cause::Horizon { lsn, horizon } => {
            push_position(b"horizon ", *lsn, text)?;
            push_numbered(alloc, b" ", horizon.0, text)
        }
        Cause::Lock { lsn, xid } => {
            push_position(b"lock ", *lsn, text)?;
            push_numbered(alloc, b" ", xid.0, text)
        }
    }
}

/// Appends the line of a scan that was closed, or that no such scan was open.
#[tactic(auto, unfolding(session_model::specs::Texts::reply_text))]
pub fn push_closed(
    alloc: Global,
    id: u64,
    was_open: bool,
    text: &mut Vec<u8>,
) -> Result<(), NoMemory>
    ensures { OnOk result (text.new.items ≡ text.old.items ++ reply_text (if was_open then Closed id else NoScan)) }
{
    if was_open {
        push_numbered(alloc, b"closed ", id, text)?;
    } else {
        text.extend_from_slice(b"no scan")?;
    }
    text.push(b'\n')?;
    Ok(())
}

/// Appends the line of a request that is not understood.
#[tactic(auto, unfolding(session_model::specs::Texts::answer_text))]
pub fn push_error_line(text: &mut Vec<u8>) -> Result<(), NoMemory>
    ensures { OnOk result (text.new.items ≡ text.old.items ++ answer_text NotUnderstood) }
{
    text.extend_from_slice(b"error line\n")?;
    Ok(())
}

fn backup_text(awaited: bool) -> &'static str
    ensures { result.now ≡ backup_text awaited }
{
    if awaited { "awaited" } else { "ended" }
}

fn state_text(state: State) -> &'static str
    ensures { result.now ≡ state_text state }
{
    match state {
        State::Initialized => "initialized",
        State::Pending { .. } => "pending",
        State::Ready => "ready",
    }
}
