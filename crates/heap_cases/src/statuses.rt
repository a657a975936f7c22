//! The commit log.
use crate::ids::{are_within, greatest, id, ids};
use case_text::{Answer, Wrong, position};
use commit_log::CommitLog;
use pg_types::{Lsn, Status, Xid};
use std::alloc::Global;

pub fn answer(
    alloc: Global,
    said: &mut Answer,
    log: &mut CommitLog,
    asked: &[&str],
) -> Result<(), Wrong> {
    match *asked {
        ["status", list] => {
            let list = ids(alloc, list)?;
            for id in list.as_slice() {
                said.say(name_of(log.get(*id)));
            }
            Ok(())
        }
        [outcome, top, "subs", subs, "at", at] => {
            let status = status_from(outcome)?;
            let subs = ids(alloc, subs)?;
            set(log, id(top)?, subs.as_slice(), status, position(at)?)
        }
        _ => Err(Wrong::Line),
    }
}

/// Makes the room for the statuses and sets them.
fn set(log: &mut CommitLog, top: Xid, subs: &[Xid], status: Status, at: Lsn) -> Result<(), Wrong> {
    let last = greatest(top, subs);
    if top.0 > last.0 || !are_within(subs, last.0) {
        return Err(Wrong::Number);
    }
    log.reserve(last)?;
    log.set_tree(top, subs, status, at);
    Ok(())
}

/// The status in words, behind a space.
pub fn name_of(status: Status) -> &'static str {
    match status {
        Status::None => " none",
        Status::Committed => " committed",
        Status::Aborted => " aborted",
        Status::Sub => " sub_committed",
    }
}

fn status_from(word: &str) -> Result<Status, Wrong> {
    match word {
        "none" => Ok(Status::None),
        "committed" => Ok(Status::Committed),
        "aborted" => Ok(Status::Aborted),
        "sub_committed" => Ok(Status::Sub),
        _ => Err(Wrong::Line),
    }
}
