//! The ids that are known to run.
use crate::ids::{are_within, id, ids, show_ids};
use case_text::{Answer, Wrong, number_u32, yes};
use known_assigned::{KnownAssigned, RunningHead, State};
use pg_types::Xid;
use std::alloc::Global;

/// The greatest id that the layer takes.
const GREATEST: u64 = (1 << 63) + (1 << 32);

pub fn answer(
    alloc: Global,
    said: &mut Answer,
    known: &mut KnownAssigned,
    asked: &[&str],
) -> Result<(), Wrong> {
    match *asked {
        ["observe", xid] => {
            let added = observe(known, id(xid)?)?;
            said.field(" ", added);
            said.say(" more,");
        }
        ["assign", subs, "to", top] => {
            let subs = ids(alloc, subs)?;
            known.assign(id(top)?, subs.as_slice());
        }
        ["end", top, "subs", subs] => {
            let subs = ids(alloc, subs)?;
            end(known, id(top)?, subs.as_slice())?;
        }
        ["shutdown", "next", next] => shutdown(known, id(next)?)?,
        [
            "running",
            "tops",
            tops,
            "overflow",
            overflow,
            "next",
            next,
            "oldest",
            oldest,
            "latest",
            latest,
            "live",
            live,
            "ended",
            ended,
        ] => {
            let head = RunningHead {
                overflow: yes(overflow)?,
                tops: number_u32(tops)?,
                next: id(next)?,
                oldest: id(oldest)?,
                latest: id(latest)?,
            };
            let live = ids(alloc, live)?;
            running(known, &head, live.as_slice(), id(ended)?)?;
        }
        _ => return Err(Wrong::Line),
    }
    show(alloc, said, known)
}

/// Makes the room and observes, and tells how many ids that added.
fn observe(known: &mut KnownAssigned, xid: Xid) -> Result<u64, Wrong> {
    let added = known.would_add(xid);
    known.reserve(added)?;
    known.observe(xid);
    Ok(added)
}

fn end(known: &mut KnownAssigned, top: Xid, subs: &[Xid]) -> Result<(), Wrong> {
    if top.0 > GREATEST || !are_within(subs, GREATEST) {
        return Err(Wrong::Number);
    }
    known.end_tree(top, subs);
    Ok(())
}

fn shutdown(known: &mut KnownAssigned, next: Xid) -> Result<(), Wrong> {
    if next.0 > GREATEST {
        return Err(Wrong::Number);
    }
    known.shutdown(next);
    Ok(())
}

/// Makes the room for all ids that are listed.
fn running(
    known: &mut KnownAssigned,
    head: &RunningHead,
    live: &[Xid],
    ended: Xid,
) -> Result<(), Wrong> {
    if head.oldest.0 > GREATEST || head.latest.0 > GREATEST || ended.0 > GREATEST {
        return Err(Wrong::Number);
    }
    known.reserve(live.len() as u64)?;
    known.running(head, live, ended);
    Ok(())
}

/// Writes all that is known.
pub fn show(alloc: Global, said: &mut Answer, known: &KnownAssigned) -> Result<(), Wrong> {
    match known.state() {
        State::Initialized => said.say(" initialized"),
        State::Pending { until } => said.field(" pending until ", until.0),
        State::Ready => said.say(" ready"),
    }
    said.say(", running");
    let xids = known.copy_xids(alloc)?;
    show_ids(said, xids.as_slice());
    match known.least() {
        None => said.say(", no least"),
        Some(least) => said.field(", least ", least.0),
    }
    said.field(", latest completed ", known.latest_completed().0);
    said.field(", last overflowed ", known.last_overflowed().0);
    Ok(())
}
