//! Snapshots, and what they see.
ghost use Rattle.std.specs.Prelude.{◌==◌, if◌then◌else◌, None, Some};

use crate::ids::{ids, show_ids};
use crate::layers::Layers;
use crate::marks::mask;
use case_text::{Answer, Wrong, number_u32};
use commit_log::CommitLog;
use heap_tuple::TupleView;
use known_assigned::{KnownAssigned, State};
use pg_types::{Status, Unknown, Xid};
use standby_snapshot::{Snapshot, take};
use std::alloc::Global;
use subtrans::Subtrans;
use tuple_visibility::{Statuses, visible};

/// The commit log of a case, its parents of subtransactions, and five multixacts: 7 has the updater 50, 8 has none,
/// 9 has 100, 10 has 51 and 11 has 52.
#[derive(Drop)]
struct Ended<'a> {
    log: &'a CommitLog,
    subs: &'a Subtrans,
}

impl<'a> Statuses for Ended<'a> {
    ghost use Rattle.std.specs.Prelude.{◌==◌, if◌then◌else◌, None, Some};
    ghost use Rattle.commit_log.specs.Log.{status_of};

    ghost parents_of = { λ e. e.subs.now.pairs };

    ghost status_of = { λ e. status_of e.log.now };

    ghost updater_of = { λ _ id. if id == 7 then Some (Some (record { 0 = 50 })) else if id == 8 then Some None else if id == 9 then Some (Some (record { 0 = 100 })) else if id == 10 then Some (Some (record { 0 = 51 })) else if id == 11 then Some (Some (record { 0 = 52 })) else None };

    fn parents(&self) -> &Subtrans {
        self.subs
    }

    fn status(&self, xid: Xid) -> Status {
        self.log.get(xid)
    }

    fn updater(&self, id: u32) -> Result<Option<Xid>, Unknown> {
        match id {
            7 => Ok(Some(Xid(50))),
            8 => Ok(None),
            9 => Ok(Some(Xid(100))),
            10 => Ok(Some(Xid(51))),
            11 => Ok(Some(Xid(52))),
            _ => Err(Unknown { id }),
        }
    }
}

pub fn answer(
    alloc: Global,
    said: &mut Answer,
    layers: &mut Layers,
    asked: &[&str],
) -> Result<(), Wrong> {
    if let ["take"] = *asked {
        layers.snapshot = taken(alloc, &layers.known)?;
        show(said, layers.snapshot.as_ref());
        return Ok(());
    }
    match &layers.snapshot {
        None => Err(Wrong::Line),
        Some(snapshot) => {
            let ended = Ended {
                log: &layers.log,
                subs: &layers.subs,
            };
            ask(alloc, said, snapshot, &ended, asked)
        }
    }
}

/// A snapshot, which is there once all running transactions are known.
fn taken(alloc: Global, known: &KnownAssigned) -> Result<Option<Snapshot>, Wrong> {
    match known.state() {
        State::Ready => Ok(Some(take(alloc, known)?)),
        State::Initialized | State::Pending { .. } => Ok(None),
    }
}

fn show(said: &mut Answer, snapshot: Option<&Snapshot>) {
    match snapshot {
        None => said.say(" not yet"),
        Some(snapshot) => {
            said.field(" xmin ", snapshot.xmin.0);
            said.field(", xmax ", snapshot.xmax.0);
            said.say(", running");
            show_ids(said, snapshot.running.as_slice());
            if snapshot.overflowed {
                said.say(", overflowed");
            }
        }
    }
}

/// Asks which ids are in progress, or which tuples are seen: for each inserter and each deleter.
fn ask(
    alloc: Global,
    said: &mut Answer,
    snapshot: &Snapshot,
    ended: &Ended<'_>,
    asked: &[&str],
) -> Result<(), Wrong> {
    match *asked {
        ["in_progress", list] => {
            let list = ids(alloc, list)?;
            for id in list.as_slice() {
                said.say(yes_or_no(snapshot.in_progress(*id, ended.subs)));
            }
            Ok(())
        }
        ["sees", "xmin", xmins, "xmax", xmaxs, "marks", marks] => {
            let mask = mask(marks)?;
            for xmin in xmins.split(',') {
                for xmax in xmaxs.split(',') {
                    let xids = [number_u32(xmin)?, number_u32(xmax)?];
                    sees(said, snapshot, ended, xids, mask)?;
                }
            }
            Ok(())
        }
        _ => Err(Wrong::Line),
    }
}

fn yes_or_no(is: bool) -> &'static str {
    if is { " yes" } else { " no" }
}

/// Whether the snapshot sees a tuple of a header alone, with these inserter and deleter and this infomask.
fn sees(
    said: &mut Answer,
    snapshot: &Snapshot,
    ended: &Ended<'_>,
    xids: [u32; 2],
    mask: u16,
) -> Result<(), Wrong> {
    let header = header(xids, mask);
    let tuple = TupleView::read(&header).ok_or(Wrong::Bytes)?;
    match visible(&tuple, snapshot, ended) {
        Ok(is) => said.say(yes_or_no(is)),
        Err(Unknown { id }) => said.field(" unknown_multixact_", u64::from(id)),
    }
    Ok(())
}

/// The header of a tuple without values (`HeapTupleHeaderData`, htup_details.h): xmin at 0, xmax at 4, infomask
/// at 20 and its own length at 22.
fn header(xids: [u32; 2], mask: u16) -> [u8; 24] {
    let (xmin, xmax) = (xids[0].to_le_bytes(), xids[1].to_le_bytes());
    let mask = mask.to_le_bytes();
    [
        xmin[0], xmin[1], xmin[2], xmin[3], xmax[0], xmax[1], xmax[2], xmax[3], 0, 0, 0, 0, 0, 0,
        0, 0, 0, 0, 0, 0, mask[0], mask[1], 24, 0,
    ]
}
