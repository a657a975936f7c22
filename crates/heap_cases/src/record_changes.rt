//! What records do to the state of transactions.
ghost use Rattle.wal_bodies.specs.Xids.{AreXidsShort};

use crate::ids::{id, ids};
use crate::known::show;
use crate::statuses::name_of;
use case_text::{Answer, Wrong, number_u32};
use pg_types::{Lsn, Unknown};
use std::alloc::Global;
use tuple_visibility::Statuses;
use wal_bodies::{Rec, body};
use wal_record::{PrevRule, decode};
use xact_redo::{XactState, redo, reserve};

/// `status IDS`, `topmost IDS` and `updater MULTIXACTS` ask what is known, and `forget_below ID` forgets parents; behind
/// any other words stands a record.
pub fn answer(
    alloc: Global,
    said: &mut Answer,
    state: &mut XactState,
    asked: &[&str],
    data: &[u8],
) -> Result<(), Wrong> {
    match *asked {
        ["status", list] => {
            let list = ids(alloc, list)?;
            for id in list.as_slice() {
                said.say(name_of(state.status(*id)));
            }
            Ok(())
        }
        ["topmost", list] => {
            let list = ids(alloc, list)?;
            for id in list.as_slice() {
                said.field(" ", state.parents().topmost(*id).0);
            }
            Ok(())
        }
        ["forget_below", oldest] => {
            state.forget_below(id(oldest)?);
            Ok(())
        }
        ["updater", list] => {
            for id in list.split(',') {
                match state.updater(number_u32(id)?) {
                    Ok(Some(xid)) => said.field(" ", xid.0),
                    Ok(None) => said.say(" none"),
                    Err(Unknown { .. }) => said.say(" unknown"),
                }
            }
            Ok(())
        }
        _ => {
            read(data, state)?;
            show(alloc, said, &state.known)
        }
    }
}

/// Applies the record of these bytes, which stands at 0/100 behind the one at 0/D0.
fn read(data: &[u8], state: &mut XactState) -> Result<(), Wrong> {
    match decode(data, Lsn(0x100), PrevRule::Is(Lsn(0xD0))) {
        Ok(view) => match body(&view, Lsn(0x100), Lsn(0x200), 16384, &[]) {
            Ok(rec) => apply(&rec, state),
            Err(_) => Err(Wrong::Bytes),
        },
        Err(_) => Err(Wrong::Bytes),
    }
}

fn apply(rec: &Rec<'_>, state: &mut XactState) -> Result<(), Wrong>
    requires { AreXidsShort rec.now }
{
    reserve(rec, state)?;
    redo(rec, state);
    Ok(())
}
