//! The parents of subtransactions.
use crate::ids::{id, ids};
use case_text::{Answer, Wrong};
use pg_types::Xid;
use std::alloc::Global;
use subtrans::Subtrans;

pub fn answer(
    alloc: Global,
    said: &mut Answer,
    subs: &mut Subtrans,
    asked: &[&str],
) -> Result<(), Wrong> {
    match *asked {
        ["set_parent", sub, parent] => set(subs, id(sub)?, id(parent)?),
        ["topmost", list] => {
            let list = ids(alloc, list)?;
            for id in list.as_slice() {
                said.field(" ", subs.topmost(*id).0);
            }
            Ok(())
        }
        ["forget_below", oldest] => {
            subs.forget_below(id(oldest)?);
            Ok(())
        }
        _ => Err(Wrong::Line),
    }
}

/// A parent is always a lower id.
fn set(subs: &mut Subtrans, sub: Xid, parent: Xid) -> Result<(), Wrong> {
    if parent.0 >= sub.0 {
        return Err(Wrong::Number);
    }
    subs.reserve(1)?;
    subs.set_parent(sub, parent);
    Ok(())
}
