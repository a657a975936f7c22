ghost use Rattle.std.specs.Prelude.{◌≤◌, All};
ghost use Rattle.std.specs.Bool.{OnTrue};
ghost use Rattle.pg_types.specs.declared.names.Xid.{Xid};

use case_text::{Answer, Wrong, number_u64};
use pg_types::{Xid, XidList};
use std::alloc::Global;

/// The ids of a list.
pub fn ids(alloc: Global, word: &str) -> Result<XidList, Wrong> {
    let mut ids = XidList::new(alloc);
    if word == "-" {
        return Ok(ids);
    }
    for part in word.split(',') {
        ids.push(Xid(number_u64(part)?))?;
    }
    Ok(ids)
}

pub fn id(word: &str) -> Result<Xid, Wrong> {
    Ok(Xid(number_u64(word)?))
}

/// Whether none of the ids is above this one.
pub fn are_within(ids: &[Xid], most: u64) -> bool
    ensures { OnTrue result (All (λ (x : Xid). x.0 ≤ most) ids.now) }
{
    ids.iter().all(|id| id.0 <= most)
}

/// Writes ids in words, each behind a space.
pub fn show_ids(said: &mut Answer, ids: &[Xid]) {
    if ids.is_empty() {
        said.say(" none");
    }
    for id in ids {
        said.field(" ", id.0);
    }
}

/// The greatest of these.
pub fn greatest(first: Xid, rest: &[Xid]) -> Xid {
    let mut most = first.0;
    for id in rest {
        most = most.max(id.0);
    }
    Xid(most)
}
