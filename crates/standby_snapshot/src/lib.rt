//! Snapshots of a standby: which transactions count as still in progress for a scan (procarray.c).
#![tactic(auto)]

mod among;
mod taken;

ghost use Rattle.std.specs.List.Sorted.{IsStrictlyIncreasing};
ghost use Rattle.known_assigned.specs.Ids.{numbers};

use among::is_among;
use pg_types::{Xid, XidList};
use subtrans::Subtrans;
pub use taken::{take, xmin};

/// The transactions that count as in progress for a scan: none below `xmin`, all from `xmax` on, and
/// between them those that were `running`, in rising order. `overflowed` says that ids of
/// subtransactions may be missing from `running` (`SnapshotData`, snapshot.h).
#[derive(Drop)]
pub struct Snapshot {
    pub xmin: Xid,
    pub xmax: Xid,
    pub running: XidList,
    pub overflowed: bool,
    pub ghost rising: { IsStrictlyIncreasing (numbers running) },
}

impl Snapshot {
    ghost use Rattle.std.specs.Prelude.{◌≡◌};
    ghost use Rattle.standby_snapshot.specs.Snapshot.{in_numbers, in_progress, is_running};
    ghost use Rattle.subtrans.specs.Parents.{topmost_of};

    /// Whether `xid` counts as in progress (`XidInMVCCSnapshot`, snapmgr.c), where these parents of
    /// subtransactions are known. It takes no memory. Below `xmin` and from `xmax` on it costs two
    /// comparisons; between them the running ids are halved, and where the snapshot is overflowed there is
    /// one walk to the topmost parent before.
    #[tactic(auto, unfolding(crate::specs::Snapshot::in_progress))]
    pub fn in_progress(&self, xid: Xid, parents: &Subtrans) -> bool
        ensures { result ≡ in_progress (in_numbers self.now) (topmost_of parents.now.pairs) xid.0 }
    {
        if xid.0 < self.xmin.0 {
            return false;
        }
        if self.xmax.0 <= xid.0 {
            return true;
        }
        self.is_running(xid, parents)
    }

    /// Whether `xid` was running, by its topmost parent where ids of subtransactions may be missing.
    fn is_running(&self, xid: Xid, parents: &Subtrans) -> bool
        ensures { result ≡ is_running (in_numbers self.now) (topmost_of parents.now.pairs) xid.0 }
    {
        if !self.overflowed {
            return is_among(self.running.as_slice(), xid);
        }
        let top = parents.topmost(xid);
        if top.0 < self.xmin.0 {
            return false;
        }
        is_among(self.running.as_slice(), top)
    }
}
