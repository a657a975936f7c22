ghost use Rattle.std.specs.Prelude.{◌≡◌};
ghost use Rattle.std.specs.List.Sorted.{IsStrictlyIncreasing};
ghost use Rattle.known_assigned.specs.Ids.{numbers};
ghost use Rattle.standby_snapshot.specs.Snapshot.{is_among};

use pg_types::Xid;

/// Whether an id is one of these, which rise. It is found by halving.
pub fn is_among(xids: &[Xid], xid: Xid) -> bool
    requires { IsStrictlyIncreasing (numbers xids.now) }
    ensures { result ≡ is_among (numbers xids.now) xid.0 }
{
    let at = xids.partition_point(|y| y.0 < xid.0);
    if at == xids.len() {
        return false;
    }
    xids[at].0 == xid.0
}
