//! What the rules of running transactions and of snapshots promise over a legal log, with overflowed and pending
//! snapshots, parents that are forgotten, and a commit log that is ahead of the position.

ghost use Rattle.transaction_model.specs.TransactionLaws.{OneXmin, StateAgrees, XminAgrees, LiveInProgress, SnapshotDecides, PromotionLegal};
ghost use Rattle.transaction_model.specs.WorkedLife.{IsWorkedLife};

/// One xmin stands at a position.
pub fn one_xmin()
    ensures { OneXmin }
{}

/// At every position of a life the state of the standby's rules is that of the life.
pub fn state_agrees()
    ensures { StateAgrees }
{}

/// The xmin of a ready standby's snapshot is the least live id.
pub fn xmin_agrees()
    ensures { XminAgrees }
{}

/// Each live id is in progress by a ready standby's snapshot.
pub fn live_in_progress()
    ensures { LiveInProgress }
{}

/// What a snapshot and a later commit log say of an id together is what the log said at the opening.
pub fn snapshot_decides()
    ensures { SnapshotDecides }
{}

/// A legal log with the two records that a promotion adds is legal again.
pub fn promotion_legal()
    ensures { PromotionLegal }
{}

/// The life that is worked by hand keeps to the rules and goes as worked: so they can be met, with an overflowed and
/// then pending snapshot.
pub fn worked_life()
    ensures { IsWorkedLife }
{}
