//! After a legal log a snapshot of the standby sees exactly the rows.
#![tactic(auto)]

ghost use Rattle.row_visibility.specs.Sees.{AllKept, NoneBelowXmin, SeesOpened, SeesRows, StateAlong, XminAlong};
ghost use Rattle.row_visibility.specs.WorkedSight.{IsWorkedSight};

/// A standby may forget no parent.
pub fn all_kept()
    ensures { AllKept }
{}

/// No id that is known to run is below the xmin that a snapshot has then.
pub fn none_below_xmin()
    ensures { NoneBelowXmin }
{}

/// The state of the rules is that of the log.
pub fn state_along()
    ensures { StateAlong }
{
    transaction_model::transactions::state_agrees();
}

/// The xmin of a snapshot is the least live id.
pub fn xmin_along()
    ensures { XminAlong }
{
    transaction_model::transactions::state_agrees();
    transaction_model::transactions::xmin_agrees();
}

/// A snapshot sees exactly the tuples whose versions are rows.
pub fn sees_rows()
    ensures { SeesRows }
{
    transaction_model::transactions::state_agrees();
    transaction_model::transactions::snapshot_decides();
}

/// A snapshot that was taken earlier sees exactly the tuples whose versions are rows by what was committed then.
pub fn sees_opened()
    ensures { SeesOpened }
{
    transaction_model::transactions::state_agrees();
    transaction_model::transactions::snapshot_decides();
}

/// The log that is worked by hand meets what these laws ask for, and its tuples are seen as worked.
pub fn worked_sight()
    ensures { IsWorkedSight }
{
    row_model::worked_rows();
}
