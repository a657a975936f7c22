//! The rows of a table along the log: the steps of its records on the versions of rows, the rows after a
//! position, and what a primary keeps to when it writes of them.
#![tactic(auto)]

ghost use Rattle.row_model.specs.Prefixes.{PrefixIsLegal};
ghost use Rattle.row_model.specs.Rows.{OneRows};
ghost use Rattle.row_model.specs.Stays.{AlwaysStay};
ghost use Rattle.row_model.specs.WorkedRows.{IsWorkedRows};

/// One list of rows is that of some versions.
pub fn one_rows()
    ensures { OneRows }
{}

/// A legal log without its last record is legal.
pub fn prefix_is_legal()
    ensures { PrefixIsLegal }
{}

/// What a deleter of a legal log stands for does not change.
pub fn deleters_stay()
    ensures { AlwaysStay }
{}

/// The log that is worked by hand keeps to the rules, and its rows are as worked: so the rules can be met, with a row
/// that is updated.
pub fn worked_rows()
    ensures { IsWorkedRows }
{}
