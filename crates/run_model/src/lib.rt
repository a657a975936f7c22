//! What a run of the program is: how it begins, by its words and the description of tables, and what it leaves: the
//! definitions that the program's contracts cite, and their law.
#![tactic(auto)]

ghost use Rattle.run_model.specs.Laws.{OneStart};

/// A run begins in one way.
pub fn one_start()
    ensures { OneStart }
{}
