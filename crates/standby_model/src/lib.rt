//! The log as it is told from a position on: its definition, which contracts of the node and of the program cite, and
//! its laws.
#![tactic(auto)]

ghost use Rattle.standby_model.specs.Laws.{LogRises, OneLog};

/// From a position one log is told, with one cause why it goes no further.
pub fn one_log()
    ensures { OneLog }
{}

/// Each record of a log ends behind the position where it was read.
pub fn log_rises()
    ensures { LogRises }
{
    wal_reader::steps_on();
}
