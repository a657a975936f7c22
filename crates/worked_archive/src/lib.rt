//! The archive of the example, read inside the logic.
#![tactic(auto)]

ghost use Rattle.worked_archive.specs.WorkedArchive.{IsWorkedArchive};

/// The example's archive tells these records and no more.
pub fn worked_archive()
    ensures { IsWorkedArchive }
{}
