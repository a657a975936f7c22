ghost use Rattle.wal_reader.specs.Log.{OneLog, StepsOn};

/// From a position there is one log, with one end and one cause.
pub fn one_log()
    ensures { OneLog }
{}

/// Where segments have a size, a record ends behind the position where it is read.
pub fn steps_on()
    ensures { StepsOn }
{}
