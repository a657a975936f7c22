ghost use Rattle.session_text.specs.Laws.{AsksAllRead, AsksAllTaken};

/// The lines that are taken byte for byte ask what the lines of a source ask that was read to its end.
#[tactic(auto, using(crate::proofs::Taken::asks_read))]
pub fn asks_all_read()
    ensures { AsksAllRead }
{}

/// And before its end what the lines ask of which these bytes were taken.
#[tactic(auto, using(crate::proofs::Taken::asks_taken))]
pub fn asks_all_taken()
    ensures { AsksAllTaken }
{}
