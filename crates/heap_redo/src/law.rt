ghost use Rattle.heap_redo.specs.Laws.{Repeats};

/// A call of `redo` that is repeated leaves, and answers, what one call does, whatever the first one
/// answered.
pub fn repeats()
    ensures { Repeats }
{}
