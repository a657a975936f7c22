ghost use Rattle.std.specs.Prelude.{◌≡◌};
ghost use Rattle.wal_bodies.specs.Laws.{OneForm, OneRefusal};

/// Two laws of the typed form: a record has at most one, and where it is refused it has none, and the
/// refusal is the only one.
pub fn one_form()
    ensures form { OneForm }
    ensures refusal { OneRefusal }
{}
