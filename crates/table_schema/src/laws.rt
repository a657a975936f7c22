ghost use Rattle.table_schema.specs.Laws.{OneDescription, RefusalsAreNamed, TablesAreApart};

/// A text has one answer: one description, or one first refusal.
pub fn one_description()
    ensures { OneDescription }
{}

/// A text is refused by a name, never for want of memory.
pub fn refusals_are_named()
    ensures { RefusalsAreNamed }
{}

/// No name, oid or file of the tables that a text describes is that of two: each table is found under its own number.
pub fn tables_are_apart()
    ensures { TablesAreApart }
{}
