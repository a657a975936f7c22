ghost use Rattle.heap_page.specs.Law.{OneLineChanges, ItemsEndInUse, ZerosHaveNone, TuplesKeepRule};

/// A law on a change of one line: it shows its new item, and each other line what it showed.
pub fn one_line_changes()
    ensures { OneLineChanges }
{}

/// A law on the items of a page: unused lines at their end are left out.
pub fn items_end_in_use()
    ensures { ItemsEndInUse }
{}

/// A law on a block of zeros: it has no items.
pub fn zeros_have_no_items()
    ensures { ZerosHaveNone }
{}

/// A law on the tuples of a page: each keeps the tuple rule.
pub fn tuples_keep_their_rule()
    ensures { TuplesKeepRule }
{}
