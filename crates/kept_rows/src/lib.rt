//! An open scan keeps its rows while further records are replayed that do not conflict with it.
#![tactic(auto)]

ghost use Rattle.kept_rows.specs.Kept.{KeepsRows};
ghost use Rattle.kept_rows.specs.WorkedKept.{IsWorkedKept};
ghost use Rattle.kept_rows.specs.WorkedReuse.{IsWorkedReuse};

/// What a scan reads after further records of which none conflicts with it, under the snapshot and in the blocks of its
/// opening, is the rows that were committed at the opening.
pub fn kept_rows()
    ensures { KeepsRows }
{
    row_model::prefix_is_legal();
    row_model::deleters_stay();
    row_redo::blocks_show_versions();
    row_visibility::sees_opened();
    row_pages::scan_gives_read();
}

/// A scan that is opened in the worked log before its update meets what the law asks for, and gives the first row at the
/// log's end.
pub fn worked_kept()
    ensures { IsWorkedKept }
{
    row_model::worked_rows();
    row_model::one_rows();
    kept_rows();
}

/// A scan that is opened before a vacuum removes one row's tuple and freezes the other's gives the other still, once a
/// further row stands at the first one's line.
pub fn worked_reuse()
    ensures { IsWorkedReuse }
{
    row_model::worked_rows();
    row_model::one_rows();
    kept_rows();
}
