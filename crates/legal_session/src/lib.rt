//! What a standby replies, event by event, over a log that a primary could write: the abstract standby, and the law that a
//! node's steps are its steps.
#![tactic(auto)]

ghost use Rattle.legal_session.specs.GivenRows.{ScansGiveRows};
ghost use Rattle.legal_session.specs.ScanAtEnd.{FrontAtEndGivesRows, ScanAtEndGivesRows};
ghost use Rattle.legal_session.specs.Represents.{BeginsSo, NodeSimulates};
ghost use Rattle.legal_session.specs.WholeScans.{PagesAreRows};

/// Over a legal log each step of a node is one of the abstract standby that it stands for, with the same reply: no record
/// is refused at its blocks, scans are admitted exactly where the backup has ended and the running transactions are known,
/// a scan is cancelled exactly by the first record that conflicts with it, and each page of another has the rows of its
/// block that were committed at the scan's opening.
pub fn node_simulates()
    ensures { NodeSimulates }
{
    table_schema::tables_are_apart();
    standby_model::log_rises();
    record_numbers::told_numbers_fit();
    row_redo::blocks_show_versions();
    row_visibility::state_along();
    row_visibility::xmin_along();
    row_visibility::none_below_xmin();
    kept_rows::kept_rows();
}

/// Where the life of a node begins, with no blocks, it stands for an abstract standby whose life begins.
pub fn life_begins_so()
    ensures { BeginsSo }
{}

/// Over a legal log the pages that a scan is given, from its first block until it ends, are the rows that were committed at
/// its opening, in order of place.
pub fn pages_are_rows()
    ensures { PagesAreRows }
{
    standby_model::log_rises();
    record_numbers::told_numbers_fit();
    row_redo::blocks_show_versions();
    row_model::one_rows();
}

/// Over a legal log, in every session: each scan is given the blocks of the rows that were committed at its opening, in
/// order of place, one after the other; where its last page was given, all of them up to the first that is refused. A scan
/// that is cancelled names the first record since its opening that conflicts with it, and no page is given once there is
/// one. Nothing follows its end, and its id was never used before.
pub fn scans_give_rows()
    ensures { ScansGiveRows }
{
    table_schema::tables_are_apart();
    standby_model::log_rises();
    record_numbers::told_numbers_fit();
    row_redo::blocks_show_versions();
    row_visibility::all_kept();
    row_visibility::state_along();
    row_visibility::sees_rows();
    row_pages::scan_gives_rows();
    pages_are_rows();
    row_model::one_rows();
}

/// Over a legal log, a scan of a table at the log's end is never cancelled and leaves no row out: a record is refused there,
/// or no scan is opened, and one line says so; or the text is the line of the opening and then the pages of all rows that
/// were committed there, in order of place, up to the first that is refused. Where it was cut off, the first of these pages.
pub fn scan_at_end_gives_rows()
    ensures whole { ScanAtEndGivesRows }
    ensures front { FrontAtEndGivesRows }
{
    scans_give_rows();
}
