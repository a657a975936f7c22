//! From the bytes of the example's description and archive to rows, and to the text of a scan and of a session: they meet the
//! premise of what is answered over a legal log, and this is the answer.
#![tactic(auto)]

ghost use Rattle.worked_premise.specs.Premise.{FilesAreLegal, FilesTellRows, ScanIsAnswered, SessionIsAnswered};
ghost use Rattle.worked_premise.specs.WorkedSchema.{SchemaIsRead};

/// The text of the example's base folder describes the tables t and u.
pub fn schema_is_read()
    ensures { SchemaIsRead }
{}

/// A primary could write each front of the log that the example's files tell.
pub fn files_are_legal()
    ensures { FilesAreLegal }
{
    worked_archive::worked_archive();
    worked_logs::archive_is_legal();
    row_model::prefix_is_legal();
}

/// At its end t has the one row that was committed, and a scan is given that.
pub fn files_tell_rows()
    ensures { FilesTellRows }
{
    worked_archive::worked_archive();
    row_model::one_rows();
}

/// `scan t` over the files is answered in this text, by a node and by the log alone.
pub fn scan_is_answered()
    ensures { ScanIsAnswered }
{
    worked_archive::worked_archive();
    transaction_model::transactions::one_xmin();
    row_model::one_rows();
    schema_is_read();
    files_are_legal();
    legal_session::node_simulates();
    legal_session::life_begins_so();
    session_model::one_scan();
}

/// And so is a session that replays them, opens a scan of t and reads it.
pub fn session_is_answered()
    ensures { SessionIsAnswered }
{
    worked_archive::worked_archive();
    schema_is_read();
    files_are_legal();
    legal_session::node_simulates();
    legal_session::life_begins_so();
}
