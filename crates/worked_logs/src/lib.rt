//! Logs that are worked by hand: what breaks each clause of the legal log, and what keeps them all.
#![tactic(auto)]

ghost use Rattle.worked_logs.specs.ArchiveLog.{ArchiveIsLegal};
ghost use Rattle.worked_logs.specs.BrokenLogs.{EachBreaks};
ghost use Rattle.worked_logs.specs.CheckpointRules.{CheckpointRulesBreak};
ghost use Rattle.worked_logs.specs.EndRules.{EndRulesBreak};
ghost use Rattle.worked_logs.specs.MultixactLog.{IsMultixactLog};
ghost use Rattle.worked_logs.specs.RemovalLog.{IsRemovalLog};
ghost use Rattle.worked_logs.specs.SecondLog.{IsSecondLog};
ghost use Rattle.worked_logs.specs.Clauses.{LegalKeeps, KeepingIsLegal};

/// A legal log of one table keeps each clause.
pub fn legal_keeps()
    ensures { LegalKeeps }
{}

/// A log of one table that keeps each clause is legal.
pub fn keeping_is_legal()
    ensures { KeepingIsLegal }
{}

/// Each clause is broken by a log that keeps all others.
pub fn each_breaks()
    ensures { EachBreaks }
{
    row_model::worked_rows();
}

/// The log of the example's archive is legal over an empty origin.
pub fn archive_is_legal()
    ensures { ArchiveIsLegal }
{
    row_model::worked_rows();
}

/// A log with an image after a checkpoint, a delete that aborts, a subtransaction and a second block is legal.
pub fn second_log()
    ensures { IsSecondLog }
{
    row_model::worked_rows();
}

/// A log with a prune, a freeze, an insertion that fails and is taken away, and a truncation under a lock is legal: so the
/// rules on removals, cuts and locks can be met. After it the table has the row that stood.
pub fn removal_log()
    ensures { IsRemovalLog }
{
    row_model::worked_rows();
}

/// A log in which a tuple shows a multixact of a transaction that updates and of one that locks is legal: so the rules on
/// multixacts can be met. The old version is the row until the updater has committed, and then the new one is.
pub fn multixact_log()
    ensures { IsMultixactLog }
{
    row_model::prefix_is_legal();
    row_model::worked_rows();
}

/// Each part of the rules on commits and aborts is broken by one that keeps the other parts.
pub fn end_rules_break()
    ensures { EndRulesBreak }
{}

/// Each part of the rules on checkpoints is broken by one that keeps the other parts.
pub fn checkpoint_rules_break()
    ensures { CheckpointRulesBreak }
{}
