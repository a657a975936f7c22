ghost use Rattle.std.specs.Prelude.{◌≡◌, ℕ};

use commit_log::CommitLog;
use known_assigned::KnownAssigned;
use multixact::Multis;
use pg_types::{Status, Unknown, Xid, XidList};
use std::alloc::Global;
use subtrans::Subtrans;
use tuple_visibility::Statuses;

/// What a standby knows of transactions.
#[derive(Drop)]
pub struct XactState {
    /// How each transaction ended.
    pub log: CommitLog,
    /// The parents of subtransactions.
    pub subs: Subtrans,
    /// The multixacts that were made.
    pub multis: Multis,
    /// The transactions that run.
    pub known: KnownAssigned,
    /// The ids of a running record that have not ended, from its `reserve` to its `redo`.
    pub scratch: XidList,
    /// The subtransactions that a record ends or assigns, from its `reserve` to its `redo`.
    pub tree: XidList,
    /// The greatest id of a running record that has ended, or 0, from its `reserve` to its `redo`.
    pub ended: Xid,
}

impl XactState {
    ghost use Rattle.xact_redo.specs.State.{before_records, forgetting, transactions};

    /// The state before the first record. It takes no memory.
    #[tactic(auto, unfolding(crate::specs::State::transactions, crate::specs::State::before_records))]
    pub fn new(alloc: Global) -> XactState
        ensures { transactions result ≡ before_records }
    {
        XactState {
            log: CommitLog::new(alloc),
            subs: Subtrans::new(alloc),
            multis: Multis::new(alloc),
            known: KnownAssigned::new(alloc),
            scratch: XidList::new(alloc),
            tree: XidList::new(alloc),
            ended: Xid(0),
        }
    }

    /// Forgets the parents of all subtransactions below `xid` (`TruncateSUBTRANS`, subtrans.c). It takes no memory:
    /// one step for each parent that goes, and one search by halving.
    #[tactic(auto, unfolding(crate::specs::State::transactions, crate::specs::State::forgetting))]
    pub fn forget_below(&mut self, xid: Xid)
        ensures { transactions self.new ≡ forgetting xid.0 (transactions self.old) }
    {
        self.subs.forget_below(xid);
    }
}

impl Statuses for XactState {
    ghost use Rattle.commit_log.specs.Log.{status_of};
    ghost use Rattle.multixact.specs.Entries.{made_in};

    ghost parents_of = { λ state. state.subs.pairs };

    ghost status_of = { λ state. status_of state.log };

    ghost updater_of = { λ state. made_in state.multis.entries };

    /// At once.
    fn parents(&self) -> &Subtrans {
        &self.subs
    }

    /// One look-up in the commit log.
    fn status(&self, xid: Xid) -> Status {
        self.log.get(xid)
    }

    /// One search by halving.
    fn updater(&self, id: u32) -> Result<Option<Xid>, Unknown> {
        self.multis.updater(id)
    }
}
