//! The commit log: which transactions committed, aborted or were about to commit, two bits for each
//! (PostgreSQL's `pg_xact`, clog.c). All statuses are in memory, in pages of 32768.
#![tactic(auto)]

ghost use Rattle.std.specs.Prelude.{◌≡◌, ℕ, ◌+◌, ◌*◌, ◌/◌, ◌<◌, ◌≤◌, [], ◌∷◌, max, All, OnOk, OnErr, length, nat_lt, nat_le};
ghost use Rattle.pg_types.specs.declared.names.Xid.{Xid};
ghost use Rattle.pg_types.specs.declared.status.Status.{Status};
ghost use Rattle.commit_log.specs.Log.{initial_status, status_of, reserved_end, changed_at, status_after, changed_after};

mod page;

use page::StatusPage;
use pg_types::{Lsn, NoMemory, Status, Xid};
use std::alloc::Global;

/// Statuses on one page (clog.c, `CLOG_XACTS_PER_PAGE`).
const STATUSES_PER_PAGE: u64 = 32768;

/// The first id that a transaction gets (transam.h, `FirstNormalTransactionId`).
const FIRST_NORMAL: u64 = 3;

/// The statuses of all transactions below a reserved end. Memory is one byte for four ids, taken in
/// pages of 8192 bytes for every id below that end: 2^32 ids take 1 GiB.
#[derive(Drop)]
pub struct CommitLog {
    alloc: Global,
    pages: Vec<StatusPage>,
}

impl CommitLog {
    /// The log in which no transaction has ended. It takes no memory.
    #[tactic(auto, unfolding(crate::specs::Log::status_of, crate::specs::Log::reserved_end, crate::specs::Log::changed_at))]
    pub fn new(alloc: Global) -> CommitLog
        ensures statuses { (x : ℕ) → status_of result x ≡ initial_status x }
        ensures end { reserved_end result ≡ 0 }
        ensures changed { (n : ℕ) → changed_at result n ≡ 0 }
    {
        CommitLog {
            alloc,
            pages: Vec::new(alloc),
        }
    }

    /// The status of `xid`: 1 and 2 are always committed, 0 is none, and so is what lies past the
    /// reserved end (`TransactionIdGetStatus`, clog.c). One look-up, no memory.
    #[tactic(auto, unfolding(crate::specs::Log::status_of, crate::specs::Log::reserved_end, crate::specs::Log::changed_at))]
    pub fn get(&self, xid: Xid) -> Status
        ensures status { result ≡ status_of self.now xid.0 }
        ensures fixed { xid.0 < 3 → result ≡ initial_status xid.0 }
        ensures past_end { 3 ≤ xid.0 → reserved_end self.now ≤ xid.0 → result ≡ Status.None }
    {
        match xid.0 {
            0 => Status::None,
            1 | 2 => Status::Committed,
            x => self.look(x),
        }
    }

    /// Makes room for the statuses of all ids up to `last`: whole pages of 32768 ids, up to that of
    /// `last`, each taken once. On want of memory it keeps the pages that it got.
    #[tactic(auto, unfolding(crate::specs::Log::reserved_end))]
    pub fn reserve(&mut self, last: Xid) -> Result<(), NoMemory>
        ensures reserved { OnOk result (reserved_end self.new ≡ max (reserved_end self.old) (32768 * (last.0 / 32768 + 1))) }
        ensures kept { reserved_end self.old ≤ reserved_end self.new }
        ensures statuses { (x : ℕ) → status_of self.new x ≡ status_of self.old x }
        ensures changed { (n : ℕ) → changed_at self.new n ≡ changed_at self.old n }
    {
        let wanted = (last.0 / STATUSES_PER_PAGE) as usize + 1;
        for _ in self.pages.len()..wanted {
            self.add_page()?;
        }
        Ok(())
    }

    /// Gives `xid` and each of `subs` this status, at the end `at` of the record that says so
    /// (`TransactionIdSetTreeStatus`, clog.c). Ids below 3 are passed over. One write for each id, no
    /// memory. Each page that is written keeps the greatest such position, up to which the log has to be
    /// on the disk before the page may be.
    pub fn set_tree(&mut self, xid: Xid, subs: &[Xid], status: Status, at: Lsn)
        requires top { xid.0 < reserved_end self.old }
        requires below { All (λ (x : Xid). x.0 < reserved_end self.old) subs.now }
        ensures reserved { reserved_end self.new ≡ reserved_end self.old }
        ensures statuses { (x : ℕ) → status_of self.new x ≡ status_after (status_of self.old) (xid ∷ subs.now) status x }
        ensures changed { (n : ℕ) → changed_at self.new n ≡ changed_after (changed_at self.old) (xid ∷ subs.now) at.0 n }
    {
        self.set_one(xid, status, at);
        for sub in subs {
            self.set_one(*sub, status, at);
        }
    }

    /// The status of a normal id.
    #[tactic(auto, unfolding(crate::specs::Log::status_of, crate::specs::Log::reserved_end, crate::specs::Log::changed_at))]
    fn look(&self, x: u64) -> Status
        requires { 3 ≤ x }
        ensures { result ≡ status_of self.now x }
    {
        match self.pages.get((x / STATUSES_PER_PAGE) as usize) {
            Some(page) => page.get((x % STATUSES_PER_PAGE) as usize),
            None => Status::None,
        }
    }

    /// Adds a page without statuses.
    #[tactic(auto, unfolding(crate::specs::Log::status_of, crate::specs::Log::reserved_end, crate::specs::Log::changed_at))]
    fn add_page(&mut self) -> Result<(), NoMemory>
        ensures ok { OnOk result (reserved_end self.new ≡ reserved_end self.old + 32768) }
        ensures err { OnErr result (reserved_end self.new ≡ reserved_end self.old) }
        ensures statuses { (x : ℕ) → status_of self.new x ≡ status_of self.old x }
        ensures changed { (n : ℕ) → changed_at self.new n ≡ changed_at self.old n }
    {
        let page = StatusPage::blank(self.alloc)?;
        self.pages.push(page)?;
        Ok(())
    }

    /// Gives one id its status.
    #[tactic(auto, unfolding(crate::specs::Log::reserved_end))]
    fn set_one(&mut self, xid: Xid, status: Status, at: Lsn)
        requires { xid.0 < reserved_end self.old }
        ensures reserved { reserved_end self.new ≡ reserved_end self.old }
        ensures statuses { (x : ℕ) → status_of self.new x ≡ status_after (status_of self.old) (xid ∷ []) status x }
        ensures changed { (n : ℕ) → changed_at self.new n ≡ changed_after (changed_at self.old) (xid ∷ []) at.0 n }
    {
        if xid.0 < FIRST_NORMAL {
            return;
        }
        let page = &mut self.pages[(xid.0 / STATUSES_PER_PAGE) as usize];
        page.set((xid.0 % STATUSES_PER_PAGE) as usize, status, at);
    }
}
