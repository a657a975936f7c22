ghost use Rattle.std.specs.Prelude.{◌≡◌, ℕ, ◌+◌, ◌<◌, ◌≤◌, ◌^◌, ◌∷◌, IfOk, OnOk, OnErr, length, max, slice_get};
ghost use Rattle.std.specs.List.{All};
ghost use Rattle.std.specs.List.Sorted.{IsStrictlyIncreasing};
ghost use Rattle.std.specs.Option.{option_map};
ghost use Rattle.known_assigned.specs.Ids.{greatest, numbers};
ghost use Rattle.known_assigned.specs.Known.{IsPacked, after_assign, after_end, after_observe, after_running, after_shutdown, count_added, made_anew, nothing_known, overflows, past_oldest};

use crate::running_set::RunningSet;
use crate::state::{RunningHead, State};
use pg_types::{NoMemory, Xid, XidList};
use std::alloc::Global;
use std::marker::Model;

/// The transactions that run on the primary, as the log shows them (`KnownAssignedXids` and the
/// numbers beside it, procarray.c). Contracts see what is known, the ids in rising order, and how many
/// more ids fit without taking memory (`spare`).
///
/// Ids are at most 2^63 + 2^32, so that one more always fits.
#[derive(Drop)]
pub struct KnownAssigned {
    running: RunningSet,
    latest: u64,
    observed: u64,
    overflowed: u64,
    state: State,
}

impl Model for KnownAssigned {
    ghost use Rattle.std.specs.Prelude.{◌+◌, ◌^◌, ◌≤◌};
    ghost use Rattle.known_assigned.specs.Known.{Tracked};

    ghost Value = { Tracked };

    ghost view = { λ k. record { known = record { xids = k.running.xids; latest = k.latest; observed = k.observed; overflowed = k.overflowed; mode = k.state }; spare = k.running.spare; taken = k.running.taken } };

    ghost invariant = { λ k. k.latest ≤ 2 ^ 63 + 2 ^ 32 };
}

impl KnownAssigned {
    /// Before the first record. It takes no memory.
    pub fn new(alloc: Global) -> KnownAssigned
        ensures known { result.known ≡ nothing_known }
        ensures spare { result.spare ≡ 0 }
        ensures packed { IsPacked result }
    {
        KnownAssigned {
            running: RunningSet::new(alloc),
            latest: 0,
            observed: 0,
            overflowed: 0,
            state: State::Initialized,
        }
    }

    /// How many ids `observe` would add. It takes no memory, and no time beyond a constant where no
    /// known id is above the greatest observed one, as in the log of a server.
    #[tactic(auto, unfolding(crate::specs::Known::count_added, crate::specs::Known::unobserved))]
    pub fn would_add(&self, xid: Xid) -> u64
        ensures { result ≡ count_added self.now.known xid.0 }
    {
        match self.state {
            State::Initialized => 0,
            _ => self.running.count_absent(self.observed, xid.0),
        }
    }

    /// Makes room for so many more ids; `Err` is want of memory, and leaves all that is known. A place
    /// is moved once, on average, for each id that was added or ended.
    pub fn reserve(&mut self, more: u64) -> Result<(), NoMemory>
        ensures known { self.new.known ≡ self.old.known }
        ensures room { OnOk result (more ≤ self.new.spare) }
        ensures short { OnErr result (self.old.spare < more) }
        ensures kept { self.old.spare ≤ self.new.spare }
        ensures packed { IsPacked self.new }
    {
        let reserved = self.running.reserve(more as usize);
        self.running.pack();
        reserved
    }

    /// A record names `xid`: all ids up to it are assigned (`RecordKnownAssignedTransactionIds`). It
    /// takes no memory, and a constant time for each id that is new.
    #[tactic(auto, unfolding(crate::specs::Known::after_observe, crate::specs::Known::count_added, crate::specs::Known::unobserved))]
    pub fn observe(&mut self, xid: Xid)
        requires { count_added self.old.known xid.0 ≤ self.old.spare }
        ensures known { self.new.known ≡ after_observe self.old.known xid.0 }
        ensures spare { self.old.spare ≤ self.new.spare + count_added self.old.known xid.0 }
        ensures packed { IsPacked self.new }
    {
        match self.state {
            State::Initialized => {}
            _ => self.running.add_range(self.observed, xid.0),
        }
        self.observed = self.observed.max(xid.0);
        self.running.pack();
    }

    /// The transaction and its subtransactions have ended (`ExpireTreeKnownAssignedTransactionIds`).
    /// It takes no memory. Each id is found by halving, and the ended places at the low end are passed
    /// over once.
    #[tactic(auto, unfolding(crate::specs::Known::after_end))]
    pub fn end_tree(&mut self, xid: Xid, subs: &[Xid])
        requires top { xid.0 ≤ 2 ^ 63 + 2 ^ 32 }
        requires listed { All (λ (x : Xid). x.0 ≤ 2 ^ 63 + 2 ^ 32) subs.now }
        ensures known { self.new.known ≡ after_end self.old.known (xid.0 ∷ numbers subs.now) }
        ensures spare { self.old.spare ≤ self.new.spare }
        ensures packed { IsPacked self.new }
    {
        self.running.remove(xid.0);
        self.running.remove_listed(subs);
        self.running.pack();
        self.latest = greatest_of(self.latest, xid.0, subs);
    }

    /// The listed subtransactions of `top` are known by their parent from now on
    /// (`ProcArrayApplyXidAssignment`). It takes no memory. The cost is that of `end_tree`.
    #[tactic(auto, unfolding(crate::specs::Known::after_assign))]
    pub fn assign(&mut self, top: Xid, subs: &[Xid])
        ensures known { self.new.known ≡ after_assign self.old.known top.0 (numbers subs.now) }
        ensures spare { self.old.spare ≤ self.new.spare }
        ensures packed { IsPacked self.new }
    {
        match self.state {
            State::Initialized => {}
            _ => {
                self.running.remove_listed(subs);
                self.overflowed = greatest_of(self.overflowed, top.0, subs);
            }
        }
        self.running.pack();
    }

    /// A running record (`ProcArrayApplyRecoveryInfo`): `live` are the listed ids that have not ended,
    /// `ended` is the greatest listed one that has, or 0. It takes no memory. While all running
    /// transactions are known it only takes out the ids below the oldest one, each once; before, the
    /// ids are put in anew and sorted.
    #[tactic(auto, unfolding(crate::specs::Known::after_running))]
    pub fn running(&mut self, head: &RunningHead, live: &[Xid], ended: Xid)
        requires room { length live.now ≤ length self.old.known.xids + self.old.spare }
        requires oldest { head.now.oldest.0 ≤ 2 ^ 63 + 2 ^ 32 }
        requires latest { head.now.latest.0 ≤ 2 ^ 63 + 2 ^ 32 }
        requires ended { ended.0 ≤ 2 ^ 63 + 2 ^ 32 }
        ensures known { self.new.known ≡ after_running self.old.known head.now (numbers live.now) ended.0 }
        ensures spare { self.old.spare ≤ self.new.spare + length live.now }
        ensures packed { IsPacked self.new }
    {
        match self.state {
            State::Ready => self.pass_oldest(head.oldest.0),
            State::Pending { until } if is_overflowed(head) => {
                self.pass_oldest(head.oldest.0);
                if until.0 < head.oldest.0 {
                    self.state = State::Ready;
                }
            }
            _ => self.make_anew(head, live, ended),
        }
    }

    /// A shutdown checkpoint whose next id is `next`: nothing runs (`xlog_redo`). It takes no memory.
    #[tactic(auto, unfolding(crate::specs::Known::after_shutdown))]
    pub fn shutdown(&mut self, next: Xid)
        requires { next.0 ≤ 2 ^ 63 + 2 ^ 32 }
        ensures known { self.new.known ≡ after_shutdown self.old.known next.0 }
        ensures spare { self.old.spare ≤ self.new.spare }
        ensures packed { IsPacked self.new }
    {
        let ended = next.0.saturating_sub(1);
        self.running.clear();
        self.latest = self.latest.max(ended);
        self.observed = self.observed.max(ended);
        self.state = State::Ready;
    }

    /// All ids below `oldest` have ended (`ExpireOldKnownAssignedTransactionIds`).
    #[tactic(auto, unfolding(crate::specs::Known::past_oldest))]
    fn pass_oldest(&mut self, oldest: u64)
        requires { oldest ≤ 2 ^ 63 + 2 ^ 32 }
        ensures known { self.new.known ≡ past_oldest self.old.known oldest }
        ensures spare { self.old.spare ≤ self.new.spare }
        ensures packed { IsPacked self.new }
    {
        let ended = oldest.saturating_sub(1);
        self.running.remove_below(oldest);
        self.running.pack();
        self.latest = self.latest.max(ended);
        self.observed = self.observed.max(ended);
    }

    /// The ids below the oldest one have ended, and the others are the ones that the record lists.
    #[tactic(auto, unfolding(crate::specs::Known::made_anew, crate::specs::Known::past_oldest))]
    fn make_anew(&mut self, head: &RunningHead, live: &[Xid], ended: Xid)
        requires room { length live.now ≤ length self.old.known.xids + self.old.spare }
        requires oldest { head.now.oldest.0 ≤ 2 ^ 63 + 2 ^ 32 }
        requires latest { head.now.latest.0 ≤ 2 ^ 63 + 2 ^ 32 }
        requires ended { ended.0 ≤ 2 ^ 63 + 2 ^ 32 }
        ensures known { self.new.known ≡ made_anew (past_oldest self.old.known head.now.oldest.0) head.now (numbers live.now) ended.0 }
        ensures spare { self.old.spare ≤ self.new.spare + length live.now }
        ensures packed { IsPacked self.new }
    {
        let before = head.oldest.0.saturating_sub(1);
        let last = head.next.0.saturating_sub(1);
        self.running.replace(live);
        self.running.pack();
        self.latest = self.latest.max(before).max(head.latest.0).max(ended.0);
        self.observed = self.observed.max(before).max(last);
        if is_overflowed(head) {
            self.overflowed = last;
            self.state = State::Pending { until: Xid(last) };
        } else {
            self.state = State::Ready;
        }
    }

    pub fn state(&self) -> State
        ensures { result ≡ self.now.known.mode }
    {
        self.state
    }

    /// The least id that is known to run, at once.
    pub fn least(&self) -> Option<Xid>
        ensures least { option_map (λ (x : Xid). x.0) result ≡ slice_get self.now.known.xids 0 }
        ensures rising { IsStrictlyIncreasing self.now.known.xids }
    {
        self.running.least().map(Xid)
    }

    /// The latest completed id.
    pub fn latest_completed(&self) -> Xid
        ensures latest { result.0 ≡ self.now.known.latest }
        ensures next_fits { result.0 ≤ 2 ^ 63 + 2 ^ 32 }
    {
        Xid(self.latest)
    }

    /// The last overflowed id, below which a subtransaction may be known by its parent alone.
    pub fn last_overflowed(&self) -> Xid
        ensures { result.0 ≡ self.now.known.overflowed }
    {
        Xid(self.overflowed)
    }

    /// A copy of the ids that are known to run, in rising order.
    pub fn copy_xids(&self, alloc: Global) -> Result<XidList, NoMemory>
        ensures ok { IfOk result (λ xids. numbers xids ≡ self.now.known.xids) }
        ensures rising { IsStrictlyIncreasing self.now.known.xids }
    {
        self.running.copy(alloc)
    }
}

/// Whether the record leaves subtransactions out. One with no top-level id counts as whole.
fn is_overflowed(head: &RunningHead) -> bool
    ensures { result ≡ overflows head.now }
{
    head.overflow && head.tops > 0
}

/// The greatest of these.
fn greatest_of(start: u64, first: u64, rest: &[Xid]) -> u64
    ensures { result ≡ max start (greatest (first ∷ numbers rest.now)) }
{
    let mut most = start.max(first);
    for xid in rest {
        most = most.max(xid.0);
    }
    most
}
