use commit_log::CommitLog;
use known_assigned::KnownAssigned;
use standby_snapshot::Snapshot;
use std::alloc::Global;
use subtrans::Subtrans;
use xact_redo::XactState;

/// What the steps of a case have built, layer by layer. `state` is the records' own; the layers below it are
/// asked by themselves.
#[derive(Drop)]
pub struct Layers {
    pub log: CommitLog,
    pub subs: Subtrans,
    pub known: KnownAssigned,
    pub snapshot: Option<Snapshot>,
    pub state: XactState,
}

impl Layers {
    pub fn new(alloc: Global) -> Layers {
        Layers {
            log: CommitLog::new(alloc),
            subs: Subtrans::new(alloc),
            known: KnownAssigned::new(alloc),
            snapshot: None,
            state: XactState::new(alloc),
        }
    }
}
