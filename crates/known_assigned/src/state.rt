use pg_types::Xid;

/// How far a standby is on the way to snapshots (`HotStandbyState`, xlogutils.h).
#[derive(Clone, Copy)]
pub enum State {
    /// No running record and no shutdown checkpoint was replayed.
    Initialized,
    /// A running record left subtransactions out: snapshots wait until a running record whose oldest
    /// id is above `until`, or one that leaves none out.
    Pending { until: Xid },
    /// All running transactions are known.
    Ready,
}

/// The fixed part of a running record (`xl_running_xacts`, standbydefs.h).
#[derive(Clone, Copy)]
pub struct RunningHead {
    /// Whether subtransactions were left out (`subxid_overflow`).
    pub overflow: bool,
    /// How many top-level ids are listed (`xcnt`).
    pub tops: u32,
    /// The next id to be assigned (`nextXid`).
    pub next: Xid,
    /// The oldest running id (`oldestRunningXid`).
    pub oldest: Xid,
    /// The latest completed id (`latestCompletedXid`).
    pub latest: Xid,
}
