use known_assigned::State;
use pg_types::{Lsn, NoMemory, Place, Tli};
use thiserror::Error;
use wal_bodies::What;
use wal_reader::EndWhy;

/// Where a standby's log begins, with neither rows nor statuses.
#[derive(Clone, Copy)]
pub struct Origin {
    /// The system identifier that the pages of the log bear.
    pub system: u64,
    /// The size of a segment in bytes, a power of two from 1 MiB to 1 GiB.
    pub segsize: u32,
    /// The redo position of the base backup's checkpoint.
    pub redo: Lsn,
}

/// What came of replaying one record.
#[derive(Clone, Copy)]
pub enum Replayed {
    /// The record that starts there was applied, and the node stands at its end; so many open scans are
    /// cancelled by it.
    Applied { start: Lsn, at: Lsn, cancelled: u8 },
    /// No record stands at the node's position, by the first rule that fails.
    AtEnd { lsn: Lsn, why: EndWhy },
    /// The record at the node's position is refused, and the node stays there.
    Refused { lsn: Lsn, what: Refusal },
}

/// Why a record is refused.
#[derive(Clone, Copy)]
pub enum Refusal {
    /// It has a compressed page image.
    Compressed,
    /// It is longer than 64 MiB.
    TooLong,
    /// Its body is shorter than its kind needs.
    Length,
    Unsupported(What),
    /// The block that it changes is missing.
    NoPage { block: u32 },
    /// The line is not as the record has it.
    NoTuple { place: Place },
    /// The page has no room for the tuple.
    PageFull { place: Place },
    /// The block breaks the page rule, or would after the change.
    BadPage { block: u32 },
}

/// Why a call of the node gives no answer.
#[derive(Clone, Copy, Debug, Error)]
pub enum NodeFault {
    #[error("the archive failed")]
    Archive,
    #[error("out of memory")]
    Memory,
}

/// Where the node stands.
#[derive(Clone, Copy)]
pub struct NodeStatus {
    /// The timeline that is replayed.
    pub tli: Tli,
    /// The position of the next record.
    pub at: Lsn,
    /// The position from which on the blocks are consistent, once the backup has ended.
    pub min: Lsn,
    /// Whether the end of the base backup is still to come.
    pub awaited: bool,
    /// How far the running transactions are known.
    pub state: State,
    /// How many scans are open.
    pub scans: u8,
}

impl From<NoMemory> for NodeFault {
    ghost use Rattle.std.specs.Prelude.{◌≡◌};
    ghost use Rattle.standby_core.specs.declared.types.NodeFault.TheVariants.{Memory};

    ghost from_gives = { λ _ fault. fault ≡ Memory };

    fn from(_: NoMemory) -> NodeFault {
        NodeFault::Memory
    }
}

/// What is left to be told of a record that was redone: where the backup began whose end is awaited after it, and
/// how many scans it cancelled.
#[derive(Clone, Copy)]
pub(crate) struct Passed {
    pub awaited: Option<Lsn>,
    pub cancelled: u8,
}

/// Why a record that was read is not applied.
#[derive(Clone, Copy)]
pub(crate) enum Stopped {
    Refused(Refusal),
    Memory,
}

impl From<NoMemory> for Stopped {
    ghost use Rattle.std.specs.Prelude.{◌≡◌};
    ghost use Rattle.standby_core.specs.declared.types.Stopped.TheVariants.{Memory};

    ghost from_gives = { λ _ stopped. stopped ≡ Memory };

    fn from(_: NoMemory) -> Stopped {
        Stopped::Memory
    }
}
