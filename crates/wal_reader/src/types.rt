ghost use Rattle.std.specs.Prelude.{◌≡◌};

use pg_types::{Fail, Lsn};
use thiserror::Error;
use wal_record::RecordShape;

/// The rule that is the log's end (`ReadRecord`, xlogrecovery.c), in the order in which they are tried.
#[derive(Clone, Copy, PartialEq, Eq)]
pub enum EndWhy {
    /// The bytes that are needed next are not told.
    Missing,
    /// A page's header has a fault, or the page does not go on with the record.
    Page,
    /// The length is 0.
    Zero,
    /// The length is below a header's.
    Short,
    /// The resource manager is unknown.
    Manager,
    /// The link is not to the record before.
    Prev,
    /// The CRC is wrong.
    Crc,
    /// The parts do not fill the record, or another record stands in the place of one that was given up.
    Layout,
}

/// Why no record is read at a position: the log ends there, or its record is refused.
#[derive(Clone, Copy)]
pub enum NoRecord {
    End(EndWhy),
    /// A page image is compressed.
    Compressed,
    /// The record is longer than 64 MiB.
    TooLong,
}

/// What stands at the reader's position.
#[derive(Clone, Copy)]
pub enum Next {
    /// A record: the position of its first byte, and the one where the next record would stand.
    Record { start: Lsn, end: Lsn },
    /// The log's end.
    AtEnd { lsn: Lsn, why: EndWhy },
}

/// Why the reader gives no answer. It stands where it stood.
#[derive(Clone, Copy, Debug, Error)]
pub enum ReadFault {
    #[error("the log failed")]
    Log,
    #[error("a page image is compressed")]
    Compressed { lsn: Lsn },
    #[error("the record is longer than 64 MiB")]
    TooLong { lsn: Lsn },
    #[error("out of memory")]
    Memory,
}

/// Why a step of the reader reads no record.
#[derive(Clone, Copy)]
pub enum Trouble {
    /// None is read at the position.
    Stops(NoRecord),
    /// The page that should go on with the record says that it was given up, and that another one begins
    /// at `place`.
    GivesUp { place: u64 },
    /// The log failed.
    Log,
    /// Memory ran out.
    Memory,
}

impl From<Fail> for Trouble {
    ghost use Rattle.wal_reader.specs.Calls.{trouble_of};

    ghost from_gives = { λ fail trouble. trouble ≡ trouble_of fail };

    fn from(fail: Fail) -> Trouble {
        match fail {
            Fail::Failed => Trouble::Log,
            Fail::Memory => Trouble::Memory,
        }
    }
}

/// A record that was read: where it begins, where the next one would stand, its length where it stands
/// whole among the bytes that are kept, and where its parts stand in it.
#[derive(Clone, Copy)]
pub struct Taken {
    pub start: u64,
    pub end: u64,
    pub lent: Option<usize>,
    pub shape: RecordShape,
}
