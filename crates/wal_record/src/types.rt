use pg_types::{Locator, Lsn, Xid};
use thiserror::Error;

/// The fields of a record's header (`XLogRecord`, xlogrecord.h).
#[derive(Clone, Copy)]
pub struct RecordHead {
    /// The record's length in bytes, with its header.
    pub total: u32,
    pub xid: Xid,
    /// Where the record before begins.
    pub prev: Lsn,
    /// What kind of record it is, to its resource manager.
    pub info: u8,
    /// The resource manager (rmgrlist.h).
    pub manager: u8,
}

/// What a record's link to the record before has to be (`ValidXLogRecordHeader`, xlogreader.c).
#[derive(Clone, Copy)]
pub enum PrevRule {
    /// The record before begins here.
    Is(Lsn),
    /// No record before is known: the link is below the record's own position.
    Below,
}

/// Why bytes are no record that can be replayed. Of several faults the first in this order is meant.
#[derive(Clone, Copy, Debug, Error)]
pub enum RecordFault {
    #[error("the length is 0")]
    Zero,
    #[error("the length is below a header's")]
    Short,
    #[error("the resource manager is unknown")]
    Manager,
    #[error("the link is not to the record before")]
    Prev,
    #[error("the record is longer than 64 MiB")]
    TooLong,
    #[error("the CRC is wrong")]
    Crc,
    #[error("the parts do not fill the record")]
    Layout,
    #[error("a page image is compressed")]
    Compressed,
}

/// A block that a record refers to, lent from the record's bytes.
#[derive(Clone, Copy)]
pub struct BlockView<'a> {
    pub locator: Locator,
    /// The relation's fork, 0 for the main one.
    pub fork: u8,
    pub block: u32,
    /// The page is made anew before the change.
    pub will_init: bool,
    pub image: Option<ImageView<'a>>,
    /// The block's own data.
    pub payload: &'a [u8],
}

/// A page image that is not compressed.
#[derive(Clone, Copy)]
pub struct ImageView<'a> {
    /// Replay restores the page from the image.
    pub apply: bool,
    /// Where the hole begins that `bytes` leave out: zeros, so many that the page has 8192 bytes.
    pub hole_at: u16,
    pub bytes: &'a [u8],
}
