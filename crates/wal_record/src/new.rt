use pg_types::{Bytes, List, Locator, Lsn, Xid};

/// A record that is to be written. Its length, its CRC and the flags of its blocks are computed.
#[derive(Drop)]
pub struct NewRecord {
    pub xid: Xid,
    /// Where the record before begins.
    pub prev: Lsn,
    pub info: u8,
    pub manager: u8,
    /// In the order of their ids.
    pub blocks: NewBlocks,
    /// Main data.
    pub main: Bytes,
}

/// A block that a new record refers to.
#[derive(Drop)]
pub struct NewBlock {
    /// Its id in the record, 0 to 32.
    pub id: u8,
    pub locator: Locator,
    /// The relation's fork, 0 to 15.
    pub fork: u8,
    pub block: u32,
    /// The page is made anew before the change.
    pub will_init: bool,
    pub image: Option<NewImage>,
    /// The block's own data, at most 65535 bytes.
    pub payload: Bytes,
}

/// A page image, not compressed: all 8192 bytes, or those around a hole of zeros.
#[derive(Drop)]
pub struct NewImage {
    /// Replay restores the page from the image.
    pub apply: bool,
    /// Where the hole begins, 0 where there is none.
    pub hole_at: u16,
    pub bytes: Bytes,
}

/// The blocks of a new record.
pub type NewBlocks = List<NewBlock>;
