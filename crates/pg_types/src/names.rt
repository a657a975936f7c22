/// A position in the log, in bytes from its beginning (`XLogRecPtr`, xlogdefs.h).
#[derive(Clone, Copy, Debug)]
pub struct Lsn(pub u64);

/// A timeline (`TimeLineID`, xlogdefs.h). The first one is 1.
#[derive(Clone, Copy)]
pub struct Tli(pub u32);

/// A transaction id (`TransactionId`, transam.h), in 64 bits so that one more always fits. Those that
/// a record bears are below 2^32.
#[derive(Clone, Copy)]
pub struct Xid(pub u64);

/// The file of a relation (`RelFileLocator`, relfilelocator.h): tablespace, database, file number.
#[derive(Clone, Copy, PartialEq, Eq)]
pub struct Locator {
    pub space: u32,
    pub db: u32,
    pub rel: u32,
}

/// Where a tuple stands (`ItemPointerData`, itemptr.h): its block from 0 and its line from 1.
#[derive(Clone, Copy, Debug)]
pub struct Place {
    pub block: u32,
    pub line: u16,
}

/// A block of a described table, by the table's number in the description, from 0.
#[derive(Clone, Copy)]
pub struct Tag {
    pub table: u16,
    pub block: u32,
}
