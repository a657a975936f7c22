ghost use Rattle.std.specs.Prelude.{◌≡◌, ◌+◌, ◌*◌, ◌<◌, ◌≤◌, ◌^◌, length, vec_len};
ghost use Rattle.wal_page.specs.Page.{HasInfo};

use crate::samples::append;
use crate::{SEGMENT, START, SYSTEM};
use anyhow::Result;
use pg_types::{Lsn, SegmentName, Tli};
use std::fs;
use wal_page::{PageHead, write_page_header};

/// The size of a page of the log (`XLOG_BLCKSZ`).
const PAGE: usize = 8192;

/// A log that is written segment for segment into the folder `archive`.
#[derive(Drop)]
struct Writer {
    /// The segment that is being filled.
    number: u32,
    bytes: Vec<u8>,
}

/// Writes so many segments of records from the log's start on, and a few bytes more, with zeros behind
/// them, and prints where the log begins and ends.
pub fn make(rt: &HostRuntime, segments: u32) -> Result<()> {
    fs::create_dir(rt, "archive")?;
    let mut log = Writer {
        number: 2,
        bytes: Vec::with_capacity(rt.alloc(), SEGMENT as usize)?,
    };
    let mut text = Vec::new(rt.alloc());
    let mut prev = Lsn(0);
    for number in 0..u64::MAX {
        log.open(rt, 0)?;
        if log.number >= segments.saturating_add(2) {
            break;
        }
        let start = log.place();
        append(rt.alloc(), number, prev, &mut text)?;
        log.put(rt, text.as_slice())?;
        text.clear();
        prev = start;
    }
    let end = log.place().0;
    log.bytes.resize(SEGMENT as usize, 0)?;
    log.store(rt)?;
    println!(rt; "0/{START:x} 0/{end:x}")?;
    Ok(())
}

impl Writer {
    /// The position behind what was written.
    fn place(&self) -> Lsn {
        Lsn(u64::from(self.number) * u64::from(SEGMENT) + self.bytes.len() as u64)
    }

    /// Writes the segment's file, and begins the next segment.
    fn store(&mut self, rt: &HostRuntime) -> Result<()> {
        let name = SegmentName::new(Tli(1), u64::from(self.number), SEGMENT);
        let name = name.as_str();
        let path = format!(in rt.alloc(); "archive/{name}")?;
        fs::write(rt, path.as_str(), self.bytes.as_slice())?;
        self.bytes.clear();
        self.number = self.number.saturating_add(1);
        Ok(())
    }

    /// Begins a page where the one before is full, with so many bytes of a record to come.
    fn open(&mut self, rt: &HostRuntime, rem: u32) -> Result<()> {
        if self.bytes.len() >= SEGMENT as usize {
            self.store(rt)?;
        }
        if self.bytes.len() % PAGE == 0 {
            let head = page_head(self.place(), rem, self.bytes.is_empty());
            let mut header = [0_u8; 40];
            let len = write_page_header(&head, &mut header);
            let (text, _) = header.split_at(len.min(40));
            self.bytes.extend_from_slice(text)?;
        }
        Ok(())
    }

    /// Lays a record's bytes into pages, and zeros behind them up to a multiple of 8.
    fn put(&mut self, rt: &HostRuntime, text: &[u8]) -> Result<()> {
        let mut rest = text;
        for _ in 0..text.len() {
            if rest.is_empty() {
                break;
            }
            self.open(rt, u32::try_from(rest.len()).unwrap_or(0))?;
            let room = PAGE - self.bytes.len() % PAGE;
            let (piece, behind) = rest.split_at(room.min(rest.len()));
            self.bytes.extend_from_slice(piece)?;
            rest = behind;
        }
        let whole = self.bytes.len().div_ceil(8) * 8;
        self.bytes.resize(whole, 0)?;
        Ok(())
    }
}

/// The header of the page at `at`, a segment's first one or another, which begins inside a record or not.
fn page_head(at: Lsn, rem: u32, is_first: bool) -> PageHead
    ensures { HasInfo result }
{
    let inside = u16::from(rem > 0);
    let (info, long) = if is_first {
        (2 + inside, Some((SYSTEM, SEGMENT)))
    } else {
        (inside, None)
    };
    PageHead {
        info,
        tli: Tli(1),
        at,
        rem,
        long,
    }
}
