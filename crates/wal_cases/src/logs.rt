//! What the reader reads of a log.
use crate::memory_logs;
use crate::records::prev_rule;
use case_text::{ShowPosition, Wrong, number_u64, position};
use outside::{MemoryLog, SteadyLog};
use pg_types::{Lsn, is_segment_size};
use std::alloc::Global;
use wal_reader::{EndWhy, Next, ReadFault, Reader};
use wal_record::PrevRule;

const SEGMENT: u32 = 0x100_0000;

/// Places around a page's start where an answer of the log ends.
const CUTS: [u64; 8] = [
    0x200_1FE9, 0x200_1FFF, 0x200_2000, 0x200_2001, 0x200_2017, 0x200_2018, 0x200_2019, 0x300_0000,
];

/// The log's text stands from a position on, and the record there is linked to another. It is handed over at
/// most 8192, 7 and 1 bytes at once, where no call is said to fail.
pub fn answer(rt: &HostRuntime, question: &[&str], text: &[u8]) -> Result<(), Wrong> {
    match *question {
        ["log", "from", from, "after", before] => {
            let (from, prev) = (position(from)?, prev_rule(before)?);
            let whole = read(rt.alloc(), from, prev, text, 8192)?;
            print!(rt; "{whole}")?;
            for most in [7usize, 1] {
                let other = read(rt.alloc(), from, prev, text, most)?;
                if other.as_str() != whole.as_str() {
                    print!(rt; "; at most {most} bytes at once: {other}")?;
                }
            }
            println!(rt; "")?;
            Ok(())
        }
        [
            "log",
            "from",
            from,
            "after",
            before,
            "failing",
            call,
            ref asked @ ..,
        ] => {
            let (from, prev) = (position(from)?, prev_rule(before)?);
            let mut log = log_of(rt.alloc(), from, text, 8192, &CUTS, &[number_u64(call)?])?;
            let mut reader = reader_at(rt.alloc(), from, prev)?;
            let mut out = String::new(rt.alloc());
            ask(&mut out, &mut reader, &mut log, asked)?;
            println!(rt; "{out}")?;
            Ok(())
        }
        ["log", "from", ref asked @ ..] => memory_logs::answer(rt, asked),
        _ => Err(Wrong::Line),
    }
}

/// A log in memory, whose answers are cut and fail at these places and calls.
pub fn log_of(
    alloc: Global,
    from: Lsn,
    text: &[u8],
    most: usize,
    cuts: &[u64],
    fails: &[u64],
) -> Result<MemoryLog, Wrong> {
    let steady = SteadyLog::new(alloc, from, text)?;
    Ok(MemoryLog::new(alloc, steady, most, cuts, fails)?)
}

/// A reader of such a log of system 7.
pub fn reader_at(alloc: Global, from: Lsn, prev: PrevRule) -> Result<Reader, Wrong> {
    if !is_segment_size(SEGMENT) {
        return Err(Wrong::Line);
    }
    Ok(Reader::start(alloc, 7, SEGMENT, from, prev)?)
}

/// Reads record after record, up to the log's end or a refusal.
fn read(
    alloc: Global,
    from: Lsn,
    prev: PrevRule,
    text: &[u8],
    most: usize,
) -> Result<String, Wrong> {
    let mut log = log_of(alloc, from, text, most, &CUTS, &[])?;
    let mut reader = reader_at(alloc, from, prev)?;
    let mut out = String::new(alloc);
    for _ in 0..9u32 {
        if !next(&mut out, &mut reader, &mut log)? {
            break;
        }
        reader.accept();
        out.push_str(", ")?;
    }
    Ok(out)
}

/// `next` and `accept` in this order.
fn ask(
    out: &mut String,
    reader: &mut Reader,
    log: &mut MemoryLog,
    asked: &[&str],
) -> Result<(), Wrong> {
    for word in asked {
        match *word {
            "accept" => reader.accept(),
            "next" => {
                next(out, reader, log)?;
                out.push_str(", ")?;
            }
            _ => return Err(Wrong::Line),
        }
    }
    out.push_str("no more asked")?;
    Ok(())
}

/// Shows what stands at the reader's position, and says whether it is a record.
fn next(out: &mut String, reader: &mut Reader, log: &mut MemoryLog) -> Result<bool, Wrong> {
    match reader.next(log) {
        Ok(Next::Record { start, end }) => {
            let view = reader.record();
            let head = view.head();
            let (start, end) = (ShowPosition(start), ShowPosition(end));
            write!(
                out,
                "{start} to {end} manager {} info {:02X}",
                head.manager, head.info
            )?;
            write!(out, " main of {} bytes", view.main().len())?;
            Ok(true)
        }
        Ok(Next::AtEnd { lsn, why }) => {
            write!(out, "ends at {}: {}", ShowPosition(lsn), why_text(why))?;
            Ok(false)
        }
        Err(fault) => {
            show_fault(out, fault)?;
            Ok(false)
        }
    }
}

fn show_fault(out: &mut String, fault: ReadFault) -> Result<(), Wrong> {
    match fault {
        ReadFault::Log => write!(out, "the log failed")?,
        ReadFault::Memory => write!(out, "out of memory")?,
        ReadFault::Compressed { lsn } => {
            write!(out, "refused at {}: compressed", ShowPosition(lsn))?;
        }
        ReadFault::TooLong { lsn } => {
            write!(out, "refused at {}: too long", ShowPosition(lsn))?;
        }
    }
    Ok(())
}

pub fn why_text(why: EndWhy) -> &'static str {
    match why {
        EndWhy::Missing => "missing",
        EndWhy::Page => "page",
        EndWhy::Zero => "length 0",
        EndWhy::Short => "length below a header's",
        EndWhy::Manager => "manager",
        EndWhy::Prev => "link",
        EndWhy::Crc => "CRC",
        EndWhy::Layout => "layout",
    }
}
