use crate::clock::{in_a_second, megabytes};
use crate::{SEGMENT, START, SYSTEM};
use anyhow::Result;
use outside::{Folder, LogBytes};
use pg_types::Lsn;
use std::time::{Duration, Instant};
use wal_archive::ArchiveLog;
use wal_reader::{Next, ReadFault, Reader};
use wal_record::PrevRule;

/// What was read: the records, the bytes of main data that they lend, and where the last one ends.
#[derive(Drop)]
struct Tally {
    records: u64,
    main: u64,
    end: u64,
}

/// Reads the whole log, and tells what was read, and how fast.
pub fn read(rt: &HostRuntime, is_timed: bool) -> Result<()> {
    let mut archive = Folder::archive(rt.alloc(), rt);
    let mut log = ArchiveLog::plain(&mut archive, SEGMENT);
    let mut reader = Reader::start(rt.alloc(), SYSTEM, SEGMENT, Lsn(START), PrevRule::Below)?;
    let begun = Instant::now(rt)?;
    let tally = read_all(&mut reader, &mut log)?;
    let took = begun.elapsed(rt)?;
    let (records, main, end) = (tally.records, tally.main, tally.end);
    println!(rt; "{records} records ({main} bytes of main data) up to 0/{end:x}")?;
    if is_timed {
        tell_speed(rt, records, end, took)?;
    }
    Ok(())
}

/// Reads record after record up to the log's end.
fn read_all<L: LogBytes>(reader: &mut Reader, log: &mut L) -> Result<Tally, ReadFault> {
    let mut tally = Tally {
        records: 0,
        main: 0,
        end: START,
    };
    for _ in 0..u64::MAX {
        let Next::Record { end, .. } = reader.next(log)? else {
            break;
        };
        tally.records = tally.records.wrapping_add(1);
        tally.main = tally.main.wrapping_add(reader.record().main().len() as u64);
        tally.end = end.0;
        reader.accept();
    }
    Ok(tally)
}

/// Prints per second megabytes and records of the log up to this position.
pub fn tell_speed(rt: &HostRuntime, records: u64, end: u64, took: Duration) -> Result<()> {
    let speed = megabytes(end.saturating_sub(START), took);
    let in_a_second = in_a_second(records, took);
    let micros = took.as_micros();
    println!(rt; "in {micros} us: {speed} MB/s, {in_a_second} records/s")?;
    Ok(())
}
