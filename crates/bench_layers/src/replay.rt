ghost use Rattle.std.specs.Prelude.{◌≡◌, ◌≤◌, length};
ghost use Rattle.page_store.specs.Content.{table_count};

use crate::reading::tell_speed;
use crate::{SEGMENT, START, SYSTEM};
use anyhow::Result;
use heap_redo::redo;
use outside::{Folder, LogBytes};
use page_store::Pool;
use pg_types::Lsn;
use schema_file::{SchemaFile, read_tables};
use std::time::Instant;
use table_schema::{SchemaFault, Tables};
use wal_archive::ArchiveLog;
use wal_bodies::body;
use wal_reader::{Next, Reader};
use wal_record::PrevRule;

/// What was replayed: how many records, and where the last one ends.
#[derive(Drop)]
struct Tally {
    records: u64,
    end: u64,
}

/// Replays the whole log, and tells what was replayed, and how fast.
pub fn replay(rt: &HostRuntime, is_timed: bool) -> Result<()> {
    let tables = described(rt)?;
    let mut archive = Folder::archive(rt.alloc(), rt);
    let mut log = ArchiveLog::plain(&mut archive, SEGMENT);
    let mut reader = Reader::start(rt.alloc(), SYSTEM, SEGMENT, Lsn(START), PrevRule::Below)?;
    let mut pool = Pool::plain(rt.alloc(), tables.locators().len().max(1) as u16)?;
    let begun = Instant::now(rt)?;
    let tally = replay_all(&tables, &mut reader, &mut log, &mut pool)?;
    let took = begun.elapsed(rt)?;
    let (records, end, blocks) = (tally.records, tally.end, pool.blocks(0));
    println!(rt; "{records} records up to 0/{end:X}, {blocks} blocks")?;
    if is_timed {
        tell_speed(rt, records, end, took)?;
    }
    Ok(())
}

/// The tables that the file `schema.toml` of the folder `base` describes.
fn described(rt: &HostRuntime) -> Result<Tables> {
    let mut base = Folder::base(rt.alloc(), rt);
    match read_tables(rt.alloc(), &mut base, "schema.toml")? {
        SchemaFile::Described(tables) => Ok(tables),
        SchemaFile::Absent => Err(SchemaFault::Toml.into()),
        SchemaFile::Refused(fault) => Err(fault.into()),
    }
}

/// Replays record after record up to the log's end.
fn replay_all<L: LogBytes>(
    tables: &Tables,
    reader: &mut Reader,
    log: &mut L,
    pool: &mut Pool,
) -> Result<Tally>
    requires { length tables.now.tables ≤ table_count pool.old }
    ensures { table_count pool.new ≡ table_count pool.old }
{
    let mut tally = Tally {
        records: 0,
        end: START,
    };
    for _ in 0..u64::MAX {
        let Some(end) = replay_one(tables, reader, log, pool)? else {
            break;
        };
        tally.records = tally.records.wrapping_add(1);
        tally.end = end.0;
    }
    Ok(tally)
}

/// Replays the next record, and answers where it ends, or that none is there.
fn replay_one<L: LogBytes>(
    tables: &Tables,
    reader: &mut Reader,
    log: &mut L,
    pool: &mut Pool,
) -> Result<Option<Lsn>>
    requires { length tables.now.tables ≤ table_count pool.old }
    ensures { table_count pool.new ≡ table_count pool.old }
{
    let Next::Record { start, end } = reader.next(log)? else {
        return Ok(None);
    };
    let view = reader.record();
    let rec = body(&view, start, end, tables.database(), tables.locators())?;
    redo(&rec, tables, pool)?;
    reader.accept();
    Ok(Some(end))
}
