//! Records of the log in typed form, and their redo.
ghost use Rattle.std.specs.Prelude.{◌≡◌};
ghost use Rattle.page_store.specs.Content.{table_count};

use crate::records::show;
use case_text::{Answer, Wrong, bytes, number_u64, position, words};
use heap_redo::{RedoFault, redo};
use page_store::Pool;
use pg_types::{Locator, Lsn, Place, Xid};
use std::alloc::Global;
use table_schema::{Tables, read_schema};
use wal_bodies::{BodyFault, Rec, What, body};
use wal_record::{PrevRule, RecordView, decode};

/// The described tables.
const DESCRIPTION: &str =
    "database=16384\n[[table]]\nname='t'\noid=16385\nfile=16385\ncolumn=[{name='a',type='int4'}]\n[[table]]\nname='u'\noid=16391\nfile=16391\ncolumn=[{name='a',type='int4'}]\n";

/// Answers a line about a record: `body` or `redo`, where it stands, where the one before stands, where it
/// ends; behind the bars its notation, which is not read here, and its bytes.
pub fn answer(alloc: Global, pool: &mut Pool, front: &str, rest: &str) -> Result<String, Wrong>
    requires { table_count pool.old ≡ 2 }
    ensures { table_count pool.new ≡ 2 }
{
    let (_, data) = rest.split_once(" | ").ok_or(Wrong::Line)?;
    let data = bytes(alloc, data)?;
    let front = words(alloc, front)?;
    match *front.as_slice() {
        [what, at, before, end, ref with @ ..] => {
            let (at, end) = (position(at)?, position(end)?);
            let before = PrevRule::Is(position(before)?);
            match decode(data.as_slice(), at, before) {
                Ok(view) => typed(alloc, pool, &view, (at, end), (what, with)),
                Err(_) => Ok(String::from_str(alloc, "no record")?),
            }
        }
        _ => Err(Wrong::Line),
    }
}

/// Shows the typed form of a record, or applies it.
fn typed(
    alloc: Global,
    pool: &mut Pool,
    view: &RecordView<'_>,
    places: (Lsn, Lsn),
    asked: (&str, &[&str]),
) -> Result<String, Wrong>
    requires { table_count pool.old ≡ 2 }
    ensures { table_count pool.new ≡ 2 }
{
    let tables = read_schema(alloc, DESCRIPTION.as_bytes()).map_err(|_| Wrong::Line)?;
    let (at, end) = places;
    match body(view, at, end, tables.database(), tables.locators()) {
        Ok(rec) => match asked.0 {
            "body" => show(alloc, &rec),
            "redo" => redone(alloc, pool, &with(rec, asked.1)?, &tables),
            _ => Err(Wrong::Line),
        },
        Err(fault) => told(alloc, at, fault_text(fault), None),
    }
}

/// The record with what no bytes that are read so can say: an id past 32 bits (`xid N`).
fn with<'a>(rec: Rec<'a>, changes: &[&str]) -> Result<Rec<'a>, Wrong> {
    let mut head = rec.head;
    match changes {
        [] => {}
        ["xid", xid] => head.xid = Xid(number_u64(*xid)?),
        _ => return Err(Wrong::Line),
    }
    Ok(Rec {
        head,
        start: rec.start,
        end: rec.end,
        kind: rec.kind,
        blocks: rec.blocks,
    })
}

/// Applies the record, and tells why not.
fn redone(alloc: Global, pool: &mut Pool, rec: &Rec<'_>, tables: &Tables) -> Result<String, Wrong>
    requires { table_count pool.old ≡ 2 }
    ensures { table_count pool.new ≡ 2 }
{
    if tables.locators().len() > 2 {
        return Err(Wrong::Line);
    }
    match redo(rec, tables, pool) {
        Ok(()) => Ok(String::from_str(alloc, "applied")?),
        Err(RedoFault::PageMissing { place }) => told(alloc, rec.start, "no page", Some(place)),
        Err(RedoFault::NoTuple { place }) => told(alloc, rec.start, "no tuple", Some(place)),
        Err(RedoFault::PageFull { place }) => told(alloc, rec.start, "page full", Some(place)),
        Err(RedoFault::BadPage { place }) => told(alloc, rec.start, "bad page", Some(place)),
        Err(RedoFault::Memory) => Err(Wrong::Memory),
    }
}

/// What became of a record, and where.
fn told(alloc: Global, lsn: Lsn, what: &str, place: Option<Place>) -> Result<String, Wrong> {
    let mut answer = Answer::new(alloc);
    answer.position("", lsn);
    answer.say(": ");
    answer.say(what);
    if let Some(place) = place {
        answer.place(" ", place);
    }
    answer.finish()
}

fn fault_text(fault: BodyFault) -> &'static str {
    match fault {
        BodyFault::Length => "length",
        BodyFault::Unsupported(What::Prepared) => "prepared",
        BodyFault::Unsupported(What::InPlace) => "inplace",
        BodyFault::Unsupported(What::Minimal) => "minimal",
        BodyFault::Unsupported(What::PageWrites) => "page writes",
        BodyFault::Unsupported(What::Database) => "database",
        BodyFault::Unsupported(What::Epoch) => "epoch",
        BodyFault::Unsupported(What::NotYet) => "not yet",
    }
}
