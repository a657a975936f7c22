ghost use Rattle.std.specs.Prelude.{◌≡◌, ◌<◌, length, None, Some, get_or, IfSome};
ghost use Rattle.heap_redo.specs.Redone.{table_of};
ghost use Rattle.standby_core.specs.Conflicts.{cancelled_one, gone_after, is_newly_cancelled, mark_files, mark_gone, oid_of};

use crate::scans::NodeScan;
use pg_types::{Locator, Lsn};
use record_fields::Locators;
use recovery_conflict::conflict;
use table_schema::Tables;
use wal_bodies::{Rec, RecKind};

/// Gives a scan that has no cause yet the one that the record has to cancel it, if there is one, and answers
/// whether it has got it. It takes no memory.
#[tactic(auto, unfolding(crate::specs::Conflicts::cancelled_one, crate::specs::Conflicts::is_newly_cancelled))]
pub(crate) fn cancel(one: &mut NodeScan, rec: &Rec<'_>, tables: &Tables) -> bool
    requires { one.old.scan.table < length tables.now.tables }
    ensures scan { one.new ≡ cancelled_one rec.now tables.now one.old }
    ensures answer { result ≡ is_newly_cancelled rec.now tables.now one.old }
{
    match one.cause {
        Some(_) => false,
        None => {
            let oid = oid_of(tables, one.scan.table());
            one.cause = conflict(rec, tables.database(), oid, one.scan.xmin());
            one.cause.is_some()
        }
    }
}

/// The oid of the table with this number.
pub(crate) fn oid_of(tables: &Tables, table: u16) -> u32
    requires { table < length tables.now.tables }
    ensures { result ≡ oid_of tables.now table }
{
    tables.oid(table)
}

/// Since when the table with this number is gone, if it is.
pub(crate) fn gone_since(gone: &[Option<Lsn>], table: u16) -> Option<Lsn>
    requires { table < length gone.now }
    ensures { result ≡ get_or gone.now table None }
{
    gone[table as usize]
}

/// Marks the tables whose files the record drops, of which `known` has the files, as gone from here on. It takes
/// no memory.
#[tactic(auto, unfolding(crate::specs::Conflicts::gone_after))]
pub(crate) fn mark_dropped(rec: &Rec<'_>, known: &[Locator], gone: &mut Vec<Option<Lsn>>)
    requires { length gone.old.items ≡ length known.now }
    ensures gone { gone.new.items ≡ gone_after rec.now known.now gone.old.items }
    ensures count { length gone.new.items ≡ length gone.old.items }
{
    match &rec.kind {
        RecKind::Ended { files, .. } => {
            if rec.head.info & 0x70 == 0x00 {
                mark_files(known, rec.start, files.again(), gone);
            }
        }
        _ => {}
    }
}

/// Marks the tables that have these files.
fn mark_files(known: &[Locator], start: Lsn, files: Locators<'_>, gone: &mut Vec<Option<Lsn>>)
    requires { length gone.old.items ≡ length known.now }
    ensures gone { gone.new.items ≡ mark_files known.now start files.entry gone.old.items }
    ensures count { length gone.new.items ≡ length gone.old.items }
{
    for file in files {
        mark_file(known, start, file, gone);
    }
}

/// Marks the table that has this file, if one has it, unless it is marked.
fn mark_file(known: &[Locator], start: Lsn, file: Locator, gone: &mut Vec<Option<Lsn>>)
    requires { length gone.old.items ≡ length known.now }
    ensures gone { gone.new.items ≡ mark_gone start (table_of known.now file) gone.old.items }
    ensures count { length gone.new.items ≡ length gone.old.items }
{
    if let Some(table) = table_of(known, file) {
        let since = gone[table].unwrap_or(start);
        gone[table] = Some(since);
    }
}

/// The number of the table that has this file.
fn table_of(known: &[Locator], locator: Locator) -> Option<usize>
    ensures value { result ≡ table_of known.now locator }
    ensures bound { IfSome result (λ table. table < length known.now) }
{
    known.iter().position(|described| *described == locator)
}
