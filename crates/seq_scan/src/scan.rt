ghost use Rattle.std.specs.Prelude.{◌≡◌};
ghost use Rattle.standby_snapshot.specs.Snapshot.{in_numbers};
ghost use Rattle.seq_scan.specs.Meaning.{block_end};
ghost use Rattle.seq_scan.specs.Scans.{end_at};

use crate::block::read_block;
use crate::print::print_block;
use crate::rows::{BlockEnd, Rows};
use page_store::Pool;
use pg_types::{Lsn, NoMemory, Place, Tag, Xid};
use standby_snapshot::Snapshot;
use std::alloc::Global;
use std::marker::Model;
use table_schema::Tables;
use tuple_visibility::Statuses;

/// What is damaged: there is no such page, or a line shows a multixact that is not known.
#[derive(Clone, Copy)]
pub enum Damage {
    Page,
    Multi(u32),
}

/// How the rows of a page of a scan end: with its last line, and there are more pages or none; before the row at a
/// place, of which the value of a column is stored elsewhere or compressed, or is not as described; or before a place
/// where something is damaged. Columns are numbered from 0; line 0 stands for the page.
#[derive(Clone, Copy)]
pub enum PageEnd {
    Rows { more: bool },
    Toasted { place: Place, column: u16 },
    BadRow { place: Place, column: u16 },
    Damaged { place: Place, what: Damage },
}

/// A page of a scan: its rows, in the order of their lines, up to the first line that is refused, and how they end.
#[derive(Drop)]
pub struct ScanPage {
    pub rows: Rows,
    pub end: PageEnd,
}

/// A sequential scan of a table: over the blocks that the table had when it was opened, under the snapshot that was
/// taken then, one block a page.
#[derive(Drop)]
pub struct Scan {
    table: u16,
    blocks: u32,
    at: Lsn,
    snapshot: Snapshot,
    given: u32,
}

impl Model for Scan {
    ghost use Rattle.standby_snapshot.specs.Snapshot.{in_numbers};
    ghost use Rattle.seq_scan.specs.Scans.{OpenScan};

    ghost Value = { OpenScan };

    ghost view = { λ scan. record { table = scan.table; blocks = scan.blocks; at = scan.at; snapshot = in_numbers scan.snapshot; given = scan.given } };
}

impl Scan {
    ghost use Rattle.std.specs.Prelude.{◌<◌, ◌++◌, length, IfOk, OnErr};
    ghost use Rattle.std.specs.List.{flat_map};
    ghost use Rattle.page_store.specs.Content.{content, table_count};
    ghost use Rattle.page_store.specs.Seen.{seen};
    ghost use Rattle.seq_scan.specs.Meaning.{seen_by};
    ghost use Rattle.seq_scan.specs.Printed.{row_line};
    ghost use Rattle.seq_scan.specs.Scans.{after_page, end_of_page, has_more, page_of};
    ghost use Rattle.table_schema.specs.Tables.{columns_of};

    /// Opens a scan of the table with this number, which has so many blocks where the log stands at `at`.
    pub fn open(table: u16, blocks: u32, at: Lsn, snapshot: Snapshot) -> Scan
        ensures { result ≡ record { table = table; blocks = blocks; at = at; snapshot = in_numbers snapshot; given = 0 } }
    {
        Scan {
            table,
            blocks,
            at,
            snapshot,
            given: 0,
        }
    }

    /// The number of the table.
    pub fn table(&self) -> u16
        ensures { result ≡ self.now.table }
    {
        self.table
    }

    /// The least id that counts as in progress for its snapshot.
    pub fn xmin(&self) -> Xid
        ensures { result.0 ≡ self.now.snapshot.xmin }
    {
        self.snapshot.xmin
    }

    /// Gives the rows of the next block. It changes nothing of the pool's content.
    ///
    /// # Errors
    /// For want of memory; the scan is as before then.
    pub fn next_page<S: Statuses>(
        &mut self,
        alloc: Global,
        pool: &mut Pool,
        statuses: &S,
        tables: &Tables,
    ) -> Result<ScanPage, NoMemory>
        requires pooled { self.old.table < table_count pool.old }
        requires described { self.old.table < length tables.now.tables }
        ensures page { let page = page_of (columns_of tables.now self.old.table) (seen_by self.old.snapshot (S.parents_of statuses.now) (S.status_of statuses.now) (S.updater_of statuses.now)) (λ block. seen (content pool.old self.old.table block)) self.old in
            IfOk result (λ given. (given.rows ≡ page.rows) × (given.end ≡ end_of_page self.old page)) }
        ensures onward { IfOk result (λ _. self.new ≡ after_page self.old) }
        ensures err { OnErr result (self.new ≡ self.old) }
        ensures content { content pool.new ≡ content pool.old }
        ensures tables { table_count pool.new ≡ table_count pool.old }
    {
        if self.given >= self.blocks {
            return Ok(ScanPage {
                rows: Rows::new(alloc),
                end: PageEnd::Rows { more: false },
            });
        }
        let page = read_block(
            alloc,
            pool,
            self.tag(),
            tables.columns(self.table),
            &self.snapshot,
            statuses,
        )?;
        let end = end_at(self.given, self.has_more(), page.end);
        self.given += 1;
        Ok(ScanPage {
            rows: page.rows,
            end,
        })
    }

    /// Prints the rows that `next_page` gives, without making them: behind what stands in `out` a line for each, of
    /// `head`, the row's values and a newline. Answers how they end.
    ///
    /// # Errors
    /// For want of memory; the scan is as before then, and a part of the lines may stand in `out`.
    pub fn print_page<S: Statuses>(
        &mut self,
        pool: &mut Pool,
        statuses: &S,
        tables: &Tables,
        head: &[u8],
        out: &mut Vec<u8>,
    ) -> Result<PageEnd, NoMemory>
        requires pooled { self.old.table < table_count pool.old }
        requires described { self.old.table < length tables.now.tables }
        ensures page { let page = page_of (columns_of tables.now self.old.table) (seen_by self.old.snapshot (S.parents_of statuses.now) (S.status_of statuses.now) (S.updater_of statuses.now)) (λ block. seen (content pool.old self.old.table block)) self.old in
            IfOk result (λ end. (out.new.items ≡ out.old.items ++ flat_map (row_line head.now (columns_of tables.now self.old.table)) page.rows) × (end ≡ end_of_page self.old page)) }
        ensures onward { IfOk result (λ _. self.new ≡ after_page self.old) }
        ensures err { OnErr result (self.new ≡ self.old) }
        ensures content { content pool.new ≡ content pool.old }
        ensures tables { table_count pool.new ≡ table_count pool.old }
    {
        if self.given >= self.blocks {
            return Ok(PageEnd::Rows { more: false });
        }
        let columns = tables.columns(self.table);
        let end = print_block(
            pool,
            self.tag(),
            columns,
            &self.snapshot,
            statuses,
            head,
            out,
        )?;
        let end = end_at(self.given, self.has_more(), end);
        self.given += 1;
        Ok(end)
    }

    /// The next block.
    fn tag(&self) -> Tag
        ensures { result ≡ record { table = self.now.table; block = self.now.given } }
    {
        Tag {
            table: self.table,
            block: self.given,
        }
    }

    /// Whether there is another one behind it.
    fn has_more(&self) -> bool
        ensures { result ≡ has_more self.now }
    {
        self.blocks.saturating_sub(self.given) > 1
    }
}

/// How the rows of this block end, and whether there are more blocks. It takes no memory.
pub fn end_at(block: u32, more: bool, end: BlockEnd) -> PageEnd
    ensures { result ≡ end_at block more (block_end end) }
{
    match end {
        BlockEnd::Whole => PageEnd::Rows { more },
        BlockEnd::Toasted { line, column } => PageEnd::Toasted {
            place: Place { block, line },
            column,
        },
        BlockEnd::Bad { line, column } => PageEnd::BadRow {
            place: Place { block, line },
            column,
        },
        BlockEnd::Unknown { line, id } => PageEnd::Damaged {
            place: Place { block, line },
            what: Damage::Multi(id),
        },
        BlockEnd::NoPage => PageEnd::Damaged {
            place: Place { block, line: 0 },
            what: Damage::Page,
        },
    }
}
