ghost use Rattle.std.specs.Prelude.{◌≡◌, ◌≤◌, ◌+◌, ◌^◌, length};
ghost use Rattle.standby_core.specs.Scans.{is_more};

use crate::conflicts::cancel;
use crate::types::NodeStatus;
use page_store::Pool;
use pg_types::{Lsn, NoMemory, Xid};
use recovery_conflict::Cause;
use seq_scan::{PageEnd, Rows, Scan};
use std::alloc::Global;
use table_schema::Tables;
use wal_bodies::Rec;
use xact_redo::XactState;

/// The most scans that are open at once.
const MOST: usize = 64;

/// The greatest id.
const LAST_ID: u64 = 1 << 63;

/// What an opening answers.
#[derive(Clone, Copy)]
pub enum Opened {
    /// A scan with this id is open, over the rows that were committed at the position.
    Scan { id: u64, at: Lsn },
    /// The table is not described.
    NoTable,
    /// 64 scans are open, or 2^63 were opened.
    TooMany,
    /// The standby, which stands so, does not admit scans.
    NotAdmitted(NodeStatus),
    /// The record that starts there dropped the table's file.
    Gone { lsn: Lsn },
    /// A transaction holds an access exclusive lock of the table, which the record that starts there told.
    Locked { lsn: Lsn, xid: Xid },
}

/// What the next page of a scan is: the number of its table, its rows and how they end; or why the scan was cancelled.
#[derive(Drop)]
pub enum NodePage {
    Given {
        table: u16,
        rows: Rows,
        end: PageEnd,
    },
    Cancelled {
        cause: Cause,
    },
}

/// How a page ends whose rows were printed, with the number of its table; or why the scan was cancelled.
#[derive(Clone, Copy)]
pub enum PrintedPage {
    Given { table: u16, end: PageEnd },
    Cancelled { cause: Cause },
}

/// A scan with its id, and why it is cancelled, if it is. It is told so when its next page is asked for.
#[derive(Drop)]
pub struct NodeScan {
    pub id: u64,
    pub scan: Scan,
    pub cause: Option<Cause>,
}

/// The open scans, in the order of their opening, and the id of the next one.
#[derive(Drop)]
pub struct Scans {
    pub open: Vec<NodeScan>,
    pub next_id: u64,
    ghost few: { length open.items ≤ 64 },
    ghost within: { next_id ≤ 2 ^ 63 + 1 },
}

impl Scans {
    ghost use Rattle.std.specs.Prelude.{◌<◌, ◌||◌, ◌++◌, None, ◌∷◌, [], get_or, nat_le, nat_lt, is_some, IfSome, OnErr, OnOk, IfOk, if◌then◌else◌};
    ghost use Rattle.std.specs.List.{remove};
    ghost use Rattle.page_store.specs.Content.{content, table_count};
    ghost use Rattle.page_store.specs.Seen.{view_of};
    ghost use Rattle.table_schema.specs.Description.{first_that};
    ghost use Rattle.xact_redo.specs.State.{transactions};
    ghost use Rattle.standby_core.specs.Standby.{Standby};
    ghost use Rattle.standby_core.specs.declared.scans.NodeScan.{NodeScan};
    ghost use Rattle.standby_core.specs.Conflicts.{cancelled_by, newly_cancelled};
    ghost use Rattle.standby_core.specs.Horizon.{least_xmin};
    ghost use Rattle.standby_core.specs.Scans.{GivesPage, IsGivenBelow, IsPrintedBelow, PrintsPage, scan_with, without};
    ghost use Rattle.standby_core.specs.Pages.{AreDescribed, ReadsFrom, has_id, with_scans};

    /// None are open, and the next id is 1. It takes no memory.
    pub fn new(alloc: Global) -> Scans
        ensures open { result.open.items ≡ [] }
        ensures next { result.next_id ≡ 1 }
    {
        Scans {
            open: Vec::new(alloc),
            next_id: 1,
        }
    }

    /// How many are open.
    pub fn count(&self) -> u8
        ensures { result ≡ length self.now.open.items }
    {
        self.open.len() as u8
    }

    /// Whether no further one may be opened.
    pub fn is_crowded(&self) -> bool
        ensures { result ≡ (nat_le 64 (length self.now.open.items) || nat_lt (2 ^ 63) self.now.next_id) }
    {
        self.open.len() >= MOST || self.next_id > LAST_ID
    }

    /// The least xmin of the open ones, and at most `most`.
    pub fn least_xmin(&self, most: Xid) -> Xid
        ensures { result.0 ≡ least_xmin most.0 self.now.open.items }
    {
        let mut least = most.0;
        for one in self.open.iter() {
            least = least.min(one.scan.xmin().0);
        }
        Xid(least)
    }

    /// Adds a scan, and gives its id.
    ///
    /// # Errors
    /// For want of memory; nothing changes then.
    pub fn add(&mut self, scan: Scan) -> Result<u64, NoMemory>
        requires room { length self.old.open.items < 64 }
        requires ids { self.old.next_id ≤ 2 ^ 63 }
        ensures id { IfOk result (λ id. id ≡ self.old.next_id) }
        ensures open { OnOk result (self.new.open.items ≡ self.old.open.items ++ record { id = self.old.next_id; scan = scan; cause = None } ∷ []) }
        ensures next { OnOk result (self.new.next_id ≡ self.old.next_id + 1) }
        ensures still_open { OnErr result (self.new.open.items ≡ self.old.open.items) }
        ensures still_next { OnErr result (self.new.next_id ≡ self.old.next_id) }
    {
        let id = self.next_id;
        self.open.push(NodeScan {
            id,
            scan,
            cause: None,
        })?;
        self.next_id += 1;
        Ok(id)
    }

    /// Gives each scan that has no cause yet the one that the record has to cancel it, if there is one, and answers
    /// how many have got theirs. It takes no memory.
    pub fn cancel(&mut self, rec: &Rec<'_>, tables: &Tables) -> u8
        requires { AreDescribed tables.now self.old.open.items }
        ensures open { self.new.open.items ≡ cancelled_by rec.now tables.now self.old.open.items }
        ensures count { result ≡ newly_cancelled rec.now tables.now self.old.open.items }
        ensures next { self.new.next_id ≡ self.old.next_id }
        ensures still { AreDescribed tables.now self.new.open.items }
    {
        let mut count = 0;
        for place in 0..self.open.len() {
            count += u8::from(cancel(&mut self.open[place], rec, tables));
        }
        count
    }

    /// Gives the next page of the scan with this id: none where no such scan is open. It is taken away by each page
    /// behind which there is none, and where it was cancelled.
    ///
    /// # Errors
    /// For want of memory; nothing changes then.
    pub fn next_page(
        &mut self,
        id: u64,
        alloc: Global,
        pool: &mut Pool,
        state: &XactState,
        tables: &Tables,
    ) -> Result<Option<NodePage>, NoMemory>
        requires described { AreDescribed tables.now self.old.open.items }
        requires pooled { table_count pool.old ≡ length tables.now.tables }
        ensures page { (node : Standby) → ReadsFrom node self.old.open.items tables.now (view_of (content pool.old)) (transactions state.now)
            → IfOk result (λ page. GivesPage id (scan_with id self.old.open.items) node page (with_scans node self.new.open.items)) }
        ensures table { IfOk result (λ page. IfSome page (IsGivenBelow (length tables.now.tables))) }
        ensures err { OnErr result (self.new.open.items ≡ self.old.open.items) }
        ensures next { self.new.next_id ≡ self.old.next_id }
        ensures still { AreDescribed tables.now self.new.open.items }
        ensures content { content pool.new ≡ content pool.old }
        ensures tables { table_count pool.new ≡ table_count pool.old }
    {
        let Some(place) = self.place(id) else {
            return Ok(None);
        };
        match self.cause_at(place) {
            Some(cause) => {
                let _ = self.open.remove(place);
                return Ok(Some(NodePage::Cancelled { cause }));
            }
            None => {}
        }
        let scan = &mut self.open[place].scan;
        let table = scan.table();
        let page = scan.next_page(alloc, pool, state, tables)?;
        self.keep(place, page.end);
        Ok(Some(NodePage::Given {
            table,
            rows: page.rows,
            end: page.end,
        }))
    }

    /// Prints the next page of the scan with this id, without making its rows.
    ///
    /// # Errors
    /// For want of memory; nothing changes then, but a part of the lines may stand in `text`.
    pub fn print_page(
        &mut self,
        id: u64,
        pool: &mut Pool,
        state: &XactState,
        tables: &Tables,
        head: &[u8],
        text: &mut Vec<u8>,
    ) -> Result<Option<PrintedPage>, NoMemory>
        requires described { AreDescribed tables.now self.old.open.items }
        requires pooled { table_count pool.old ≡ length tables.now.tables }
        ensures page { (node : Standby) → ReadsFrom node self.old.open.items tables.now (view_of (content pool.old)) (transactions state.now)
            → IfOk result (λ page. PrintsPage id (scan_with id self.old.open.items) node page (with_scans node self.new.open.items) head.now text.old.items text.new.items) }
        ensures table { IfOk result (λ page. IfSome page (IsPrintedBelow (length tables.now.tables))) }
        ensures err { OnErr result (self.new.open.items ≡ self.old.open.items) }
        ensures next { self.new.next_id ≡ self.old.next_id }
        ensures still { AreDescribed tables.now self.new.open.items }
        ensures content { content pool.new ≡ content pool.old }
        ensures tables { table_count pool.new ≡ table_count pool.old }
    {
        let Some(place) = self.place(id) else {
            return Ok(None);
        };
        match self.cause_at(place) {
            Some(cause) => {
                let _ = self.open.remove(place);
                return Ok(Some(PrintedPage::Cancelled { cause }));
            }
            None => {}
        }
        let scan = &mut self.open[place].scan;
        let table = scan.table();
        let end = scan.print_page(pool, state, tables, head, text)?;
        self.keep(place, end);
        Ok(Some(PrintedPage::Given { table, end }))
    }

    /// Takes the scan with this id away, and answers whether it was open. It takes no memory.
    pub fn close(&mut self, id: u64) -> bool
        ensures answer { result ≡ is_some (scan_with id self.old.open.items) }
        ensures open { self.new.open.items ≡ without id self.old.open.items }
        ensures next { self.new.next_id ≡ self.old.next_id }
    {
        let Some(place) = self.place(id) else {
            return false;
        };
        let _ = self.open.remove(place);
        true
    }

    /// Where the scan with this id stands among them.
    fn place(&self, id: u64) -> Option<usize>
        ensures first { result ≡ first_that (has_id id) 0 self.now.open.items }
        ensures inside { IfSome result (λ place. place < length self.now.open.items) }
    {
        for (place, one) in self.open.iter().enumerate() {
            if one.id == id {
                return Some(place);
            }
        }
        None
    }

    /// Why the scan at this place is cancelled, if it is.
    fn cause_at(&self, place: usize) -> Option<Cause>
        requires { place < length self.now.open.items }
        ensures { (other : NodeScan) → result ≡ (get_or self.now.open.items place other).cause }
    {
        self.open[place].cause
    }

    /// Takes the scan at this place away, whose page ended so, unless there is more to be given.
    fn keep(&mut self, place: usize, end: PageEnd)
        requires { place < length self.old.open.items }
        ensures open { self.new.open.items ≡ (if is_more end then self.old.open.items else remove self.old.open.items place) }
        ensures next { self.new.next_id ≡ self.old.next_id }
    {
        if !is_more(end) {
            let _ = self.open.remove(place);
        }
    }
}

/// Whether a scan stays open whose page ends so.
fn is_more(end: PageEnd) -> bool
    ensures { result ≡ is_more end }
{
    matches!(end, PageEnd::Rows { more: true })
}
