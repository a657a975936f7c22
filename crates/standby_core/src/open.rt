ghost use Rattle.std.specs.Prelude.{◌≡◌};
ghost use Rattle.standby_core.specs.Standby.{Standby, node_status};
ghost use Rattle.standby_core.specs.Scans.{is_admitted};

use crate::conflicts::{gone_since, oid_of};
use crate::node::Node;
use crate::scans::{NodePage, Opened, PrintedPage};
use crate::types::NodeStatus;
use known_assigned::State;
use pg_types::NoMemory;
use seq_scan::Scan;
use standby_snapshot::take;

impl Node {
    ghost use Rattle.std.specs.Prelude.{◌<◌, false, true, length, is_some, IfOk, IfSome, OnErr};
    ghost use Rattle.standby_core.specs.View.{standby};
    ghost use Rattle.standby_core.specs.Scans.{GivesPage, IsGivenBelow, IsPrintedBelow, Opens, OpensAdmitted, OpensScan, OpensUnlessCrowded, OpensUnlessLocked, PrintsPage, after_closing, is_crowded, lock_of, scan_with};

    /// Opens a scan of the table with this name: over the rows that are committed at the node's position. The first
    /// that holds is answered: the table is not described, too many scans are or were open, scans are not admitted, the
    /// table's file was dropped, a lock of the table is in force.
    ///
    /// # Errors
    /// For want of memory; the node is as before then.
    #[tactic(auto, unfolding(crate::specs::View::standby))]
    pub fn open_scan(&mut self, table: &str) -> Result<Opened, NoMemory>
        ensures opens { IfOk result (λ opened. Opens table.now (standby self.old) opened (standby self.new)) }
        ensures err { OnErr result (standby self.new ≡ standby self.old) }
    {
        match self.tables.find(table) {
            None => Ok(Opened::NoTable),
            Some(table) => self.open_table(table),
        }
    }

    /// Opens a scan of the table with this number.
    #[tactic(auto, unfolding(crate::specs::View::standby))]
    fn open_table(&mut self, table: u16) -> Result<Opened, NoMemory>
        requires { table < length (standby self.old).tables.tables }
        ensures opens { IfOk result (λ opened. OpensUnlessCrowded (is_crowded (standby self.old)) (standby self.old) table opened (standby self.new)) }
        ensures err { OnErr result (standby self.new ≡ standby self.old) }
    {
        if self.scans.is_crowded() {
            return Ok(Opened::TooMany);
        }
        let status = self.status();
        if !admits(&status) {
            return Ok(Opened::NotAdmitted(status));
        }
        self.open_admitted(table)
    }

    /// Opens a scan of the table with this number, as scans are admitted.
    #[tactic(auto, unfolding(crate::specs::View::standby))]
    fn open_admitted(&mut self, table: u16) -> Result<Opened, NoMemory>
        requires table { table < length (standby self.old).tables.tables }
        requires room { is_crowded (standby self.old) ≡ false }
        requires admitted { is_admitted (standby self.old) ≡ true }
        ensures opens { IfOk result (λ opened. OpensAdmitted true (standby self.old) table opened (standby self.new)) }
        ensures err { OnErr result (standby self.new ≡ standby self.old) }
    {
        match gone_since(&self.gone, table) {
            Some(lsn) => Ok(Opened::Gone { lsn }),
            None => self.open_there(table),
        }
    }

    /// Opens a scan of the table with this number, whose file is there.
    #[tactic(auto, unfolding(crate::specs::View::standby))]
    fn open_there(&mut self, table: u16) -> Result<Opened, NoMemory>
        requires table { table < length (standby self.old).tables.tables }
        requires room { is_crowded (standby self.old) ≡ false }
        requires admitted { is_admitted (standby self.old) ≡ true }
        ensures opens { IfOk result (λ opened. OpensUnlessLocked (lock_of (standby self.old) table) (standby self.old) table opened (standby self.new)) }
        ensures err { OnErr result (standby self.new ≡ standby self.old) }
    {
        let oid = oid_of(&self.tables, table);
        match self.locks.held(self.tables.database(), oid) {
            Some(held) => Ok(Opened::Locked {
                lsn: held.since,
                xid: held.entry.xid,
            }),
            None => self.open_free(table),
        }
    }

    /// Opens a scan of the table with this number, of which no lock is in force.
    #[tactic(auto, unfolding(crate::specs::View::standby))]
    fn open_free(&mut self, table: u16) -> Result<Opened, NoMemory>
        requires table { table < length (standby self.old).tables.tables }
        requires room { is_crowded (standby self.old) ≡ false }
        requires admitted { is_admitted (standby self.old) ≡ true }
        ensures opens { IfOk result (λ opened. OpensScan (standby self.old) table opened (standby self.new)) }
        ensures err { OnErr result (standby self.new ≡ standby self.old) }
    {
        let snapshot = take(self.alloc, &self.state.known)?;
        let blocks = self.pool.blocks(table);
        let id = self
            .scans
            .add(Scan::open(table, blocks, self.at, snapshot))?;
        Ok(Opened::Scan { id, at: self.at })
    }

    /// Gives the next page of the scan with this id: none where no such scan is open. It is closed by each page behind
    /// which there is none, and where it was cancelled, of which the cause is told then.
    ///
    /// # Errors
    /// For want of memory; the node is as before then.
    #[tactic(auto, unfolding(crate::specs::View::standby))]
    pub fn next_page(&mut self, id: u64) -> Result<Option<NodePage>, NoMemory>
        ensures page { IfOk result (λ page. GivesPage id (scan_with id (standby self.old).scans) (standby self.old) page (standby self.new)) }
        ensures described { IfOk result (λ page. IfSome page (IsGivenBelow (length (standby self.old).tables.tables))) }
        ensures err { OnErr result (standby self.new ≡ standby self.old) }
    {
        self.scans
            .next_page(id, self.alloc, &mut self.pool, &self.state, &self.tables)
    }

    /// Prints the next page of the scan with this id, without making its rows: behind what stands in `text` a line for
    /// each, of `head`, the row's values and a newline.
    ///
    /// # Errors
    /// For want of memory; the node is as before then, and a part of the lines may stand in `text`.
    #[tactic(auto, unfolding(crate::specs::View::standby))]
    pub fn print_page(
        &mut self,
        id: u64,
        head: &[u8],
        text: &mut Vec<u8>,
    ) -> Result<Option<PrintedPage>, NoMemory>
        ensures page { IfOk result (λ page. PrintsPage id (scan_with id (standby self.old).scans) (standby self.old) page (standby self.new) head.now text.old.items text.new.items) }
        ensures described { IfOk result (λ page. IfSome page (IsPrintedBelow (length (standby self.old).tables.tables))) }
        ensures err { OnErr result (standby self.new ≡ standby self.old) }
    {
        self.scans
            .print_page(id, &mut self.pool, &self.state, &self.tables, head, text)
    }

    /// Closes the scan with this id, and answers whether it was open. It takes no memory.
    #[tactic(auto, unfolding(crate::specs::View::standby))]
    pub fn close_scan(&mut self, id: u64) -> bool
        ensures answer { result ≡ is_some (scan_with id (standby self.old).scans) }
        ensures closes { standby self.new ≡ after_closing id (standby self.old) }
    {
        self.scans.close(id)
    }
}

/// Whether a standby that stands so admits scans: its blocks are consistent, and the running transactions
/// are known.
#[tactic(auto, unfolding(crate::specs::Standby::node_status))]
fn admits(status: &NodeStatus) -> bool
    ensures { (node : Standby) → status.now ≡ node_status node → result ≡ is_admitted node }
{
    status.min.0 <= status.at.0 && !status.awaited && matches!(status.state, State::Ready)
}
