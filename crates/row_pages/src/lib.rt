//! A scan over blocks that show a table's versions gives its rows.
#![tactic(auto)]

ghost use Rattle.row_pages.specs.Pages.{ScanGivesRead, ScanGivesRows};

/// Where the blocks show the versions and the snapshot sees the rows, a scan gives the rows, block by block.
pub fn scan_gives_rows()
    ensures { ScanGivesRows }
{}

/// A scan of blocks in which it reads some versions gives the rows among them, block by block.
pub fn scan_gives_read()
    ensures { ScanGivesRead }
{}
