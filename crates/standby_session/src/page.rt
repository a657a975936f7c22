ghost use Rattle.std.specs.Prelude.{◌≡◌, OnOk, length};
ghost use Rattle.standby_core.specs.Scans.{IsPrintedBelow};
ghost use Rattle.standby_session.specs.Printed.{IsDamaged, SaysLast};

use pg_types::NoMemory;
use reply_text::{push_cancelled, push_page_end};
use seq_scan::PageEnd;
use standby_core::PrintedPage;
use std::alloc::Global;
use table_schema::Tables;

/// Appends how a page ends, or why its scan was cancelled.
pub(crate) fn push_last_line(
    alloc: Global,
    id: u64,
    page: &PrintedPage,
    tables: &Tables,
    text: &mut Vec<u8>,
) -> Result<(), NoMemory>
    requires { IsPrintedBelow (length tables.now.tables) page.now }
    ensures { OnOk result (SaysLast id tables.now page.now text.old.items text.new.items) }
{
    match page {
        PrintedPage::Given { table, end } => push_page_end(alloc, tables, id, *table, *end, text),
        PrintedPage::Cancelled { cause } => push_cancelled(alloc, id, cause, text),
    }
}

/// Whether a page met damage.
pub(crate) fn is_damaged(page: &PrintedPage) -> bool
    ensures { IsDamaged page.now result }
{
    match page {
        PrintedPage::Given { end, .. } => matches!(end, PageEnd::Damaged { .. }),
        PrintedPage::Cancelled { .. } => false,
    }
}
