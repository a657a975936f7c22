ghost use Rattle.std.specs.Prelude.{◌≡◌, OnErr};
ghost use Rattle.heap_page.specs.Page.{items_of};
ghost use Rattle.heap_redo.specs.After.{changed};
ghost use Rattle.heap_redo.specs.Refused.{outcome};

use crate::fault::BlockFault;
use crate::head::Versions;
use crate::line::{confirm, delete, lock, lock_updated};
use crate::prune::{freeze, prune, vacuum};
use crate::update::update;
use crate::version::{insert, put_listed};
use heap_page::HeapPage;
use wal_bodies::{Rec, RecBlock, RecKind};

/// What a record changes in the page of a block. Where it is refused the page stays as it is: what may
/// be refused is tested before it writes; a change of several lines keeps the page, to put it back.
#[tactic(auto, unfolding(crate::specs::After::changed))]
pub fn change(page: &mut HeapPage, rec: &Rec<'_>, block: &RecBlock<'_>) -> Result<(), BlockFault>
    ensures answer { outcome (items_of page.new) result
        ≡ changed rec.now block.now rec.now.kind (items_of page.old) }
    ensures err { OnErr result (page.new ≡ page.old) }
{
    let number = block.block;
    let xid = rec.head.xid.0;
    let tuples = &block.tuples;
    match &rec.kind {
        RecKind::Insert { line, .. } => insert(page, xid, number, *line, tuples),
        RecKind::MultiInsert { lines, .. } => put_listed(page, xid, number, lines, tuples),
        RecKind::Delete {
            xmax,
            line,
            bits,
            flags,
        } => delete(page, number, *line, xmax.0, *bits, *flags),
        RecKind::Update {
            old_xmax,
            old_line,
            old_bits,
            new_xmax,
            new_line,
            ..
        } => {
            let versions = Versions {
                old_xmax: old_xmax.0,
                old_line: *old_line,
                old_bits: *old_bits,
                new_xmax: new_xmax.0,
                new_line: *new_line,
                is_hot: rec.head.info & 0x70 == 0x40,
            };
            update(page, rec, block, versions)
        }
        RecKind::Confirm { line } => confirm(page, number, *line),
        RecKind::Lock {
            xmax,
            line,
            bits,
            ..
        } => lock(page, number, *line, xmax.0, *bits),
        RecKind::LockUpdated {
            xmax,
            line,
            bits,
            ..
        } => lock_updated(page, *line, xmax.0, *bits),
        RecKind::Prune {
            redirected,
            died,
            freed,
            ..
        } => prune(page, redirected, died, freed),
        RecKind::Vacuum { freed } => vacuum(page, freed),
        RecKind::Freeze { plans, .. } => freeze(page, plans),
        _ => Ok(()),
    }
}
