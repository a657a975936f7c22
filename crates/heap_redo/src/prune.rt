ghost use Rattle.std.specs.Prelude.{◌≡◌, true, false, IfErr, OnOk, OnErr};
ghost use Rattle.heap_page.specs.Item.{unused, numbered, is_unused};
ghost use Rattle.heap_page.specs.Page.{items_of};
ghost use Rattle.heap_page.specs.Shown.{item_to, IsState};
ghost use Rattle.heap_redo.specs.After.{no_tuple, set_line, set_lines, redirect_line, redirect_lines, prune, freeze_lines, freeze};
ghost use Rattle.heap_redo.specs.Refused.{refusal_of, outcome};

use crate::fault::{BlockFault, at_line};
use crate::line::freeze_tuple;
use heap_page::{HeapPage, Item, LineState};
use record_fields::{FreezePlan, FreezePlans, Lines, Redirect, Redirects};

/// Answers `NoTuple` exactly where the line is unused.
fn check_used(page: &HeapPage, line: u16) -> Result<(), BlockFault>
    ensures used { OnOk result (is_unused (numbered (items_of page.now) line) ≡ false) }
    ensures err { IfErr result (λ refusal. (refusal_of refusal ≡ no_tuple line) × (is_unused (numbered (items_of page.now) line) ≡ true)) }
{
    match page.item(line) {
        Item::Unused => Err(BlockFault::NoTuple(line)),
        _ => Ok(()),
    }
}

/// A line that is in use becomes one without a tuple.
#[tactic(auto, unfolding(crate::specs::After::set_line))]
fn set_line(page: &mut HeapPage, line: u16, to: LineState) -> Result<(), BlockFault>
    requires { IsState to }
    ensures answer { outcome (items_of page.new) result ≡ set_line line (item_to to) (items_of page.old) }
    ensures err { OnErr result (page.new ≡ page.old) }
{
    match page.set_line(line, to) {
        Ok(()) => Ok(()),
        Err(error) => Err(at_line(error, line)),
    }
}

/// Lines become this, one after the other. A refused page has those before the refused one.
fn set_lines(page: &mut HeapPage, lines: &Lines<'_>, to: LineState) -> Result<(), BlockFault>
    requires { IsState to }
    ensures { outcome (items_of page.new) result ≡ set_lines (item_to to) lines.now (items_of page.old) }
{
    for line in lines.again() {
        set_line(page, line, to)?;
    }
    Ok(())
}

/// A line leads to another one. Both are in use, which is tested before the page changes.
fn redirect_line(page: &mut HeapPage, line: Redirect) -> Result<(), BlockFault>
    ensures { outcome (items_of page.new) result ≡ redirect_line line (items_of page.old) }
{
    page.keeps_rule();
    check_used(page, line.from)?;
    check_used(page, line.to)?;
    set_line(page, line.from, LineState::Redirect(line.to))
}

/// Lines lead to others, one after the other. A refused page has those before the refused one.
fn redirect_lines(page: &mut HeapPage, lines: &Redirects<'_>) -> Result<(), BlockFault>
    ensures { outcome (items_of page.new) result ≡ redirect_lines lines.now (items_of page.old) }
{
    for line in lines.again() {
        redirect_line(page, line)?;
    }
    Ok(())
}

/// What `prune` does, but that a refused page has what was changed before the refused line.
#[tactic(auto, unfolding(crate::specs::After::prune))]
fn prune_lines(
    page: &mut HeapPage,
    redirected: &Redirects<'_>,
    died: &Lines<'_>,
    freed: &Lines<'_>,
) -> Result<(), BlockFault>
    ensures { outcome (items_of page.new) result ≡ prune redirected.now died.now freed.now (items_of page.old) }
{
    redirect_lines(page, redirected)?;
    set_lines(page, died, LineState::Dead)?;
    set_lines(page, freed, LineState::Unused)
}

/// What a change of the page answered. Where it was refused, the page is put back.
fn put_back(
    page: &mut HeapPage,
    before: &HeapPage,
    done: Result<(), BlockFault>,
) -> Result<(), BlockFault>
    ensures answer { outcome (items_of page.new) result ≡ outcome (items_of page.old) done }
    ensures err { OnErr result (page.new ≡ before.now) }
{
    if done.is_err() {
        *page = *before;
    }
    done
}

/// Lines lead to others, then lines are dead, then lines are unused (`heap_page_prune_execute`,
/// pruneheap.c). Since a later line may be refused, the page is kept, to be put back.
pub fn prune(
    page: &mut HeapPage,
    redirected: &Redirects<'_>,
    died: &Lines<'_>,
    freed: &Lines<'_>,
) -> Result<(), BlockFault>
    ensures answer { outcome (items_of page.new) result ≡ prune redirected.now died.now freed.now (items_of page.old) }
    ensures err { OnErr result (page.new ≡ page.old) }
{
    let before = *page;
    let done = prune_lines(page, redirected, died, freed);
    put_back(page, &before, done)
}

/// Lines become unused (`heap_xlog_vacuum`, heapam.c). The page is kept as for `prune`.
pub fn vacuum(page: &mut HeapPage, freed: &Lines<'_>) -> Result<(), BlockFault>
    ensures answer { outcome (items_of page.new) result ≡ set_lines unused freed.now (items_of page.old) }
    ensures err { OnErr result (page.new ≡ page.old) }
{
    let before = *page;
    let done = set_lines(page, freed, LineState::Unused);
    put_back(page, &before, done)
}

/// The tuples of a plan's lines are frozen, one after the other. A refused page has those before the
/// refused one.
fn freeze_lines(page: &mut HeapPage, plan: &FreezePlan<'_>) -> Result<(), BlockFault>
    ensures { outcome (items_of page.new) result ≡ freeze_lines plan.now plan.now.lines (items_of page.old) }
{
    for line in plan.lines.again() {
        freeze_tuple(page, line, plan.xmax.0, plan.mask2, plan.mask)?;
    }
    Ok(())
}

/// Each plan freezes its lines. A refused page has what was frozen before the refused line.
fn freeze_plans(page: &mut HeapPage, plans: &FreezePlans<'_>) -> Result<(), BlockFault>
    ensures { outcome (items_of page.new) result ≡ freeze plans.now (items_of page.old) }
{
    for plan in plans.again() {
        freeze_lines(page, &plan)?;
    }
    Ok(())
}

/// Tuples are frozen by plans (`heap_xlog_freeze_page`, heapam.c). The page is kept as for `prune`.
pub fn freeze(page: &mut HeapPage, plans: &FreezePlans<'_>) -> Result<(), BlockFault>
    ensures answer { outcome (items_of page.new) result ≡ freeze plans.now (items_of page.old) }
    ensures err { OnErr result (page.new ≡ page.old) }
{
    let before = *page;
    let done = freeze_plans(page, plans);
    put_back(page, &before, done)
}
