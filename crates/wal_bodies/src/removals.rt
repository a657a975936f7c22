ghost use Rattle.std.specs.Prelude.{◌≡◌, ◌≤◌, length};
ghost use Rattle.wal_record.specs.Views.{block_of_view};
ghost use Rattle.wal_bodies.specs.HeapKinds.{by_block, prune, prune_lists, vacuum, vacuum_lines, freeze, freeze_plans, visible};

use crate::tuples::is_applied;
use pg_types::u16_at;
use record_fields::{FreezePlans, Lines, Redirects, planned_lines, xid_at};
use typed_records::{BodyFault, RecKind, main_block};
use wal_record::{BlockView, RecordView};

/// The lines of block 0 that a prune changes.
#[tactic(auto, unfolding(crate::specs::HeapKinds::by_block))]
pub(crate) fn prune_of<'a>(view: &RecordView<'a>) -> Result<RecKind<'a>, BodyFault>
    ensures { result ≡ by_block prune view.now }
{
    match main_block(view, 0) {
        None => Err(BodyFault::Length),
        Some(block) => prune(view.main(), &block),
    }
}

#[tactic(auto, unfolding(crate::specs::HeapKinds::prune))]
fn prune<'a>(main: &[u8], block: &BlockView<'a>) -> Result<RecKind<'a>, BodyFault>
    ensures { result ≡ prune main.now (block_of_view 0 block.now) }
{
    if main.len() < 9 {
        return Err(BodyFault::Length);
    }
    if is_applied(block) {
        return Ok(RecKind::Prune {
            horizon: xid_at(main, 0),
            catalogue: main[8],
            redirected: Redirects::none(),
            died: Lines::none(),
            freed: Lines::none(),
        });
    }
    prune_lists(main, u16_at(main, 4), u16_at(main, 6), block.payload)
}

/// The lists stand one after another, and the last one goes up to the end of the data.
#[tactic(auto, unfolding(crate::specs::HeapKinds::prune_lists))]
fn prune_lists<'a>(
    main: &[u8],
    redirected: u16,
    died: u16,
    text: &'a [u8],
) -> Result<RecKind<'a>, BodyFault>
    requires { 9 ≤ length main.now }
    ensures { result ≡ prune_lists main.now redirected died text.now }
{
    let redirected = redirected as usize;
    let died = died as usize;
    let from = 4 * redirected + 2 * died;
    if text.len() < from {
        return Err(BodyFault::Length);
    }
    Ok(RecKind::Prune {
        horizon: xid_at(main, 0),
        catalogue: main[8],
        redirected: Redirects::new(text, redirected),
        died: Lines::listed(text, 4 * redirected, died),
        freed: Lines::listed(text, from, (text.len() - from) / 2),
    })
}

/// The lines of block 0 that a vacuum makes unused.
#[tactic(auto, unfolding(crate::specs::HeapKinds::by_block))]
pub(crate) fn vacuum_of<'a>(view: &RecordView<'a>) -> Result<RecKind<'a>, BodyFault>
    ensures { result ≡ by_block vacuum view.now }
{
    match main_block(view, 0) {
        None => Err(BodyFault::Length),
        Some(block) => vacuum(view.main(), &block),
    }
}

#[tactic(auto, unfolding(crate::specs::HeapKinds::vacuum))]
fn vacuum<'a>(main: &[u8], block: &BlockView<'a>) -> Result<RecKind<'a>, BodyFault>
    ensures { result ≡ vacuum main.now (block_of_view 0 block.now) }
{
    if main.len() < 2 {
        return Err(BodyFault::Length);
    }
    if is_applied(block) {
        return Ok(RecKind::Vacuum {
            freed: Lines::none(),
        });
    }
    vacuum_lines(u16_at(main, 0), block.payload)
}

#[tactic(auto, unfolding(crate::specs::HeapKinds::vacuum_lines))]
fn vacuum_lines<'a>(count: u16, text: &'a [u8]) -> Result<RecKind<'a>, BodyFault>
    ensures { result ≡ vacuum_lines count text.now }
{
    let count = count as usize;
    if text.len() < 2 * count {
        return Err(BodyFault::Length);
    }
    Ok(RecKind::Vacuum {
        freed: Lines::listed(text, 0, count),
    })
}

/// What a freeze leaves in the headers of tuples of block 0.
#[tactic(auto, unfolding(crate::specs::HeapKinds::by_block))]
pub(crate) fn freeze_of<'a>(view: &RecordView<'a>) -> Result<RecKind<'a>, BodyFault>
    ensures { result ≡ by_block freeze view.now }
{
    match main_block(view, 0) {
        None => Err(BodyFault::Length),
        Some(block) => freeze(view.main(), &block),
    }
}

#[tactic(auto, unfolding(crate::specs::HeapKinds::freeze))]
fn freeze<'a>(main: &[u8], block: &BlockView<'a>) -> Result<RecKind<'a>, BodyFault>
    ensures { result ≡ freeze main.now (block_of_view 0 block.now) }
{
    if main.len() < 7 {
        return Err(BodyFault::Length);
    }
    if is_applied(block) {
        return Ok(RecKind::Freeze {
            horizon: xid_at(main, 0),
            catalogue: main[6],
            plans: FreezePlans::none(),
        });
    }
    freeze_plans(main, u16_at(main, 4), block.payload)
}

/// The lines of all plans stand behind the last plan.
#[tactic(auto, unfolding(crate::specs::HeapKinds::freeze_plans))]
fn freeze_plans<'a>(main: &[u8], count: u16, text: &'a [u8]) -> Result<RecKind<'a>, BodyFault>
    requires { 7 ≤ length main.now }
    ensures { result ≡ freeze_plans main.now count text.now }
{
    let size = 12 * count as usize;
    if text.len() < size {
        return Err(BodyFault::Length);
    }
    if text.len() < size + 2 * planned_lines(text, count) {
        return Err(BodyFault::Length);
    }
    Ok(RecKind::Freeze {
        horizon: xid_at(main, 0),
        catalogue: main[6],
        plans: FreezePlans::new(text, count as usize),
    })
}

/// All tuples of block 1 are visible to all.
#[tactic(auto, unfolding(crate::specs::HeapKinds::visible))]
pub(crate) fn visible<'a>(main: &[u8]) -> Result<RecKind<'a>, BodyFault>
    ensures { result ≡ visible main.now }
{
    if main.len() < 5 {
        return Err(BodyFault::Length);
    }
    Ok(RecKind::Visible {
        horizon: xid_at(main, 0),
        flags: main[4],
    })
}
