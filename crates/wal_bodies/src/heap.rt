ghost use Rattle.std.specs.Prelude.{◌≡◌, option_map};
ghost use Rattle.wal_record.specs.Views.{block_of_view};
ghost use Rattle.wal_bodies.specs.HeapKinds.{insert, delete, update, confirm, lock, lock_updated, multi_insert, multi_insert_of, is_described, in_place, heap_kind, heap2_kind};

use crate::removals::{freeze_of, prune_of, vacuum_of, visible};
use pg_types::{Locator, u16_at};
use record_fields::{Lines, xid_at};
use typed_records::{BodyFault, RecKind, What, main_block};
use wal_record::{BlockView, RecordView};

/// The kinds of heap records.
#[tactic(auto, unfolding(crate::specs::HeapKinds::heap_kind))]
pub(crate) fn heap_kind<'a>(
    view: &RecordView<'a>,
    known: &[Locator],
) -> Result<RecKind<'a>, BodyFault>
    ensures { result ≡ heap_kind view.now known.now }
{
    let main = view.main();
    match view.head().info & 0x70 {
        0x00 => insert(main),
        0x10 => delete(main),
        0x20 | 0x40 => update(main),
        0x50 => confirm(main),
        0x60 => lock(main),
        0x70 => in_place(known, main_block(view, 0)),
        _ => Ok(RecKind::Other),
    }
}

/// The kinds of the heap's further records.
#[tactic(auto, unfolding(crate::specs::HeapKinds::heap2_kind))]
pub(crate) fn heap2_kind<'a>(view: &RecordView<'a>) -> Result<RecKind<'a>, BodyFault>
    ensures { result ≡ heap2_kind view.now }
{
    match view.head().info & 0x70 {
        0x10 => prune_of(view),
        0x20 => vacuum_of(view),
        0x30 => freeze_of(view),
        0x40 => visible(view.main()),
        0x50 => multi_insert_of(view),
        0x60 => lock_updated(view.main()),
        _ => Ok(RecKind::Other),
    }
}

#[tactic(auto, unfolding(crate::specs::HeapKinds::insert))]
fn insert<'a>(main: &[u8]) -> Result<RecKind<'a>, BodyFault>
    ensures { result ≡ insert main.now }
{
    if main.len() < 3 {
        return Err(BodyFault::Length);
    }
    Ok(RecKind::Insert {
        line: u16_at(main, 0),
        flags: main[2],
    })
}

#[tactic(auto, unfolding(crate::specs::HeapKinds::delete))]
fn delete<'a>(main: &[u8]) -> Result<RecKind<'a>, BodyFault>
    ensures { result ≡ delete main.now }
{
    if main.len() < 8 {
        return Err(BodyFault::Length);
    }
    Ok(RecKind::Delete {
        xmax: xid_at(main, 0),
        line: u16_at(main, 4),
        bits: main[6],
        flags: main[7],
    })
}

#[tactic(auto, unfolding(crate::specs::HeapKinds::update))]
fn update<'a>(main: &[u8]) -> Result<RecKind<'a>, BodyFault>
    ensures { result ≡ update main.now }
{
    if main.len() < 14 {
        return Err(BodyFault::Length);
    }
    Ok(RecKind::Update {
        old_xmax: xid_at(main, 0),
        old_line: u16_at(main, 4),
        old_bits: main[6],
        flags: main[7],
        new_xmax: xid_at(main, 8),
        new_line: u16_at(main, 12),
    })
}

#[tactic(auto, unfolding(crate::specs::HeapKinds::confirm))]
fn confirm<'a>(main: &[u8]) -> Result<RecKind<'a>, BodyFault>
    ensures { result ≡ confirm main.now }
{
    if main.len() < 2 {
        return Err(BodyFault::Length);
    }
    Ok(RecKind::Confirm {
        line: u16_at(main, 0),
    })
}

#[tactic(auto, unfolding(crate::specs::HeapKinds::lock))]
fn lock<'a>(main: &[u8]) -> Result<RecKind<'a>, BodyFault>
    ensures { result ≡ lock main.now }
{
    if main.len() < 8 {
        return Err(BodyFault::Length);
    }
    Ok(RecKind::Lock {
        xmax: xid_at(main, 0),
        line: u16_at(main, 4),
        bits: main[6],
        flags: main[7],
    })
}

#[tactic(auto, unfolding(crate::specs::HeapKinds::lock_updated))]
fn lock_updated<'a>(main: &[u8]) -> Result<RecKind<'a>, BodyFault>
    ensures { result ≡ lock_updated main.now }
{
    if main.len() < 8 {
        return Err(BodyFault::Length);
    }
    Ok(RecKind::LockUpdated {
        xmax: xid_at(main, 0),
        line: u16_at(main, 4),
        bits: main[6],
        flags: main[7],
    })
}

#[tactic(auto, unfolding(crate::specs::HeapKinds::multi_insert_of))]
fn multi_insert_of<'a>(view: &RecordView<'a>) -> Result<RecKind<'a>, BodyFault>
    ensures { result ≡ multi_insert_of view.now }
{
    let Some(block) = main_block(view, 0) else {
        return Err(BodyFault::Length);
    };
    multi_insert(view.main(), block.will_init)
}

/// The lines are listed, or in a block that is made anew those from 1 to the count.
#[tactic(auto, unfolding(crate::specs::HeapKinds::multi_insert))]
fn multi_insert<'a>(main: &'a [u8], will_init: bool) -> Result<RecKind<'a>, BodyFault>
    ensures { result ≡ multi_insert main.now will_init }
{
    if main.len() < 4 {
        return Err(BodyFault::Length);
    }
    let flags = main[0];
    let count = u16_at(main, 2);
    if will_init {
        let lines = Lines::first(count);
        return Ok(RecKind::MultiInsert { flags, lines });
    }
    let count = count as usize;
    if main.len() < 4 + 2 * count {
        return Err(BodyFault::Length);
    }
    let lines = Lines::listed(main, 4, count);
    Ok(RecKind::MultiInsert { flags, lines })
}

/// A change in place is passed over, but not in a described table.
#[tactic(auto, unfolding(crate::specs::HeapKinds::in_place))]
fn in_place<'a>(known: &[Locator], block: Option<BlockView<'_>>) -> Result<RecKind<'a>, BodyFault>
    ensures { result ≡ in_place known.now (option_map (λ view. block_of_view 0 view) block.entry) }
{
    match block {
        Some(block) if is_described(known, block.locator) => {
            Err(BodyFault::Unsupported(What::InPlace))
        }
        _ => Ok(RecKind::Other),
    }
}

/// Whether the file is that of a described table.
fn is_described(known: &[Locator], locator: Locator) -> bool
    ensures { result ≡ is_described known.now locator }
{
    known.iter().any(|described| *described == locator)
}
