ghost use Rattle.std.specs.Prelude.{◌≡◌, option_map};
ghost use Rattle.wal_record.specs.Views.{block_of_view, image_of_view};
ghost use Rattle.wal_bodies.specs.Fields.{needed_number, result_map};
ghost use Rattle.typed_records.specs.Tuples.{listed_from};
ghost use Rattle.wal_bodies.specs.Tuples.{inserted, length_from, replaced, updated, is_applied, in_data, update_tuples, no_tuples, borrows, tuples_of, insert_tuples, multi_tuples};
ghost use Rattle.wal_bodies.specs.Blocks.{with_blocks, with_blocks_as};

use pg_types::u16_at;
use typed_records::{BodyFault, NewTuples, RecBlocks, RecKind, listed_at, main_block};
use wal_record::{BlockView, RecordView};

/// The blocks that redo of this kind changes, with the tuples that the record puts into its block 0, which a
/// kind of the heap has to have.
#[tactic(auto, unfolding(crate::specs::Tuples::tuples_of, crate::specs::Typed::ids_of, typed_records::specs::Blocks::blocks_of, crate::specs::Typed::blocks_as))]
pub(crate) fn blocks_of<'a>(
    kind: &RecKind<'a>,
    view: &'a RecordView<'a>,
) -> Result<RecBlocks<'a>, BodyFault>
    ensures { result ≡ with_blocks_as kind.now view.now (tuples_of kind.now view.now) }
{
    match kind {
        RecKind::Insert { .. } => insert_blocks(view),
        RecKind::Update { flags, .. } => update_blocks(*flags, view),
        RecKind::MultiInsert { lines, .. } => multi_blocks(lines.len(), view),
        RecKind::Delete { .. }
        | RecKind::Confirm { .. }
        | RecKind::Lock { .. }
        | RecKind::LockUpdated { .. }
        | RecKind::Prune { .. }
        | RecKind::Vacuum { .. }
        | RecKind::Freeze { .. } => one_block(view),
        RecKind::Visible { .. } => Ok(RecBlocks::second(view)),
        RecKind::Images => Ok(RecBlocks::of(view, 33, NewTuples::none())),
        _ => Ok(RecBlocks::none()),
    }
}

#[tactic(auto, unfolding(crate::specs::Tuples::insert_tuples))]
fn insert_blocks<'a>(view: &'a RecordView<'a>) -> Result<RecBlocks<'a>, BodyFault>
    ensures { result ≡ with_blocks 1 view.now (insert_tuples view.now) }
{
    let Some(block) = main_block(view, 0) else {
        return Err(BodyFault::Length);
    };
    if is_applied(&block) {
        return Ok(RecBlocks::of(view, 1, NewTuples::none()));
    }
    let tuples = inserted(block.payload)?;
    Ok(RecBlocks::of(view, 1, tuples))
}

#[tactic(auto, unfolding(crate::specs::Tuples::update_tuples, typed_records::specs::Blocks::blocks_of, typed_records::specs::Blocks::blocks_from))]
fn update_blocks<'a>(flags: u8, view: &'a RecordView<'a>) -> Result<RecBlocks<'a>, BodyFault>
    ensures { result ≡ with_blocks 2 view.now (update_tuples flags view.now) }
{
    let Some(block) = main_block(view, 0) else {
        return Err(BodyFault::Length);
    };
    match main_block(view, 1) {
        Some(_) if borrows(flags) => Err(BodyFault::Length),
        Some(_) => Ok(RecBlocks::of(view, 2, new_version(flags, &block)?)),
        None => Ok(RecBlocks::of(view, 1, new_version(flags, &block)?)),
    }
}

/// The tuple of an update, if block 0's data is used.
fn new_version<'a>(flags: u8, block: &BlockView<'a>) -> Result<NewTuples<'a>, BodyFault>
    ensures { result ≡ in_data (block_of_view 0 block.now) (λ bytes. updated flags bytes) }
{
    if is_applied(block) {
        return Ok(NewTuples::none());
    }
    updated(flags, block.payload)
}

#[tactic(auto, unfolding(crate::specs::Tuples::multi_tuples))]
fn multi_blocks<'a>(count: usize, view: &'a RecordView<'a>) -> Result<RecBlocks<'a>, BodyFault>
    ensures { result ≡ with_blocks 1 view.now (multi_tuples count view.now) }
{
    let Some(block) = main_block(view, 0) else {
        return Err(BodyFault::Length);
    };
    if is_applied(&block) {
        return Ok(RecBlocks::of(view, 1, NewTuples::none()));
    }
    let tuples = listed(count, block.payload)?;
    Ok(RecBlocks::of(view, 1, tuples))
}

/// Block 0 without tuples, which the record has to have.
#[tactic(auto, unfolding(crate::specs::Tuples::no_tuples))]
fn one_block<'a>(view: &'a RecordView<'a>) -> Result<RecBlocks<'a>, BodyFault>
    ensures { result ≡ with_blocks 1 view.now (no_tuples view.now) }
{
    match main_block(view, 0) {
        None => Err(BodyFault::Length),
        Some(_) => Ok(RecBlocks::of(view, 1, NewTuples::none())),
    }
}

/// Whether replay restores the block from its image, so that the block's data is not used.
pub(crate) fn is_applied(block: &BlockView<'_>) -> bool
    ensures { result ≡ is_applied (option_map image_of_view block.now.image) }
{
    match block.image {
        Some(image) => image.apply,
        None => false,
    }
}

/// Whether an update's tuple has parts that are the old tuple's.
fn borrows(flags: u8) -> bool
    ensures { result ≡ borrows flags }
{
    flags & 0x20 != 0 || flags & 0x40 != 0
}

/// An insert's tuple.
#[tactic(auto, unfolding(crate::specs::Tuples::inserted))]
fn inserted<'a>(bytes: &'a [u8]) -> Result<NewTuples<'a>, BodyFault>
    ensures { result ≡ inserted bytes.now }
{
    if bytes.len() < 5 {
        return Err(BodyFault::Length);
    }
    Ok(NewTuples::one(bytes, 0, 0))
}

/// An update's tuple.
#[tactic(auto, unfolding(crate::specs::Tuples::updated))]
fn updated<'a>(flags: u8, bytes: &'a [u8]) -> Result<NewTuples<'a>, BodyFault>
    ensures { result ≡ updated flags bytes.now }
{
    let (prefix, bytes) = length_from(flags, 0x20, bytes)?;
    let (suffix, bytes) = length_from(flags, 0x40, bytes)?;
    replaced(prefix, suffix, bytes)
}

/// A length of two bytes where the flag tells that it is there, else 0.
#[tactic(auto, unfolding(crate::specs::Tuples::length_from, crate::specs::Fields::needed_number, wal_record::specs::Parts::number_from))]
fn length_from(flags: u8, flag: u8, bytes: &[u8]) -> Result<(u16, &[u8]), BodyFault>
    ensures { result_map (λ x. (x.0, x.1.now)) result ≡ length_from flags flag bytes.now }
{
    if flags & flag == 0 {
        return Ok((0, bytes));
    }
    if bytes.len() < 2 {
        return Err(BodyFault::Length);
    }
    let (_, rest) = bytes.split_at(2);
    Ok((u16_at(bytes, 0), rest))
}

/// An update's tuple behind the two lengths.
#[tactic(auto, unfolding(crate::specs::Tuples::replaced))]
fn replaced<'a>(prefix: u16, suffix: u16, bytes: &'a [u8]) -> Result<NewTuples<'a>, BodyFault>
    ensures { result ≡ replaced prefix suffix bytes.now }
{
    if bytes.len() < 5 {
        return Err(BodyFault::Length);
    }
    let front = (bytes[4] as usize).saturating_sub(23);
    if bytes.len() < 5 + front {
        return Err(BodyFault::Length);
    }
    Ok(NewTuples::one(bytes, prefix, suffix))
}

/// As many tuples of a multi-insert, each of which is there.
fn listed<'a>(count: usize, bytes: &'a [u8]) -> Result<NewTuples<'a>, BodyFault>
    ensures { result ≡ listed_from bytes.now 0 count }
{
    check_listed(count, bytes)?;
    Ok(NewTuples::listed(bytes, count))
}

/// Whether as many tuples of a multi-insert are there.
fn check_listed(count: usize, bytes: &[u8]) -> Result<(), BodyFault>
    ensures { result ≡ result_map (λ tuples. tt) (listed_from bytes.now 0 count) }
{
    let mut at = 0;
    for _ in 0..count {
        let (_, end) = listed_at(bytes, at + at % 2)?;
        at = end;
    }
    Ok(())
}
