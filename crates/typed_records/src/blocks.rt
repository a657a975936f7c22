ghost use Rattle.std.specs.Prelude.{◌≡◌, ◌≤◌, option_map};
ghost use Rattle.std.specs.Iterator.{YieldsFirst, item_count};
ghost use Rattle.wal_record.specs.Views.{block_of_view, image_of_view};
ghost use Rattle.typed_records.specs.Blocks.{image_of, block_with, blocks_of, blocks_from, number_of};
ghost use Rattle.typed_records.specs.Stored.{tuples_for, IsNextBlock};

use crate::fields::main_block;
use crate::new_tuples::NewTuples;
use crate::types::{RecBlock, RecImage};
use record_fields::RecBytes;
use std::marker::Model;
use wal_record::{BlockView, ImageView, RecordView};

/// The blocks that a record changes, by rising id, each of which is looked up in the record when it comes:
/// an iterator. Contracts see it as the list of those that are left.
#[derive(Drop)]
pub struct RecBlocks<'a> {
    view: Option<&'a RecordView<'a>>,
    /// The least id of those that are left.
    from: u8,
    /// Their ids are below this number.
    ids: u8,
    /// The tuples of block 0.
    tuples: NewTuples<'a>,
}

impl<'a> Model for RecBlocks<'a> {
    ghost use Rattle.std.specs.Prelude.{List, ◌≤◌, option_map};
    ghost use Rattle.typed_records.specs.declared.types.RecBlock.{RecBlock};

    ghost Value = { List RecBlock };

    ghost use Rattle.typed_records.specs.Stored.{blocks_held};

    ghost view = { λ b. blocks_held (option_map (λ v. v.now) b.view) b.tuples b.from b.ids };

    ghost invariant = { λ b. (b.from ≤ b.ids) × (b.ids ≤ 33) };
}

impl<'a> RecBlocks<'a> {
    ghost use Rattle.std.specs.Prelude.{[]};

    pub fn none() -> RecBlocks<'a>
        ensures { result ≡ [] }
    {
        RecBlocks {
            view: None,
            from: 0,
            ids: 0,
            tuples: NewTuples::none(),
        }
    }

    /// The record's blocks whose id is below a number, with these tuples in block 0.
    #[tactic(auto, using(crate::proofs::Walks::held_are))]
    pub fn of(view: &'a RecordView<'a>, ids: u8, tuples: NewTuples<'a>) -> RecBlocks<'a>
        requires { ids ≤ 33 }
        ensures { result ≡ blocks_of ids tuples.entry view.now }
    {
        RecBlocks {
            view: Some(view),
            from: 0,
            ids,
            tuples,
        }
    }

    /// The record's block 1, if it has one, without tuples.
    #[tactic(auto, using(crate::proofs::Walks::second_is))]
    pub fn second(view: &'a RecordView<'a>) -> RecBlocks<'a>
        ensures { result ≡ blocks_from view.now 1 1 }
    {
        RecBlocks {
            view: Some(view),
            from: 1,
            ids: 2,
            tuples: NewTuples::none(),
        }
    }

    /// The number of the block with this id, if that is left. Nothing else is read of it.
    pub fn number(&self, id: u8) -> Option<u32>
        ensures { result ≡ number_of id self.now }
    {
        if id < self.from || self.ids <= id {
            return None;
        }
        match main_block(self.view?, id) {
            Some(block) => Some(block.block),
            None => None,
        }
    }

    /// The same blocks, to be gone through from the first one that is left.
    pub fn again(&self) -> RecBlocks<'a>
        ensures { result ≡ self.now }
    {
        RecBlocks {
            view: self.view,
            from: self.from,
            ids: self.ids,
            tuples: self.tuples.again(),
        }
    }
}

impl<'a> Iterator for RecBlocks<'a> {
    type Item = RecBlock<'a>;

    ghost next_gives = { YieldsFirst (λ rest. rest) };

    ghost remaining = { item_count (λ rest. rest) };

    fn next(&mut self) -> Option<RecBlock<'a>> {
        let view = self.view?;
        match next_block(view, self.from, self.ids, &self.tuples) {
            Some(block) => {
                self.from = block.id + 1;
                Some(block)
            }
            None => {
                self.from = self.ids;
                None
            }
        }
    }
}

/// The first block whose id is in this range.
fn next_block<'a>(
    view: &RecordView<'a>,
    from: u8,
    ids: u8,
    tuples: &NewTuples<'a>,
) -> Option<RecBlock<'a>>
    requires { from ≤ ids }
    ensures { IsNextBlock view.now tuples.now from ids result }
{
    for id in from..ids {
        if let Some(block) = main_block(view, id) {
            return Some(block_with(id, block, held_for(id, tuples)));
        }
    }
    None
}

/// The tuples of the block with this id, where these are those of block 0.
fn held_for<'a>(id: u8, tuples: &NewTuples<'a>) -> NewTuples<'a>
    ensures { result ≡ tuples_for id tuples.now }
{
    match id {
        0 => tuples.again(),
        _ => NewTuples::none(),
    }
}

/// A block with these tuples.
fn block_with<'a>(id: u8, block: BlockView<'a>, tuples: NewTuples<'a>) -> RecBlock<'a>
    ensures { result ≡ block_with tuples.entry (block_of_view id block.entry) }
{
    RecBlock {
        id,
        locator: block.locator,
        block: block.block,
        will_init: block.will_init,
        image: image_of(block.image),
        tuples,
    }
}

/// An image, lent from the record.
fn image_of<'a>(image: Option<ImageView<'a>>) -> Option<RecImage<'a>>
    ensures { result ≡ option_map image_of (option_map image_of_view image.entry) }
{
    match image {
        None => None,
        Some(image) => Some(RecImage {
            apply: image.apply,
            hole_at: image.hole_at,
            bytes: RecBytes::new(image.bytes),
        }),
    }
}
