//! Records that are written.
ghost use Rattle.std.specs.Prelude.{◌≡◌, ◌≤◌, ◌+◌, IfSome, IsTrue, length};
ghost use Rattle.std.specs.Bool.{OnTrue};
ghost use Rattle.wal_record.specs.New.{AreNewBlocks, IsNew, IsNewBlock, blocks_size, image_bytes, is_page_image, payload_of};

use crate::records::prev_rule;
use case_text::{ShowHex, Wrong, position};
use pg_types::{Bytes, Locator, Lsn};
use std::alloc::Global;
use wal_record::{
    BlockView, ImageView, NewBlock, NewBlocks, NewImage, NewRecord, PrevRule, RecordView, decode,
    encode,
};

/// A record that is read from its bytes is written again, behind two bytes that are there already.
pub fn answer(rt: &HostRuntime, question: &[&str], text: &[u8]) -> Result<(), Wrong> {
    match *question {
        ["encode", "at", at, "after", before] => {
            again(rt, text, position(at)?, prev_rule(before)?)
        }
        _ => Err(Wrong::Line),
    }
}

fn again(rt: &HostRuntime, text: &[u8], at: Lsn, prev: PrevRule) -> Result<(), Wrong> {
    match decode(text, at, prev) {
        Ok(view) => {
            let record = record_of(rt.alloc(), &view)?;
            written(rt, &record, text)
        }
        Err(_) => {
            println!(rt; "no record")?;
            Ok(())
        }
    }
}

fn record_of(alloc: Global, view: &RecordView<'_>) -> Result<NewRecord, Wrong> {
    let mut blocks = NewBlocks::new(alloc);
    for id in 0..=255u8 {
        if let Some(block) = view.block(id) {
            blocks.push(block_of(alloc, id, &block)?)?;
        }
    }
    let head = view.head();
    Ok(NewRecord {
        xid: head.xid,
        prev: head.prev,
        info: head.info,
        manager: head.manager,
        blocks,
        main: Bytes::from_slice(alloc, view.main())?,
    })
}

fn block_of(alloc: Global, id: u8, block: &BlockView<'_>) -> Result<NewBlock, Wrong> {
    Ok(NewBlock {
        id,
        locator: block.locator,
        fork: block.fork,
        block: block.block,
        will_init: block.will_init,
        image: image_of(alloc, &block.image)?,
        payload: Bytes::from_slice(alloc, block.payload)?,
    })
}

fn image_of(alloc: Global, image: &Option<ImageView<'_>>) -> Result<Option<NewImage>, Wrong> {
    match image {
        None => Ok(None),
        Some(image) => Ok(Some(NewImage {
            apply: image.apply,
            hole_at: image.hole_at,
            bytes: Bytes::from_slice(alloc, image.bytes)?,
        })),
    }
}

fn written(rt: &HostRuntime, record: &NewRecord, text: &[u8]) -> Result<(), Wrong> {
    if !is_new(record) {
        println!(rt; "not to be written")?;
        return Ok(());
    }
    let mut out = Vec::from_slice(rt.alloc(), &[1, 2])?;
    encode(rt.alloc(), record, &mut out)?;
    let (front, behind) = out.as_slice().split_at(out.len().min(2));
    if behind == text {
        println!(rt; "the same {} bytes behind {}", behind.len(), ShowHex(front))?;
    } else {
        println!(rt; "{} behind {}", ShowHex(behind), ShowHex(front))?;
    }
    Ok(())
}

/// Whether the record is one that can be written. Of those that can, some that are long are not found so.
#[tactic(auto, using(crate::proofs::NewBlocks::new_record))]
fn is_new(rec: &NewRecord) -> bool
    ensures { OnTrue result (IsNew rec.now) }
{
    match size_of(0, None, rec.blocks.as_slice()) {
        None => false,
        Some(size) => {
            rec.xid.0 < 0x1_0000_0000 && size <= 0x100_0000 && rec.main.len() <= 0x100_0000
        }
    }
}

/// A bound for the size of blocks whose ids rise from `least` on, where each of them can be written.
#[tactic(auto, using(crate::proofs::NewBlocks::new_blocks, crate::proofs::NewBlocks::size_with))]
fn size_of(least: u16, before: Option<Locator>, blocks: &[NewBlock]) -> Option<usize>
    ensures new { IfSome result (λ _. AreNewBlocks least blocks.now) }
    ensures size { IfSome result (λ size. blocks_size before blocks.now ≤ size) }
{
    let Some((first, rest)) = blocks.split_first() else {
        return Some(0);
    };
    if u16::from(first.id) < least {
        return None;
    }
    let own = size_of_block(first)?;
    let behind = size_of(u16::from(first.id) + 1, Some(first.locator), rest)?;
    behind.checked_add(own)
}

/// A bound for the size of a block with its header, where it can be written.
fn size_of_block(block: &NewBlock) -> Option<usize>
    ensures new { IfSome result (λ _. IsNewBlock block.now) }
    ensures size { IfSome result (λ size. 25 + length (payload_of block.now) ≤ size) }
{
    if block.id > 32 || block.fork > 15 || block.payload.len() > 0xFFFF {
        return None;
    }
    let image = size_of_image(&block.image)?;
    Some(25 + image + block.payload.len())
}

/// The number of bytes of an image that can be written, or of none.
fn size_of_image(image: &Option<NewImage>) -> Option<usize>
    ensures page { IfSome result (λ _. IfSome image.now (λ image. IsTrue (is_page_image image))) }
    ensures size { IfSome result (λ size. size ≡ length (image_bytes image.now)) }
    ensures small { IfSome result (λ size. size ≤ 8192) }
{
    match image {
        None => Some(0),
        Some(image) => {
            let len = image.bytes.len();
            let hole = usize::from(image.hole_at);
            if (len == 8192 && hole == 0) || (len < 8192 && hole > 0 && hole <= len) {
                Some(len)
            } else {
                None
            }
        }
    }
}
