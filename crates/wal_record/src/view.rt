ghost use Rattle.std.specs.Prelude.{◌≡◌, ◌+◌, ◌≤◌, ◌<◌, ◌^◌, drop, length, option_map, IfOk};
ghost use Rattle.wal_record.specs.Parts.{image_length};
ghost use Rattle.wal_record.specs.declared.types.RecordHead.{RecordHead};
ghost use Rattle.wal_record.specs.Decoded.{decoded, whole, laid_out, walked, block_with_id, blocks_in, block_in, image_in, IsParted};
ghost use Rattle.wal_record.specs.Shapes.{HasShape, SaysLaid, SaysShape, shaped};
ghost use Rattle.wal_record.specs.Record.{block_by_id};
ghost use Rattle.wal_record.specs.Views.{block_of_view, image_of_view};

use crate::head::{HEADER, decode_head, fields, has_right_crc};
use crate::parts::{BlockHeader, HeadersRead, ImageHeader, Part, image_length, next_part};
use crate::types::{BlockView, ImageView, PrevRule, RecordFault, RecordHead};
use pg_types::Lsn;
use std::marker::Model;

/// A decoded record, lent from its bytes. Contracts see it as a `Record`: its header, its blocks in the
/// order of their ids, and its main data.
#[derive(Drop)]
pub struct RecordView<'a> {
    head: RecordHead,
    /// All that stands behind the header.
    text: &'a [u8],
    /// What stands behind the headers of the parts.
    payloads: &'a [u8],
    main: &'a [u8],
    /// Each block's id is below this number.
    ids: u16,
}

impl<'a> Model for RecordView<'a> {
    ghost use Rattle.std.specs.Prelude.{ℕ};
    ghost use Rattle.wal_record.specs.Record.{Record, AreBelow};

    ghost Value = { Record };

    ghost use Rattle.wal_record.specs.Decoded.{blocks_in, IsParted};

    ghost view = { λ v. record { head = v.head; blocks = blocks_in v.text.now v.payloads.now; main = v.main.now } };

    ghost invariant = { λ v. IsParted v.text.now v.payloads.now × AreBelow v.ids (blocks_in v.text.now v.payloads.now) };
}

/// Where the parts of a record stand in its bytes, as `shape_of` found it.
#[derive(Clone, Copy)]
pub struct RecordShape {
    /// The length of the parts' headers.
    headers: usize,
    /// The length of the blocks' payloads.
    blocks: usize,
    /// Each block's id is below this number.
    ids: u16,
}

impl RecordShape {
    /// The shape of a record that is nothing but its header, which stands where none was read yet.
    pub const BARE: RecordShape = RecordShape {
        headers: 0,
        blocks: 0,
        ids: 0,
    };
}

/// The record that the bytes are, with page headers taken out, at the position `at`. It takes no
/// memory, and copies nothing.
///
/// # Errors
/// The faults in their order in `RecordFault`, the first that comes. Where the bytes end before a field
/// that a test reads, it is `Layout` at that test; another number of bytes than the length field's is
/// `Layout`, tested before `Crc`.
pub fn decode<'a>(bytes: &'a [u8], at: Lsn, prev: PrevRule) -> Result<RecordView<'a>, RecordFault>
    ensures { result ≡ decoded bytes.now at.0 prev }
{
    match shape_of(bytes, at, prev) {
        Err(fault) => Err(fault),
        Ok(shape) => Ok(lend(bytes, shape)),
    }
}

/// Where the parts of that record stand in its bytes: all tests of `decode`, with its faults, and what
/// lends the record from then on.
#[tactic(auto, unfolding(crate::specs::Decoded::decoded))]
pub fn shape_of(bytes: &[u8], at: Lsn, prev: PrevRule) -> Result<RecordShape, RecordFault>
    ensures { SaysShape result bytes.now (decoded bytes.now at.0 prev) }
{
    match decode_head(bytes, at, prev) {
        Err(fault) => Err(fault),
        Ok(head) => whole(head.total, bytes),
    }
}

/// The record whose parts stand so in its bytes. It reads the header's fields again, and neither the headers
/// of the parts nor the CRC.
pub fn lend<'a>(bytes: &'a [u8], shape: RecordShape) -> RecordView<'a>
    requires { HasShape bytes.now shape }
    ensures { result ≡ shaped bytes.now shape }
{
    let (_, text) = bytes.split_at(HEADER);
    let (_, payloads) = text.split_at(shape.headers);
    let (_, main) = payloads.split_at(shape.blocks);
    RecordView {
        head: fields(bytes),
        text,
        payloads,
        main,
        ids: shape.ids,
    }
}

/// Where the parts stand in bytes whose header says that they are `total`.
#[tactic(auto, unfolding(crate::specs::Decoded::whole))]
fn whole(total: u32, bytes: &[u8]) -> Result<RecordShape, RecordFault>
    requires { 24 ≤ total }
    ensures says { (head : RecordHead) → head.total ≡ total → SaysLaid result head (drop 24 bytes.now) (whole head bytes.now) }
    ensures header_fits { IfOk result (λ _. 24 ≤ length bytes.now) }
{
    if bytes.len() != total as usize {
        return Err(RecordFault::Layout);
    }
    if !has_right_crc(bytes) {
        return Err(RecordFault::Crc);
    }
    let (_, text) = bytes.split_at(HEADER);
    laid_out(text)
}

/// Where the parts stand in the text behind a record's header.
fn laid_out(text: &[u8]) -> Result<RecordShape, RecordFault>
    requires { length text.now < 2 ^ 32 }
    ensures { (head : RecordHead) → SaysLaid result head text.now (laid_out head text.now) }
{
    let Some((seen, payloads)) = walk(text) else {
        return Err(RecordFault::Layout);
    };
    if payloads.len() < seen.blocks || payloads.len() - seen.blocks != seen.main {
        return Err(RecordFault::Layout);
    }
    if seen.compressed {
        return Err(RecordFault::Compressed);
    }
    Ok(RecordShape {
        headers: text.len() - payloads.len(),
        blocks: seen.blocks,
        ids: seen.least_id,
    })
}

/// What the parts leave seen, and what stands behind their headers.
fn walk(text: &[u8]) -> Option<(HeadersRead, &[u8])>
    requires { length text.now < 2 ^ 32 }
    ensures { option_map (λ x. (x.0, x.1.now)) result ≡ walked text.now }
{
    let mut seen = HeadersRead::START;
    let mut rest = text;
    for _ in 0..text.len() {
        if seen.closed || rest.len() <= seen.blocks {
            break;
        }
        let (next, behind) = next_part(seen, rest)?;
        seen = seen.after(next);
        rest = behind;
    }
    Some((seen, rest))
}

/// The block with this id, among those of a text whose payloads these are.
fn find<'a>(text: &[u8], payloads: &'a [u8], id: u8) -> Option<BlockView<'a>>
    requires { IsParted text.now payloads.now }
    ensures { option_map (λ block. block_of_view id block) result ≡ block_by_id id (blocks_in text.now payloads.now) }
{
    let mut seen = HeadersRead::START;
    let mut rest = text;
    for _ in 0..text.len() {
        if seen.closed || rest.len() <= seen.blocks {
            break;
        }
        let (next, behind) = next_part(seen, rest)?;
        if let Some(header) = with_id(next, id) {
            let (_, payload) = payloads.split_at(seen.blocks);
            return Some(block_view(header, payload));
        }
        seen = seen.after(next);
        rest = behind;
    }
    None
}

/// The header of a block, if the part is the block with this id.
fn with_id(part: Part, id: u8) -> Option<BlockHeader>
    ensures { result ≡ block_with_id id part }
{
    match part {
        Part::Block(block) if block.id == id => Some(block),
        _ => None,
    }
}

/// A block whose payload stands at the front.
fn block_view<'a>(header: BlockHeader, payload: &'a [u8]) -> BlockView<'a>
    requires { image_length header.image + header.data_length ≤ length payload.now }
    ensures { block_of_view header.id result ≡ block_in header payload.now }
{
    let (image, behind) = payload.split_at(image_length(header.image));
    let (own, _) = behind.split_at(header.data_length as usize);
    BlockView {
        locator: header.locator,
        fork: header.flags & 0x0F,
        block: header.block,
        will_init: header.flags & 0x40 != 0,
        image: image_view(header.image, image),
        payload: own,
    }
}

/// An image that is all of these bytes.
fn image_view<'a>(header: Option<ImageHeader>, bytes: &'a [u8]) -> Option<ImageView<'a>>
    requires { length bytes.now ≡ image_length header }
    ensures { option_map image_of_view result ≡ option_map (λ image. image_in image bytes.now) header }
{
    match header {
        None => None,
        Some(image) => Some(ImageView {
            apply: image.info & 0x02 != 0,
            hole_at: image.hole_at,
            bytes,
        }),
    }
}

impl<'a> RecordView<'a> {
    /// The header's fields.
    pub fn head(&self) -> RecordHead
        ensures { result ≡ self.now.head }
    {
        self.head
    }

    /// The block with this id, if the record refers to one. It walks the headers of the parts up to it, and
    /// none where the id is past those of all blocks.
    pub fn block(&self, id: u8) -> Option<BlockView<'a>>
        ensures { option_map (λ block. block_of_view id block) result ≡ block_by_id id self.now.blocks }
    {
        if self.ids <= u16::from(id) {
            return None;
        }
        find(self.text, self.payloads, id)
    }

    /// The same record, lent once more.
    pub fn again(&self) -> RecordView<'a>
        ensures { result ≡ self.now }
    {
        RecordView {
            head: self.head,
            text: self.text,
            payloads: self.payloads,
            main: self.main,
            ids: self.ids,
        }
    }

    /// Main data, empty where the record has none.
    pub fn main(&self) -> &'a [u8]
        ensures { result.now ≡ self.now.main }
    {
        self.main
    }
}
