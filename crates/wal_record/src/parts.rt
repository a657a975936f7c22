ghost use Rattle.std.specs.Prelude.{◌≡◌, ◌+◌, ◌<◌, ◌≤◌, ◌^◌, option_map, IsTrue};
ghost use Rattle.pg_types.specs.Numbers.{has_bits};
ghost use Rattle.wal_record.specs.Parts.{image_header, image_behind, image_at, image_from, locator_at, locator_from, flags_at, block_at, block_from, part_from, part_at, is_compressed, has_hole, fits_page, data_agrees, image_length, any_compressed, after, start};

use crate::fields::{byte, long, short};
use pg_types::Locator;

/// The header of one part of a record.
#[derive(Clone, Copy)]
pub(crate) enum Part {
    Block(BlockHeader),
    /// The replication origin.
    Origin(u16),
    /// The top-level transaction of the record's own.
    TopXid(u32),
    /// The length of main data, in one byte.
    ShortMain(u8),
    /// The length of main data, in four bytes.
    LongMain(u32),
}

/// The header of a block (`XLogRecordBlockHeader`).
#[derive(Clone, Copy)]
pub(crate) struct BlockHeader {
    pub(crate) id: u8,
    pub(crate) flags: u8,
    /// The length of the block's own data.
    pub(crate) data_length: u16,
    pub(crate) image: Option<ImageHeader>,
    pub(crate) locator: Locator,
    pub(crate) block: u32,
}

/// The header of an image (`XLogRecordBlockImageHeader`).
#[derive(Clone, Copy)]
pub(crate) struct ImageHeader {
    pub(crate) length: u16,
    pub(crate) hole_at: u16,
    pub(crate) info: u8,
}

/// What the part headers so far say about those to come.
#[derive(Clone, Copy)]
pub(crate) struct HeadersRead {
    /// The relation of the block before.
    pub(crate) locator: Option<Locator>,
    /// The least id that the next block may have.
    pub(crate) least_id: u16,
    /// The length of the blocks' payloads, images and data.
    pub(crate) blocks: usize,
    /// The length of main data.
    pub(crate) main: usize,
    /// An image is compressed.
    pub(crate) compressed: bool,
    /// The header of main data was there.
    pub(crate) closed: bool,
}

impl ImageHeader {
    fn has_hole(&self) -> bool
        ensures { result ≡ has_hole self.now }
    {
        self.info & 0x01 != 0
    }

    fn is_compressed(&self) -> bool
        ensures { result ≡ is_compressed self.now }
    {
        self.info & 0x1C != 0
    }

    fn fits_page(&self) -> bool
        ensures { result ≡ fits_page self.now }
    {
        if self.has_hole() {
            0 < self.hole_at
                && self.length < 8192
                && u32::from(self.hole_at) + (8192 - u32::from(self.length)) <= 8192
        } else {
            self.length == 8192 && self.hole_at == 0
        }
    }
}

/// The fields of an image's header that each has.
#[tactic(auto, unfolding(crate::specs::Parts::image_header))]
fn image_fields(text: &[u8]) -> Option<(ImageHeader, &[u8])>
    ensures { option_map (λ x. (x.0, x.1.now)) result ≡ image_header text.now }
{
    let (length, text) = short(text)?;
    let (hole_at, text) = short(text)?;
    let (info, text) = byte(text)?;
    let image = ImageHeader {
        length,
        hole_at,
        info,
    };
    Some((image, text))
}

/// What stands behind those fields: the hole's length, where the image has a hole and is compressed.
#[tactic(auto, unfolding(crate::specs::Parts::image_behind))]
fn image_behind(image: ImageHeader, text: &[u8]) -> Option<(ImageHeader, &[u8])>
    ensures { option_map (λ x. (x.0, x.1.now)) result ≡ image_behind image text.now }
{
    if !image.is_compressed() {
        return if image.fits_page() {
            Some((image, text))
        } else {
            None
        };
    }
    if !image.has_hole() {
        return Some((image, text));
    }
    let (_, text) = short(text)?;
    Some((image, text))
}

/// The header of an image.
#[tactic(auto, unfolding(crate::specs::Parts::image_at))]
fn image_header(text: &[u8]) -> Option<(ImageHeader, &[u8])>
    ensures { option_map (λ x. (x.0, x.1.now)) result ≡ image_at text.now }
{
    let (image, text) = image_fields(text)?;
    image_behind(image, text)
}

#[tactic(auto, unfolding(crate::specs::Parts::image_from))]
fn image(flags: u8, text: &[u8]) -> Option<(Option<ImageHeader>, &[u8])>
    ensures { option_map (λ x. (x.0, x.1.now)) result ≡ image_from flags text.now }
{
    if flags & 0x10 == 0 {
        return Some((None, text));
    }
    let (image, text) = image_header(text)?;
    Some((Some(image), text))
}

#[tactic(auto, unfolding(crate::specs::Parts::locator_at))]
fn locator_fields(text: &[u8]) -> Option<(Locator, &[u8])>
    ensures { option_map (λ x. (x.0, x.1.now)) result ≡ locator_at text.now }
{
    let (space, text) = long(text)?;
    let (db, text) = long(text)?;
    let (rel, text) = long(text)?;
    Some((Locator { space, db, rel }, text))
}

#[tactic(auto, unfolding(crate::specs::Parts::locator_from))]
fn locator(before: Option<Locator>, flags: u8, text: &[u8]) -> Option<(Locator, &[u8])>
    ensures { option_map (λ x. (x.0, x.1.now)) result ≡ locator_from before flags text.now }
{
    if flags & 0x80 == 0 {
        return locator_fields(text);
    }
    let locator = before?;
    Some((locator, text))
}

/// The flags and the length of the data that stand behind a block's id.
#[tactic(auto, unfolding(crate::specs::Parts::flags_at))]
fn flags_and_data(text: &[u8]) -> Option<((u8, u16), &[u8])>
    ensures { option_map (λ x. (x.0, x.1.now)) result ≡ flags_at text.now }
{
    let (flags, text) = byte(text)?;
    let (data_length, text) = short(text)?;
    let has_data = flags & 0x20 != 0;
    if has_data == (data_length == 0) {
        return None;
    }
    Some(((flags, data_length), text))
}

/// The header of a block behind its id.
#[tactic(auto, unfolding(crate::specs::Parts::block_at))]
fn block_header(before: Option<Locator>, id: u8, text: &[u8]) -> Option<(BlockHeader, &[u8])>
    ensures { option_map (λ x. (x.0, x.1.now)) result ≡ block_at before id text.now }
{
    let ((flags, data_length), text) = flags_and_data(text)?;
    let (image, text) = image(flags, text)?;
    let (locator, text) = locator(before, flags, text)?;
    let (block, text) = long(text)?;
    let header = BlockHeader {
        id,
        flags,
        data_length,
        image,
        locator,
        block,
    };
    Some((header, text))
}

#[tactic(auto, unfolding(crate::specs::Parts::block_from))]
fn block(seen: HeadersRead, id: u8, text: &[u8]) -> Option<(Part, &[u8])>
    ensures { option_map (λ x. (x.0, x.1.now)) result ≡ block_from seen id text.now }
{
    if u16::from(id) < seen.least_id || 32 < id {
        return None;
    }
    let (header, text) = block_header(seen.locator, id, text)?;
    Some((Part::Block(header), text))
}

/// The header of a part behind its id.
#[tactic(auto, unfolding(crate::specs::Parts::part_from))]
fn part_of(seen: HeadersRead, id: u8, text: &[u8]) -> Option<(Part, &[u8])>
    ensures { option_map (λ x. (x.0, x.1.now)) result ≡ part_from seen id text.now }
{
    match id {
        255 => {
            let (length, text) = byte(text)?;
            Some((Part::ShortMain(length), text))
        }
        254 => {
            let (length, text) = long(text)?;
            Some((Part::LongMain(length), text))
        }
        253 => {
            let (origin, text) = short(text)?;
            Some((Part::Origin(origin), text))
        }
        252 => {
            let (xid, text) = long(text)?;
            Some((Part::TopXid(xid), text))
        }
        _ => block(seen, id, text),
    }
}

/// The header of a part, and what stands behind it.
#[tactic(auto, unfolding(crate::specs::Parts::part_at))]
pub(crate) fn next_part(seen: HeadersRead, text: &[u8]) -> Option<(Part, &[u8])>
    ensures { option_map (λ x. (x.0, x.1.now)) result ≡ part_at seen text.now }
{
    let (id, text) = byte(text)?;
    part_of(seen, id, text)
}

/// How many bytes of image a block has.
pub(crate) fn image_length(image: Option<ImageHeader>) -> usize
    ensures { result ≡ image_length image }
{
    match image {
        None => 0,
        Some(image) => image.length as usize,
    }
}

fn any_compressed(image: Option<ImageHeader>) -> bool
    ensures { result ≡ any_compressed image }
{
    match image {
        None => false,
        Some(image) => image.is_compressed(),
    }
}

impl HeadersRead {
    pub(crate) const START: HeadersRead = HeadersRead {
        locator: None,
        least_id: 0,
        blocks: 0,
        main: 0,
        compressed: false,
        closed: false,
    };

    /// What was seen, with one more part.
    pub(crate) fn after(self, part: Part) -> HeadersRead
        requires { self.blocks < 2 ^ 63 }
        ensures exact { result ≡ after self part }
        ensures bounded { result.blocks ≤ self.blocks + 131070 }
    {
        match part {
            Part::Block(block) => HeadersRead {
                locator: Some(block.locator),
                least_id: u16::from(block.id) + 1,
                blocks: self.blocks + image_length(block.image) + block.data_length as usize,
                main: self.main,
                compressed: self.compressed || any_compressed(block.image),
                closed: self.closed,
            },
            Part::Origin(_) | Part::TopXid(_) => self,
            Part::ShortMain(length) => HeadersRead {
                locator: self.locator,
                least_id: self.least_id,
                blocks: self.blocks,
                main: length as usize,
                compressed: self.compressed,
                closed: true,
            },
            Part::LongMain(length) => HeadersRead {
                locator: self.locator,
                least_id: self.least_id,
                blocks: self.blocks,
                main: length as usize,
                compressed: self.compressed,
                closed: true,
            },
        }
    }
}
