ghost use Rattle.std.specs.Prelude.{◌≡◌, ◌+◌, ◌<◌, ◌≤◌, ◌^◌, ◌++◌, [], All, IsTrue, IfOk, IfSome, OnOk, OnErr, length, nat_lt, option_map, if◌then◌else◌};
ghost use Rattle.std.specs.List.{flat_map};
ghost use Rattle.pg_crc32c.specs.Crc32c.{crc32c_of};
ghost use Rattle.wal_record.specs.declared.parts.Part.TheVariants as part;
ghost use Rattle.wal_record.specs.Spelling.{one_byte, two_bytes, four_bytes, part_text, image_text, locator_text, front_of, before_crc, behind_header};
ghost use Rattle.wal_record.specs.New.{IsNewBlock, IsNew, flag, image_header_of, is_same_relation, flags_of, header_of, block_parts, main_parts, payload_of, spelling_of, encoded, is_page_image};

use crate::new::{NewBlock, NewImage, NewRecord};
use pg_crc32c::crc32c;
use pg_types::{Locator, NoMemory};
use std::alloc::{AllocError, Global};

/// Appends the record's bytes, with its length and its CRC. A block has the flag of the same relation
/// exactly where the block before has its locator; main data has the short header up to 255 bytes, and
/// none where there is none.
///
/// # Errors
/// `NoMemory`, where nothing is appended. `alloc` serves the record's bytes while they are put together.
#[tactic(auto, unfolding(crate::specs::Spelling::spelled))]
pub fn encode(alloc: Global, rec: &NewRecord, out: &mut Vec<u8>) -> Result<(), NoMemory>
    requires { IsNew rec.now }
    ensures ok { OnOk result (out.new.items ≡ out.old.items ++ encoded rec.now) }
    ensures err { OnErr result (out.new.items ≡ out.old.items) }
{
    let behind = behind(alloc, rec)?;
    let front = front(alloc, rec, &behind)?;
    let start = out.len();
    out.extend_from_slice(&front)?;
    if out.extend_from_slice(&behind).is_err() {
        out.truncate(start);
        return Err(NoMemory);
    }
    Ok(())
}

/// The header, whose CRC is over what stands behind it and then the header before the CRC.
fn front(alloc: Global, rec: &NewRecord, behind: &[u8]) -> Result<Vec<u8>, AllocError>
    requires new { IsNew rec.now }
    requires behind { behind.now ≡ behind_header (spelling_of rec.now) }
    ensures { IfOk result (λ front. front.items ≡ before_crc (spelling_of rec.now) ++ four_bytes (crc32c_of (behind.now ++ before_crc (spelling_of rec.now)))) }
{
    let mut front = fields(alloc, rec, 24 + behind.len() as u32)?;
    let crc = crc32c(behind, &front);
    put_long(&mut front, crc)?;
    Ok(front)
}

/// The header before its CRC.
fn fields(alloc: Global, rec: &NewRecord, total: u32) -> Result<Vec<u8>, AllocError>
    requires { rec.now.xid.0 < 2 ^ 32 }
    ensures { IfOk result (λ front. front.items ≡ front_of total rec.now.xid.0 rec.now.prev.0 rec.now.info rec.now.manager 0) }
{
    let mut front = Vec::new(alloc);
    put_long(&mut front, total)?;
    put_long(&mut front, rec.xid.0 as u32)?;
    front.extend_from_slice(&rec.prev.0.to_le_bytes())?;
    put_byte(&mut front, rec.info)?;
    put_byte(&mut front, rec.manager)?;
    put_short(&mut front, 0)?;
    Ok(front)
}

/// What stands behind the header.
fn behind(alloc: Global, rec: &NewRecord) -> Result<Vec<u8>, AllocError>
    requires { IsNew rec.now }
    ensures { IfOk result (λ behind. behind.items ≡ behind_header (spelling_of rec.now)) }
{
    let mut out = Vec::new(alloc);
    put_headers(rec.blocks.as_slice(), &mut out)?;
    put_main_header(rec.main.len(), &mut out)?;
    put_payloads(rec.blocks.as_slice(), &mut out)?;
    out.extend_from_slice(rec.main.as_slice())?;
    Ok(out)
}

/// The headers of the blocks, one after another.
fn put_headers(blocks: &[NewBlock], out: &mut Vec<u8>) -> Result<(), AllocError>
    requires { All IsNewBlock blocks.now }
    ensures { OnOk result (out.new.items ≡ out.old.items ++ flat_map part_text (block_parts None blocks.now)) }
{
    let mut before = None;
    for block in blocks {
        put_header(before, block, out)?;
        before = Some(block.locator);
    }
    Ok(())
}

/// The header of a block behind one of the relation `before`.
#[tactic(auto, unfolding(crate::specs::Spelling::part_text))]
fn put_header(
    before: Option<Locator>,
    block: &NewBlock,
    out: &mut Vec<u8>,
) -> Result<(), AllocError>
    requires { IsNewBlock block.now }
    ensures { OnOk result (out.new.items ≡ out.old.items ++ part_text (part.Block (header_of before block.now))) }
{
    let same = is_same_relation(before, block.locator);
    put_byte(out, block.id)?;
    put_byte(out, flags(same, block))?;
    put_short(out, block.payload.len() as u16)?;
    put_image_header(&block.image, out)?;
    put_relation(same, block.locator, out)?;
    put_long(out, block.block)?;
    Ok(())
}

fn is_same_relation(before: Option<Locator>, locator: Locator) -> bool
    ensures { result ≡ is_same_relation before locator }
{
    match before {
        None => false,
        Some(before) => before == locator,
    }
}

fn flags(same: bool, block: &NewBlock) -> u8
    requires { block.now.fork < 16 }
    ensures { result ≡ flags_of same block.now }
{
    let image = if block.image.is_some() { 0x10 } else { 0 };
    let payload = if block.payload.is_empty() { 0 } else { 0x20 };
    let init = if block.will_init { 0x40 } else { 0 };
    let relation = if same { 0x80 } else { 0 };
    block.fork + image + payload + init + relation
}

fn put_image_header(image: &Option<NewImage>, out: &mut Vec<u8>) -> Result<(), AllocError>
    requires { IfSome image.now (λ image. IsTrue (is_page_image image)) }
    ensures { OnOk result (out.new.items ≡ out.old.items ++ image_text (option_map image_header_of image.now)) }
{
    if let Some(image) = image {
        let length = image.bytes.len() as u16;
        put_short(out, length)?;
        put_short(out, image.hole_at)?;
        put_byte(out, image_info(length, image.apply))?;
    }
    Ok(())
}

fn image_info(length: u16, apply: bool) -> u8
    ensures { result ≡ flag (nat_lt length 8192) 1 + flag apply 2 }
{
    let hole = if length < 8192 { 0x01 } else { 0 };
    let apply = if apply { 0x02 } else { 0 };
    hole + apply
}

/// The locator, unless it is that of the block before.
fn put_relation(same: bool, locator: Locator, out: &mut Vec<u8>) -> Result<(), AllocError>
    ensures { OnOk result (out.new.items ≡ out.old.items ++ (if same then [] else locator_text locator)) }
{
    if !same {
        put_long(out, locator.space)?;
        put_long(out, locator.db)?;
        put_long(out, locator.rel)?;
    }
    Ok(())
}

/// The header of main data of so many bytes.
#[tactic(auto, unfolding(crate::specs::Spelling::part_text))]
fn put_main_header(size: usize, out: &mut Vec<u8>) -> Result<(), AllocError>
    requires { size < 2 ^ 32 }
    ensures { OnOk result (out.new.items ≡ out.old.items ++ flat_map part_text (main_parts size)) }
{
    if size == 0 {
        return Ok(());
    }
    if size <= 255 {
        put_byte(out, 255)?;
        put_byte(out, size as u8)?;
    } else {
        put_byte(out, 254)?;
        put_long(out, size as u32)?;
    }
    Ok(())
}

/// The blocks' images and data, one after another.
fn put_payloads(blocks: &[NewBlock], out: &mut Vec<u8>) -> Result<(), AllocError>
    ensures { OnOk result (out.new.items ≡ out.old.items ++ flat_map payload_of blocks.now) }
{
    for block in blocks {
        put_payload(block, out)?;
    }
    Ok(())
}

fn put_payload(block: &NewBlock, out: &mut Vec<u8>) -> Result<(), AllocError>
    ensures { OnOk result (out.new.items ≡ out.old.items ++ payload_of block.now) }
{
    if let Some(image) = &block.image {
        out.extend_from_slice(image.bytes.as_slice())?;
    }
    out.extend_from_slice(block.payload.as_slice())?;
    Ok(())
}

fn put_byte(out: &mut Vec<u8>, number: u8) -> Result<(), AllocError>
    ensures { OnOk result (out.new.items ≡ out.old.items ++ one_byte number) }
{
    out.push(number)?;
    Ok(())
}

fn put_short(out: &mut Vec<u8>, number: u16) -> Result<(), AllocError>
    ensures { OnOk result (out.new.items ≡ out.old.items ++ two_bytes number) }
{
    out.extend_from_slice(&number.to_le_bytes())?;
    Ok(())
}

fn put_long(out: &mut Vec<u8>, number: u32) -> Result<(), AllocError>
    ensures { OnOk result (out.new.items ≡ out.old.items ++ four_bytes number) }
{
    out.extend_from_slice(&number.to_le_bytes())?;
    Ok(())
}
