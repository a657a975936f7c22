//! The header of a WAL page, both ways.
#![tactic(auto)]

ghost use Rattle.std.specs.Prelude.{◌≡◌, ◌==◌, ◌%◌, ◌≤◌, ◌++◌, length, drop, IsTrue, IsNone, IfSome};
ghost use Rattle.byteorder.specs.Endian.{little_bytes};
ghost use Rattle.pg_types.specs.Names.{IsSegmentSize};
ghost use Rattle.wal_page.specs.Page.{KnowsSegments, page_header, header_length, header_text, long_text, HasInfo, WrittenIsRead, ReadIsWritten};
ghost use Rattle.wal_page.specs.Page as spec;

use byteorder::{ByteOrder, LittleEndian};
use pg_types::{Lsn, Tli, is_segment_size, u16_at, u32_at, u64_at};
use thiserror::Error;

/// What a reader knows of a page before it reads it.
#[derive(Clone, Copy)]
pub struct Expect {
    /// The system identifier and the segment size in bytes; `None` only before a base is imported.
    pub known: Option<(u64, u32)>,
    /// The timeline that owns the page's first byte.
    pub tli: Tli,
}

/// The header of a page.
#[derive(Clone, Copy)]
pub struct PageHead {
    /// The info bits: 1 the page begins inside a record, 2 long header, 4 backup blocks may be removed,
    /// 8 the page begins where an earlier record was given up.
    pub info: u16,
    /// The timeline that wrote the page.
    pub tli: Tli,
    /// The position of the page's first byte.
    pub at: Lsn,
    /// How many bytes of the record that the page begins inside stand on it and after it.
    pub rem: u32,
    /// The system identifier and the segment size in bytes, in a long header.
    pub long: Option<(u64, u32)>,
}

/// Why bytes are no header of the page that is expected.
#[derive(Clone, Copy, Debug, Error)]
pub enum PageFault {
    #[error("too few bytes")]
    Short,
    #[error("another magic number")]
    Magic,
    #[error("wrong info bits")]
    Info,
    #[error("another position")]
    Address,
    #[error("another timeline")]
    Timeline,
    #[error("another system")]
    System,
    #[error("another segment or block size")]
    Sizes,
}

const MAGIC: u16 = 0xD113;

const BLOCK_SIZE: u32 = 8192;

const LONG_HEADER: u16 = 2;

/// Reads the header of the page at `at`. While the system and the segment size are not known, `at` is any
/// position in the segment whose first page this is.
#[tactic(auto, unfolding(crate::specs::Page::page_header))]
pub fn read_page_header(bytes: &[u8], at: Lsn, expect: &Expect) -> Result<PageHead, PageFault>
    requires { KnowsSegments expect.now }
    ensures { result ≡ page_header bytes.now at.0 expect.now }
{
    let long = is_long_due(&expect.known, at);
    if bytes.len() < header_len(long) {
        return Err(PageFault::Short);
    }
    if u16_at(bytes, 0) != MAGIC {
        return Err(PageFault::Magic);
    }
    if !has_info(bytes, long) {
        return Err(PageFault::Info);
    }
    if !has_address(bytes, at, &expect.known) {
        return Err(PageFault::Address);
    }
    if !has_timeline(bytes, expect.tli, &expect.known) {
        return Err(PageFault::Timeline);
    }
    if !has_system(bytes, long, &expect.known) {
        return Err(PageFault::System);
    }
    if !has_sizes(bytes, long, &expect.known) {
        return Err(PageFault::Sizes);
    }
    Ok(head_in(bytes, long))
}

fn is_long_due(known: &Option<(u64, u32)>, at: Lsn) -> bool
    requires { IfSome known.now (λ known. IsSegmentSize known.1) }
    ensures { result ≡ spec.is_long_due known.now at.0 }
{
    match known {
        None => true,
        Some((_, size)) => starts_segment(at, *size),
    }
}

#[tactic(auto, unfolding(pg_types::specs::Names::is_segment_size))]
fn starts_segment(at: Lsn, size: u32) -> bool
    requires { IsSegmentSize size }
    ensures { result ≡ (at.0 % size == 0) }
{
    at.0 % u64::from(size) == 0
}

fn header_len(long: bool) -> usize
    ensures { result ≡ header_length long }
{
    if long { 40 } else { 24 }
}

fn has_info(bytes: &[u8], long: bool) -> bool
    requires { 4 ≤ length bytes.now }
    ensures { result ≡ spec.has_info bytes.now long }
{
    let info = u16_at(bytes, 2);
    info < 16 && info & LONG_HEADER == if long { LONG_HEADER } else { 0 }
}

#[tactic(auto, unfolding(pg_types::specs::Names::is_segment_size))]
fn has_address(bytes: &[u8], at: Lsn, known: &Option<(u64, u32)>) -> bool
    requires short { 16 ≤ length bytes.now }
    requires long { IsNone known.now → 40 ≤ length bytes.now }
    ensures { result ≡ spec.has_address bytes.now at.0 known.now }
{
    let address = u64_at(bytes, 8);
    if known.is_some() {
        return address == at.0;
    }
    let size = u32_at(bytes, 32);
    !is_segment_size(size) || address == at.0 - at.0 % u64::from(size)
}

fn has_timeline(bytes: &[u8], tli: Tli, known: &Option<(u64, u32)>) -> bool
    requires short { 16 ≤ length bytes.now }
    requires long { IsNone known.now → 40 ≤ length bytes.now }
    ensures { result ≡ spec.has_timeline bytes.now tli.0 known.now }
{
    (known.is_none() && !is_segment_size(u32_at(bytes, 32))) || u32_at(bytes, 4) == tli.0
}

fn has_system(bytes: &[u8], long: bool, known: &Option<(u64, u32)>) -> bool
    requires { header_length long ≤ length bytes.now }
    ensures { result ≡ spec.has_system bytes.now long known.now }
{
    match known {
        Some((system, _)) if long => u64_at(bytes, 24) == *system,
        _ => true,
    }
}

fn has_sizes(bytes: &[u8], long: bool, known: &Option<(u64, u32)>) -> bool
    requires short { header_length long ≤ length bytes.now }
    requires long { IsNone known.now → IsTrue long }
    ensures { result ≡ spec.has_sizes bytes.now long known.now }
{
    if !long {
        return true;
    }
    let size = u32_at(bytes, 32);
    let allowed = match known {
        Some((_, own)) => size == *own,
        None => is_segment_size(size),
    };
    allowed && u32_at(bytes, 36) == BLOCK_SIZE
}

fn head_in(bytes: &[u8], long: bool) -> PageHead
    requires { header_length long ≤ length bytes.now }
    ensures { result ≡ spec.head_in bytes.now long }
{
    let long = if long {
        Some((u64_at(bytes, 24), u32_at(bytes, 32)))
    } else {
        None
    };
    PageHead {
        info: u16_at(bytes, 2),
        tli: Tli(u32_at(bytes, 4)),
        at: Lsn(u64_at(bytes, 8)),
        rem: u32_at(bytes, 16),
        long,
    }
}

/// Writes a header and answers its length, 24 or 40 bytes.
#[tactic(auto, unfolding(crate::specs::Page::header_text, crate::specs::Page::header_with, crate::specs::Page::long_text))]
pub fn write_page_header(head: &PageHead, out: &mut [u8]) -> usize
    requires room { 40 ≤ length out.old }
    requires info { HasInfo head.now }
    ensures len { result ≡ length (header_text head.now) }
    ensures written { out.new ≡ header_text head.now ++ drop result out.old }
{
    write_front(head, out);
    match head.long {
        None => 24,
        Some((system, size)) => {
            write_sizes(system, size, &mut out[24..]);
            40
        }
    }
}

fn write_front(head: &PageHead, out: &mut [u8])
    requires { 24 ≤ length out.old }
    ensures { out.new ≡ little_bytes 2 0xD113 ++ little_bytes 2 head.now.info ++ little_bytes 4 head.now.tli.0 ++ little_bytes 8 head.now.at.0 ++ little_bytes 4 head.now.rem ++ little_bytes 4 0 ++ drop 24 out.old }
{
    LittleEndian::write_u16(out, MAGIC);
    LittleEndian::write_u16(&mut out[2..], head.info);
    LittleEndian::write_u32(&mut out[4..], head.tli.0);
    LittleEndian::write_u64(&mut out[8..], head.at.0);
    LittleEndian::write_u32(&mut out[16..], head.rem);
    LittleEndian::write_u32(&mut out[20..], 0);
}

fn write_sizes(system: u64, size: u32, out: &mut [u8])
    requires { 16 ≤ length out.old }
    ensures { out.new ≡ little_bytes 8 system ++ little_bytes 4 size ++ little_bytes 4 8192 ++ drop 16 out.old }
{
    LittleEndian::write_u64(out, system);
    LittleEndian::write_u32(&mut out[8..], size);
    LittleEndian::write_u32(&mut out[12..], BLOCK_SIZE);
}

/// A header is read from its spelling, wherever it is expected.
pub fn written_is_read()
    ensures { WrittenIsRead }
{}

/// What is read as a header is the spelling of that header, but for four bytes of padding, and the header is
/// one that is expected there.
pub fn read_is_written()
    ensures { ReadIsWritten }
{}
