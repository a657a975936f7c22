//! Positions, names of segments, lists, numbers in bytes, and the checksum.
ghost use Rattle.std.specs.Prelude.{IfSome};
ghost use Rattle.pg_types.specs.Names.{IsSegmentSize};

use case_text::{ShowHex, Wrong, bytes, number_u8, number_u32, number_u64};
use outside::FaultCount;
use pg_crc32c::crc32c;
use pg_types::{Bytes, Lsn, SegmentName, Tli, Xid, XidList, segment_name, u16_at, u32_at, u64_at};

pub fn answer(rt: &HostRuntime, question: &[&str]) -> Result<(), Wrong> {
    match *question {
        ["position", number] => printed(rt, Lsn(number_u64(number)?)),
        ["read-position", text] => read(rt, text),
        ["read-position"] => read(rt, ""),
        ["segment", tli, number, size] => {
            segment(rt, Tli(number_u32(tli)?), number_u64(number)?, size)
        }
        ["lists", first, byte, last] => lists(rt, first, byte, last),
        ["numbers", text] => numbers(rt, text),
        ["crc", text] => checksum(rt, text),
        ["count", "from", faults, "rises", times] => {
            count(rt, number_u64(faults)?, number_u64(times)?)
        }
        _ => Err(Wrong::Line),
    }
}

fn text_of(bytes: &[u8]) -> Result<&str, Wrong> {
    str::from_utf8(bytes).map_err(|_| Wrong::Io)
}

fn printed(rt: &HostRuntime, at: Lsn) -> Result<(), Wrong> {
    let mut out = Vec::new(rt.alloc());
    out.push(b'<')?;
    at.print(&mut out)?;
    println!(rt; "{}>", text_of(out.as_slice())?)?;
    Ok(())
}

fn read(rt: &HostRuntime, text: &str) -> Result<(), Wrong> {
    match Lsn::read(text.as_bytes()) {
        Some(at) => println!(rt; "{}", at.0)?,
        None => println!(rt; "no position")?,
    }
    Ok(())
}

/// The sizes of segments of which there are cases.
fn segment_size(word: &str) -> Option<u32>
    ensures { IfSome result IsSegmentSize }
{
    match word {
        "1MiB" => Some(0x10_0000),
        "16MiB" => Some(0x100_0000),
        "1GiB" => Some(0x4000_0000),
        _ => None,
    }
}

fn segment(rt: &HostRuntime, tli: Tli, number: u64, size: &str) -> Result<(), Wrong> {
    let size = segment_size(size).ok_or(Wrong::Line)?;
    let start = number.checked_mul(u64::from(size)).ok_or(Wrong::Number)?;
    if start >= 0x8000_0000_0000_0000 {
        return Err(Wrong::Number);
    }
    let mut out = Vec::new(rt.alloc());
    out.push(b'<')?;
    segment_name(tli, number, size, &mut out)?;
    let name = SegmentName::new(tli, number, size);
    println!(rt; "{}> {}", text_of(out.as_slice())?, name.as_str())?;
    Ok(())
}

/// Lists of bytes and of transaction ids, to which are added one and then several.
fn lists(rt: &HostRuntime, first: &str, byte: &str, last: &str) -> Result<(), Wrong> {
    let alloc = rt.alloc();
    let first = bytes(alloc, first)?;
    let last = bytes(alloc, last)?;
    let mut list = Bytes::from_slice(alloc, first.as_slice())?;
    list.push(number_u8(byte)?)?;
    list.append(last.as_slice())?;
    print!(rt; "{} of {} bytes", ShowHex(list.as_slice()), list.len())?;
    list.clear();
    let none = Bytes::new(alloc);
    println!(rt;
        ", cleared {} {}",
        list.is_empty(),
        list.len() == none.len()
    )?;
    ids(rt)
}

fn ids(rt: &HostRuntime) -> Result<(), Wrong> {
    let mut xids = XidList::from_slice(rt.alloc(), &[Xid(700), Xid(0)])?;
    xids.push(Xid(0xFFFF_FFFF))?;
    print!(rt; "  xids")?;
    for xid in xids.as_slice() {
        print!(rt; " {}", xid.0)?;
    }
    print!(rt; ", {} of them", xids.len())?;
    xids.clear();
    let none = XidList::new(rt.alloc());
    println!(rt;
        ", cleared {} {}",
        xids.is_empty(),
        xids.len() == none.len()
    )?;
    Ok(())
}

/// The numbers of two, four and eight bytes at each place.
fn numbers(rt: &HostRuntime, text: &str) -> Result<(), Wrong> {
    let text = bytes(rt.alloc(), text)?;
    let text = text.as_slice();
    for at in 0..text.len() {
        let left = text.len() - at;
        if left >= 2 {
            print!(rt; "{:x} ", u16_at(text, at))?;
        }
        if left >= 4 {
            print!(rt; "{:x} ", u32_at(text, at))?;
        }
        if left >= 8 {
            print!(rt; "{:x} ", u64_at(text, at))?;
        }
    }
    println!(rt; "end")?;
    Ok(())
}

/// The CRC-32C of a text, whole and cut in two at each place.
fn checksum(rt: &HostRuntime, text: &str) -> Result<(), Wrong> {
    let text = bytes(rt.alloc(), text)?;
    let text = text.as_slice();
    let whole = crc32c(text, b"");
    print!(rt; "{whole:08X}")?;
    for at in 0..text.len() {
        let (front, back) = text.split_at(at);
        let cut = crc32c(front, back);
        if cut != whole {
            print!(rt; ", {cut:08X} cut at {at}")?;
        }
    }
    println!(rt; ", cut anywhere too")?;
    Ok(())
}

/// A count of faults that stands at a number, and rises so many times.
fn count(rt: &HostRuntime, faults: u64, times: u64) -> Result<(), Wrong> {
    let mut count = FaultCount { faults };
    print!(rt; "{}", count.value())?;
    for _ in 0..times {
        count.rise();
        print!(rt; ", {}", count.value())?;
    }
    println!(rt)?;
    Ok(())
}
