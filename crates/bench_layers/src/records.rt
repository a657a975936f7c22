//! Times `decode` over so many bytes of records that `encode` wrote, beside the CRC-32C, record by record and over
//! one piece again and again, and a copy of the same bytes in the same run.

use crate::clock::{hundredths, in_a_second, megabytes};
use crate::samples::append;
use anyhow::Result;
use pg_crc32c::crc32c;
use pg_types::{Lsn, u32_at};
use std::alloc::Global;
use std::time::{Duration, Instant};
use wal_record::{PrevRule, decode};

/// The bytes of the piece whose CRC is computed again and again.
const PIECE: usize = 1 << 20;

/// How many records were read, and a number that all of them have a part in, so that none is left out.
#[derive(Clone, Copy)]
struct Tally {
    records: u64,
    mark: u64,
}

impl Tally {
    const NOTHING: Tally = Tally {
        records: 0,
        mark: 0,
    };

    fn with(self, mark: u64) -> Tally {
        Tally {
            records: self.records.wrapping_add(1),
            mark: self.mark.wrapping_add(mark),
        }
    }
}

/// Records one after another, up to so many bytes or a little more.
fn make(alloc: Global, bytes: usize) -> Result<Vec<u8>> {
    let mut out = Vec::with_capacity(alloc, bytes)?;
    let mut prev = Lsn(0);
    for number in 0..bytes as u64 {
        if out.len() >= bytes {
            break;
        }
        let at = Lsn(out.len() as u64);
        append(alloc, number, prev, &mut out)?;
        prev = at;
    }
    Ok(out)
}

/// The record at the front, by its length field, and what stands behind it.
fn first(text: &[u8]) -> Option<(&[u8], &[u8])> {
    if text.len() < 24 {
        return None;
    }
    let total = u32_at(text, 0) as usize;
    if total < 24 || text.len() < total {
        return None;
    }
    Some(text.split_at(total))
}

/// Computes the CRC of each record.
fn check_each(text: &[u8]) -> Tally {
    let mut tally = Tally::NOTHING;
    let mut rest = text;
    for _ in 0..text.len() {
        let Some((rec, behind)) = first(rest) else {
            break;
        };
        tally = tally.with(u64::from(crc32c(rec, &[])));
        rest = behind;
    }
    tally
}

/// Decodes each record, and counts those without fault.
fn decode_each(text: &[u8]) -> Tally {
    let mut tally = Tally::NOTHING;
    let mut rest = text;
    let mut at = 0;
    let mut prev = PrevRule::Is(Lsn(0));
    for _ in 0..text.len() {
        let Some((rec, behind)) = first(rest) else {
            break;
        };
        if let Ok(view) = decode(rec, Lsn(at), prev) {
            tally = tally.with(view.main().len() as u64);
        }
        prev = PrevRule::Is(Lsn(at));
        at = at.wrapping_add(rec.len() as u64);
        rest = behind;
    }
    tally
}

/// Copies the bytes where both are as long.
fn copy_over(from: &[u8], to: &mut [u8]) {
    if from.len() == to.len() {
        to.copy_from_slice(from);
    }
}

/// The CRC-32C of the first MiB, again and again, as often as there are whole MiB.
fn check_piece(text: &[u8]) -> u32 {
    let piece = text.chunks(PIECE).next().unwrap_or(&[]);
    let mut state = [0_u8; 4];
    for _ in text.chunks(PIECE) {
        state = crc32c(&state, piece).to_le_bytes();
    }
    u32::from_le_bytes(state)
}

/// How long each of the ways took.
#[derive(Clone, Copy)]
struct Times {
    made: Duration,
    copied: Duration,
    checked: Duration,
    decoded: Duration,
    pieces: Duration,
}

/// Makes so many bytes of records, and tells what was found of them, and how fast each way read them.
pub fn measure(rt: &HostRuntime, bytes: usize, is_timed: bool) -> Result<()> {
    let begun = Instant::now(rt)?;
    let text = make(rt.alloc(), bytes)?;
    let made = begun.elapsed(rt)?;
    let mut copy = vec![in rt.alloc(); 0_u8; text.len()]?;
    copy_over(text.as_slice(), copy.as_mut_slice());
    let begun = Instant::now(rt)?;
    copy_over(text.as_slice(), copy.as_mut_slice());
    let copied = begun.elapsed(rt)?;
    let begun = Instant::now(rt)?;
    let all = check_each(copy.as_slice());
    let checked = begun.elapsed(rt)?;
    let begun = Instant::now(rt)?;
    let good = decode_each(copy.as_slice());
    let decoded = begun.elapsed(rt)?;
    let begun = Instant::now(rt)?;
    let last = check_piece(copy.as_slice());
    let times = Times {
        made,
        copied,
        checked,
        decoded,
        pieces: begun.elapsed(rt)?,
    };
    println!(rt; "{} of {} records decoded", good.records, all.records)?;
    if is_timed {
        let mark = all.mark ^ good.mark ^ u64::from(last);
        tell(rt, text.len() as u64, good.records, times)?;
        println!(rt; "  (mark {mark:x})")?;
    }
    Ok(())
}

/// Prints how fast each way read so many bytes of so many records.
fn tell(rt: &HostRuntime, bytes: u64, records: u64, times: Times) -> Result<()> {
    let encode = megabytes(bytes, times.made);
    let crc = megabytes(bytes, times.checked);
    let decode = megabytes(bytes, times.decoded);
    let copy = megabytes(bytes, times.copied);
    let pieces = megabytes(bytes, times.pieces);
    println!(rt;
        "encode {encode} MB/s, crc32c {crc} MB/s, decode {decode} MB/s, copy {copy} MB/s"
    )?;
    let decoded = in_a_second(records, times.decoded);
    println!(rt; "crc32c of one piece {pieces} MB/s, {decoded} records decoded a second")?;
    let to_crc = hundredths(decode, crc);
    let to_copy = hundredths(decode, copy);
    println!(rt; "decode at {to_crc}% of the CRC's speed, {to_copy}% of the copy's")?;
    Ok(())
}
