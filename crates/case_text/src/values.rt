ghost use Rattle.std.specs.Prelude.{◌≡◌, ◌<◌, IfOk};
ghost use Rattle.std.specs.Char.{digit_value};
ghost use Rattle.case_text.specs.Values.{Writes};

use crate::wrong::Wrong;
use pg_types::{Locator, Lsn, Place};
use std::alloc::Global;

/// A number below 2^64: decimal digits, or `0x` and hex digits.
pub fn number_u64(word: &str) -> Result<u64, Wrong>
    ensures { IfOk result (λ number. Writes word.now number) }
{
    match word.strip_prefix("0x") {
        Some(digits) => u64::from_str_radix(digits, 16).map_err(|_| Wrong::Number),
        None => word.parse::<u64>().map_err(|_| Wrong::Number),
    }
}

/// The same, below 2^32.
pub fn number_u32(word: &str) -> Result<u32, Wrong>
    ensures { IfOk result (λ number. Writes word.now number) }
{
    u32::try_from(number_u64(word)?).map_err(|_| Wrong::Number)
}

/// The same, below 2^16.
pub fn number_u16(word: &str) -> Result<u16, Wrong>
    ensures { IfOk result (λ number. Writes word.now number) }
{
    u16::try_from(number_u64(word)?).map_err(|_| Wrong::Number)
}

/// The same, below 2^8.
pub fn number_u8(word: &str) -> Result<u8, Wrong>
    ensures { IfOk result (λ number. Writes word.now number) }
{
    u8::try_from(number_u64(word)?).map_err(|_| Wrong::Number)
}

/// `yes` or `no`.
pub fn yes(word: &str) -> Result<bool, Wrong> {
    match word {
        "yes" => Ok(true),
        "no" => Ok(false),
        _ => Err(Wrong::Yes),
    }
}

/// A position as `16/B374D848`.
pub fn position(word: &str) -> Result<Lsn, Wrong> {
    Lsn::read(word.as_bytes()).ok_or(Wrong::Position)
}

/// A place of a tuple as `0,1`: the block from 0 and the line from 1.
pub fn place(word: &str) -> Result<Place, Wrong> {
    let (block, line) = word.split_once(',').ok_or(Wrong::Place)?;
    Ok(Place {
        block: number_u32(block)?,
        line: number_u16(line)?,
    })
}

/// The file of a relation as `1663/5/16384`: tablespace, database, file number.
pub fn locator(word: &str) -> Result<Locator, Wrong> {
    let (space, rest) = word.split_once('/').ok_or(Wrong::Locator)?;
    let (db, rel) = rest.split_once('/').ok_or(Wrong::Locator)?;
    Ok(Locator {
        space: number_u32(space)?,
        db: number_u32(db)?,
        rel: number_u32(rel)?,
    })
}

/// Bytes, two hex digits each: parts between dots, each of which may be repeated, as `ff*28` or
/// `0a.00*31`. A word `-` has none.
pub fn bytes(alloc: Global, word: &str) -> Result<Vec<u8>, Wrong> {
    let mut out = Vec::new(alloc);
    if word == "-" {
        return Ok(out);
    }
    for part in word.split('.') {
        match part.split_once('*') {
            Some((digits, count)) => repeat(digits, number_u32(count)?, &mut out)?,
            None => repeat(part, 1, &mut out)?,
        }
    }
    Ok(out)
}

fn repeat(digits: &str, count: u32, out: &mut Vec<u8>) -> Result<(), Wrong> {
    for _ in 0..count {
        put(digits.as_bytes(), out)?;
    }
    Ok(())
}

fn put(digits: &[u8], out: &mut Vec<u8>) -> Result<(), Wrong> {
    for pair in digits.chunks(2) {
        match *pair {
            [high, low] => out.push(digit(high)? * 16 + digit(low)?)?,
            _ => return Err(Wrong::Bytes),
        }
    }
    Ok(())
}

fn digit(text: u8) -> Result<u8, Wrong>
    ensures below { IfOk result (λ digit. digit < 16) }
    ensures value { IfOk result (λ digit. digit ≡ digit_value text) }
{
    let digit = char::from(text).to_digit(16).ok_or(Wrong::Bytes)?;
    Ok(digit as u8)
}
