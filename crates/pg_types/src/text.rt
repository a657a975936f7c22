ghost use Rattle.std.specs.Prelude.{◌≡◌, ◌+◌, ◌-◌, ◌*◌, ◌/◌, ◌%◌, ◌^◌, ◌<◌, ◌≤◌, ◌++◌, ◌∷◌, true, length, take, drop, OnOk, OnErr};
ghost use Rattle.std.specs.Fmt.{digits, digit_glyph};
ghost use Rattle.pg_types.specs.Names.{IsSegmentSize, fixed_hex, lsn_text, segment_name_text};

use crate::fail::NoMemory;
use crate::names::{Lsn, Tli};
use std::marker::Model;

impl Lsn {
    /// Appends the position as it is printed everywhere, its high and low 32 bits in upper-case hex
    /// without leading zeros and a slash between them.
    pub fn print(self, out: &mut Vec<u8>) -> Result<(), NoMemory>
        ensures ok { OnOk result (out.new.items ≡ out.old.items ++ lsn_text self.0) }
        ensures err { OnErr result (out.new.items ≡ out.old.items) }
    {
        let mut text = [b'/'; 17];
        let low = put_hex((self.0 % 0x1_0000_0000) as u32, &mut text, 9);
        text[low - 1] = b'/';
        let high = put_hex((self.0 / 0x1_0000_0000) as u32, &mut text, low - 9);
        out.extend_from_slice(&text[high..])?;
        Ok(())
    }
}

/// Appends the name of a segment's file: 24 upper-case hex digits.
pub fn segment_name(tli: Tli, segment: u64, segsize: u32, out: &mut Vec<u8>) -> Result<(), NoMemory>
    requires size { IsSegmentSize segsize }
    requires below { segment * segsize < 2 ^ 63 }
    ensures ok { OnOk result (out.new.items ≡ out.old.items ++ segment_name_text tli.0 segment segsize) }
    ensures err { OnErr result (out.new.items ≡ out.old.items) }
{
    let name = SegmentName::new(tli, segment, segsize);
    out.extend_from_slice(name.as_str().as_bytes())?;
    Ok(())
}

/// The name of a segment's file. It takes no memory. Contracts see it as its bytes.
#[derive(Drop)]
pub struct SegmentName {
    text: [u8; 24],
}

impl Model for SegmentName {
    ghost use Rattle.std.specs.Prelude.{List, ℕ};
    ghost use Rattle.std.specs.Str.{IsAscii};

    ghost Value = { List ℕ };

    ghost view = { λ name. name.text };

    ghost invariant = { λ name. IsAscii name.text };
}

impl SegmentName {
    /// 24 upper-case hex digits.
    pub fn new(tli: Tli, segment: u64, segsize: u32) -> SegmentName
        requires size { IsSegmentSize segsize }
        requires below { segment * segsize < 2 ^ 63 }
        ensures { result ≡ segment_name_text tli.0 segment segsize }
    {
        let text = digits_of_segment(tli, segment, segsize);
        SegmentName { text }
    }

    pub fn as_str(&self) -> &str
        ensures { result.now ≡ self.now }
    {
        str::from_utf8(&self.text).unwrap()
    }
}

fn digits_of_segment(tli: Tli, segment: u64, segsize: u32) -> [u8; 24]
    requires size { IsSegmentSize segsize }
    requires below { segment * segsize < 2 ^ 63 }
    ensures { result ≡ segment_name_text tli.0 segment segsize }
{
    let per = 0x1_0000_0000 / segsize as u64;
    let mut name = [b'0'; 24];
    put_fixed_hex(tli.0, &mut name, 0);
    put_fixed_hex((segment / per) as u32, &mut name, 8);
    put_fixed_hex((segment % per) as u32, &mut name, 16);
    name
}

// Writes the digits of `n` in front of the place `start + 8`, and answers where they begin.
fn put_hex(n: u32, text: &mut [u8; 17], start: usize) -> usize
    requires { start + 8 ≤ 17 }
    ensures low { start ≤ result }
    ensures high { result < start + 8 }
    ensures written { drop result text.new ≡ digits 16 true n ++ drop (start + 8) text.old }
{
    let mut places = 8;
    let mut rest = n;
    while places > 0 {
        places -= 1;
        text[start + places] = hex_digit(rest % 16);
        rest /= 16;
        if rest == 0 {
            return start + places;
        }
    }
    start
}

// Writes the eight lowest digits of `n` from the place `start` on.
fn put_fixed_hex(n: u32, text: &mut [u8; 24], start: usize)
    requires { start + 8 ≤ 24 }
    ensures { text.new ≡ take start text.old ++ fixed_hex 8 n ++ drop (start + 8) text.old }
{
    let mut places = 8;
    let mut rest = n;
    while places > 0 {
        places -= 1;
        text[start + places] = hex_digit(rest % 16);
        rest /= 16;
    }
}

// The upper-case hex digit of a number below 16.
fn hex_digit(value: u32) -> u8
    requires { value < 16 }
    ensures { result ≡ digit_glyph true value }
{
    if value < 10 {
        b'0' + value as u8
    } else {
        b'A' + (value as u8 - 10)
    }
}
