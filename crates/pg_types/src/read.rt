ghost use Rattle.std.specs.Prelude.{◌≡◌, ◌≢◌, ◌<◌, ◌^◌, ℕ, IfNone, IfSome, length, slice_index};
ghost use Rattle.std.specs.Str.Parse.{digits_value};
ghost use Rattle.pg_types.specs.Names.{IsShortHex, SpellsLsn};

use crate::names::Lsn;

impl Lsn {
    /// The position that a text spells: one to eight hex digits, a slash, one to eight hex digits, in
    /// either case. It takes no memory.
    pub fn read(text: &[u8]) -> Option<Lsn>
        ensures some { IfSome result (λ at. SpellsLsn text.now at.0) }
        ensures none { IfNone result ((at : ℕ) → ¬ SpellsLsn text.now at) }
    {
        let Some(slash) = slash_of(text) else {
            return None;
        };
        let (high, rest) = text.split_at(slash);
        let (_, low) = rest.split_at(1);
        let Some(high) = read_hex(high) else {
            return None;
        };
        let Some(low) = read_hex(low) else {
            return None;
        };
        Some(Lsn(high * 0x1_0000_0000 + low))
    }
}

// The place of the first slash.
fn slash_of(text: &[u8]) -> Option<usize>
    ensures within { IfSome result (λ place. place < length text.now) }
    ensures slash { IfSome result (λ place. slice_index text.now place ≡ 47) }
    ensures first { IfSome result (λ place. (k : ℕ) → k < place → slice_index text.now k ≢ 47) }
    ensures none { IfNone result ((k : ℕ) → k < length text.now → slice_index text.now k ≢ 47) }
{
    text.iter().position(|byte| *byte == b'/')
}

// The number that one to eight hex digits write.
fn read_hex(text: &[u8]) -> Option<u64>
    ensures hex { IfSome result (λ _. IsShortHex text.now) }
    ensures value { IfSome result (λ value. value ≡ digits_value 16 text.now) }
    ensures small { IfSome result (λ value. value < 2 ^ 32) }
    ensures none { IfNone result (¬ IsShortHex text.now) }
{
    if text.is_empty() || text.len() > 8 {
        return None;
    }
    let mut value = 0u64;
    for byte in text {
        match char::from(*byte).to_digit(16) {
            Some(digit) => value = value * 16 + u64::from(digit),
            None => return None,
        }
    }
    Some(value)
}
