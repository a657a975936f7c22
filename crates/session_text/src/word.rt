ghost use Rattle.std.specs.Prelude.{◌≡◌, ◌≤◌, ◌^◌, ◌∷◌, [], ℕ, IfNone, IfSome, Some};
ghost use Rattle.session_text.specs.Lines.{pieces};
ghost use Rattle.session_text.specs.Requests.{number_of};
ghost use Rattle.session_text.specs.Digits.{next_value};

/// What stands before the first space and what stands behind it.
#[tactic(auto, using(crate::proofs::Pieces::cut_at, crate::proofs::Pieces::uncut))]
pub fn cut(text: &[u8]) -> Option<(&[u8], &[u8])>
    ensures some { IfSome result (λ parts. pieces 32 text.now ≡ parts.0.now ∷ pieces 32 parts.1.now) }
    ensures none { IfNone result (pieces 32 text.now ≡ text.now ∷ []) }
{
    match text.iter().position(|byte| *byte == b' ') {
        None => None,
        Some(space) => {
            let (front, rest) = text.split_at(space);
            let (_, back) = rest.split_at(1);
            Some((front, back))
        }
    }
}

/// The number that a word writes in decimal digits, without a sign. `None` where it writes none, or one of more than
/// 64 bits.
pub fn read_number(word: &[u8]) -> Option<u64>
    ensures some { IfSome result (λ number. number_of word.now ≡ Some number) }
    ensures none { IfNone result ((n : ℕ) → number_of word.now ≡ Some n → 2 ^ 64 ≤ n) }
{
    if word.is_empty() {
        return None;
    }
    let mut value = 0u64;
    for byte in word {
        match next_value(value, *byte) {
            None => return None,
            Some(next) => value = next,
        }
    }
    Some(value)
}

/// The number with one more digit, if this is a digit and the number has 64 bits.
fn next_value(value: u64, byte: u8) -> Option<u64>
    ensures { result ≡ next_value value byte }
{
    if !byte.is_ascii_digit() {
        return None;
    }
    match value.checked_mul(10) {
        None => None,
        Some(tens) => tens.checked_add(u64::from(byte - b'0')),
    }
}
