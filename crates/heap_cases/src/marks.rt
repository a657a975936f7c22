//! The marks of a tuple's infomask (htup_details.h).
use case_text::Wrong;

/// The infomask of marks with commas between them; `-` is none.
pub fn mask(word: &str) -> Result<u16, Wrong> {
    let mut mask = 0;
    if word == "-" {
        return Ok(mask);
    }
    for name in word.split(',') {
        mask |= bits_of(name)?;
    }
    Ok(mask)
}

fn bits_of(name: &str) -> Result<u16, Wrong> {
    match name {
        "xmax_keyshr_lock" => Ok(0x0010),
        "xmax_excl_lock" => Ok(0x0040),
        "xmax_shr_lock" => Ok(0x0050),
        "xmax_lock_only" => Ok(0x0080),
        "xmin_committed" => Ok(0x0100),
        "xmin_invalid" => Ok(0x0200),
        "xmin_frozen" => Ok(0x0300),
        "xmax_committed" => Ok(0x0400),
        "xmax_invalid" => Ok(0x0800),
        "xmax_is_multi" => Ok(0x1000),
        _ => Err(Wrong::Line),
    }
}
