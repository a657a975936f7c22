ghost use Rattle.std.specs.Prelude.{◌≡◌, ◌++◌, OnOk};
ghost use Rattle.std.specs.Fmt.{decimal};
ghost use Rattle.pg_types.specs.Names.{lsn_text};
ghost use Rattle.session_model.specs.Texts.{place_text};

use pg_types::{Lsn, NoMemory, Place};
use std::alloc::Global;

/// Appends a word behind others.
pub fn push_word(words: &[u8], word: &str, text: &mut Vec<u8>) -> Result<(), NoMemory>
    ensures { OnOk result (text.new.items ≡ text.old.items ++ (words.now ++ word.now)) }
{
    text.extend_from_slice(words)?;
    text.extend_from_slice(word.as_bytes())?;
    Ok(())
}

/// Appends a position behind some words.
pub fn push_position(words: &[u8], at: Lsn, text: &mut Vec<u8>) -> Result<(), NoMemory>
    ensures { OnOk result (text.new.items ≡ text.old.items ++ (words.now ++ lsn_text at.0)) }
{
    text.extend_from_slice(words)?;
    at.print(text)?;
    Ok(())
}

/// Appends a number behind some words.
pub fn push_numbered(
    alloc: Global,
    words: &[u8],
    number: u64,
    text: &mut Vec<u8>,
) -> Result<(), NoMemory>
    ensures { OnOk result (text.new.items ≡ text.old.items ++ (words.now ++ decimal number)) }
{
    text.extend_from_slice(words)?;
    let number = format!(in alloc; "{number}")?;
    text.extend_from_slice(number.as_bytes())?;
    Ok(())
}

/// Appends a place behind some words.
pub fn push_placed(
    alloc: Global,
    words: &[u8],
    place: Place,
    text: &mut Vec<u8>,
) -> Result<(), NoMemory>
    ensures { OnOk result (text.new.items ≡ text.old.items ++ (words.now ++ place_text place.block place.line)) }
{
    text.extend_from_slice(words)?;
    let place = format!(in alloc; "{},{}", place.block, place.line)?;
    text.extend_from_slice(place.as_bytes())?;
    Ok(())
}
