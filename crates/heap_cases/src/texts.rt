use case_text::{Wrong, bytes, number_u32, words};
use std::alloc::Global;

/// The text that a notation stands for: a bar is a newline, and what stands between angle brackets is made:
/// `<a 63>` is so many letters, `<byte ff>` a byte, `<columns 1600>` so many columns in an array's elements, and
/// `<tables 256>` so many tables of one column.
pub fn text(alloc: Global, notation: &str) -> Result<Vec<u8>, Wrong> {
    let mut out = Vec::new(alloc);
    for part in notation.split('<') {
        match part.split_once('>') {
            Some((made, rest)) => {
                put_made(alloc, made, &mut out)?;
                put_plain(rest, &mut out)?;
            }
            None => put_plain(part, &mut out)?,
        }
    }
    Ok(out)
}

fn put_plain(part: &str, out: &mut Vec<u8>) -> Result<(), Wrong> {
    for byte in part.as_bytes() {
        out.push(if *byte == b'|' { b'\n' } else { *byte })?;
    }
    Ok(())
}

fn put_made(alloc: Global, made: &str, out: &mut Vec<u8>) -> Result<(), Wrong> {
    let words = words(alloc, made)?;
    match *words.as_slice() {
        ["byte", digits] => {
            let made = bytes(alloc, digits)?;
            out.extend_from_slice(made.as_slice())?;
            Ok(())
        }
        ["a", count] => put_letters(number_u32(count)?, out),
        ["columns", count] => put_columns(alloc, number_u32(count)?, out),
        ["tables", count] => put_tables(alloc, number_u32(count)?, out),
        _ => Err(Wrong::Line),
    }
}

fn put_letters(count: u32, out: &mut Vec<u8>) -> Result<(), Wrong> {
    for _ in 0..count {
        out.push(b'a')?;
    }
    Ok(())
}

fn put_columns(alloc: Global, count: u32, out: &mut Vec<u8>) -> Result<(), Wrong> {
    for i in 0..count {
        let column = format!(in alloc; "{{name=\"c{i}\",type=\"bool\"}},")?;
        out.extend_from_slice(column.as_bytes())?;
    }
    Ok(())
}

fn put_tables(alloc: Global, count: u32, out: &mut Vec<u8>) -> Result<(), Wrong> {
    for i in 0..count {
        let number = u64::from(i) + 1;
        let table = format!(in alloc;
            "[[table]]\nname=\"t{number}\"\noid={number}\nfile={number}\ncolumn=[{{name=\"c\",type=\"bool\"}}]\n"
        )?;
        out.extend_from_slice(table.as_bytes())?;
    }
    Ok(())
}
