ghost use Rattle.std.specs.Prelude.{IfOk};
ghost use Rattle.case_text.specs.Words.{IsWordsOf};

use crate::wrong::Wrong;
use std::alloc::Global;
use std::io;

/// All of the standard input. It is text.
pub fn input(rt: &(impl Input + AllocGlobal)) -> Result<String, Wrong> {
    let text = io::read_to_string(rt.alloc(), rt.reader())?;
    Ok(text)
}

/// The words of a line, which white space separates.
pub fn words(alloc: Global, line: &str) -> Result<Vec<&str>, Wrong>
    ensures { IfOk result (λ words. IsWordsOf line.now words.items) }
{
    let words: Vec<&str> = line.split_whitespace().collect(alloc)?;
    Ok(words)
}

/// What a line asks, and the bytes in hex behind its notation, where it has one (`ASKED | NOTATION | HEX`); else
/// `-`, which is none.
pub fn parts(line: &str) -> (&str, &str) {
    match line.split_once(" | ") {
        Some((asked, rest)) => match rest.split_once(" | ") {
            Some((_, hex)) => (asked, hex),
            None => (asked, "-"),
        },
        None => (line, "-"),
    }
}
