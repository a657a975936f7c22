//! Cases of the log as bytes: positions and numbers, the checksum, page headers, records, the log in an archive
//! and the reader. Each line of the standard input is a case: its name, what is asked, and where bytes are asked
//! about, their notation and their hex (`NAME: QUESTION | NOTATION | HEX`). Each line of the standard output is
//! the answer, whose expected text was worked out by hand or published.
#![tactic(auto)]

mod archives;
mod cuts;
mod encodings;
mod folders;
mod headers;
mod logs;
mod memory_logs;
mod records;
mod sinks;
mod vocabulary;

use case_text::{BadLine, Wrong, bytes, input, parts, words};

fn main(rt: HostRuntime) -> anyhow::Result<()> {
    let text = input(&rt)?;
    for (index, line) in text.as_str().lines().enumerate() {
        answer(&rt, line).map_err(|wrong| BadLine {
            line: index.saturating_add(1),
            wrong,
        })?;
    }
    Ok(cuts::answer_all(&rt)?)
}

/// Answers a case. A remark and an empty line are none.
fn answer(rt: &HostRuntime, line: &str) -> Result<(), Wrong> {
    if line.starts_with('#') || line.is_empty() {
        return Ok(());
    }
    let (asked, hex) = parts(line);
    let asked = words(rt.alloc(), asked)?;
    let text = bytes(rt.alloc(), hex)?;
    let asked = asked.as_slice();
    match *asked {
        [name, kind, ref behind @ ..] => {
            print!(rt; "{name} ")?;
            let (_, question) = asked.split_at(1);
            match kind {
                "archive" => archives::answer(rt, behind),
                "folder" => folders::answer(rt, behind),
                "sink" => sinks::answer(rt, behind),
                "output" => sinks::output(rt, behind),
                _ => layer(rt, kind, question, text.as_slice()),
            }
        }
        _ => Err(Wrong::Line),
    }
}

/// Asks the layer of the log whose kind of question it is.
fn layer(rt: &HostRuntime, kind: &str, question: &[&str], text: &[u8]) -> Result<(), Wrong> {
    match kind {
        "position" | "read-position" | "segment" | "lists" | "numbers" | "crc" | "count" => {
            vocabulary::answer(rt, question)
        }
        "header" | "import-header" => headers::answer(rt, question, text),
        "head" | "decode" => records::answer(rt, question, text),
        "encode" => encodings::answer(rt, question, text),
        "log" => logs::answer(rt, question, text),
        _ => Err(Wrong::Line),
    }
}
