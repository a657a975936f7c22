//! Cases of transactions: the commit log, the parents of subtransactions, the ids that are known to run,
//! snapshots and what they see, and what records do to all of these.
//!
//! A line `case NAME` begins a case, with nothing known. Each line below it is a step, whose first word names the
//! layer, in the words of PostgreSQL; a record has its notation and its bytes behind bars. Ids stand in lists with
//! commas; `-` is an empty list.
use crate::layers::Layers;
use crate::{known, parents, record_changes, snapshots, statuses};
use case_text::{Answer, BadLine, Wrong, bytes, parts, words};
use std::alloc::Global;

/// Answers the steps of each case of transactions in the text.
pub fn answer_all(rt: &HostRuntime, text: &str) -> anyhow::Result<()> {
    let mut layers = None;
    for (index, line) in text.lines().enumerate() {
        if let Some(name) = line.strip_prefix("case ") {
            layers = Some(Layers::new(rt.alloc()));
            println!(rt; "{name}")?;
            continue;
        }
        let Some(layers) = &mut layers else {
            continue;
        };
        if line.is_empty() || line.starts_with('#') {
            continue;
        }
        let text = reply(rt.alloc(), layers, line).map_err(|wrong| BadLine {
            line: index.saturating_add(1),
            wrong,
        })?;
        println!(rt; "{text}")?;
    }
    Ok(())
}

/// What is printed for a step: the step, and the answer.
fn reply(alloc: Global, layers: &mut Layers, line: &str) -> Result<String, Wrong> {
    let (asked, hex) = parts(line);
    let mut said = Answer::new(alloc);
    said.say("  ");
    said.say(asked);
    said.say(":");
    let words = words(alloc, asked)?;
    match *words.as_slice() {
        ["record", ref question @ ..] => {
            let data = bytes(alloc, hex)?;
            record_changes::answer(
                alloc,
                &mut said,
                &mut layers.state,
                question,
                data.as_slice(),
            )?;
        }
        [layer, ref question @ ..] => step(alloc, &mut said, layers, layer, question)?,
        _ => return Err(Wrong::Line),
    }
    said.finish()
}

/// Asks a layer that needs no record.
fn step(
    alloc: Global,
    said: &mut Answer,
    layers: &mut Layers,
    layer: &str,
    asked: &[&str],
) -> Result<(), Wrong> {
    match layer {
        "clog" => statuses::answer(alloc, said, &mut layers.log, asked),
        "subtrans" => parents::answer(alloc, said, &mut layers.subs, asked),
        "known" => known::answer(alloc, said, &mut layers.known, asked),
        "snapshot" => snapshots::answer(alloc, said, layers, asked),
        _ => Err(Wrong::Line),
    }
}
