//! Reads its standard input as a session would, and prints what each of its lines asks. Then it reads the same text
//! again from memory, at most 1 and 7 bytes at once, and with a read that fails, and prints whether the lines asked
//! the same, and how many of them were asked before the failure.
#![tactic(auto)]

use outside::{MemorySource, Source, StdinSource, SteadySource};
use pg_types::{Fail, NoMemory};
use session_text::{LineReader, Request, read_request};
use std::alloc::Global;
use std::io::{self, Write};

/// What the lines of a source asked.
#[derive(Drop)]
struct Asked {
    /// The bytes that were read.
    read: Vec<u8>,
    /// A line for each request.
    text: Vec<u8>,
    /// How many lines asked something.
    requests: u32,
    /// A read failed.
    failed: bool,
}

fn main(rt: HostRuntime) -> anyhow::Result<()> {
    let alloc = rt.alloc();
    let mut input = StdinSource::new(rt.reader());
    let asked = ask(alloc, &mut input)?;
    io::writer(&rt).write_all(asked.text.as_slice())?;
    println!(rt;
        "read: {} bytes, {} requests",
        input.taken(),
        asked.requests
    )?;
    for most in [1usize, 7] {
        let again = ask_again(alloc, asked.read.as_slice(), most, &[])?;
        let same = again.text.as_slice() == asked.text.as_slice();
        println!(rt;
            "at most {most} at once: {}",
            if same { "the same" } else { "different" }
        )?;
    }
    let cut = ask_again(alloc, asked.read.as_slice(), 16, &[3])?;
    println!(rt;
        "third read of 16 bytes fails: {} requests, {}",
        cut.requests,
        if cut.failed {
            "failed"
        } else {
            "read to the end"
        }
    )?;
    Ok(())
}

/// Asks what a text asks that is read from memory, at most so many bytes at once, where the listed reads fail.
fn ask_again(alloc: Global, text: &[u8], most: usize, fails: &[u64]) -> Result<Asked, NoMemory> {
    let text = &text[..text.len().min(0x1000_0000)];
    let source = SteadySource::new(alloc, text)?;
    let mut source = MemorySource::new(alloc, source, most, fails)?;
    ask(alloc, &mut source)
}

/// Asks what the lines of a source ask, up to its end, or to the first read that fails.
fn ask<S: Source>(alloc: Global, source: &mut S) -> Result<Asked, NoMemory> {
    let mut asked = Asked {
        read: Vec::new(alloc),
        text: Vec::new(alloc),
        requests: 0,
        failed: false,
    };
    let mut lines = LineReader::new(alloc);
    let mut buffer = [0; 4096];
    for _ in 0..100_000u32 {
        let count = match source.read(&mut buffer) {
            Ok(count) => count,
            Err(Fail::Memory) => return Err(NoMemory),
            Err(Fail::Failed) => {
                asked.failed = true;
                return Ok(asked);
            }
        };
        if count == 0 {
            break;
        }
        for byte in &buffer[..count.min(4096)] {
            asked.read.push(*byte)?;
            if let Some(line) = lines.take(alloc, *byte)? {
                tell(alloc, &mut asked, line.as_slice())?;
            }
        }
    }
    if let Some(line) = lines.last() {
        tell(alloc, &mut asked, line.as_slice())?;
    }
    Ok(asked)
}

/// Tells what a line asks.
fn tell(alloc: Global, asked: &mut Asked, line: &[u8]) -> Result<(), NoMemory> {
    asked.requests = asked.requests.saturating_add(1);
    match read_request(line) {
        Request::Status => asked.text.extend_from_slice(b"status")?,
        Request::Replay { count } => tell_number(alloc, asked, b"replay ", u64::from(count))?,
        Request::Open { table } => {
            asked.text.extend_from_slice(b"open ")?;
            asked.text.extend_from_slice(table.as_bytes())?;
        }
        Request::Next { id } => tell_number(alloc, asked, b"next ", id)?,
        Request::Close { id } => tell_number(alloc, asked, b"close ", id)?,
        Request::Unreadable => asked.text.extend_from_slice(b"unreadable")?,
    }
    asked.text.push(b'\n')?;
    Ok(())
}

/// Tells a request with a number.
fn tell_number(
    alloc: Global,
    asked: &mut Asked,
    command: &[u8],
    number: u64,
) -> Result<(), NoMemory> {
    asked.text.extend_from_slice(command)?;
    let number = format!(in alloc; "{number}")?;
    asked.text.extend_from_slice(number.as_bytes())?;
    Ok(())
}
