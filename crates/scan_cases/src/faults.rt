//! Sessions in which a call of the outside fails.

use crate::sessions::{session_of, source_of};
use crate::{report_over, words_of};
use outside::{MemoryArchive, MemorySink, MemorySource, Sink, Source, SteadySink};
use standby_cli::standby_main;
use std::alloc::AllocError;
use std::io;

/// An archive whose first call fails; then each write of a session's sink in turn, and each read of its source.
pub fn sessions(rt: &HostRuntime) -> io::Result<()> {
    archive_fails(rt)?;
    let session = session_of(rt, "line_by_line")?;
    let lines = session.lines.as_slice();
    for number in 1..8u64 {
        write_fails(rt, lines, number)?;
    }
    for number in 1..9u64 {
        read_fails(rt, lines, 8, number)?;
    }
    let mut long = Vec::new(rt.alloc());
    long.resize(5000, b'x')?;
    for number in 1..5u64 {
        read_fails(rt, long.as_slice(), 4096, number)?;
    }
    Ok(())
}

/// The first call of the archive fails.
fn archive_fails(rt: &HostRuntime) -> io::Result<()> {
    let mut session = session_of(rt, "line_by_line")?;
    let mut archive = MemoryArchive::new(rt.alloc(), session.archive, &[1]).map_err(
        |_| AllocError,
    )?;
    let mut source = source_of(rt, session.lines.as_slice())?;
    report_over(
        rt,
        "session, the archive fails",
        &["session"],
        &mut archive,
        &mut session.base,
        &mut source,
    )
}

/// The write of this number fails, after half of its bytes.
fn write_fails(rt: &HostRuntime, lines: &[u8], number: u64) -> io::Result<()> {
    let mut source = source_of(rt, lines)?;
    let mut out = MemorySink::new(rt.alloc(), &[number]).map_err(|_| AllocError)?;
    let status = hold(rt, &mut source, &mut out)?;
    print!(rt; "session, write {number} fails: ")?;
    tell(rt, lines, status, b"", out.written.as_slice())
}

/// The read of this number fails, where each gives so many bytes at most.
fn read_fails(rt: &HostRuntime, lines: &[u8], most: usize, number: u64) -> io::Result<()> {
    let source = source_of(rt, lines)?;
    let mut source = MemorySource::new(rt.alloc(), source, most, &[number]).map_err(
        |_| AllocError,
    )?;
    let mut out = SteadySink::new(rt.alloc());
    let status = hold(rt, &mut source, &mut out)?;
    let line: &[u8] = if status == 0 { b"" } else { b"fault source\n" };
    print!(rt; "session, read {number} of {most} bytes fails: ")?;
    tell(rt, lines, status, line, out.as_slice())
}

/// Holds a session over the log and the tables of the first one, and gives its status.
fn hold<S: Source, O: Sink>(rt: &HostRuntime, source: &mut S, out: &mut O) -> io::Result<u8> {
    let mut session = session_of(rt, "line_by_line")?;
    let words = words_of(rt.alloc(), &["session"])?;
    let status = standby_main(
        rt.alloc(),
        words.as_slice(),
        &mut session.archive,
        &mut session.base,
        source,
        out,
    );
    Ok(status)
}

/// Tells the status, how many lines were written, and whether they are the first bytes of what is written where no
/// call fails, and behind these the fault's line.
fn tell(rt: &HostRuntime, lines: &[u8], status: u8, line: &[u8], written: &[u8]) -> io::Result<()> {
    let mut source = source_of(rt, lines)?;
    let mut whole = SteadySink::new(rt.alloc());
    let _ = hold(rt, &mut source, &mut whole)?;
    let is_front = match written.strip_suffix(line) {
        Some(front) => whole.as_slice().starts_with(front),
        None => false,
    };
    let count = written.iter().filter(|byte| **byte == b'\n').count();
    let front = if is_front { "a front" } else { "no front" };
    println!(rt; "{status}, {count} lines, {front}")
}
