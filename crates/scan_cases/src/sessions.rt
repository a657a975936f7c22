//! Sessions over the logs of the cases. A session is a file of data/sessions: a line `log LOG`, a line `schema SCHEMA`, an
//! empty line, and behind it the bytes of the source as they are. What has to be answered was worked out by hand.

use crate::{archive_of, base_of, faults, report_over};
use outside::{SteadyArchive, SteadyBase, SteadySource};
use std::alloc::AllocError;
use std::{fs, io};

/// The files with the sessions.
const CASES: [&str; 32] = [
    "line_by_line",
    "empty_source",
    "status",
    "not_admitted",
    "trifles",
    "sixty_four_scans",
    "ids_after_a_close",
    "no_such_scan",
    "ten_thousand",
    "in_turns",
    "before_and_after_an_update",
    "no_blocks",
    "last_line_without_newline",
    "words",
    "compressed",
    "not_yet",
    "no_page",
    "no_tuple",
    "damaged",
    "toasted",
    "bad_row",
    "wrong_checksum",
    "twice",
    "cancelled",
    "locked_by_oid",
    "pending_ends_by_its_oldest",
    "pending_ends_by_a_whole_record",
    "subtransaction_aborts_alone",
    "hundred_thousand_subtransactions",
    "multixact_updater",
    "multixact_made_later",
    "copy_freeze",
];

/// A session: what it replays, and the bytes of its source.
#[derive(Drop)]
pub struct Session {
    pub archive: SteadyArchive,
    pub base: SteadyBase,
    pub lines: Vec<u8>,
}

/// Each session in turn, and those that are made here.
pub fn cases(rt: &HostRuntime) -> io::Result<()> {
    for name in CASES {
        let mut session = session_of(rt, name)?;
        hold(rt, name, &mut session)?;
    }
    long_lines(rt)?;
    other_begins(rt)?;
    faults::sessions(rt)
}

/// The session of a file.
pub fn session_of(rt: &HostRuntime, name: &str) -> io::Result<Session> {
    let path = format!(in rt.alloc(); "sessions/{name}")?;
    let text = fs::read(rt, path.as_str())?;
    let (log, text) = header_of(text.as_slice(), "log ")?;
    let (schema, text) = header_of(text, "schema ")?;
    let (_, lines) = header_of(text, "")?;
    Ok(Session {
        archive: archive_of(rt, log)?,
        base: base_of(rt, schema)?,
        lines: Vec::from_slice(rt.alloc(), lines)?,
    })
}

/// What stands behind a word in a file's first line, and the lines behind that.
fn header_of<'a>(text: &'a [u8], word: &str) -> io::Result<(&'a str, &'a [u8])> {
    let end = text.iter().position(|byte| *byte == b'\n');
    let Some(end) = end else {
        return Err(io::ErrorKind::InvalidData.into());
    };
    let (line, rest) = text.split_at(end);
    let (_, rest) = rest.split_at(1);
    let line = str::from_utf8(line).map_err(|_| io::ErrorKind::InvalidData)?;
    match line.strip_prefix(word) {
        Some(value) => Ok((value, rest)),
        None => Err(io::ErrorKind::InvalidData.into()),
    }
}

/// Holds the session, and prints its name, its status and its answers.
fn hold(rt: &HostRuntime, name: &str, session: &mut Session) -> io::Result<()> {
    let name = format!(in rt.alloc(); "session {name}")?;
    let mut source = source_of(rt, session.lines.as_slice())?;
    report_over(
        rt,
        name.as_str(),
        &["session"],
        &mut session.archive,
        &mut session.base,
        &mut source,
    )
}

/// A source of these bytes.
pub fn source_of(rt: &HostRuntime, lines: &[u8]) -> Result<SteadySource, AllocError> {
    let lines = &lines[..lines.len().min(0x1000_0000)];
    SteadySource::new(rt.alloc(), lines).map_err(|_| AllocError)
}

/// Lines of 4096 and 4097 bytes and of a million, each with a short one behind it; the last one is not ended.
fn long_lines(rt: &HostRuntime) -> io::Result<()> {
    let mut session = session_of(rt, "empty_source")?;
    for length in [4096usize, 4097, 1_000_000] {
        for word in ["open ", "replay "] {
            push_line(word, length, &mut session.lines)?;
            session.lines.extend_from_slice(b"\nclose 1\n")?;
        }
    }
    push_line("replay ", 1_000_000, &mut session.lines)?;
    hold(rt, "of long lines", &mut session)
}

/// A word, and digits up to this length of both, which write the number 1.
fn push_line(word: &str, length: usize, lines: &mut Vec<u8>) -> Result<(), AllocError> {
    let digits = length.saturating_sub(word.len()).saturating_sub(1);
    lines.extend_from_slice(word.as_bytes())?;
    lines.resize(lines.len().saturating_add(digits), b'0')?;
    lines.push(b'1')?;
    Ok(())
}

/// Where no session begins, though the source has lines: a word too many, and no description.
fn other_begins(rt: &HostRuntime) -> io::Result<()> {
    let mut session = session_of(rt, "line_by_line")?;
    let mut source = source_of(rt, session.lines.as_slice())?;
    report_over(
        rt,
        "session of two words",
        &["session", "t"],
        &mut session.archive,
        &mut session.base,
        &mut source,
    )?;
    session.base = SteadyBase::new(rt.alloc());
    hold(rt, "without a description", &mut session)
}
