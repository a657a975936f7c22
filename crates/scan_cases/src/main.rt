//! Runs `scan t` over small logs and small descriptions of tables, and then sessions, with all objects in memory, and
//! prints each answer's status and text. The logs, in data/cases, are made of their notation, in data/cases.note, by
//! an assembler of log records that shares nothing with this product. The descriptions, in data/schemas, and the
//! sessions, in data/sessions, were written and what has to be printed, in the file stdout, was worked out by hand.
#![tactic(auto)]

mod faults;
mod nodes;
mod schemas;
mod sessions;

use case_text::{bytes, number_u32};
use outside::{
    Archive, BaseDir, MemoryArchive, MemorySink, Source, SteadyArchive, SteadyBase, SteadySink,
    SteadySource,
};
use standby_cli::standby_main;
use std::alloc::{AllocError, Global};
use std::{fs, io};

const SEGMENT_FILE: &str = "000000010000000000000002";

/// The files with the segment's first bytes.
const CASES: [&str; 116] = [
    "plain",
    "empty_table",
    "first_header_unread",
    "no_bytes",
    "header_alone",
    "wrong_crc",
    "wrong_link",
    "first_link_at_itself",
    "no_running",
    "third_record_missing",
    "other_backup_end",
    "shutdown_checkpoint",
    "overflowed_running",
    "overflow_byte_alone",
    "uncommitted",
    "abort",
    "commit_with_subtransactions",
    "running_never_commits",
    "marked_committed",
    "long_commit",
    "delete",
    "delete_aborted",
    "hot_update",
    "multi_insert",
    "every_kind",
    "passed_over",
    "image",
    "image_not_applied",
    "bad_image",
    "bad_tuple",
    "place_taken",
    "line_0",
    "delete_absent",
    "longer_than_the_old_tuple",
    "greatest_line",
    "greatest_block",
    "next_block_not_made",
    "block_past_end",
    "several_blocks",
    "other_table",
    "null",
    "external",
    "compressed_text",
    "short_text",
    "short_number",
    "many_columns",
    "multixact",
    "multixact_updater",
    "multixact_of_lockers",
    "multixact_updaters",
    "multixact_of_two_updaters",
    "multixact_made_twice",
    "multixact_of_id_0",
    "multixact_marked_committed",
    "multixact_marked_invalid",
    "multixact_never_made",
    "multixact_frozen",
    "multixact_of_a_thousand",
    "multixact_made_later",
    "copy_freeze",
    "short_main_data",
    "prepared",
    "in_place",
    "minimal",
    "page_writes_off",
    "database_dropped",
    "greatest_xid",
    "greatest_subtransaction",
    "prune",
    "table_lock",
    "assignment",
    "compressed",
    "too_long",
    "longest_cut",
    "crosses_page",
    "second_page_missing",
    "second_page_of_timeline_2",
    "wrong_remaining_length",
    "second_page_of_another_address",
    "ends_at_page_end",
    "cut_in_length_field",
    "cut_in_record",
    "switch",
    "overwritten",
    "prune_redirect",
    "prune_no_lines",
    "prune_aborted",
    "prune_beside_image",
    "vacuum",
    "vacuum_of_all",
    "freeze",
    "freeze_of_a_locked_row",
    "visible",
    "visible_image",
    "lock_row",
    "truncate",
    "truncate_to_none",
    "truncate_to_as_many",
    "truncate_of_another_table",
    "truncated_and_grown",
    "drop",
    "drop_of_two",
    "drop_of_another_table",
    "drop_aborted",
    "prune_of_an_unused_line",
    "prune_to_an_unused_line",
    "vacuum_of_an_unused_line",
    "freeze_of_a_dead_line",
    "freeze_of_nine_columns",
    "freeze_short",
    "prune_of_a_block_past_the_end",
    "insert_behind_a_truncation",
    "insert_behind_a_drop",
    "insert_behind_no_prune",
    "insert_behind_a_prune",
    "refilled",
];

/// Logs over several segments, and the numbers of the segments whose files are there.
const SEGMENTED: [(&str, &[u8]); 4] = [
    ("row_after_switch", &[2, 3]),
    ("three_segments", &[2, 3, 4]),
    ("segment_of_another_system", &[2, 3]),
    ("segment_between_missing", &[2, 4]),
];

fn main(rt: HostRuntime) -> io::Result<()> {
    nodes::answer_all(&rt)?;
    let mut base = base_of(&rt, "worked")?;
    for name in CASES {
        let mut archive = archive_of(&rt, name)?;
        report(&rt, name, &["scan", "t"], &mut archive, &mut base)?;
    }
    for (name, segments) in SEGMENTED {
        let mut archive = SteadyArchive::new(rt.alloc());
        for segment in segments {
            put_segment(&rt, name, *segment, &mut archive)?;
        }
        report(&rt, name, &["scan", "t"], &mut archive, &mut base)?;
    }
    cut_at_segment_end(&rt, &mut base)?;
    other_words(&rt, &mut base)?;
    failures(&rt, &mut base)?;
    schemas::cases(&rt)?;
    schemas::failures(&rt)?;
    sessions::cases(&rt)
}

/// A record that begins 32 bytes before a segment's end, behind one that fills the rest of the segment, whose
/// file is kept in hex.
fn cut_at_segment_end(rt: &HostRuntime, base: &mut SteadyBase) -> io::Result<()> {
    let name = "cut_at_segment_end";
    let hex = fs::read_to_string(rt, "whole_segments/cut_at_segment_end.2")?;
    let segment = segment_of(rt.alloc(), hex.as_str())?;
    let mut archive = SteadyArchive::new(rt.alloc());
    archive
        .put(rt.alloc(), SEGMENT_FILE, segment.as_slice())
        .map_err(|_| AllocError)?;
    put_segment(rt, name, 3, &mut archive)?;
    report(rt, name, &["scan", "t"], &mut archive, base)
}

/// The bytes of a whole segment, most of which are runs of zeros.
fn segment_of(alloc: Global, hex: &str) -> io::Result<Vec<u8>> {
    let mut out = Vec::new(alloc);
    for part in hex.split('.') {
        match part.strip_prefix("00*") {
            Some(count) => {
                let count = number_u32(count).map_err(|_| io::ErrorKind::InvalidData)?;
                out.resize(out.len().saturating_add(count as usize), 0)?;
            }
            None => {
                let part = bytes(alloc, part).map_err(|_| io::ErrorKind::InvalidData)?;
                out.extend_from_slice(part.as_slice())?;
            }
        }
    }
    Ok(out)
}

/// Puts a segment of a case into the archive.
fn put_segment(
    rt: &HostRuntime,
    name: &str,
    segment: u8,
    archive: &mut SteadyArchive,
) -> io::Result<()> {
    let path = format!(in rt.alloc(); "cases/{name}.{segment}")?;
    let file = format!(in rt.alloc(); "00000001000000000000000{segment}")?;
    let bytes = fs::read(rt, path.as_str())?;
    archive
        .put(rt.alloc(), file.as_str(), bytes.as_slice())
        .map_err(|_| AllocError)?;
    Ok(())
}

/// Words other than `scan t`, each over the log of a case.
fn other_words(rt: &HostRuntime, base: &mut SteadyBase) -> io::Result<()> {
    let cases: [(&str, &str, &[&str]); 10] = [
        ("no words", "plain", &[]),
        ("one word", "plain", &["scan"]),
        ("three words", "plain", &["scan", "t", "t"]),
        ("another command", "plain", &["scam", "t"]),
        ("an empty table", "plain", &["scan", ""]),
        ("an unknown table", "plain", &["scan", "v"]),
        ("an unknown table, no scans", "header_alone", &["scan", "v"]),
        (
            "an unknown table, a refused log",
            "compressed",
            &["scan", "v"],
        ),
        ("another table", "other_table", &["scan", "u"]),
        ("another table without blocks", "plain", &["scan", "u"]),
    ];
    for (name, log, texts) in cases {
        let mut archive = archive_of(rt, log)?;
        report(rt, name, texts, &mut archive, base)?;
    }
    Ok(())
}

/// An archive without the segment, one that fails, and a sink whose second write fails after half of its
/// bytes.
fn failures(rt: &HostRuntime, base: &mut SteadyBase) -> io::Result<()> {
    let mut empty = SteadyArchive::new(rt.alloc());
    report(rt, "absent segment", &["scan", "t"], &mut empty, base)?;
    let files = archive_of(rt, "plain")?;
    let mut failing = MemoryArchive::new(rt.alloc(), files, &[1]).map_err(|_| AllocError)?;
    report(rt, "failing archive", &["scan", "t"], &mut failing, base)?;
    let words = words_of(rt.alloc(), &["scan", "t"])?;
    let mut archive = archive_of(rt, "plain")?;
    let mut out = MemorySink::new(rt.alloc(), &[2]).map_err(|_| AllocError)?;
    let mut none = SteadySource::new(rt.alloc(), b"").map_err(|_| AllocError)?;
    let status = standby_main(
        rt.alloc(),
        words.as_slice(),
        &mut archive,
        base,
        &mut none,
        &mut out,
    );
    print_answer(rt, "failing sink", status, out.written.as_slice())
}

/// Answers the words, over no lines, and prints the status and the text.
pub fn report<A: Archive, B: BaseDir>(
    rt: &HostRuntime,
    name: &str,
    texts: &[&str],
    archive: &mut A,
    base: &mut B,
) -> io::Result<()> {
    let mut none = SteadySource::new(rt.alloc(), b"").map_err(|_| AllocError)?;
    report_over(rt, name, texts, archive, base, &mut none)
}

/// Answers the words over the source, and prints the status and the text.
pub fn report_over<A: Archive, B: BaseDir, S: Source>(
    rt: &HostRuntime,
    name: &str,
    texts: &[&str],
    archive: &mut A,
    base: &mut B,
    source: &mut S,
) -> io::Result<()> {
    let words = words_of(rt.alloc(), texts)?;
    let mut out = SteadySink::new(rt.alloc());
    let status = standby_main(
        rt.alloc(),
        words.as_slice(),
        archive,
        base,
        source,
        &mut out,
    );
    print_answer(rt, name, status, out.as_slice())
}

/// Bytes that print nothing of their own are shown as `\\x` and two digits.
fn print_answer(rt: &HostRuntime, name: &str, status: u8, text: &[u8]) -> io::Result<()> {
    println!(rt; "{name}: {status}")?;
    for byte in text {
        match *byte {
            b'\n' => println!(rt; "")?,
            b'\t' => print!(rt; "\t")?,
            32..=126 => print!(rt; "{}", *byte as char)?,
            other => print!(rt; "\\x{other:02x}")?,
        }
    }
    println!(rt; "")
}

/// The words of a command line.
pub fn words_of(alloc: Global, texts: &[&str]) -> Result<Vec<String>, AllocError> {
    let mut words = Vec::new(alloc);
    for text in texts {
        words.push(String::from_str(alloc, text)?)?;
    }
    Ok(words)
}

/// An archive with the segment of a case.
pub fn archive_of(rt: &HostRuntime, name: &str) -> io::Result<SteadyArchive> {
    let path = format!(in rt.alloc(); "cases/{name}")?;
    let bytes = fs::read(rt, path.as_str())?;
    let mut archive = SteadyArchive::new(rt.alloc());
    archive
        .put(rt.alloc(), SEGMENT_FILE, bytes.as_slice())
        .map_err(|_| AllocError)?;
    Ok(archive)
}

/// A base folder with a description.
pub fn base_of(rt: &HostRuntime, name: &str) -> io::Result<SteadyBase> {
    let path = format!(in rt.alloc(); "schemas/{name}")?;
    let bytes = fs::read(rt, path.as_str())?;
    let mut base = SteadyBase::new(rt.alloc());
    base.put(rt.alloc(), "schema.toml", bytes.as_slice())
        .map_err(|_| AllocError)?;
    Ok(base)
}
