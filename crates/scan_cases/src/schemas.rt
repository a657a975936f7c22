//! Descriptions of the tables, over the log of the case `plain`, which has one row of `t`.

use crate::{archive_of, base_of, report};
use outside::{MemoryArchive, MemoryBase, SteadyBase};
use std::alloc::AllocError;
use std::{fs, io};

/// The files with the descriptions.
const CASES: [&str; 23] = [
    "empty",
    "no_toml",
    "no_utf8",
    "database_0",
    "table_no_array",
    "name_with_space",
    "oid_past_32_bits",
    "file_absent",
    "no_columns",
    "unknown_type",
    "missing_out_of_range",
    "another_key",
    "another_key_above",
    "twice",
    "twice_oid",
    "column_twice",
    "many",
    "two_faults",
    "no_tables",
    "added_columns",
    "dropped_column",
    "other_types",
    "other_database",
];

/// Each description in turn, and one that is as long as it may be, and one byte longer.
pub fn cases(rt: &HostRuntime) -> io::Result<()> {
    let mut archive = archive_of(rt, "plain")?;
    for name in CASES {
        let mut base = base_of(rt, name)?;
        report(rt, name, &["scan", "t"], &mut archive, &mut base)?;
    }
    let mut base = base_of(rt, "other_file")?;
    report(rt, "another name", &["scan", "t"], &mut archive, &mut base)?;
    report(
        rt,
        "another file",
        &["scan", "accounts"],
        &mut archive,
        &mut base,
    )?;
    let mut longest = lengthened(rt, 1_048_576)?;
    report(rt, "longest", &["scan", "t"], &mut archive, &mut longest)?;
    let mut longer = lengthened(rt, 1_048_577)?;
    report(rt, "too long", &["scan", "t"], &mut archive, &mut longer)?;
    let mut base = base_of(rt, "twice")?;
    let mut refused = archive_of(rt, "compressed")?;
    report(
        rt,
        "a refused log too",
        &["scan", "t"],
        &mut refused,
        &mut base,
    )
}

/// A base folder without a description, and one of which the first call fails, or only the second.
pub fn failures(rt: &HostRuntime) -> io::Result<()> {
    let mut archive = archive_of(rt, "plain")?;
    let mut none = SteadyBase::new(rt.alloc());
    report(
        rt,
        "no description",
        &["scan", "t"],
        &mut archive,
        &mut none,
    )?;
    report(
        rt,
        "bad words, no description",
        &["scan"],
        &mut archive,
        &mut none,
    )?;
    let mut failing = failing_base(rt, 1)?;
    report(
        rt,
        "failing base",
        &["scan", "t"],
        &mut archive,
        &mut failing,
    )?;
    let mut failing = failing_base(rt, 1)?;
    report(
        rt,
        "bad words, failing base",
        &["scan"],
        &mut archive,
        &mut failing,
    )?;
    let mut failing = failing_base(rt, 2)?;
    report(
        rt,
        "base failing later",
        &["scan", "t"],
        &mut archive,
        &mut failing,
    )?;
    let files = archive_of(rt, "plain")?;
    let mut failing = MemoryArchive::new(rt.alloc(), files, &[1]).map_err(|_| AllocError)?;
    report(
        rt,
        "no description, failing archive",
        &["scan", "t"],
        &mut failing,
        &mut none,
    )
}

/// The worked description, of which the call with this number fails.
fn failing_base(rt: &HostRuntime, call: u64) -> io::Result<MemoryBase> {
    let files = base_of(rt, "worked")?;
    let base = MemoryBase::new(rt.alloc(), files, &[call]).map_err(|_| AllocError)?;
    Ok(base)
}

/// The worked description, filled up with line ends to this length.
fn lengthened(rt: &HostRuntime, length: usize) -> io::Result<SteadyBase> {
    let mut text = fs::read(rt, "schemas/worked")?;
    text.resize(length, b'\n')?;
    let mut base = SteadyBase::new(rt.alloc());
    base.put(rt.alloc(), "schema.toml", text.as_slice())
        .map_err(|_| AllocError)?;
    Ok(base)
}
