//! Times the layers: encoding and decoding of records, the reader over a log in the folder `archive` of the current
//! folder, the replay of that log into blocks, the page rule's check, and the replay of transactions. It makes such a
//! log too. A person runs it, by the scripts under bench/. With no word it runs each over little, and prints no times.
#![tactic(auto)]

mod clock;
mod events;
mod maker;
mod pages;
mod reading;
mod records;
mod replay;
mod samples;
mod transaction_replay;
mod transactions;
mod tree_replay;
mod trees;

use anyhow::Result;
use std::env;

/// The size of a segment of the log.
const SEGMENT: u32 = 0x100_0000;

/// The system identifier that the pages of the log name.
const SYSTEM: u64 = 7;

/// Where the log begins: behind the header of the first page of segment 2.
const START: u64 = 0x200_0028;

fn usage(rt: &HostRuntime) -> Result<()> {
    println!(rt;
        "usage: bench_layers records MIB, make SEGMENTS, read, redo, pages CHECKS, transactions COUNT, or subtransactions COUNT"
    )?;
    Ok(())
}

/// Runs each benchmark over little.
fn run_small(rt: &HostRuntime) -> Result<()> {
    records::measure(rt, 0x2000, false)?;
    reading::read(rt, false)?;
    replay::replay(rt, false)?;
    pages::measure(rt, 10, false)?;
    transactions::measure_small(rt, 100)?;
    trees::measure_small(rt, 640)
}

/// Runs the benchmark of this name, over so much.
fn run(rt: &HostRuntime, name: &str, count: Option<u32>) -> Result<()> {
    match (name, count) {
        ("records", Some(mebibytes)) => records::measure(rt, (mebibytes as usize) << 20, true),
        ("make", Some(segments)) => maker::make(rt, segments),
        ("read", None) => reading::read(rt, true),
        ("redo", None) => replay::replay(rt, true),
        ("pages", Some(checks)) => pages::measure(rt, checks, true),
        ("transactions", Some(transactions)) => transactions::measure(rt, transactions),
        ("subtransactions", Some(subtransactions)) => trees::measure(rt, subtransactions),
        _ => usage(rt),
    }
}

fn main(rt: HostRuntime) -> Result<()> {
    let mut words = env::args(&rt)?.skip(1);
    let name = words.next();
    let second = words.next();
    let count = match &second {
        Some(text) => text.as_str().parse::<u32>().ok(),
        None => None,
    };
    match &name {
        Some(name) => run(&rt, name.as_str(), count),
        None => run_small(&rt),
    }
}
