//! Times the page rule's check over pages of 60, 226 and 290 lines.

use crate::clock::in_a_second;
use anyhow::Result;
use heap_page::{HeapPage, Page, check};
use std::time::{Duration, Instant};

/// The header of a tuple without user data.
const HEAD: [u8; 23] = [
    188, 2, 0, 0, 0, 0, 0, 0, 0, 0, 0, 0, 0, 0, 0, 0, 1, 0, 2, 0, 2, 8, 24,
];

/// Fills a page without items with so many tuples that begin with that header, from the first line on or
/// from the last one.
fn fill(page: &mut HeapPage, lines: u16, from_last: bool, rest: &[u8]) {
    for earlier in 0..lines {
        let line = if from_last {
            lines - earlier
        } else {
            earlier + 1
        };
        let _answer = page.put(line, &HEAD, rest);
    }
}

/// How many of so many checks of the page say that it is one, each with another first byte.
fn accepted(page: &mut Page, checks: u32) -> u32 {
    let mut count: u32 = 0;
    for turn in 0..checks {
        page[0] = (turn % 251) as u8;
        if check(page) {
            count = count.saturating_add(1);
        }
    }
    count
}

/// How many of so many checks of one page accepted it, and how long they took.
fn time(
    rt: &HostRuntime,
    checks: u32,
    lines: u16,
    from_last: bool,
    rest: &[u8],
) -> Result<(u32, Duration)> {
    let mut filled = HeapPage::new();
    fill(&mut filled, lines, from_last, rest);
    let mut page = *filled.bytes();
    let begun = Instant::now(rt)?;
    let count = accepted(&mut page, checks);
    Ok((count, begun.elapsed(rt)?))
}

fn measure_one(
    rt: &HostRuntime,
    checks: u32,
    lines: u16,
    rest: &[u8],
    is_timed: bool,
) -> Result<()> {
    let (first, took) = time(rt, checks, lines, false, rest)?;
    let filled = in_a_second(u64::from(checks), took);
    let (second, took) = time(rt, checks, lines, true, rest)?;
    let mixed = in_a_second(u64::from(checks), took);
    println!(rt; "{lines} lines: {first} accepted, from the last line {second}")?;
    if is_timed {
        println!(rt; "  {filled} checks/s, from the last line {mixed}")?;
    }
    Ok(())
}

/// Checks pages that are full, or nearly so, each so often.
pub fn measure(rt: &HostRuntime, checks: u32, is_timed: bool) -> Result<()> {
    measure_one(rt, checks, 60, &[0; 105], is_timed)?;
    measure_one(rt, checks, 226, &[0; 9], is_timed)?;
    measure_one(rt, checks, 290, &[0; 1], is_timed)
}
