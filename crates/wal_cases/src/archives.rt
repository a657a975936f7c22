//! Archives in memory: their files, and the log of timeline 1 as those have it.
ghost use Rattle.std.specs.Prelude.{◌≡◌, true};
ghost use Rattle.outside.specs.Faults.{HasCause, Rose};

use crate::memory_logs::ask;
use case_text::{ShowHex, Wrong, bytes, number_u8, number_u64};
use outside::{Archive, LogBytes, MemoryArchive, SteadyArchive};
use pg_types::{Fail, Lsn};
use wal_archive::ArchiveLog;

/// The segments of these cases have 1 MiB.
const SEGMENT: u32 = 0x10_0000;

/// `file NAME HEX ..`, then `failing CALL` or not, then `fetch NAME AT MOST ..` of files, or `ask L N ..` of
/// the log.
pub fn answer(rt: &HostRuntime, question: &[&str]) -> Result<(), Wrong> {
    if let ["known-after-its-log", "failing", call] = *question {
        return known_after(rt, number_u64(call)?);
    }
    let mut files = SteadyArchive::new(rt.alloc());
    let mut rest = question;
    for _ in 0..question.len() {
        match *rest {
            ["file", name, hex, ref behind @ ..] => {
                let contents = bytes(rt.alloc(), hex)?;
                files.put(rt.alloc(), name, contents.as_slice())?;
                rest = behind;
            }
            _ => break,
        }
    }
    match *rest {
        ["failing", call, ref behind @ ..] => {
            let mut archive = MemoryArchive::new(rt.alloc(), files, &[number_u64(call)?])?;
            asks(rt, &mut archive, behind)
        }
        _ => asks(rt, &mut files, rest),
    }
}

fn asks<A: Archive>(rt: &HostRuntime, archive: &mut A, asked: &[&str]) -> Result<(), Wrong> {
    match *asked {
        ["fetch", ..] => fetches(rt, archive, asked),
        _ => ask_over(rt, archive, asked),
    }
}

fn ask_over<A: Archive>(rt: &HostRuntime, archive: &mut A, asked: &[&str]) -> Result<(), Wrong> {
    let mut log = ArchiveLog::plain(archive, SEGMENT);
    ask(rt, &mut log, asked)
}

/// `fetch NAME AT MOST ..`: reads so many bytes at most of each file, and then tells the faults.
pub fn fetches<A: Archive>(rt: &HostRuntime, archive: &mut A, asked: &[&str]) -> Result<(), Wrong> {
    let mut rest = asked;
    for _ in 0..asked.len() {
        match *rest {
            ["fetch", name, at, most, ref behind @ ..] => {
                fetch(rt, archive, name, number_u64(at)?, number_u8(most)?)?;
                rest = behind;
            }
            _ => break,
        }
    }
    println!(rt; "{} faults", archive.faults())?;
    if rest.is_empty() {
        Ok(())
    } else {
        Err(Wrong::Line)
    }
}

fn fetch<A: Archive>(
    rt: &HostRuntime,
    archive: &mut A,
    name: &str,
    at: u64,
    most: u8,
) -> Result<(), Wrong> {
    let mut buf = [0u8; 255];
    let (front, _) = buf.split_at_mut(usize::from(most));
    match archive.fetch(name, at, front) {
        Ok(Some(count)) => {
            let (read, _) = front.split_at(count.min(front.len()));
            print!(rt; "{}, ", ShowHex(read))?;
        }
        Ok(None) => print!(rt; "absent, ")?,
        Err(fail) => print!(rt; "{}, ", failed(fail))?,
    }
    Ok(())
}

/// The word for a call that failed.
pub fn failed(fail: Fail) -> &'static str {
    match fail {
        Fail::Failed => "failed",
        Fail::Memory => "out of memory",
    }
}

/// An archive without files is asked through a log that borrows it, and afterwards for its faults.
fn known_after(rt: &HostRuntime, call: u64) -> Result<(), Wrong> {
    let files = SteadyArchive::new(rt.alloc());
    let mut archive = MemoryArchive::new(rt.alloc(), files, &[call])?;
    let mut buf = [0u8; 4];
    let failed = fails(&mut archive, &mut buf);
    println!(rt; "failed {failed}, {} faults", archive.faults())?;
    Ok(())
}

/// A call over any log, which keeps to the log's parts.
fn read_twice<L: LogBytes>(log: &mut L, buf: &mut [u8]) -> Result<usize, Fail>
    ensures same { L.same log.old log.new }
    ensures cause { HasCause (L.fault_count log.old) (L.fault_count log.new) result }
{
    match log.bytes_at(Lsn(0x20_0000), buf) {
        Ok(0) => log.bytes_at(Lsn(0x20_0001), buf),
        Ok(found) => Ok(found),
        Err(fail) => Err(fail),
    }
}

/// So its owner knows the archive afterwards: this is proved by the contract of `LogBytes` alone.
fn fails<A: Archive>(archive: &mut A, buf: &mut [u8]) -> bool
    ensures rose { result ≡ true → Rose (A.fault_count archive.old) (A.fault_count archive.new) }
    ensures files { A.files archive.new ≡ A.files archive.old }
{
    let mut log = ArchiveLog::plain(archive, SEGMENT);
    match read_twice(&mut log, buf) {
        Err(Fail::Failed) => true,
        _ => false,
    }
}
