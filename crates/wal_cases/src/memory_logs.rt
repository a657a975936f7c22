//! Logs in memory, and what is asked of any log.

use crate::archives::failed;
use case_text::{ShowHex, Wrong, bytes, number_u8, number_u64, position};
use outside::{LogBytes, MemoryLog, SteadyLog};
use pg_types::Lsn;
use std::alloc::Global;

/// `POSITION HEX`, then `most N cut POSITION failing CALL` or not, then `ask POSITION ROOM ..`.
pub fn answer(rt: &HostRuntime, question: &[&str]) -> Result<(), Wrong> {
    let [start, hex, ref rest @ ..] = *question else {
        return Err(Wrong::Line);
    };
    let mut log = steady(rt.alloc(), start, hex)?;
    match *rest {
        ["most", most, "cut", cut, "failing", call, ref behind @ ..] => {
            let most = usize::from(number_u8(most)?);
            let cuts = [position(cut)?.0];
            let fails = [number_u64(call)?];
            let mut log = MemoryLog::new(rt.alloc(), log, most, &cuts, &fails)?;
            ask(rt, &mut log, behind)
        }
        _ => ask(rt, &mut log, rest),
    }
}

fn steady(alloc: Global, start: &str, hex: &str) -> Result<SteadyLog, Wrong> {
    let text = bytes(alloc, hex)?;
    Ok(SteadyLog::new(alloc, position(start)?, text.as_slice())?)
}

/// `ask POSITION ROOM ..`: asks for the bytes at each position, of which so many find room.
pub fn ask<L: LogBytes>(rt: &HostRuntime, log: &mut L, asked: &[&str]) -> Result<(), Wrong> {
    let mut rest = asked;
    for _ in 0..asked.len() {
        match *rest {
            ["ask", at, room, ref behind @ ..] => {
                ask_once(rt, log, position(at)?, number_u8(room)?)?;
                rest = behind;
            }
            _ => break,
        }
    }
    let owner = log.owner(Lsn(0));
    println!(rt; "timeline {}, {} faults", owner.0, log.faults())?;
    if rest.is_empty() {
        Ok(())
    } else {
        Err(Wrong::Line)
    }
}

fn ask_once<L: LogBytes>(rt: &HostRuntime, log: &mut L, at: Lsn, room: u8) -> Result<(), Wrong> {
    let mut buf = [0u8; 255];
    let (front, _) = buf.split_at_mut(usize::from(room));
    match log.bytes_at(at, front) {
        Ok(count) => {
            let (told, _) = front.split_at(count.min(front.len()));
            print!(rt; "{}, ", ShowHex(told))?;
        }
        Err(fail) => print!(rt; "{}, ", failed(fail))?,
    }
    Ok(())
}
