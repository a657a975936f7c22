//! Sinks in memory, and standard output.

use crate::archives::failed;
use case_text::{ShowHex, Wrong, bytes, number_u64};
use outside::{MemorySink, Sink, StdoutSink, SteadySink};
use pg_types::Fail;

/// `failing CALL` or not, then `write HEX ..`.
pub fn answer(rt: &HostRuntime, question: &[&str]) -> Result<(), Wrong> {
    match *question {
        ["failing", call, ref behind @ ..] => {
            let mut sink = MemorySink::new(rt.alloc(), &[number_u64(call)?])?;
            writes(rt, &mut sink, behind)?;
            println!(rt;
                "{}, {} faults",
                ShowHex(sink.written.as_slice()),
                sink.faults()
            )?;
        }
        _ => {
            let mut sink = SteadySink::new(rt.alloc());
            writes(rt, &mut sink, question)?;
            println!(rt; "{}, {} faults", ShowHex(sink.as_slice()), sink.faults())?;
        }
    }
    Ok(())
}

/// `HEX`: the bytes go to standard output itself, and then it is told how that ended.
pub fn output(rt: &HostRuntime, question: &[&str]) -> Result<(), Wrong> {
    let [hex] = *question else {
        return Err(Wrong::Line);
    };
    let text = bytes(rt.alloc(), hex)?;
    let mut sink = StdoutSink::new(rt);
    let answer = sink.write(text.as_slice());
    tell(rt, answer)?;
    println!(rt; "{} faults", sink.faults())?;
    Ok(())
}

fn writes<O: Sink>(rt: &HostRuntime, sink: &mut O, asked: &[&str]) -> Result<(), Wrong> {
    let mut rest = asked;
    for _ in 0..asked.len() {
        match *rest {
            ["write", hex, ref behind @ ..] => {
                let text = bytes(rt.alloc(), hex)?;
                tell(rt, sink.write(text.as_slice()))?;
                rest = behind;
            }
            _ => break,
        }
    }
    if rest.is_empty() {
        Ok(())
    } else {
        Err(Wrong::Line)
    }
}

fn tell(rt: &HostRuntime, answer: Result<(), Fail>) -> Result<(), Wrong> {
    match answer {
        Ok(()) => print!(rt; "taken, ")?,
        Err(fail) => print!(rt; "{}, ", failed(fail))?,
    }
    Ok(())
}
