//! Headers of pages of the log.
ghost use Rattle.std.specs.Prelude.{if◌then◌else◌, is_some};
ghost use Rattle.std.specs.Bool.{OnTrue};
ghost use Rattle.wal_page.specs.Page.{HasInfo};

use case_text::{ShowHex, ShowPosition, Wrong, number_u32, number_u64, position};
use pg_types::{Tli, is_segment_size};
use wal_page::{Expect, PageFault, PageHead, read_page_header, write_page_header};

pub fn answer(rt: &HostRuntime, question: &[&str], text: &[u8]) -> Result<(), Wrong> {
    match *question {
        [
            "header",
            "at",
            at,
            "system",
            system,
            "segments",
            size,
            "timeline",
            tli,
        ] => {
            let size = number_u32(size)?;
            if !is_segment_size(size) {
                println!(rt; "no segment size")?;
                return Ok(());
            }
            let expect = Expect {
                known: Some((number_u64(system)?, size)),
                tli: Tli(number_u32(tli)?),
            };
            show(rt, read_page_header(text, position(at)?, &expect), text)
        }
        ["import-header", "at", at, "timeline", tli] => {
            let expect = Expect {
                known: None,
                tli: Tli(number_u32(tli)?),
            };
            show(rt, read_page_header(text, position(at)?, &expect), text)
        }
        _ => Err(Wrong::Line),
    }
}

fn show(rt: &HostRuntime, read: Result<PageHead, PageFault>, text: &[u8]) -> Result<(), Wrong> {
    match read {
        Ok(head) => {
            print!(rt;
                "info {} timeline {} at {} remaining {}",
                head.info,
                head.tli.0,
                ShowPosition(head.at),
                head.rem
            )?;
            if let Some((system, size)) = head.long {
                print!(rt; " system {system} segments {size}")?;
            }
            written(rt, &head, text)
        }
        Err(fault) => {
            println!(rt; "refused: {}", fault_text(fault))?;
            Ok(())
        }
    }
}

fn fault_text(fault: PageFault) -> &'static str {
    match fault {
        PageFault::Short => "too few bytes",
        PageFault::Magic => "magic",
        PageFault::Info => "info",
        PageFault::Address => "address",
        PageFault::Timeline => "timeline",
        PageFault::System => "system",
        PageFault::Sizes => "sizes",
    }
}

/// Writes the header again over bytes ff, and says whether it is what was read.
fn written(rt: &HostRuntime, head: &PageHead, text: &[u8]) -> Result<(), Wrong> {
    if !may_be_written(head) {
        println!(rt; ", not to be written")?;
        return Ok(());
    }
    let mut out = [0xffu8; 42];
    let length = write_page_header(head, &mut out);
    let (front, behind) = out.split_at(length.min(42));
    let (read, _) = text.split_at(front.len().min(text.len()));
    if front == read {
        println!(rt; ", written the same, before {}", ShowHex(behind))?;
    } else {
        println!(rt; ", written {}", ShowHex(front))?;
    }
    Ok(())
}

fn may_be_written(head: &PageHead) -> bool
    ensures { OnTrue result (HasInfo head.now) }
{
    head.info < 16 && head.info & 2 == if head.long.is_some() { 2 } else { 0 }
}
