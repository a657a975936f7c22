//! Records of the log.
use case_text::{ShowHex, ShowPosition, Wrong, position};
use pg_types::Lsn;
use wal_record::{
    BlockView, PrevRule, RecordFault, RecordHead, RecordView, decode_head, lend, shape_of,
};

pub fn answer(rt: &HostRuntime, question: &[&str], text: &[u8]) -> Result<(), Wrong> {
    match *question {
        ["head", "at", at, "after", before] => { head(rt, text, position(at)?, prev_rule(before)?) }
        ["decode", "at", at, "after", before] => {
            whole(rt, text, position(at)?, prev_rule(before)?)
        }
        _ => Err(Wrong::Line),
    }
}

/// The record before begins at a position, or is `unknown`.
pub fn prev_rule(word: &str) -> Result<PrevRule, Wrong> {
    match word {
        "unknown" => Ok(PrevRule::Below),
        _ => Ok(PrevRule::Is(position(word)?)),
    }
}

fn head(rt: &HostRuntime, text: &[u8], at: Lsn, prev: PrevRule) -> Result<(), Wrong> {
    match decode_head(text, at, prev) {
        Ok(head) => show_head(rt, head)?,
        Err(fault) => print!(rt; "refused: {}", fault_text(fault))?,
    }
    println!(rt; "")?;
    Ok(())
}

fn whole(rt: &HostRuntime, text: &[u8], at: Lsn, prev: PrevRule) -> Result<(), Wrong> {
    match shape_of(text, at, prev) {
        Ok(shape) => show(rt, &lend(text, shape))?,
        Err(fault) => print!(rt; "refused: {}", fault_text(fault))?,
    }
    println!(rt; "")?;
    Ok(())
}

pub fn fault_text(fault: RecordFault) -> &'static str {
    match fault {
        RecordFault::Zero => "length 0",
        RecordFault::Short => "length below a header's",
        RecordFault::Manager => "manager",
        RecordFault::Prev => "link",
        RecordFault::TooLong => "too long",
        RecordFault::Crc => "CRC",
        RecordFault::Layout => "layout",
        RecordFault::Compressed => "compressed",
    }
}

fn show_head(rt: &HostRuntime, head: RecordHead) -> Result<(), Wrong> {
    print!(rt;
        "length {} xid {} link {} info {:02X} manager {}",
        head.total,
        head.xid.0,
        ShowPosition(head.prev),
        head.info,
        head.manager
    )?;
    Ok(())
}

fn show(rt: &HostRuntime, view: &RecordView<'_>) -> Result<(), Wrong> {
    show_head(rt, view.head())?;
    for id in 0..=255u8 {
        if let Some(block) = view.block(id) {
            print!(rt; ", block {id}")?;
            show_block(rt, &block)?;
        }
    }
    print!(rt; ", main ")?;
    show_bytes(rt, view.main())
}

fn show_block(rt: &HostRuntime, block: &BlockView<'_>) -> Result<(), Wrong> {
    let file = block.locator;
    print!(rt; " of {}/{}/{}", file.space, file.db, file.rel)?;
    print!(rt; " fork {} number {}", block.fork, block.block)?;
    if block.will_init {
        print!(rt; " init")?;
    }
    if let Some(image) = &block.image {
        print!(rt; " image ")?;
        show_bytes(rt, image.bytes)?;
        let apply = if image.apply { "" } else { " not applied" };
        print!(rt; " hole at {}{apply}", image.hole_at)?;
    }
    print!(rt; " data ")?;
    show_bytes(rt, block.payload)
}

/// Bytes in hex; more than 32 that are equal as one of them and their number.
fn show_bytes(rt: &HostRuntime, bytes: &[u8]) -> Result<(), Wrong> {
    match bytes.first() {
        Some(first) if bytes.len() > 32 && bytes.iter().all(|byte| byte == first) => {
            print!(rt; "{first:02x}*{}", bytes.len())?;
        }
        _ => print!(rt; "{}", ShowHex(bytes))?,
    }
    Ok(())
}
