ghost use Rattle.std.specs.Prelude.{◌≡◌, ◌≤◌, length};

use case_text::{Answer, Wrong, bytes, number_u8, number_u16, number_u32, place};
use heap_page::{HeapPage, Item};
use heap_tuple::TupleView;
use pg_types::Place;
use std::alloc::Global;

/// A tuple's first 23 bytes, by xmin, xmax, command id, ctid, infomask2, infomask and hoff
/// (`HeapTupleHeaderData`, htup_details.h).
pub fn header(fields: &[&str]) -> Result<[u8; 23], Wrong> {
    match *fields {
        [xmin, xmax, cid, ctid, mask2, mask, hoff] => {
            let ids = [number_u32(xmin)?, number_u32(xmax)?, number_u32(cid)?];
            let masks = [number_u16(mask2)?, number_u16(mask)?];
            Ok(header_of(ids, place(ctid)?, masks, number_u8(hoff)?))
        }
        _ => Err(Wrong::Line),
    }
}

fn header_of(ids: [u32; 3], ctid: Place, masks: [u16; 2], hoff: u8) -> [u8; 23] {
    let (xmin, xmax, cid) = (
        ids[0].to_le_bytes(),
        ids[1].to_le_bytes(),
        ids[2].to_le_bytes(),
    );
    let block = ctid.block.to_le_bytes();
    let line = ctid.line.to_le_bytes();
    let (mask2, mask) = (masks[0].to_le_bytes(), masks[1].to_le_bytes());
    // (of a block's number the higher half stands first)
    [
        xmin[0], xmin[1], xmin[2], xmin[3], xmax[0], xmax[1], xmax[2], xmax[3], cid[0], cid[1],
        cid[2], cid[3], block[2], block[3], block[0], block[1], line[0], line[1], mask2[0],
        mask2[1], mask[0], mask[1], hoff,
    ]
}

/// A tuple by the fields of its header, and its bytes from 23 on.
#[derive(Drop)]
pub struct Written {
    pub head: [u8; 23],
    pub rest: Vec<u8>,
}

pub fn parts(alloc: Global, fields: &[&str]) -> Result<Written, Wrong> {
    match fields.split_last() {
        Some((rest, front)) => Ok(Written {
            head: header(front)?,
            rest: bytes(alloc, *rest)?,
        }),
        None => Err(Wrong::Line),
    }
}

/// The bytes of such a tuple.
pub fn tuple(alloc: Global, fields: &[&str]) -> Result<Vec<u8>, Wrong> {
    let written = parts(alloc, fields)?;
    let mut out = Vec::new(alloc);
    out.extend_from_slice(&written.head)?;
    out.extend_from_slice(written.rest.as_slice())?;
    Ok(out)
}

/// A tuple as it is written.
fn show_tuple(answer: &mut Answer, bytes: &[u8]) {
    let Some(tuple) = TupleView::read(bytes) else {
        answer.say("no tuple");
        return;
    };
    answer.number(tuple.xmin().0);
    answer.field(" ", u64::from(tuple.xmax()));
    answer.field(" ", u64::from(tuple.cid()));
    answer.place(" ", tuple.ctid());
    answer.mask(" ", &tuple.infomask2().to_be_bytes());
    answer.mask(" ", &tuple.infomask().to_be_bytes());
    answer.field(" ", u64::from(tuple.hoff()));
    answer.say(" ");
    let bytes = tuple.bytes();
    answer.bytes(&bytes[23..]);
}

/// What stands at a line of a page.
pub fn show_item(answer: &mut Answer, item: Item<'_>) {
    match item {
        Item::Unused => answer.say("unused"),
        Item::Normal(bytes) => show_tuple(answer, bytes),
        Item::Redirect(to) => answer.field("redirect ", u64::from(to)),
        Item::Dead => answer.say("dead"),
    }
}

/// A page: its position, and its lines up to the last that is in use.
pub fn page_text(alloc: Global, page: &HeapPage) -> Result<String, Wrong> {
    let mut answer = Answer::new(alloc);
    let count = page.lines();
    answer.position("at ", page.lsn());
    answer.field(", ", u64::from(count));
    answer.say(" lines");
    for k in 0..count {
        let line = k + 1;
        answer.field("\n    ", u64::from(line));
        answer.say(": ");
        show_item(&mut answer, page.item(line));
    }
    answer.finish()
}
