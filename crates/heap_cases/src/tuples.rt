ghost use Rattle.std.specs.Prelude.{◌≡◌};

use crate::items::{header, tuple};
use crate::kinds::columns;
use crate::printed::of_tuple;
use crate::rows::row_text;
use case_text::{Answer, Wrong, bytes, number_u16, number_u32};
use heap_tuple::{MaxOf, TupleView, is_lock_only, is_tuple, is_tuple_head};
use std::alloc::Global;

/// Answers a line about a tuple.
pub fn answer(alloc: Global, words: &[&str]) -> Result<String, Wrong> {
    match *words {
        ["bytes", data] => {
            let data = bytes(alloc, data)?;
            yes_or_no(alloc, is_tuple(data.as_slice()))
        }
        ["locks", mask] => yes_or_no(alloc, is_lock_only(number_u16(mask)?)),
        ["head", ref fields @ .., len] => {
            let len = number_u32(len)?;
            yes_or_no(alloc, is_tuple_head(&header(fields)?, len as usize))
        }
        ["read", ref fields @ ..] => view_text(alloc, tuple(alloc, fields)?.as_slice()),
        ["row", kinds, ref fields @ ..] => {
            let columns = columns(alloc, kinds)?;
            row_text(alloc, tuple(alloc, fields)?.as_slice(), columns.as_slice())
        }
        ["print", columns, ref fields @ ..] => of_tuple(alloc, columns, fields),
        _ => Err(Wrong::Line),
    }
}

fn yes_or_no(alloc: Global, truth: bool) -> Result<String, Wrong> {
    let text = if truth { "yes" } else { "no" };
    Ok(String::from_str(alloc, text)?)
}

/// The fields of the tuple that these bytes are.
fn view_text(alloc: Global, bytes: &[u8]) -> Result<String, Wrong> {
    let mut answer = Answer::new(alloc);
    match TupleView::read(bytes) {
        Some(view) => show_fields(&mut answer, &view),
        None => answer.say("no tuple"),
    }
    answer.finish()
}

fn show_fields(answer: &mut Answer, view: &TupleView<'_>) {
    answer.field("xmin ", view.xmin().0);
    answer.field(", xmax ", u64::from(view.xmax()));
    answer.field(", cid ", u64::from(view.cid()));
    answer.place(", ctid ", view.ctid());
    answer.field(", columns ", u64::from(view.columns()));
    answer.field(", hoff ", u64::from(view.hoff()));
    answer.say(", deleter ");
    match view.max_of() {
        MaxOf::None => answer.say("none"),
        MaxOf::Xid(xid) => answer.number(xid.0),
        MaxOf::Multi(id) => answer.field("multixact ", u64::from(id)),
    }
    answer.say(", data ");
    answer.bytes(view.user_data());
}
