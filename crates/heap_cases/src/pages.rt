ghost use Rattle.std.specs.Prelude.{◌≡◌};
ghost use Rattle.heap_page.specs.Shown.{IsState};

use crate::items::{header, page_text, parts, show_item};
use case_text::{Answer, Wrong, bytes, number_u8, number_u16, position};
use heap_page::{HeapPage, LineState, Page, PageError, PageImage, check, shows_page};
use std::alloc::Global;

/// Answers a line about the block, which may be no page.
pub fn answer(alloc: Global, block: &mut Page, words: &[&str]) -> Result<String, Wrong> {
    match *words {
        ["show"] => whole_text(alloc, block),
        ["item", line] => item_text(alloc, block, number_u16(line)?),
        _ => {
            let text = change(alloc, block, words)?;
            Ok(String::from_str(alloc, text)?)
        }
    }
}

fn whole_text(alloc: Global, block: &Page) -> Result<String, Wrong> {
    match HeapPage::read(block) {
        Some(page) => page_text(alloc, &page),
        None => Ok(String::from_str(alloc, "no page")?),
    }
}

fn item_text(alloc: Global, block: &Page, line: u16) -> Result<String, Wrong> {
    let mut answer = Answer::new(alloc);
    match HeapPage::read(block) {
        Some(page) => show_item(&mut answer, page.item(line)),
        None => answer.say("no page"),
    }
    answer.finish()
}

fn change(alloc: Global, block: &mut Page, words: &[&str]) -> Result<&'static str, Wrong> {
    match *words {
        ["init"] => {
            let page = HeapPage::new();
            *block = *page.bytes();
            Ok("ok")
        }
        ["filled", byte] => {
            *block = [number_u8(byte)?; 8192];
            Ok("ok")
        }
        ["byte", at, value] => set_byte(block, at, value),
        ["image", hole_at, data] => {
            let data = bytes(alloc, data)?;
            restored(block, number_u16(hole_at)?, data.as_slice())
        }
        ["check"] => Ok(if check(block) { "yes" } else { "no" }),
        _ => kept(alloc, block, words),
    }
}

/// Puts a byte, by which the block may become no page.
fn set_byte(block: &mut Page, at: &str, value: &str) -> Result<&'static str, Wrong> {
    let value = number_u8(value)?;
    let at = number_u16(at)?;
    match block.get_mut(at as usize) {
        Some(place) => *place = value,
        None => return Err(Wrong::Number),
    }
    Ok("ok")
}

/// Puts a byte into a page, unless that would be none.
pub fn set_page_byte(page: &mut HeapPage, at: &str, value: &str) -> Result<&'static str, Wrong> {
    let mut block = *page.bytes();
    let text = set_byte(&mut block, at, value)?;
    match HeapPage::read(&block) {
        Some(changed) => {
            *page = changed;
            Ok(text)
        }
        None => Ok("no page"),
    }
}

/// Puts the page that an image shows over the block.
fn restored(block: &mut Page, hole_at: u16, bytes: &[u8]) -> Result<&'static str, Wrong> {
    let image = PageImage { hole_at, bytes };
    if !shows_page(&image) {
        return Ok("bad page");
    }
    let mut page = HeapPage::read(block).unwrap_or(HeapPage::new());
    page.restore(&image);
    *block = *page.bytes();
    Ok("ok")
}

/// A change that asks for a page.
fn kept(alloc: Global, block: &mut Page, words: &[&str]) -> Result<&'static str, Wrong> {
    let Some(mut page) = HeapPage::read(block) else {
        return Ok("no page");
    };
    let text = change_page(alloc, &mut page, words)?;
    *block = *page.bytes();
    Ok(text)
}

/// What a change of a page answers.
fn shown(answer: Result<(), PageError>) -> &'static str {
    match answer {
        Ok(()) => "ok",
        Err(PageError::Full) => "full",
        Err(PageError::NoLine) => "no line",
        Err(PageError::BadPage) => "bad page",
    }
}

/// Changes a page in the way that the words say.
pub fn change_page(
    alloc: Global,
    page: &mut HeapPage,
    words: &[&str],
) -> Result<&'static str, Wrong> {
    match *words {
        ["lsn", at] => {
            page.set_lsn(position(at)?);
            Ok("ok")
        }
        ["line", line, "unused"] => state(page, line, LineState::Unused),
        ["line", line, "dead"] => state(page, line, LineState::Dead),
        ["line", line, "redirect", to] => redirect(page, line, number_u16(to)?),
        ["put", line, ref fields @ ..] => {
            let line = number_u16(line)?;
            let tuple = parts(alloc, fields)?;
            Ok(shown(page.put(line, &tuple.head, tuple.rest.as_slice())))
        }
        ["head", line, ref fields @ ..] => {
            let line = number_u16(line)?;
            Ok(shown(page.set_head(line, &header(fields)?)))
        }
        _ => Err(Wrong::Line),
    }
}

fn state(page: &mut HeapPage, line: &str, to: LineState) -> Result<&'static str, Wrong>
    requires { IsState to }
{
    let line = number_u16(line)?;
    Ok(shown(page.set_line(line, to)))
}

/// A line that is redirected to another one, whose number has 15 bits.
fn redirect(page: &mut HeapPage, line: &str, to: u16) -> Result<&'static str, Wrong> {
    if to >= 0x8000 {
        return Err(Wrong::Number);
    }
    state(page, line, LineState::Redirect(to))
}
