ghost use Rattle.std.specs.Prelude.{◌≡◌, ◌<◌, IfOk};
ghost use Rattle.page_store.specs.Content.{table_count};

use crate::items::page_text;
use crate::pages::{change_page, set_page_byte};
use case_text::{Wrong, number_u16, number_u32};
use page_store::{Pool, PoolFault};
use pg_types::Tag;
use std::alloc::Global;

/// Answers a line about the blocks of the two tables: the line's first words name a table, from 0, and a
/// block.
pub fn answer(alloc: Global, pool: &mut Pool, words: &[&str]) -> Result<String, Wrong>
    requires { table_count pool.old ≡ 2 }
    ensures { table_count pool.new ≡ 2 }
{
    match *words {
        ["blocks", table] => {
            let count = pool.blocks(tag(table, "0")?.table);
            Ok(format!(in alloc; "{count}")?)
        }
        ["look", table, block] => look(alloc, pool, tag(table, block)?),
        _ => Ok(String::from_str(alloc, changed(alloc, pool, words)?)?),
    }
}

/// The block of a table.
fn tag(table: &str, block: &str) -> Result<Tag, Wrong>
    ensures { IfOk result (λ tag. tag.table < 2) }
{
    let table = number_u16(table)?;
    let block = number_u32(block)?;
    if table >= 2 {
        return Err(Wrong::Number);
    }
    Ok(Tag { table, block })
}

/// The page of a block, or why it is not lent.
fn look(alloc: Global, pool: &mut Pool, tag: Tag) -> Result<String, Wrong>
    requires { tag.table < table_count pool.old }
    ensures { table_count pool.new ≡ table_count pool.old }
{
    match pool.look(tag) {
        Ok(page) => page_text(alloc, page),
        Err(fault) => Ok(String::from_str(alloc, shown(fault))?),
    }
}

fn shown(fault: PoolFault) -> &'static str {
    match fault {
        PoolFault::Missing => "missing",
        PoolFault::BadPage => "bad page",
        PoolFault::Memory => "out of memory",
    }
}

fn fresh(pool: &mut Pool, tag: Tag) -> Result<&'static str, Wrong>
    requires { tag.table < table_count pool.old }
    ensures { table_count pool.new ≡ table_count pool.old }
{
    if tag.block == u32::MAX {
        return Err(Wrong::Number);
    }
    match pool.fresh(tag) {
        Ok(_) => Ok("ok"),
        Err(fault) => Ok(shown(fault)),
    }
}

/// Puts a byte into a block's page, unless that would be none.
fn spoil(pool: &mut Pool, tag: Tag, at: &str, value: &str) -> Result<&'static str, Wrong>
    requires { tag.table < table_count pool.old }
    ensures { table_count pool.new ≡ table_count pool.old }
{
    match pool.page(tag) {
        Ok(page) => set_page_byte(page, at, value),
        Err(fault) => Ok(shown(fault)),
    }
}

/// Changes a table, or the page of a block.
fn changed(alloc: Global, pool: &mut Pool, words: &[&str]) -> Result<&'static str, Wrong>
    requires { table_count pool.old ≡ 2 }
    ensures { table_count pool.new ≡ 2 }
{
    match *words {
        ["fresh", table, block] => fresh(pool, tag(table, block)?),
        ["byte", table, block, at, value] => spoil(pool, tag(table, block)?, at, value),
        [table, block, ref rest @ ..] => change(alloc, pool, tag(table, block)?, rest),
        _ => Err(Wrong::Line),
    }
}

fn change(alloc: Global, pool: &mut Pool, tag: Tag, words: &[&str]) -> Result<&'static str, Wrong>
    requires { tag.table < table_count pool.old }
    ensures { table_count pool.new ≡ table_count pool.old }
{
    match pool.page(tag) {
        Ok(page) => change_page(alloc, page, words),
        Err(fault) => Ok(shown(fault)),
    }
}
