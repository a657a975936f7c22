//! Cases of the layers of the heap: tuples and their values, pages, blocks, records in typed form, their
//! redo, the rows of a block, and descriptions of tables with their rows as they are printed; and, from the first line
//! `case NAME` on, of transactions. Each line is put to the layer that its first word names, and the answer is printed in words. What has to be
//! printed, in the file stdout, was worked out by hand, those of transactions from the rules of clog.c, subtrans.c,
//! procarray.c, snapmgr.c, heapam_visibility.c and xact.c, or by a program that has nothing of this repository.
#![tactic(auto)]

ghost use Rattle.std.specs.Prelude.{◌≡◌, IfOk};
ghost use Rattle.page_store.specs.Content.{table_count};

mod bodies;
mod descriptions;
mod ids;
mod items;
mod kinds;
mod known;
mod layers;
mod marks;
mod pages;
mod parents;
mod pools;
mod printed;
mod record_changes;
mod records;
mod removals;
mod rows;
mod scans;
mod snapshots;
mod statuses;
mod texts;
mod transactions;
mod tuples;

use case_text::{BadLine, Wrong, input, words};
use heap_page::Page;
use page_store::Pool;
use std::alloc::Global;
use table_schema::Tables;

/// A page, the blocks of two tables, and described tables, which the lines of a case change and look at.
#[derive(Drop)]
struct Bench {
    page: Page,
    pool: Pool,
    tables: Option<Tables>,
}

/// A page of zeros, two tables without blocks, and no tables described.
fn empty_bench(alloc: Global) -> Result<Bench, Wrong>
    ensures { IfOk result (λ bench. table_count bench.pool ≡ 2) }
{
    Ok(Bench {
        page: [0; 8192],
        pool: Pool::plain(alloc, 2)?,
        tables: None,
    })
}

/// The answer to a line: one of a record has its notation and its bytes behind bars.
fn answer(alloc: Global, bench: &mut Bench, line: &str) -> Result<String, Wrong>
    requires { table_count bench.old.pool ≡ 2 }
    ensures { table_count bench.new.pool ≡ 2 }
{
    if let Some((front, rest)) = line.split_once(" | ") {
        return bodies::answer(alloc, &mut bench.pool, front, rest);
    }
    let (first, rest) = line.split_once(' ').ok_or(Wrong::Line)?;
    match first {
        "tuple" | "page" | "pool" | "scan" => answer_words(alloc, bench, first, rest),
        _ => descriptions::answer(alloc, &mut bench.tables, first, rest),
    }
}

/// The answer to a line of words.
fn answer_words(alloc: Global, bench: &mut Bench, first: &str, rest: &str) -> Result<String, Wrong>
    requires { table_count bench.old.pool ≡ 2 }
    ensures { table_count bench.new.pool ≡ 2 }
{
    let words = words(alloc, rest)?;
    match first {
        "tuple" => tuples::answer(alloc, words.as_slice()),
        "page" => pages::answer(alloc, &mut bench.page, words.as_slice()),
        "pool" => pools::answer(alloc, &mut bench.pool, words.as_slice()),
        "scan" => scans::answer(alloc, &mut bench.pool, words.as_slice()),
        _ => Err(Wrong::Line),
    }
}

/// What is printed for a line that begins no case: a line with a name is a case of its own, and any other gives the
/// next answer of its case.
fn reply(alloc: Global, bench: &mut Bench, line: &str) -> Result<String, Wrong>
    requires { table_count bench.old.pool ≡ 2 }
    ensures { table_count bench.new.pool ≡ 2 }
{
    match line.split_once(": ") {
        Some((name, words)) => {
            let text = answer(alloc, bench, words)?;
            Ok(format!(in alloc; "{name}: {text}")?)
        }
        None => {
            let text = answer(alloc, bench, line)?;
            Ok(format!(in alloc; "  {text}")?)
        }
    }
}

fn main(rt: HostRuntime) -> anyhow::Result<()> {
    let text = input(&rt)?;
    let mut bench = empty_bench(rt.alloc())?;
    for (index, line) in text.as_str().lines().enumerate() {
        if line.is_empty() || line.starts_with('#') {
            continue;
        }
        if line.starts_with("case ") {
            break;
        }
        if line.ends_with(':') {
            bench.tables = None;
            bench.page = [0; 8192];
            bench.pool = Pool::plain(rt.alloc(), 2)?;
            println!(rt; "{line}")?;
            continue;
        }
        let text = reply(rt.alloc(), &mut bench, line).map_err(|wrong| BadLine {
            line: index.saturating_add(1),
            wrong,
        })?;
        println!(rt; "{text}")?;
    }
    transactions::answer_all(&rt, text.as_str())?;
    Ok(())
}
