ghost use Rattle.std.specs.Prelude.{◌≡◌, ◌<◌, ◌==◌, ◌||◌, if◌then◌else◌, None as NoUpdater};
ghost use Rattle.pg_types.specs.declared.status.Status.TheVariants.{None as Unset, Committed};
ghost use Rattle.page_store.specs.Content.{table_count};

use crate::kinds::columns;
use crate::rows::show_row;
use case_text::{Answer, Wrong, number_u16, number_u32, number_u64};
use heap_tuple::Column;
use page_store::Pool;
use pg_types::{Status, Tag, Unknown, Xid, XidList};
use seq_scan::{BlockEnd, read_block};
use standby_snapshot::Snapshot;
use std::alloc::Global;
use subtrans::Subtrans;
use tuple_visibility::Statuses;

/// Transactions 50 and 52 committed, no other one did, no subtransaction was assigned, and no multixact was made.
#[derive(Drop)]
struct Known {
    subs: Subtrans,
}

impl Statuses for Known {
    ghost parents_of = { λ k. k.subs.pairs };

    ghost status_of = { λ _ x. if (x == 50) || (x == 52) then Committed else Unset };

    ghost updater_of = { λ _ _. NoUpdater };

    fn parents(&self) -> &Subtrans {
        &self.subs
    }

    fn status(&self, xid: Xid) -> Status {
        match xid.0 {
            50 | 52 => Status::Committed,
            _ => Status::None,
        }
    }

    fn updater(&self, id: u32) -> Result<Option<Xid>, Unknown> {
        Err(Unknown { id })
    }
}

/// Answers a line about the rows of a block: the table, the block, the first id that the snapshot does not
/// see, and the types of the columns.
pub fn answer(alloc: Global, pool: &mut Pool, words: &[&str]) -> Result<String, Wrong>
    requires { table_count pool.old ≡ 2 }
    ensures { table_count pool.new ≡ 2 }
{
    match *words {
        [table, block, below, kinds] => {
            let columns = columns(alloc, kinds)?;
            let snapshot = snapshot(alloc, number_u64(below)?);
            let table = number_u16(table)?;
            let block = number_u32(block)?;
            if table >= 2 {
                return Err(Wrong::Number);
            }
            scan(
                alloc,
                pool,
                Tag { table, block },
                columns.as_slice(),
                &snapshot,
            )
        }
        _ => Err(Wrong::Line),
    }
}

/// A snapshot that sees what committed of the ids below.
fn snapshot(alloc: Global, below: u64) -> Snapshot {
    Snapshot {
        xmin: Xid(below),
        xmax: Xid(below),
        running: XidList::new(alloc),
        overflowed: false,
    }
}

fn scan(
    alloc: Global,
    pool: &mut Pool,
    tag: Tag,
    columns: &[Column],
    snapshot: &Snapshot,
) -> Result<String, Wrong>
    requires { tag.table < table_count pool.old }
    ensures { table_count pool.new ≡ table_count pool.old }
{
    let known = Known {
        subs: Subtrans::new(alloc),
    };
    let block = read_block(alloc, pool, tag, columns, snapshot, &known)?;
    let mut answer = Answer::new(alloc);
    for row in block.rows.as_slice() {
        show_row(&mut answer, row);
        answer.say(" ");
    }
    show_end(&mut answer, block.end);
    answer.finish()
}

/// How the rows of a block end.
fn show_end(answer: &mut Answer, end: BlockEnd) {
    match end {
        BlockEnd::Whole => answer.say("end"),
        BlockEnd::Toasted { line, column } => {
            answer.field("toasted at line ", u64::from(line));
            answer.field(", column ", u64::from(column));
        }
        BlockEnd::Bad { line, column } => {
            answer.field("bad at line ", u64::from(line));
            answer.field(", column ", u64::from(column));
        }
        BlockEnd::Unknown { line, id } => {
            answer.field("multixact ", u64::from(id));
            answer.field(" at line ", u64::from(line));
            answer.say(" is not known");
        }
        BlockEnd::NoPage => answer.say("no page"),
    }
}
