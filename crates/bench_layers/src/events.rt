//! The records of small transactions, and of transactions with subtransactions.
ghost use Rattle.std.specs.Prelude.{◌≡◌, ◌+◌, ◌^◌, ◌≤◌, All};
ghost use Rattle.pg_types.specs.declared.names.Xid.{Xid};
ghost use Rattle.xact_redo.specs.State.{AreIdsInRange};

use pg_types::{Lsn, Xid};
use wal_bodies::{Locators, Rec, RecBlocks, RecKind, Xids};
use wal_record::RecordHead;

/// The id of the first transaction.
const FIRST: u64 = 700;

/// The id of the transaction with this number.
pub fn xid_of(number: u32) -> Xid
    ensures { result.0 ≡ 700 + number }
{
    Xid(FIRST + u64::from(number))
}

/// Where the records of the transaction with this number begin.
fn position_of(number: u32) -> Lsn {
    Lsn(0x200_0028 + 0x60 * u64::from(number))
}

/// A record of this transaction and kind, of 0x30 bytes.
fn record<'a>(head: RecordHead, start: Lsn, kind: RecKind<'a>) -> Rec<'a>
    ensures head { result.head ≡ head }
    ensures kind { result.kind ≡ kind.entry }
{
    Rec {
        head,
        start,
        end: Lsn(start.0.wrapping_add(0x30)),
        kind,
        blocks: RecBlocks::none(),
    }
}

/// No transaction runs, and the next one is the first: after this record snapshots can be taken.
pub fn running<'a>() -> Rec<'a>
    ensures { AreIdsInRange result }
{
    let head = RecordHead {
        total: 0x30,
        xid: Xid(0),
        prev: Lsn(0),
        info: 0x10,
        manager: 8,
    };
    let kind = RecKind::Running {
        tops: 0,
        subs: 0,
        overflow: false,
        next: Xid(FIRST),
        oldest: Xid(FIRST),
        latest: Xid(FIRST - 1),
        xids: Xids::none(),
    };
    record(head, Lsn(0x200_0000), kind)
}

/// The transaction with this number inserts a row, and so is seen for the first time.
pub fn insert<'a>(number: u32) -> Rec<'a>
    ensures { AreIdsInRange result }
{
    let head = RecordHead {
        total: 0x30,
        xid: xid_of(number),
        prev: Lsn(0),
        info: 0x00,
        manager: 10,
    };
    let kind = RecKind::Insert { line: 1, flags: 0 };
    record(head, position_of(number), kind)
}

/// Whether the transaction with this number aborts, as every tenth does.
pub fn does_abort(number: u32) -> bool {
    number % 10 == 9
}

/// The transaction with this number commits, or aborts.
pub fn end<'a>(number: u32) -> Rec<'a>
    ensures { AreIdsInRange result }
{
    let head = RecordHead {
        total: 0x30,
        xid: xid_of(number),
        prev: Lsn(0),
        info: if does_abort(number) { 0x20 } else { 0x00 },
        manager: 1,
    };
    let kind = RecKind::Ended {
        time: 0,
        xinfo: 0,
        xids: Xids::none(),
        files: Locators::none(),
    };
    record(head, position_of(number), kind)
}

/// Transaction ids that stand one after another, of four bytes each.
fn ids_in<'a>(bytes: &'a [u8]) -> Xids<'a>
    ensures { All (λ (x : Xid). x.0 ≤ 2 ^ 63 + 2 ^ 32) result }
{
    Xids::new(bytes, 0, bytes.len() / 4)
}

/// These subtransactions are assigned to a transaction.
pub fn assignment<'a>(top: u32, ids: &'a [u8]) -> Rec<'a>
    ensures { AreIdsInRange result }
{
    let head = RecordHead {
        total: 0x30,
        xid: Xid(u64::from(top)),
        prev: Lsn(0),
        info: 0x50,
        manager: 1,
    };
    let kind = RecKind::Assignment {
        top: Xid(u64::from(top)),
        xids: ids_in(ids),
    };
    record(head, Lsn(0x200_0028), kind)
}

/// A transaction commits with these subtransactions.
pub fn commit_of_tree<'a>(top: u32, ids: &'a [u8]) -> Rec<'a>
    ensures { AreIdsInRange result }
{
    let head = RecordHead {
        total: 0x30,
        xid: Xid(u64::from(top)),
        prev: Lsn(0),
        info: 0x80,
        manager: 1,
    };
    let kind = RecKind::Ended {
        time: 0,
        xinfo: 2,
        xids: ids_in(ids),
        files: Locators::none(),
    };
    record(head, Lsn(0x200_0058), kind)
}
