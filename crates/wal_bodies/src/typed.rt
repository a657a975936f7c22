ghost use Rattle.std.specs.Prelude.{◌≡◌, All, IfOk};
ghost use Rattle.std.specs.List.{list_any};
ghost use Rattle.wal_bodies.specs.Kinds.{kind_of};
ghost use Rattle.wal_bodies.specs.Xids.{AreXidsShort, IsShort, record_xids};
ghost use Rattle.wal_bodies.specs.Typed.{is_last, listed_in, names_last, read_as, typed};

use crate::heap::{heap_kind, heap2_kind};
use crate::multixact::multixact_kind;
use crate::running::{database_kind, standby_kind};
use crate::storage::storage_kind;
use crate::tuples::blocks_of;
use crate::xact::xact_kind;
use crate::xlog::xlog_kind;
use pg_types::{Locator, Lsn, Xid};
use record_fields::Xids;
use typed_records::{BodyFault, Rec, RecBlocks, RecKind, What};
use wal_record::{RecordHead, RecordView};

/// The typed form of a record that begins and ends at these positions, for the described database and
/// the files of the described tables. It takes no memory, and lends the record's bytes.
///
/// # Errors
/// `Length` where main data or block data is shorter than the kind needs, a count is below 0, or a block
/// that the kind needs is missing. `Unsupported` where this standby cannot follow the record.
#[tactic(auto, unfolding(crate::specs::Typed::typed))]
pub fn body<'a>(
    view: &'a RecordView<'a>,
    start: Lsn,
    end: Lsn,
    database: u32,
    known: &[Locator],
) -> Result<Rec<'a>, BodyFault>
    ensures form { result ≡ typed view.now start end database known.now }
    ensures xids { IfOk result AreXidsShort }
    ensures places { IfOk result (λ rec. (rec.start ≡ start) × (rec.end ≡ end)) }
{
    match read_as(view, database, known) {
        Ok((kind, blocks)) => Ok(Rec {
            head: view.head(),
            start,
            end,
            kind,
            blocks,
        }),
        Err(fault) => Err(fault),
    }
}

/// The record's kind and its blocks.
#[tactic(auto, unfolding(crate::specs::Typed::read_as))]
fn read_as<'a>(
    view: &'a RecordView<'a>,
    database: u32,
    known: &[Locator],
) -> Result<(RecKind<'a>, RecBlocks<'a>), BodyFault>
    ensures answer { result ≡ read_as view.now database known.now }
    ensures xids { IfOk result (λ x. All IsShort (record_xids view.now.head x.0)) }
{
    let main = view.main();
    let kind = kind_of(view, main, database, known)?;
    let blocks = blocks_of(&kind, view)?;
    if names_last(view.head(), &kind) {
        return Err(BodyFault::Unsupported(What::Epoch));
    }
    Ok((kind, blocks))
}

/// The record's kind, by its resource manager and its info.
#[tactic(auto, unfolding(crate::specs::Kinds::kind_of))]
fn kind_of<'a>(
    view: &RecordView<'a>,
    main: &'a [u8],
    database: u32,
    known: &[Locator],
) -> Result<RecKind<'a>, BodyFault>
    requires { main.now ≡ view.now.main }
    ensures { result ≡ kind_of view.now database known.now }
{
    let head = view.head();
    match head.manager {
        0 => xlog_kind(head.info & 0xF0, main),
        1 => xact_kind(head.info, main),
        2 => storage_kind(head.info & 0xF0, main),
        4 => database_kind(database, head.info & 0xF0, main),
        6 => multixact_kind(head.info & 0xF0, main),
        8 => standby_kind(head.info & 0xF0, main),
        9 => heap2_kind(view),
        10 => heap_kind(view, known),
        _ => Ok(RecKind::Other),
    }
}

/// Whether the record names the last transaction id of the first epoch.
fn names_last(head: RecordHead, kind: &RecKind<'_>) -> bool
    ensures { result ≡ names_last head kind.now }
{
    is_last(head.xid) || lists_last(kind)
}

/// Whether a list of ended or assigned transactions has that id.
fn lists_last(kind: &RecKind<'_>) -> bool
    ensures { result ≡ list_any is_last (listed_in kind.now) }
{
    match kind {
        RecKind::Ended { xids, .. } | RecKind::Assignment { xids, .. } => has_last(xids.again()),
        _ => false,
    }
}

/// Whether that id is one of these.
fn has_last(xids: Xids<'_>) -> bool
    ensures { result ≡ list_any is_last xids.entry }
{
    for xid in xids {
        if is_last(xid) {
            return true;
        }
    }
    false
}

fn is_last(xid: Xid) -> bool
    ensures { result ≡ is_last xid }
{
    xid.0 >= 4_294_967_295
}
