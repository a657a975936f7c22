ghost use Rattle.std.specs.Prelude.{◌≡◌, ◌+◌, ◌-◌, ◌≤◌, ◌<◌, ◌++◌, ◌∷◌, ℕ, [], List, OnErr, take, length};
ghost use Rattle.heap_page.specs.Item.{normal, with_item, numbered, tuple_in};
ghost use Rattle.heap_page.specs.Page.{items_of};
ghost use Rattle.heap_redo.specs.After.{put, put_listed, tuple_of, user_data, joined};
ghost use Rattle.heap_redo.specs.Heads.{head_in};
ghost use Rattle.heap_redo.specs.Refused.{outcome};
ghost use Rattle.heap_redo.specs.TupleHeads.{head_bytes};

use crate::fault::BlockFault;
use crate::head::Header;
use crate::line::{check_tuple, put_tuple};
use heap_page::{HeapPage, Item};
use wal_bodies::{Lines, NewTuple, NewTuples};

/// The header of a tuple that this transaction puts at this place, with this xmax.
#[tactic(auto, unfolding(crate::specs::After::tuple_of))]
fn new_header(xid: u64, xmax: u64, block: u32, line: u16, tuple: &NewTuple<'_>) -> Header
    ensures { (rest : List ℕ) → head_bytes (head_in result) ++ rest ≡ tuple_of xid xmax block line tuple.now rest }
{
    Header {
        xmin: xid,
        xmax,
        cid: 0,
        ctid_block: block,
        ctid_line: line,
        mask2: tuple.mask2,
        mask: tuple.mask,
        hoff: tuple.hoff,
    }
}

/// A tuple that this transaction puts at this place, with this xmax and these bytes behind its header.
pub fn put_new(
    page: &mut HeapPage,
    xid: u64,
    xmax: u64,
    block: u32,
    line: u16,
    tuple: &NewTuple<'_>,
    rest: &[u8],
) -> Result<(), BlockFault>
    ensures answer { outcome (items_of page.new) result
        ≡ put line (tuple_of xid xmax block line tuple.now rest.now) (items_of page.old) }
    ensures err { OnErr result (page.new ≡ page.old) }
{
    put_tuple(page, line, new_header(xid, xmax, block, line, tuple), rest)
}

/// What `put_new` answers. It changes nothing.
pub fn check_new(
    page: &HeapPage,
    xid: u64,
    xmax: u64,
    block: u32,
    line: u16,
    tuple: &NewTuple<'_>,
    rest: &[u8],
) -> Result<(), BlockFault>
    ensures { let new = tuple_of xid xmax block line tuple.now rest.now in
        outcome (with_item (items_of page.now) (line - 1) (normal new)) result ≡ put line new (items_of page.now) }
{
    check_tuple(page, line, new_header(xid, xmax, block, line, tuple), rest)
}

/// The tuple of an insert, if the record has it, goes to its line.
pub fn insert(
    page: &mut HeapPage,
    xid: u64,
    block: u32,
    line: u16,
    tuples: &NewTuples<'_>,
) -> Result<(), BlockFault>
    ensures answer { outcome (items_of page.new) result
        ≡ put_listed xid block (line ∷ []) tuples.now (items_of page.old) }
    ensures err { OnErr result (page.new ≡ page.old) }
{
    let Some(tuple) = tuples.first() else {
        return Ok(());
    };
    put_new(page, xid, 0, block, line, &tuple, tuple.rest.as_slice())
}

/// Tuples go to these lines, one after the other. A refused page has those before the refused one.
fn put_each(
    page: &mut HeapPage,
    xid: u64,
    block: u32,
    lines: &Lines<'_>,
    tuples: &NewTuples<'_>,
) -> Result<(), BlockFault>
    ensures { outcome (items_of page.new) result
        ≡ put_listed xid block lines.now tuples.now (items_of page.old) }
{
    let mut rest = tuples.again();
    for line in lines.again() {
        let Some(tuple) = rest.next() else {
            return Ok(());
        };
        put_new(page, xid, 0, block, line, &tuple, tuple.rest.as_slice())?;
    }
    Ok(())
}

/// Tuples go to these lines, one after the other. Since a later one may be refused, the page is kept, to
/// be put back.
pub fn put_listed(
    page: &mut HeapPage,
    xid: u64,
    block: u32,
    lines: &Lines<'_>,
    tuples: &NewTuples<'_>,
) -> Result<(), BlockFault>
    ensures answer { outcome (items_of page.new) result
        ≡ put_listed xid block lines.now tuples.now (items_of page.old) }
    ensures err { OnErr result (page.new ≡ page.old) }
{
    let before = *page;
    match put_each(page, xid, block, lines, tuples) {
        Ok(()) => Ok(()),
        Err(refusal) => {
            *page = before;
            Err(refusal)
        }
    }
}

/// Puts as much of a part as fits behind the first `at` bytes.
fn append(bytes: &mut [u8], at: usize, part: &[u8]) -> usize
    requires { at ≤ length bytes.old }
    ensures taken { take result bytes.new ≡ take (length bytes.old) (take at bytes.old ++ part.now) }
    ensures within { result ≤ length bytes.old }
    ensures length { length bytes.new ≡ length bytes.old }
{
    let len = part.len().min(bytes.len() - at);
    bytes[at..at + len].copy_from_slice(&part[..len]);
    at + len
}

/// What stands behind the header of a new version of a tuple with these values, as far as it fits.
#[tactic(auto, unfolding(crate::specs::After::joined))]
pub fn join(bytes: &mut [u8], tuple: &NewTuple<'_>, old: &[u8]) -> usize
    requires { tuple.now.prefix + tuple.now.suffix ≤ length old.now }
    ensures taken { take result bytes.new ≡ take (length bytes.old) (joined tuple.now old.now) }
    ensures within { result ≤ length bytes.old }
    ensures length { length bytes.new ≡ length bytes.old }
    ensures small { tuple.now.hoff < 256 }
{
    let own = tuple.rest.as_slice();
    let split = usize::from(tuple.hoff).saturating_sub(23).min(own.len());
    let at = append(bytes, 0, &own[..split]);
    let at = append(bytes, at, &old[..tuple.prefix as usize]);
    let at = append(bytes, at, &own[split..]);
    append(bytes, at, &old[old.len() - tuple.suffix as usize..])
}

/// The values of the tuple of a line, none where it has none.
pub fn user_data(page: &HeapPage, line: u16) -> &[u8]
    ensures { result.now ≡ user_data (tuple_in (numbered (items_of page.now) line)) }
{
    match page.item(line) {
        Item::Normal(bytes) => &bytes[bytes[22] as usize..],
        _ => &[],
    }
}
