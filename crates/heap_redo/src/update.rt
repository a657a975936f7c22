ghost use Rattle.std.specs.Prelude.{◌≡◌, ◌+◌, ◌≤◌, ◌<◌, ◌==◌, bit_and, [], not, nat_lt, take, get_or, length, is_some, Ok, IfSome, OnErr};
ghost use Rattle.heap_page.specs.Item.{numbered, tuple_in};
ghost use Rattle.heap_page.specs.Page.{items_of};
ghost use Rattle.heap_redo.specs.After.{user_data, joined, number_of, put_version, update_old, update_within, update};
ghost use Rattle.heap_redo.specs.Refused.{outcome};
ghost use Rattle.heap_redo.specs.Heads.{headed};
ghost use Rattle.heap_redo.specs.TupleHeads.{replaced};

use crate::fault::BlockFault;
use crate::head::Versions;
use crate::line::{check_mark, mark_old};
use crate::version::{check_new, join, put_new, user_data};
use heap_page::HeapPage;
use wal_bodies::{NewTuple, Rec, RecBlock};

/// What stands behind the header of a new version of the tuple of a line, as far as it fits, and its
/// length. `None` exactly where that tuple's values are shorter than the parts that are used of them.
fn joined(page: &HeapPage, line: u16, tuple: &NewTuple<'_>, bytes: &mut [u8]) -> Option<usize>
    ensures short { let old = user_data (tuple_in (numbered (items_of page.now) line)) in
        is_some result ≡ not (nat_lt (length old) (tuple.now.prefix + tuple.now.suffix)) }
    ensures taken { let old = user_data (tuple_in (numbered (items_of page.now) line)) in
        IfSome result (λ len. take len bytes.new ≡ take (length bytes.old) (joined tuple.now old)) }
    ensures within { IfSome result (λ len. len ≤ length bytes.new) }
    ensures small { IfSome result (λ len. tuple.now.hoff < 256) }
{
    let old = user_data(page, line);
    if old.len() < tuple.prefix as usize + tuple.suffix as usize {
        return None;
    }
    Some(join(bytes, tuple, old))
}

/// At most how many bytes stand behind the header of a new version.
fn joined_bound(tuple: &NewTuple<'_>) -> usize
    ensures { result ≡ length tuple.now.rest + (tuple.now.prefix + tuple.now.suffix) }
{
    tuple.rest.as_slice().len() + (tuple.prefix as usize + tuple.suffix as usize)
}

/// An update whose both versions are in one block. Both changes are tested before the first.
fn update_within(
    page: &mut HeapPage,
    rec: &Rec<'_>,
    block: &RecBlock<'_>,
    versions: Versions,
) -> Result<(), BlockFault>
    ensures answer { outcome (items_of page.new) result
        ≡ update_within rec.now block.now versions.is_hot versions.old_xmax versions.old_line versions.old_bits
        versions.new_xmax versions.new_line (items_of page.old) }
    ensures err { OnErr result (page.new ≡ page.old) }
{
    let Some(tuple) = block.tuples.first() else {
        return mark_old(page, versions, block.block);
    };
    check_mark(page, versions, block.block)?;
    if joined_bound(&tuple) <= 512 {
        let mut bytes = [0; 512];
        return replace(page, rec, block, versions, &tuple, &mut bytes);
    }
    let mut bytes = [0; 8192];
    replace(page, rec, block, versions, &tuple, &mut bytes)
}

/// The old version, which may be marked, is replaced by the new one. `bytes` has the room for what stands
/// behind its header, or for a whole page of it.
fn replace(
    page: &mut HeapPage,
    rec: &Rec<'_>,
    block: &RecBlock<'_>,
    versions: Versions,
    tuple: &NewTuple<'_>,
    bytes: &mut [u8],
) -> Result<(), BlockFault>
    requires some { 0 < length block.now.tuples }
    requires tuple { tuple.now ≡ get_or block.now.tuples 0 tuple.now }
    requires marks { Ok (headed (items_of page.old) versions.old_line
        (λ head. replaced versions.old_xmax versions.old_bits versions.is_hot block.now.block versions.new_line head))
        ≡ update_old versions.is_hot versions.old_xmax versions.old_line versions.old_bits block.now.block versions.new_line (items_of page.old) }
    requires room { let old = user_data (tuple_in (numbered (items_of page.old) versions.old_line)) in
        take (length bytes.old) (joined tuple.now old) ≡ take 8192 (joined tuple.now old) }
    ensures answer { outcome (items_of page.new) result
        ≡ update_within rec.now block.now versions.is_hot versions.old_xmax versions.old_line versions.old_bits
        versions.new_xmax versions.new_line (items_of page.old) }
    ensures err { OnErr result (page.new ≡ page.old) }
{
    let xid = rec.head.xid.0;
    let xmax = versions.new_xmax;
    let line = versions.new_line;
    let Some(len) = joined(page, versions.old_line, tuple, bytes) else {
        return Err(BlockFault::NoTuple(versions.old_line));
    };
    let rest = &bytes[..len];
    check_new(page, xid, xmax, block.block, line, tuple, rest)?;
    mark_old(page, versions, block.block)?;
    put_new(page, xid, xmax, block.block, line, tuple, rest)
}

/// The new version, if the record has it, goes to its line of a block without the old one.
fn put_version(
    page: &mut HeapPage,
    rec: &Rec<'_>,
    block: &RecBlock<'_>,
    versions: Versions,
) -> Result<(), BlockFault>
    ensures answer { outcome (items_of page.new) result
        ≡ put_version rec.now.head.xid.0 versions.new_xmax block.now.block versions.new_line block.now.tuples [] (items_of page.old) }
    ensures err { OnErr result (page.new ≡ page.old) }
{
    let Some(tuple) = block.tuples.first() else {
        return Ok(());
    };
    put_new(
        page,
        rec.head.xid.0,
        versions.new_xmax,
        block.block,
        versions.new_line,
        &tuple,
        tuple.rest.as_slice(),
    )
}

/// An update: block 1 has the old version, where that is in another block than the new one.
#[tactic(auto, unfolding(crate::specs::After::update))]
pub fn update(
    page: &mut HeapPage,
    rec: &Rec<'_>,
    block: &RecBlock<'_>,
    versions: Versions,
) -> Result<(), BlockFault>
    requires { versions.is_hot ≡ (bit_and rec.now.head.info 112 == 64) }
    ensures answer { outcome (items_of page.new) result
        ≡ update rec.now block.now versions.old_xmax versions.old_line versions.old_bits versions.new_xmax versions.new_line
        (number_of 0 rec.now.blocks) (number_of 1 rec.now.blocks) (items_of page.old) }
    ensures err { OnErr result (page.new ≡ page.old) }
{
    let Some(new_block) = rec.blocks.number(0) else {
        return Ok(());
    };
    if rec.blocks.number(1).is_none() {
        return update_within(page, rec, block, versions);
    }
    if block.id == 0 {
        put_version(page, rec, block, versions)
    } else {
        mark_old(page, versions, new_block)
    }
}
