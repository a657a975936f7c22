ghost use Rattle.std.specs.Prelude.{◌≡◌, ◌-◌, ◌++◌, Err, IfOk, IfErr, OnErr};
ghost use Rattle.heap_page.specs.Item.{normal, with_item, numbered, tuple_in};
ghost use Rattle.heap_page.specs.Page.{items_of};
ghost use Rattle.heap_page.specs.Put.{set_head_answer};
ghost use Rattle.heap_redo.specs.TupleHeads.{Head, head_of, head_bytes, marked, pointing_to, deleted, replaced, locked, frozen};
ghost use Rattle.heap_redo.specs.After.{answered, with_header, change_head, update_old, put};
ghost use Rattle.heap_redo.specs.Heads.{head_in, headed};
ghost use Rattle.heap_redo.specs.Refused.{refusal_of, outcome};

use crate::fault::{BlockFault, at_line};
use crate::head::{Header, Versions};
use heap_page::{HeapPage, Item};

/// The header of the tuple of a line, which is refused where it has none.
fn header_at(page: &HeapPage, line: u16) -> Result<Header, BlockFault>
    ensures ok { IfOk result (λ header. head_in header ≡ head_of (tuple_in (numbered (items_of page.now) line))) }
    ensures err { IfErr result (λ refusal. (change : Head → Head) → Err (refusal_of refusal) ≡ change_head line change (items_of page.now)) }
{
    match page.item(line) {
        Item::Normal(bytes) => Ok(Header::read(bytes)),
        _ => Err(BlockFault::NoTuple(line)),
    }
}

/// What `put_header` answers. It changes nothing.
fn check_header(page: &HeapPage, line: u16, header: Header) -> Result<(), BlockFault>
    ensures { let head = head_bytes (head_in header) in outcome (with_header (items_of page.now) line head) result
        ≡ answered line (with_header (items_of page.now) line head) (set_head_answer (items_of page.now) line head) }
{
    match page.check_head(line, &header.bytes()) {
        Ok(()) => Ok(()),
        Err(error) => Err(at_line(error, line)),
    }
}

/// Gives the tuple of a line this header.
fn put_header(page: &mut HeapPage, line: u16, header: Header) -> Result<(), BlockFault>
    ensures answer { let head = head_bytes (head_in header) in outcome (items_of page.new) result
        ≡ answered line (with_header (items_of page.old) line head) (set_head_answer (items_of page.old) line head) }
    ensures err { OnErr result (page.new ≡ page.old) }
{
    match page.set_head(line, &header.bytes()) {
        Ok(()) => Ok(()),
        Err(error) => Err(at_line(error, line)),
    }
}

/// The tuple of a line is deleted.
#[tactic(auto, unfolding(crate::specs::After::change_head))]
pub fn delete(
    page: &mut HeapPage,
    block: u32,
    line: u16,
    xmax: u64,
    bits: u8,
    flags: u8,
) -> Result<(), BlockFault>
    ensures answer { outcome (items_of page.new) result
        ≡ change_head line (λ head. deleted xmax bits flags block line head) (items_of page.old) }
    ensures err { OnErr result (page.new ≡ page.old) }
{
    let header = header_at(page, line)?;
    put_header(page, line, header.deleted(xmax, bits, flags, block, line))
}

/// The old version points to the new one in this block.
#[tactic(auto, unfolding(crate::specs::After::change_head, crate::specs::After::update_old))]
pub fn mark_old(page: &mut HeapPage, versions: Versions, new_block: u32) -> Result<(), BlockFault>
    ensures answer { outcome (items_of page.new) result
        ≡ update_old versions.is_hot versions.old_xmax versions.old_line versions.old_bits new_block versions.new_line (items_of page.old) }
    ensures err { OnErr result (page.new ≡ page.old) }
{
    let header = header_at(page, versions.old_line)?;
    put_header(
        page,
        versions.old_line,
        header.replaced(versions, new_block),
    )
}

/// What `mark_old` answers. It changes nothing.
#[tactic(auto, unfolding(crate::specs::After::change_head, crate::specs::After::update_old))]
pub fn check_mark(page: &HeapPage, versions: Versions, new_block: u32) -> Result<(), BlockFault>
    ensures { outcome (headed (items_of page.now) versions.old_line
        (λ head. replaced versions.old_xmax versions.old_bits versions.is_hot new_block versions.new_line head)) result
        ≡ update_old versions.is_hot versions.old_xmax versions.old_line versions.old_bits new_block versions.new_line (items_of page.now) }
{
    let header = header_at(page, versions.old_line)?;
    check_header(
        page,
        versions.old_line,
        header.replaced(versions, new_block),
    )
}

/// The tuple of a line is inserted for good.
#[tactic(auto, unfolding(crate::specs::After::change_head))]
pub fn confirm(page: &mut HeapPage, block: u32, line: u16) -> Result<(), BlockFault>
    ensures answer { outcome (items_of page.new) result
        ≡ change_head line (λ head. pointing_to block line head) (items_of page.old) }
    ensures err { OnErr result (page.new ≡ page.old) }
{
    let header = header_at(page, line)?;
    put_header(page, line, header.pointing_to(block, line))
}

/// The tuple of a line is locked.
#[tactic(auto, unfolding(crate::specs::After::change_head))]
pub fn lock(
    page: &mut HeapPage,
    block: u32,
    line: u16,
    xmax: u64,
    bits: u8,
) -> Result<(), BlockFault>
    ensures answer { outcome (items_of page.new) result
        ≡ change_head line (λ head. locked xmax bits block line head) (items_of page.old) }
    ensures err { OnErr result (page.new ≡ page.old) }
{
    let header = header_at(page, line)?;
    put_header(page, line, header.locked(xmax, bits, block, line))
}

/// The tuple of a line, which has a newer version, is locked.
#[tactic(auto, unfolding(crate::specs::After::change_head))]
pub fn lock_updated(page: &mut HeapPage, line: u16, xmax: u64, bits: u8) -> Result<(), BlockFault>
    ensures answer { outcome (items_of page.new) result
        ≡ change_head line (λ head. marked xmax bits head) (items_of page.old) }
    ensures err { OnErr result (page.new ≡ page.old) }
{
    let header = header_at(page, line)?;
    put_header(page, line, header.marked(xmax, bits))
}

/// The tuple of a line is frozen.
#[tactic(auto, unfolding(crate::specs::After::change_head))]
pub fn freeze_tuple(
    page: &mut HeapPage,
    line: u16,
    xmax: u64,
    mask2: u16,
    mask: u16,
) -> Result<(), BlockFault>
    ensures answer { outcome (items_of page.new) result
        ≡ change_head line (λ head. frozen xmax mask2 mask head) (items_of page.old) }
    ensures err { OnErr result (page.new ≡ page.old) }
{
    let header = header_at(page, line)?;
    put_header(page, line, header.frozen(xmax, mask2, mask))
}

/// A tuple of this header and these bytes behind it goes to a free line.
#[tactic(auto, unfolding(crate::specs::After::put))]
pub fn put_tuple(
    page: &mut HeapPage,
    line: u16,
    header: Header,
    rest: &[u8],
) -> Result<(), BlockFault>
    ensures answer { outcome (items_of page.new) result
        ≡ put line (head_bytes (head_in header) ++ rest.now) (items_of page.old) }
    ensures err { OnErr result (page.new ≡ page.old) }
{
    match page.put(line, &header.bytes(), rest) {
        Ok(()) => Ok(()),
        Err(error) => Err(at_line(error, line)),
    }
}

/// What `put_tuple` answers. It changes nothing.
#[tactic(auto, unfolding(crate::specs::After::put))]
pub fn check_tuple(
    page: &HeapPage,
    line: u16,
    header: Header,
    rest: &[u8],
) -> Result<(), BlockFault>
    ensures { let tuple = head_bytes (head_in header) ++ rest.now in
        outcome (with_item (items_of page.now) (line - 1) (normal tuple)) result ≡ put line tuple (items_of page.now) }
{
    match page.check_put(line, &header.bytes(), rest) {
        Ok(()) => Ok(()),
        Err(error) => Err(at_line(error, line)),
    }
}
