ghost use Rattle.std.specs.Prelude.{◌≡◌, List, Err};
ghost use Rattle.heap_page.specs.Item.{Item};
ghost use Rattle.heap_redo.specs.After.{answered};
ghost use Rattle.heap_redo.specs.Refused.{refusal_of, fault_at, pool_fault_at};

use heap_page::PageError;
use page_store::PoolFault;
use pg_types::Place;
use thiserror::Error;
use wal_bodies::RecBlock;

/// Why a record is not applied. The place is the block, and the line where there is one, else line 0.
#[derive(Clone, Copy, Debug, Error)]
pub enum RedoFault {
    /// The table does not have the block.
    #[error("the block is missing")]
    PageMissing { place: Place },
    /// A line that is changed has no tuple, or one where a tuple goes is not free.
    #[error("the line is not as the record has it")]
    NoTuple { place: Place },
    /// The page has no room for a tuple.
    #[error("the page is full")]
    PageFull { place: Place },
    /// The page breaks the page rule, or would after the change.
    #[error("the block is no page")]
    BadPage { place: Place },
    #[error("out of memory")]
    Memory,
}

/// Why the change of one block is refused.
#[derive(Clone, Copy)]
pub enum BlockFault {
    NoPage,
    NoTuple(u16),
    PageFull(u16),
    BadPage,
}

/// A change of a line that the page refuses.
pub fn at_line(error: PageError, line: u16) -> BlockFault
    ensures { (items : List Item) → Err (refusal_of result) ≡ answered line items (Err error) }
{
    match error {
        PageError::Full => BlockFault::PageFull(line),
        PageError::NoLine => BlockFault::NoTuple(line),
        PageError::BadPage => BlockFault::BadPage,
    }
}

/// The fault of a record that is refused at this block.
#[tactic(auto, unfolding(crate::specs::Refused::fault_at))]
pub fn fault_at(block: &RecBlock<'_>, refusal: BlockFault) -> RedoFault
    ensures { result ≡ fault_at block.now (refusal_of refusal) }
{
    let block = block.block;
    match refusal {
        BlockFault::NoPage => RedoFault::PageMissing {
            place: Place { block, line: 0 },
        },
        BlockFault::NoTuple(line) => RedoFault::NoTuple {
            place: Place { block, line },
        },
        BlockFault::PageFull(line) => RedoFault::PageFull {
            place: Place { block, line },
        },
        BlockFault::BadPage => RedoFault::BadPage {
            place: Place { block, line: 0 },
        },
    }
}

/// The fault of a record whose block the pool does not lend.
pub fn pool_fault(block: &RecBlock<'_>, fault: PoolFault) -> RedoFault
    ensures { result ≡ pool_fault_at block.now fault }
{
    match fault {
        PoolFault::Missing => fault_at(block, BlockFault::NoPage),
        PoolFault::BadPage => fault_at(block, BlockFault::BadPage),
        PoolFault::Memory => RedoFault::Memory,
    }
}
