ghost use Rattle.std.specs.Prelude.{◌≡◌, ◌<◌, Some, slice_get, vec_len, length, take, OnOk, OnErr};
ghost use Rattle.std.specs.Borrow.{sem};

use heap_page::HeapPage;
use std::alloc::{AllocError, Global};

/// The blocks of one table, by number from 0.
#[derive(Drop)]
pub struct Table {
    pub pages: Vec<HeapPage>,
}

impl Table {
    ghost use Rattle.page_store.specs.Lending.{LendsBlock};
    ghost use Rattle.page_store.specs.Content.{extended};
    ghost use Rattle.page_store.specs.Held.{Freshened};

    /// No blocks, and no memory taken.
    pub fn new(alloc: Global) -> Table
        ensures { length result.pages.items ≡ 0 }
    {
        Table {
            pages: Vec::new(alloc),
        }
    }

    /// Lends a block.
    pub fn block_mut(&mut self, block: usize) -> &mut HeapPage
        requires { block < vec_len self.old.pages }
        ensures* lends { sem 𝓛 (LendsBlock self.entry block result) }
        ensures value { slice_get self.old.pages.items block ≡ Some result.now }
    {
        &mut self.pages[block]
    }

    /// Adds blocks of zeros until the table has this many.
    pub fn extend(&mut self, blocks: usize) -> Result<(), AllocError>
        ensures ok { OnOk result (self.new.pages.items ≡ extended self.old.pages.items blocks) }
        ensures err { OnErr result (self.new.pages.items ≡ self.old.pages.items) }
    {
        if self.pages.len() < blocks {
            self.pages.resize(blocks, HeapPage::zeros())?;
        }
        Ok(())
    }

    /// Extends the table up to this block, which becomes a page without items, whatever stood there.
    pub fn freshen(&mut self, block: usize) -> Result<(), AllocError>
        requires { block < 4294967295 }
        ensures ok { OnOk result (Freshened self.old self.new block) }
        ensures err { OnErr result (self.new.pages.items ≡ self.old.pages.items) }
    {
        if self.pages.len() == block {
            self.pages.push(HeapPage::new())?;
            return Ok(());
        }
        self.extend(block + 1)?;
        self.pages[block].init();
        Ok(())
    }
    /// Takes away the blocks from this number on.
    pub fn truncate(&mut self, blocks: usize)
        ensures { self.new.pages.items ≡ take blocks self.old.pages.items }
    {
        self.pages.truncate(blocks);
    }
}
