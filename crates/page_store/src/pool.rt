ghost use Rattle.std.specs.Prelude.{◌≡◌, ℕ, ◌↔◌, ◌<◌, None, Err, IsSome, IfSome, IfOk, IfErr, OnOk, OnErr};
ghost use Rattle.std.specs.Borrow.{sem};
ghost use Rattle.heap_page.specs.Page.{IsPage};

use crate::table::Table;
use heap_page::HeapPage;
use pg_types::{NoMemory, Tag};
use std::alloc::{AllocError, Global};
use thiserror::Error;

/// Why a page is not lent. The pool is then as before.
#[derive(Clone, Copy, Debug, Error)]
pub enum PoolFault {
    /// The table does not have the block.
    #[error("the block is missing")]
    Missing,
    /// The bytes of the block break the page rule.
    #[error("the block is no page")]
    BadPage,
    #[error("out of memory")]
    Memory,
}

/// The blocks of the described tables, each of 8192 bytes. Tables are named by their number, from 0.
#[derive(Drop)]
pub struct Pool {
    tables: Vec<Table>,
}

impl Pool {
    ghost use Rattle.page_store.specs.Content.{content, table_count, truncated, page_answer, lent, lent_to_read};
    ghost use Rattle.page_store.specs.Held.{HasBlock, HasFresh, IsInitial};
    ghost use Rattle.page_store.specs.Lending.{Holds, LendsPage, LendsLook, LendsFresh};

    /// A pool in memory of this many tables without blocks.
    #[tactic(auto, unfolding(crate::specs::Content::table_count))]
    pub fn plain(alloc: Global, tables: u16) -> Result<Pool, NoMemory>
        ensures tables { IfOk result (λ pool. table_count pool ≡ tables) }
        ensures blocks { IfOk result (λ pool. (table block : ℕ) → content pool table block ≡ None) }
    {
        let mut pool = Pool {
            tables: Vec::new(alloc),
        };
        for _ in 0..tables {
            pool.tables.push(Table::new(alloc))?;
        }
        Ok(pool)
    }

    /// How many blocks the table has.
    #[tactic(auto, unfolding(crate::specs::Content::table_count))]
    pub fn blocks(&self, table: u16) -> u32
        requires { table < table_count self.now }
        ensures { (block : ℕ) → IsSome (content self.now table block) ↔ (block < result) }
    {
        let len = self.tables[table as usize].pages.len();
        len.min(4_294_967_295) as u32
    }

    /// Why the page of a block is not lent, if it is not.
    #[tactic(auto, unfolding(crate::specs::Content::table_count))]
    fn check_page(&self, tag: Tag) -> Result<(), PoolFault>
        requires { tag.table < table_count self.now }
        ensures has { OnOk result (HasBlock self.now tag) }
        ensures page { OnOk result (IfSome (content self.now tag.table tag.block) IsPage) }
        ensures err { IfErr result (λ fault. page_answer (content self.now tag.table tag.block) ≡ Err fault) }
    {
        let table = &self.tables[tag.table as usize];
        let block = tag.block as usize;
        if tag.block == 4_294_967_295 || table.pages.len() <= block {
            return Err(PoolFault::Missing);
        }
        table.pages[block].keeps_rule();
        Ok(())
    }

    /// Lends the page of a block for a change of it. `Missing` comes exactly where the table does not
    /// have the block; `BadPage` would come where its bytes break the page rule, which those of a block
    /// in memory never do. It takes no memory.
    #[tactic(auto, unfolding(crate::specs::Content::table_count))]
    pub fn page(&mut self, tag: Tag) -> Result<&mut HeapPage, PoolFault>
        requires { tag.table < table_count self.old }
        ensures* lends { sem 𝓛 (LendsPage self.entry tag result) }
        ensures answer { lent result ≡ page_answer (content self.old tag.table tag.block) }
        ensures page { IfOk result (λ page. IsPage page.now) }
    {
        match self.check_page(tag) {
            Ok(()) => {}
            Err(fault) => return Err(fault),
        }
        let table = &mut self.tables[tag.table as usize];
        Ok(table.block_mut(tag.block as usize))
    }

    /// Lends the page of a block for reading, and answers as `page` does.
    #[tactic(auto, unfolding(crate::specs::Content::table_count))]
    pub fn look(&mut self, tag: Tag) -> Result<&HeapPage, PoolFault>
        requires { tag.table < table_count self.old }
        ensures* lends { sem 𝓛 (LendsLook self.entry) }
        ensures answer { lent_to_read result ≡ page_answer (content self.old tag.table tag.block) }
        ensures page { IfOk result (λ page. IsPage page.now) }
    {
        match self.check_page(tag) {
            Ok(()) => {}
            Err(fault) => return Err(fault),
        }
        let table = &self.tables[tag.table as usize];
        Ok(&table.pages[tag.block as usize])
    }

    /// Extends the table up to the block, which becomes a page without items.
    #[tactic(auto, unfolding(crate::specs::Content::table_count))]
    fn freshen(&mut self, tag: Tag) -> Result<(), PoolFault>
        requires table { tag.table < table_count self.old }
        requires block { tag.block < 4294967295 }
        ensures ok { OnOk result (HasFresh self.old self.new tag) }
        ensures err { OnErr result (Holds self.old self.new (content self.old)) }
        ensures memory { IfErr result (λ fault. fault ≡ PoolFault.Memory) }
    {
        self.tables[tag.table as usize].freshen(tag.block as usize)?;
        Ok(())
    }

    /// Lends the block as a page without items and of position 0, whatever stood there. A table that
    /// does not reach so far is extended: the blocks between are zeros.
    #[tactic(auto, unfolding(crate::specs::Content::table_count))]
    pub fn fresh(&mut self, tag: Tag) -> Result<&mut HeapPage, PoolFault>
        requires table { tag.table < table_count self.old }
        requires block { tag.block < 4294967295 }
        ensures* lends { sem 𝓛 (LendsFresh self.entry tag result) }
        ensures page { IfOk result (λ page. IsInitial page.now) }
        ensures memory { IfErr result (λ fault. fault ≡ PoolFault.Memory) }
    {
        match self.freshen(tag) {
            Ok(()) => {}
            Err(fault) => return Err(fault),
        }
        let table = &mut self.tables[tag.table as usize];
        Ok(table.block_mut(tag.block as usize))
    }

    /// Cuts the table to this many blocks (`smgrtruncate`, smgr.c). A table that has no more blocks stays
    /// as it is. It takes no memory.
    #[tactic(auto, unfolding(crate::specs::Content::table_count))]
    pub fn truncate(&mut self, table: u16, blocks: u32)
        requires { table < table_count self.old }
        ensures content { content self.new ≡ truncated (content self.old) table blocks }
        ensures tables { table_count self.new ≡ table_count self.old }
    {
        self.tables[table as usize].truncate(blocks as usize);
    }
}

impl From<AllocError> for PoolFault {
    ghost use Rattle.std.specs.Prelude.{◌≡◌};
    ghost use Rattle.page_store.specs.declared.pool.PoolFault.TheVariants.{Memory};

    ghost from_gives = { λ _ fault. fault ≡ Memory };

    fn from(_: AllocError) -> PoolFault {
        PoolFault::Memory
    }
}
