ghost use Rattle.std.specs.Prelude.{◌≡◌, ◌==◌, ◌++◌, ◌∷◌, [], length, IfOk, OnOk, OnErr};

use crate::fail::NoMemory;
use crate::names::Xid;
use std::alloc::Global;
use std::marker::Model;

/// Items in a row. Contracts see it as the list of them.
#[derive(Drop)]
pub struct List<T> {
    vec: Vec<T>,
}

/// A text of bytes.
pub type Bytes = List<u8>;

/// Transaction ids in a row.
pub type XidList = List<Xid>;

impl<T> Model for List<T> {
    ghost use Rattle.std.specs.Prelude.{List as Items};

    ghost Value = { Items T };

    ghost view = { λ list. list.vec.items };
}

impl<T> List<T> {
    /// No items. It takes no memory.
    pub fn new(alloc: Global) -> List<T>
        ensures { result ≡ [] }
    {
        List {
            vec: Vec::new(alloc),
        }
    }

    pub fn as_slice(&self) -> &[T]
        ensures { result.now ≡ self.now }
    {
        self.vec.as_slice()
    }

    pub fn len(&self) -> usize
        ensures { result ≡ length self.now }
    {
        self.vec.len()
    }

    pub fn is_empty(&self) -> bool
        ensures { result ≡ (length self.now == 0) }
    {
        self.vec.is_empty()
    }
}

impl<T: Drop> List<T> {
    /// Adds an item at the end. Where memory runs out the item is dropped.
    pub fn push(&mut self, item: T) -> Result<(), NoMemory>
        ensures ok { OnOk result (self.new ≡ self.old ++ item ∷ []) }
        ensures err { OnErr result (self.new ≡ self.old) }
    {
        self.vec.push(item)?;
        Ok(())
    }

    /// Takes all items away. The memory stays for later ones.
    pub fn clear(&mut self)
        ensures { self.new ≡ [] }
    {
        self.vec.clear();
    }
}

impl<T: Copy> List<T> {
    pub fn from_slice(alloc: Global, items: &[T]) -> Result<List<T>, NoMemory>
        ensures { IfOk result (λ copy. copy ≡ items.now) }
    {
        let vec = Vec::from_slice(alloc, items)?;
        Ok(List { vec })
    }

    /// Adds the items at the end.
    pub fn append(&mut self, items: &[T]) -> Result<(), NoMemory>
        ensures ok { OnOk result (self.new ≡ self.old ++ items.now) }
        ensures err { OnErr result (self.new ≡ self.old) }
    {
        self.vec.extend_from_slice(items)?;
        Ok(())
    }
}
