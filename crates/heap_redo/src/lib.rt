//! Redo of a record on the blocks of the described tables (heapam.c, heap_redo and heap2_redo;
//! xlogutils.c, XLogReadBufferForRedo).
#![tactic(auto)]

mod bits;
mod block;
mod change;
mod cut;
mod fault;
mod head;
mod law;
mod line;
mod prune;
mod replay;
mod update;
mod version;

pub use fault::RedoFault;
pub use law::repeats;
pub use replay::redo;
