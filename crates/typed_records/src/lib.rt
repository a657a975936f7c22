//! Typed WAL records: what a record says, as types that lend its bytes. Which bytes say it is read
//! above (`wal_bodies`).
#![tactic(auto)]

mod blocks;
mod fields;
mod new_tuples;
mod types;

pub use blocks::RecBlocks;
pub use fields::main_block;
pub use new_tuples::{NewTuples, listed_at};
pub use types::{BodyFault, NewTuple, Rec, RecBlock, RecImage, RecKind, What};
