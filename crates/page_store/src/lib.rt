//! The blocks of the described tables. Contracts see a pool as a map from a block to its bytes.
#![tactic(auto)]

mod pool;
mod table;

pub use pool::{Pool, PoolFault};
