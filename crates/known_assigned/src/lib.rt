//! The transactions that run on the primary, as a standby knows them from the log: the set of known
//! assigned ids and the numbers beside it (procarray.c), from which snapshots are taken.
#![tactic(auto)]

pub mod known;
mod running_set;
pub mod state;

pub use known::KnownAssigned;
pub use state::{RunningHead, State};
