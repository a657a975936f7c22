//! The multixacts that were made, each with its updater: the member that updates or deletes, if one does
//! (multixact.c).
#![tactic(auto)]

mod entries;
pub mod status;

pub use entries::{Entry, Multis};
