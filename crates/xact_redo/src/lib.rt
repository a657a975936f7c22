//! What each record of the log does to a standby's state of transactions: the commit log, the parents of
//! subtransactions, the multixacts and the known assigned ids (xact.c, standby.c, xlog.c, multixact.c).
#![tactic(auto)]

mod records;
mod room;
pub mod state;

pub use records::{ends_ids, redo};
pub use room::reserve;
pub use state::XactState;
