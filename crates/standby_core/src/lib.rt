//! The node of a standby: it replays a log record by record into the blocks of the described tables and
//! the state of transactions (xlogrecovery.c, PerformWalRecovery), and gives the rows of tables to scans
//! that are open meanwhile.
#![tactic(auto)]

mod conflicts;
mod node;
mod open;
mod scans;
mod types;

pub use node::Node;
pub use scans::{NodePage, NodeScan, Opened, PrintedPage};
pub use types::{NodeFault, NodeStatus, Origin, Refusal, Replayed};
