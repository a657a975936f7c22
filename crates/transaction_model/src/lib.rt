//! Transactions along the log, and what a standby's rules and snapshots promise of them.
#![tactic(auto)]

pub mod transactions;
