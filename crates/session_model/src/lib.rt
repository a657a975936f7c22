//! Sessions of a standby: events and replies, the steps of its node, the answers to the lines of a source and their text.
//! The definitions that the program's contracts cite, and their laws.
#![tactic(auto)]

mod laws;

pub use laws::{Simulation, one_scan, one_step, scans_follow, sessions_follow, talks_on};
