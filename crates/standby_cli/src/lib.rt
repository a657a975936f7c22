//! The commands of the standby, over whatever archive, base folder, source and sink they are given.
#![tactic(auto)]

mod begin;
mod fault;
mod reject;
mod run;
mod top;

pub use top::standby_main;
