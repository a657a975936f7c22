//! The records of a log, one after the other, over pages and segments (xlogreader.c).
#![tactic(auto)]

mod attempt;
mod laws;
mod reader;
mod source;
mod step;
mod types;
mod window;

pub use laws::{one_log, steps_on};
pub use reader::Reader;
pub use types::{EndWhy, Next, NoRecord, ReadFault};
