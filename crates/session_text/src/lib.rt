//! The text of a session: the lines of its source, and what each of them asks.
#![tactic(auto)]

mod laws;
mod lines;
mod request;
mod word;

pub use laws::{asks_all_read, asks_all_taken};
pub use lines::LineReader;
pub use request::{LONGEST, Request, read_request};
