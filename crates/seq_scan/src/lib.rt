//! Sequential scans: the rows of a block that a snapshot sees (heapam.c, heapgetpage).
#![tactic(auto)]

mod block;
mod line;
mod print;
mod rows;
mod scan;

pub use block::read_block;
pub use print::print_block;
pub use rows::{BlockEnd, BlockRows, Rows};
pub use scan::{Damage, PageEnd, Scan, ScanPage, end_at};
