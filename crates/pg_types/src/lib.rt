//! The vocabulary that every layer shares: positions, timelines, transaction ids, relation files,
//! places of tuples, and numbers in bytes.
#![tactic(auto)]

pub mod fail;
pub mod lists;
pub mod names;
pub mod numbers;
pub mod read;
pub mod sizes;
pub mod status;
pub mod text;

pub use fail::{Fail, NoMemory};
pub use lists::{Bytes, List, XidList};
pub use names::{Locator, Lsn, Place, Tag, Tli, Xid};
pub use numbers::{u16_at, u32_at, u64_at};
pub use sizes::is_segment_size;
pub use status::{Status, Unknown};
pub use text::{SegmentName, segment_name};
