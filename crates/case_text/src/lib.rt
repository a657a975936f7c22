//! What the programs of cases share: the words of a line of their input, the values that words write, and
//! how bytes and positions are shown. A line is a case in the notation of its program, and stands for itself;
//! one that begins with `#` is a remark.
#![tactic(auto)]

pub mod answer;
pub mod lines;
pub mod show;
pub mod values;
pub mod wrong;

pub use answer::Answer;
pub use lines::{input, parts, words};
pub use show::{ShowHex, ShowPosition};
pub use values::{
    bytes, locator, number_u8, number_u16, number_u32, number_u64, place, position, yes,
};
pub use wrong::{BadLine, Wrong};
