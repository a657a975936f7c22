//! Pages of a heap. Contracts see of a page the position of the record that changed it last, and the
//! list of its items; where a tuple stands in the page is not seen.
#![tactic(auto)]

mod block_parts;
mod bytes;
mod change;
mod image;
mod laws;
mod line;
mod page;
mod pointer;
mod room;
mod rule;
mod typed_page;

pub use image::shows_page;
pub use laws::{items_end_in_use, one_line_changes, tuples_keep_their_rule, zeros_have_no_items};
pub use line::{Item, LineState, Page, PageError, PageImage};
pub use rule::check;
pub use typed_page::HeapPage;
