//! The lines of a session's answers (session_model, `answer_text`). Each call appends to a text, of which nothing is said
//! after want of memory.
#![tactic(auto)]

mod page;
mod refusal;
mod replays;
mod status;
mod words;

pub use page::push_page_end;
pub use refusal::push_refusal;
pub use replays::push_replays;
pub use status::{push_cancelled, push_closed, push_error_line, push_opened, push_status};
pub use words::{push_numbered, push_word};
