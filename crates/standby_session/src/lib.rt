//! A session: a standby's node answers the lines of a source, one after the other.
#![tactic(auto)]

mod answer;
mod fault;
mod page;
mod scan;
mod session;

pub use answer::push_answer;
pub use fault::SessionFault;
pub use scan::run_scan;
pub use session::hold_session;
