//! Recovery conflicts: the locks that transactions of the primary hold, and which record takes away what a
//! scan of the standby still has to see (standby.c).
#![tactic(auto)]

mod causes;
mod locks;

pub use causes::conflict;
pub use locks::{Cause, HeldLock, Locks};
