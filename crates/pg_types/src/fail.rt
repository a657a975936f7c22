use std::alloc::{AllocError, AllocFailed};
use thiserror::Error;

/// How a call of the outside fails: the object counted a fault of its own, or memory ran out.
#[derive(Clone, Copy, Debug, Error)]
pub enum Fail {
    #[error("the outside failed")]
    Failed,
    #[error("out of memory")]
    Memory,
}

/// The error of a call whose only refusal is want of memory. After it all is as before the call.
#[derive(Clone, Copy, Debug, Error)]
#[error("out of memory")]
pub struct NoMemory;

impl From<AllocError> for NoMemory {
    fn from(_: AllocError) -> NoMemory {
        NoMemory
    }
}

impl<T: Drop> From<AllocFailed<T>> for NoMemory {
    fn from(_: AllocFailed<T>) -> NoMemory {
        NoMemory
    }
}
