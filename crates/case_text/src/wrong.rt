use pg_types::NoMemory;
use std::alloc::{AllocError, AllocFailed};
use std::io;
use thiserror::Error;

/// What is wrong with a line of cases, or with its answer.
#[derive(Clone, Copy, Debug, Error)]
pub enum Wrong {
    #[error("no line of this program's cases")]
    Line,
    #[error("no number, or one that is too great")]
    Number,
    #[error("no bytes in hex")]
    Bytes,
    #[error("no position")]
    Position,
    #[error("no place of a tuple")]
    Place,
    #[error("no file of a relation")]
    Locator,
    #[error("neither yes nor no")]
    Yes,
    #[error("the input was not read, or the answer not written")]
    Io,
    #[error("out of memory")]
    Memory,
}

impl From<AllocError> for Wrong {
    fn from(_: AllocError) -> Wrong {
        Wrong::Memory
    }
}

impl<T: Drop> From<AllocFailed<T>> for Wrong {
    fn from(_: AllocFailed<T>) -> Wrong {
        Wrong::Memory
    }
}

impl From<NoMemory> for Wrong {
    fn from(_: NoMemory) -> Wrong {
        Wrong::Memory
    }
}

impl From<io::Error> for Wrong {
    fn from(_: io::Error) -> Wrong {
        Wrong::Io
    }
}

/// The error that ends a program of cases: the number of the line, from 1, and what is wrong with it.
#[derive(Clone, Copy, Debug, Error)]
#[error("line {line}: {wrong}")]
pub struct BadLine {
    pub line: usize,
    pub wrong: Wrong,
}
