use thiserror::Error;

/// How a transaction ended, as the commit log tells it (`XidStatus`, clog.h). `None` is running or
/// never seen, `Sub` a subtransaction whose top transaction was about to commit.
#[derive(Clone, Copy)]
pub enum Status {
    None,
    Committed,
    Aborted,
    Sub,
}

/// The error of a look-up of a multixact that neither the log nor the base made.
#[derive(Clone, Copy, Debug, Error)]
#[error("multixact {id} is unknown")]
pub struct Unknown {
    pub id: u32,
}
