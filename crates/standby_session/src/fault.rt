use pg_types::{Fail, NoMemory};
use standby_core::NodeFault;
use thiserror::Error;

/// What ends a session before the end of its source.
#[derive(Clone, Copy, Debug, Error)]
pub enum SessionFault {
    #[error("the archive failed")]
    Archive,
    #[error("the source failed")]
    Source,
    #[error("the sink failed")]
    Sink,
    #[error("out of memory")]
    Memory,
}

impl From<NoMemory> for SessionFault {
    ghost use Rattle.std.specs.Prelude.{◌≡◌};
    ghost use Rattle.standby_session.specs.declared.fault.SessionFault.TheVariants.{Memory};

    ghost from_gives = { λ _ fault. fault ≡ Memory };

    fn from(_: NoMemory) -> SessionFault {
        SessionFault::Memory
    }
}
