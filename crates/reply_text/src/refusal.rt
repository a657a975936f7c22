ghost use Rattle.std.specs.Prelude.{◌≡◌, ◌++◌, OnOk};
ghost use Rattle.session_model.specs.Texts.{refusal_text, what_text};

use crate::words::{push_numbered, push_placed};
use pg_types::NoMemory;
use standby_core::Refusal;
use std::alloc::Global;
use wal_bodies::What;

/// Appends why a record is refused.
pub fn push_refusal(alloc: Global, what: Refusal, text: &mut Vec<u8>) -> Result<(), NoMemory>
    ensures { OnOk result (text.new.items ≡ text.old.items ++ refusal_text what) }
{
    match what {
        Refusal::Compressed => text.extend_from_slice(b"compressed")?,
        Refusal::TooLong => text.extend_from_slice(b"too long")?,
        Refusal::Length => text.extend_from_slice(b"length")?,
        Refusal::Unsupported(what) => text.extend_from_slice(what_text(what).as_bytes())?,
        Refusal::NoPage { block } => push_numbered(alloc, b"no page ", u64::from(block), text)?,
        Refusal::NoTuple { place } => push_placed(alloc, b"no tuple ", place, text)?,
        Refusal::PageFull { place } => push_placed(alloc, b"page full ", place, text)?,
        Refusal::BadPage { block } => push_numbered(alloc, b"bad page ", u64::from(block), text)?,
    }
    Ok(())
}

/// The words for what is not supported.
fn what_text(what: What) -> &'static str
    ensures { result.now ≡ what_text what }
{
    match what {
        What::Prepared => "unsupported prepared",
        What::InPlace => "unsupported inplace",
        What::Minimal => "unsupported minimal",
        What::PageWrites => "unsupported page writes",
        What::Database => "unsupported database",
        What::Epoch => "unsupported epoch",
        What::NotYet => "not yet",
    }
}
