ghost use Rattle.std.specs.Prelude.{◌≡◌, ◌++◌, OnOk};
ghost use Rattle.session_model.specs.NodeSteps.{replay_reply};
ghost use Rattle.session_model.specs.Texts.{replayed_text, replays_text, why_text};

use crate::refusal::push_refusal;
use crate::words::{push_numbered, push_position, push_word};
use pg_types::{Lsn, NoMemory};
use standby_core::Replayed;
use std::alloc::Global;
use wal_reader::EndWhy;

/// Appends the line that so many records were applied, up to where the standby stands, and why no more were, by what
/// came of the last replay.
#[tactic(auto, unfolding(session_model::specs::Texts::replays_text))]
pub fn push_replays(
    alloc: Global,
    count: u32,
    last: &Replayed,
    text: &mut Vec<u8>,
) -> Result<(), NoMemory>
    ensures { OnOk result (text.new.items ≡ text.old.items ++ replays_text count (replay_reply last.now)) }
{
    match last {
        Replayed::Applied { at, .. } => push_replayed(alloc, count, *at, text)?,
        Replayed::AtEnd { lsn, why } => {
            push_replayed(alloc, count, *lsn, text)?;
            push_word(b" end: ", why_text(*why), text)?;
        }
        Replayed::Refused { lsn, what } => {
            push_replayed(alloc, count, *lsn, text)?;
            text.extend_from_slice(b" refused: ")?;
            push_refusal(alloc, *what, text)?;
        }
    }
    text.push(b'\n')?;
    Ok(())
}

/// Appends that so many records were applied, up to here.
fn push_replayed(alloc: Global, count: u32, at: Lsn, text: &mut Vec<u8>) -> Result<(), NoMemory>
    ensures { OnOk result (text.new.items ≡ text.old.items ++ replayed_text count at.0) }
{
    push_numbered(alloc, b"replayed ", u64::from(count), text)?;
    push_position(b" at ", at, text)
}

/// The rule by which a log ends.
fn why_text(why: EndWhy) -> &'static str
    ensures { result.now ≡ why_text why }
{
    match why {
        EndWhy::Missing => "missing",
        EndWhy::Page => "page",
        EndWhy::Zero => "zero",
        EndWhy::Short => "short",
        EndWhy::Manager => "manager",
        EndWhy::Prev => "prev",
        EndWhy::Crc => "crc",
        EndWhy::Layout => "layout",
    }
}
