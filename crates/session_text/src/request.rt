ghost use Rattle.std.specs.Prelude.{◌≡◌, ◌∷◌, [], ◌-◌, ◌^◌};
ghost use Rattle.session_text.specs.Lines.{pieces};
ghost use Rattle.session_text.specs.Meaning.{asked};
ghost use Rattle.session_text.specs.Requests.{Closes, Reads, Replays, asked_by, asked_of, has_return, number_of, opening, request_of, within};

use crate::word::{cut, read_number};

/// The most bytes that a line has before its end.
pub const LONGEST: usize = 4096;

/// What a line of a session asks.
#[derive(Clone, Copy)]
pub enum Request<'a> {
    /// The standby's status.
    Status,
    /// So many single replays, at least one.
    Replay { count: u32 },
    /// A scan of the table with this name.
    Open { table: &'a str },
    /// The next page of a scan.
    Next { id: u64 },
    /// The end of a scan.
    Close { id: u64 },
    /// Nothing that is understood.
    Unreadable,
}

/// What a line asks. The line stands without its end.
#[tactic(auto, using(crate::proofs::Words::too_long, crate::proofs::Words::with_return, crate::proofs::Words::without_return))]
pub fn read_request(line: &[u8]) -> Request<'_>
    ensures { asked result ≡ request_of line.now }
{
    if line.len() > LONGEST || has_return(line) {
        return Request::Unreadable;
    }
    read_line(line)
}

/// Whether a carriage return stands in a line.
#[tactic(auto, unfolding(crate::specs::Requests::has_return))]
fn has_return(line: &[u8]) -> bool
    ensures { result ≡ has_return line.now }
{
    line.iter().any(|byte| *byte == b'\r')
}

/// What the words of a line ask.
#[tactic(auto, using(crate::proofs::Words::one_word))]
fn read_line(line: &[u8]) -> Request<'_>
    ensures { asked result ≡ asked_by (pieces 32 line.now) }
{
    match cut(line) {
        None => read_command(line),
        Some((command, rest)) => match cut(rest) {
            None => read_words(command, rest),
            Some(_) => Request::Unreadable,
        },
    }
}

/// What a line of one word asks.
fn read_command(command: &[u8]) -> Request<'_>
    ensures { asked result ≡ asked_by (command.now ∷ []) }
{
    if command == b"status".as_slice() {
        Request::Status
    } else {
        Request::Unreadable
    }
}

/// What a command with one further word asks.
fn read_words<'a>(command: &[u8], word: &'a [u8]) -> Request<'a>
    ensures { asked result ≡ asked_of command.now word.now }
{
    if command == b"replay".as_slice() {
        read_replay(word)
    } else if command == b"open".as_slice() {
        read_open(word)
    } else if command == b"next".as_slice() {
        read_next(word)
    } else if command == b"close".as_slice() {
        read_close(word)
    } else {
        Request::Unreadable
    }
}

/// The number of replays: 1 to 4294967295.
#[tactic(auto, using(crate::proofs::Numbers::is_within, crate::proofs::Numbers::is_past, crate::proofs::Numbers::is_none))]
fn read_replay(word: &[u8]) -> Request<'_>
    ensures { asked result ≡ within 1 (2 ^ 32 - 1) Replays (number_of word.now) }
{
    match read_number(word) {
        None => Request::Unreadable,
        Some(count) => {
            if count == 0 || count > 0xFFFF_FFFF {
                Request::Unreadable
            } else {
                Request::Replay {
                    count: count as u32,
                }
            }
        }
    }
}

/// The number of a scan.
#[tactic(auto, using(crate::proofs::Numbers::is_within, crate::proofs::Numbers::is_none))]
fn read_next(word: &[u8]) -> Request<'_>
    ensures { asked result ≡ within 0 (2 ^ 64 - 1) Reads (number_of word.now) }
{
    match read_number(word) {
        None => Request::Unreadable,
        Some(id) => Request::Next { id },
    }
}

/// The number of a scan.
#[tactic(auto, using(crate::proofs::Numbers::is_within, crate::proofs::Numbers::is_none))]
fn read_close(word: &[u8]) -> Request<'_>
    ensures { asked result ≡ within 0 (2 ^ 64 - 1) Closes (number_of word.now) }
{
    match read_number(word) {
        None => Request::Unreadable,
        Some(id) => Request::Close { id },
    }
}

/// The name of a table: a text of UTF-8 that is not empty.
#[tactic(auto, using(crate::proofs::Names::opens, crate::proofs::Names::opens_none))]
fn read_open(word: &[u8]) -> Request<'_>
    ensures { asked result ≡ opening word.now }
{
    if word.is_empty() {
        return Request::Unreadable;
    }
    match str::from_utf8(word) {
        Ok(table) => Request::Open { table },
        Err(_) => Request::Unreadable,
    }
}
