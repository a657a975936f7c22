ghost use Rattle.std.specs.Prelude.{◌≡◌, ◌≢◌, ◌≤◌, ◌⊎◌, Err, IfOk};
ghost use Rattle.outside.specs.Faults.{Rose};
ghost use Rattle.wal_archive.specs.ArchiveLog.{archived_bytes};
ghost use Rattle.standby_core.specs.View.{standby};
ghost use Rattle.standby_session.specs.Held.{LeavesTold};

use crate::answer::push_answer;
use crate::fault::SessionFault;
use outside::{Archive, Sink, Source};
use pg_types::Fail;
use session_text::{LineReader, asks_all_read, asks_all_taken, read_request};
use standby_core::{Node, NodeFault};
use std::alloc::Global;
use std::mem;

/// The most bytes that are read at once.
const CHUNK: usize = 4096;

/// Answers the lines of a source to its end, each answer by one write, and gives the status of the session: 5 where a
/// record was refused or a scan met damage, else 0.
///
/// # Errors
/// The first call of the outside that fails ends the session, each only where the faults of its object rose; want of
/// memory does too. All answers that were finished before it are written; of the one in which the sink failed a prefix.
pub fn hold_session<A: Archive, S: Source, O: Sink>(
    alloc: Global,
    node: &mut Node,
    archive: &mut A,
    source: &mut S,
    out: &mut O,
) -> Result<u8, SessionFault>
    ensures held { LeavesTold (archived_bytes (A.files archive.old) (standby node.old).segsize) (S.rest source.old) (standby node.old) (O.written out.old) (O.written out.new) result }
    ensures status { IfOk result (λ status. (status ≡ 0) ⊎ (status ≡ 5)) }
    ensures archive_failed { result ≡ Err SessionFault.Archive → Rose (A.fault_count archive.old) (A.fault_count archive.new) }
    ensures archive_uncounted { result ≢ Err SessionFault.Archive → A.fault_count archive.new ≡ A.fault_count archive.old }
    ensures source_failed { result ≡ Err SessionFault.Source → Rose (S.fault_count source.old) (S.fault_count source.new) }
    ensures source_uncounted { result ≢ Err SessionFault.Source → S.fault_count source.new ≡ S.fault_count source.old }
    ensures sink_failed { result ≡ Err SessionFault.Sink → Rose (O.fault_count out.old) (O.fault_count out.new) }
    ensures sink_uncounted { result ≢ Err SessionFault.Sink → O.fault_count out.new ≡ O.fault_count out.old }
    ensures shortages { O.short_count out.old ≤ O.short_count out.new }
{
    asks_all_read();
    asks_all_taken();
    let mut session = Session::new(alloc);
    let mut buf = [0u8; CHUNK];
    'reads: loop {
        match source.read(&mut buf) {
            Err(Fail::Failed) => return Err(SessionFault::Source),
            Err(Fail::Memory) => return Err(SessionFault::Memory),
            Ok(0) => return session.end(node, archive, out),
            Ok(count) => match session.take(&buf[..count], node, archive, out) {
                Err(fault) => return Err(fault),
                Ok(()) => {}
            },
        }
    }
}

/// A session that goes on: the line that is taken, the room of the answers' texts, and whether a record was refused or a
/// scan met damage so far.
#[derive(Drop)]
struct Session {
    alloc: Global,
    lines: LineReader,
    text: Vec<u8>,
    troubled: bool,
}

impl Session {
    ghost use Rattle.std.specs.Prelude.{false, [], ◌∷◌, ◌||◌, OnOk, if◌then◌else◌};
    ghost use Rattle.session_text.specs.Requests.{request_of, requests_of};
    ghost use Rattle.session_text.specs.Taking.{Kept, given, line_at_end, lines_given, step, taken_behind};
    ghost use Rattle.standby_session.specs.Answered.{AnswersAll};

    /// Before the first byte. It takes no memory.
    fn new(alloc: Global) -> Session
        ensures lines { result.lines ≡ Kept [] }
        ensures quiet { result.troubled ≡ false }
    {
        Session {
            alloc,
            lines: LineReader::new(alloc),
            text: Vec::new(alloc),
            troubled: false,
        }
    }

    /// Takes bytes of the source, and answers the lines that they end.
    fn take<A: Archive, O: Sink>(
        &mut self,
        bytes: &[u8],
        node: &mut Node,
        archive: &mut A,
        out: &mut O,
    ) -> Result<(), SessionFault>
        ensures told { AnswersAll (archived_bytes (A.files archive.old) (standby node.old).segsize) (requests_of (lines_given self.old.lines bytes.now))
            (standby node.old) (standby node.new) (O.written out.old) (O.written out.new) self.old.troubled self.new.troubled result }
        ensures lines { OnOk result (self.new.lines ≡ taken_behind self.old.lines bytes.now) }
        ensures same_log { archived_bytes (A.files archive.new) (standby node.new).segsize ≡ archived_bytes (A.files archive.old) (standby node.old).segsize }
        ensures archive_failed { result ≡ Err SessionFault.Archive → Rose (A.fault_count archive.old) (A.fault_count archive.new) }
        ensures archive_uncounted { result ≢ Err SessionFault.Archive → A.fault_count archive.new ≡ A.fault_count archive.old }
        ensures sink_failed { result ≡ Err SessionFault.Sink → Rose (O.fault_count out.old) (O.fault_count out.new) }
        ensures sink_uncounted { result ≢ Err SessionFault.Sink → O.fault_count out.new ≡ O.fault_count out.old }
        ensures source_unread { result ≢ Err SessionFault.Source }
        ensures shortages { O.short_count out.old ≤ O.short_count out.new }
    {
        'bytes: for byte in bytes {
            match self.take_byte(*byte, node, archive, out) {
                Err(fault) => return Err(fault),
                Ok(()) => {}
            }
        }
        Ok(())
    }

    /// Takes the next byte of the source, and answers the line that ends with it or becomes too long by it.
    fn take_byte<A: Archive, O: Sink>(
        &mut self,
        byte: u8,
        node: &mut Node,
        archive: &mut A,
        out: &mut O,
    ) -> Result<(), SessionFault>
        ensures told { AnswersAll (archived_bytes (A.files archive.old) (standby node.old).segsize) (requests_of (given (step self.old.lines byte).1))
            (standby node.old) (standby node.new) (O.written out.old) (O.written out.new) self.old.troubled self.new.troubled result }
        ensures lines { OnOk result (self.new.lines ≡ (step self.old.lines byte).0) }
        ensures same_log { archived_bytes (A.files archive.new) (standby node.new).segsize ≡ archived_bytes (A.files archive.old) (standby node.old).segsize }
        ensures archive_failed { result ≡ Err SessionFault.Archive → Rose (A.fault_count archive.old) (A.fault_count archive.new) }
        ensures archive_uncounted { result ≢ Err SessionFault.Archive → A.fault_count archive.new ≡ A.fault_count archive.old }
        ensures sink_failed { result ≡ Err SessionFault.Sink → Rose (O.fault_count out.old) (O.fault_count out.new) }
        ensures sink_uncounted { result ≢ Err SessionFault.Sink → O.fault_count out.new ≡ O.fault_count out.old }
        ensures source_unread { result ≢ Err SessionFault.Source }
        ensures shortages { O.short_count out.old ≤ O.short_count out.new }
    {
        match self.lines.take(self.alloc, byte) {
            Err(_) => Err(SessionFault::Memory),
            Ok(None) => Ok(()),
            Ok(Some(line)) => self.answer(line.as_slice(), node, archive, out),
        }
    }

    /// Answers the line behind the last newline, if there is one, and gives the status.
    fn end<A: Archive, O: Sink>(
        &mut self,
        node: &mut Node,
        archive: &mut A,
        out: &mut O,
    ) -> Result<u8, SessionFault>
        ensures told { AnswersAll (archived_bytes (A.files archive.old) (standby node.old).segsize) (requests_of (line_at_end self.old.lines))
            (standby node.old) (standby node.new) (O.written out.old) (O.written out.new) self.old.troubled self.new.troubled result }
        ensures status { IfOk result (λ status. status ≡ (if self.new.troubled then 5 else 0)) }
        ensures archive_failed { result ≡ Err SessionFault.Archive → Rose (A.fault_count archive.old) (A.fault_count archive.new) }
        ensures archive_uncounted { result ≢ Err SessionFault.Archive → A.fault_count archive.new ≡ A.fault_count archive.old }
        ensures sink_failed { result ≡ Err SessionFault.Sink → Rose (O.fault_count out.old) (O.fault_count out.new) }
        ensures sink_uncounted { result ≢ Err SessionFault.Sink → O.fault_count out.new ≡ O.fault_count out.old }
        ensures source_unread { result ≢ Err SessionFault.Source }
        ensures shortages { O.short_count out.old ≤ O.short_count out.new }
    {
        let lines = mem::replace(&mut self.lines, LineReader::new(self.alloc));
        match lines.last() {
            None => Ok(self.status()),
            Some(line) => match self.answer(line.as_slice(), node, archive, out) {
                Err(fault) => Err(fault),
                Ok(()) => Ok(self.status()),
            },
        }
    }

    /// The status of a session that ends now.
    fn status(&self) -> u8
        ensures { result ≡ (if self.now.troubled then 5 else 0) }
    {
        if self.troubled { 5 } else { 0 }
    }

    /// Keeps whether a record was refused or a scan met damage.
    fn note(&mut self, troubled: bool)
        ensures troubled { self.new.troubled ≡ (self.old.troubled || troubled) }
        ensures lines { self.new.lines ≡ self.old.lines }
        ensures text { self.new.text.items ≡ self.old.text.items }
    {
        self.troubled = self.troubled || troubled;
    }

    /// Answers a line.
    fn answer<A: Archive, O: Sink>(
        &mut self,
        line: &[u8],
        node: &mut Node,
        archive: &mut A,
        out: &mut O,
    ) -> Result<(), SessionFault>
        ensures told { AnswersAll (archived_bytes (A.files archive.old) (standby node.old).segsize) (request_of line.now ∷ [])
            (standby node.old) (standby node.new) (O.written out.old) (O.written out.new) self.old.troubled self.new.troubled result }
        ensures lines { self.new.lines ≡ self.old.lines }
        ensures same_log { archived_bytes (A.files archive.new) (standby node.new).segsize ≡ archived_bytes (A.files archive.old) (standby node.old).segsize }
        ensures archive_failed { result ≡ Err SessionFault.Archive → Rose (A.fault_count archive.old) (A.fault_count archive.new) }
        ensures archive_uncounted { result ≢ Err SessionFault.Archive → A.fault_count archive.new ≡ A.fault_count archive.old }
        ensures sink_failed { result ≡ Err SessionFault.Sink → Rose (O.fault_count out.old) (O.fault_count out.new) }
        ensures sink_uncounted { result ≢ Err SessionFault.Sink → O.fault_count out.new ≡ O.fault_count out.old }
        ensures source_unread { result ≢ Err SessionFault.Source }
        ensures shortages { O.short_count out.old ≤ O.short_count out.new }
    {
        self.text.clear();
        match push_answer(
            self.alloc,
            &read_request(line),
            node,
            archive,
            &mut self.text,
        ) {
            Err(NodeFault::Archive) => return Err(SessionFault::Archive),
            Err(NodeFault::Memory) => return Err(SessionFault::Memory),
            Ok(troubled) => self.note(troubled),
        }
        match out.write(self.text.as_slice()) {
            Err(Fail::Failed) => Err(SessionFault::Sink),
            Err(Fail::Memory) => Err(SessionFault::Memory),
            Ok(()) => Ok(()),
        }
    }
}
