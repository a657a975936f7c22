ghost use Rattle.std.specs.Prelude.{◌≡◌, ◌≢◌, ◌⊎◌, IfSome, map, string_bytes};
ghost use Rattle.outside.specs.Faults.{Rose};
ghost use Rattle.outside.specs.Sink.{Appends};
ghost use Rattle.wal_archive.specs.ArchiveLog.{archived_bytes};
ghost use Rattle.standby_model.specs.Archived.{segment_size};
ghost use Rattle.run_model.specs.Leaves.{IsAnswered, IsFault, IsRejected, RejectionLeaves};
ghost use Rattle.run_model.specs.Starts.{BadWords, NoCommand, Rejection, Rejects, Starts, command_of, rejection_status, rejection_text};
ghost use Rattle.standby_cli.specs.Runs.{RunsByNode, RunsLegally};
ghost use Rattle.standby_cli.specs.Watched.{watched};

use crate::begin::{Start, begin};
use crate::fault::write_fault;
use crate::reject::reject;
use crate::run::{hold, scan};
use outside::{Archive, BaseDir, Sink, Source};
use pg_types::Fail;
use std::alloc::Global;

/// The program: answers its words over the archive and the base folder, and for `session` the lines of `source`; writes
/// the answers to `out`, and gives the exit status. The base folder is read first; where it decides the answer, neither
/// the archive nor the source is asked.
///
/// 0: a scan was written to its end, or each line of a session was answered. 1: the table of a scan is not described, scans
/// are not admitted, or a row is refused. 2: the words are neither `scan` and a table nor `session`. 3: the description of
/// the tables is refused. 4: there is none. 5: a record of the log is refused, or a block is damaged; of a session, once
/// its source was read to its end. 7: the archive or the base folder failed. 9: the source or the sink failed. 12: memory
/// ran out.
pub fn standby_main<A: Archive, B: BaseDir, S: Source, O: Sink>(
    alloc: Global,
    words: &[String],
    archive: &mut A,
    base: &mut B,
    source: &mut S,
    out: &mut O,
) -> u8
    ensures statuses { IsAnswered result ⊎ IsFault result }

    // What is written and the status are those of the run: of a scan or a session, by the steps of a node whose life begins
    // at the log's origin; where a fault ended it, of what was finished before.
    ensures run { RunsByNode (map string_bytes words.now) (B.files base.old) (archived_bytes (A.files archive.old) segment_size) (S.rest source.old) result
        (watched (O.fault_count out.old) (O.fault_count out.new) (O.short_count out.old) (O.short_count out.new)
        (Rose (S.fault_count source.old) (S.fault_count source.new)) (O.written out.old) (O.written out.new)) }

    // Over a log that a primary could write they are those of a run by the steps of the abstract standby, which are told by the
    // log alone: scans are admitted exactly where the base backup has ended and the running transactions are known, and give
    // the rows that were committed at their opening, in order of place.
    ensures legal { RunsLegally (map string_bytes words.now) (B.files base.old) (A.files archive.old) (S.rest source.old) result
        (watched (O.fault_count out.old) (O.fault_count out.new) (O.short_count out.old) (O.short_count out.new)
        (Rose (S.fault_count source.old) (S.fault_count source.new)) (O.written out.old) (O.written out.new)) }

    // What the words and the base folder decide is so whatever the archive and the source hold, and neither is asked then.
    ensures rejects { IfSome (B.files base.old) (λ described. (rejection : Rejection)
        → Starts (map string_bytes words.now) described (Rejects rejection)
        → RejectionLeaves rejection result
        (watched (O.fault_count out.old) (O.fault_count out.new) (O.short_count out.old) (O.short_count out.new) ⊥ (O.written out.old) (O.written out.new))) }
    ensures unasked { IfSome (B.files base.old) (λ described. (rejection : Rejection)
        → Starts (map string_bytes words.now) described (Rejects rejection)
        → (A.fault_count archive.new ≡ A.fault_count archive.old) × (S.fault_count source.new ≡ S.fault_count source.old)) }
    ensures rejected { IsRejected result → IfSome (B.files base.old) (λ described. (rejection : Rejection)
        × (Starts (map string_bytes words.now) described (Rejects rejection)) × (result ≡ rejection_status rejection)) }

    // A fault has its cause, and no call of the outside that failed is passed over.
    ensures archive_failed { result ≡ 7
        → Rose (A.fault_count archive.old) (A.fault_count archive.new) ⊎ Rose (B.fault_count base.old) (B.fault_count base.new) }
    ensures uncounted { result ≢ 7 → A.fault_count archive.new ≡ A.fault_count archive.old }
    ensures base_uncounted { result ≢ 7 → B.fault_count base.new ≡ B.fault_count base.old }
    ensures stream_failed { result ≡ 9
        → Rose (O.fault_count out.old) (O.fault_count out.new) ⊎ Rose (S.fault_count source.old) (S.fault_count source.new) }
    ensures source_uncounted { result ≢ 9 → S.fault_count source.new ≡ S.fault_count source.old }

    // Words that are neither `scan` and a table nor `session` are told so, whatever the base folder and the archive hold.
    ensures words { result ≡ 2 → (command_of (map string_bytes words.now) ≡ NoCommand)
        × (Appends (O.written out.old) (O.written out.new) (rejection_text BadWords)) }
    ensures other_words { command_of (map string_bytes words.now) ≡ NoCommand → (result ≡ 2) ⊎ ((result ≡ 9) ⊎ (result ≡ 12)) }
{
    legal_session::node_simulates();
    legal_session::life_begins_so();
    match begin(alloc, words, base) {
        Err(Fail::Failed) => write_fault(7, b"fault archive\n", out),
        Err(Fail::Memory) => write_fault(12, b"fault memory\n", out),
        Ok(Start::Rejected(rejection)) => reject(alloc, &rejection, out),
        Ok(Start::Scans { tables, name }) => scan(alloc, tables, name, archive, out),
        Ok(Start::Holds { tables }) => hold(alloc, tables, archive, source, out),
    }
}
