//! A node that replays the log of a segment's file, of system 7 and from 0/2000000 on, over one described table.
//! Each line of the standard input is a case: its name, the calls, and behind bars the log's records in words
//! and its bytes. What has to be printed was worked out by hand.
ghost use Rattle.std.specs.Prelude.{◌≡◌, IfOk};

use case_text::{Answer, Wrong, bytes, input, number_u64, parts, position, words};
use known_assigned::State;
use outside::{Archive, MemoryArchive, SteadyArchive};
use page_store::Pool;
use pg_types::{Lsn, NoMemory, Status, Xid};
use standby_core::{Node, NodeFault, NodeStatus, Opened, Origin, Refusal, Replayed};
use std::alloc::Global;
use std::io;
use table_schema::read_schema;
use tuple_visibility::Statuses;
use wal_reader::EndWhy;
use xact_redo::XactState;

/// The description of the table.
const DESCRIPTION: &str =
    "database=16384\n[[table]]\nname='t'\noid=16385\nfile=16385\ncolumn=[{name='id',type='int4'}]\n";

/// Answers all lines. A remark and an empty line are none.
pub fn answer_all(rt: &HostRuntime) -> io::Result<()> {
    let text = input(rt).map_err(|_| io::ErrorKind::InvalidData)?;
    for line in text.as_str().lines() {
        if line.is_empty() || line.starts_with('#') {
            continue;
        }
        let text = answer(rt.alloc(), line).map_err(|_| io::ErrorKind::InvalidData)?;
        println!(rt; "{text}")?;
    }
    Ok(())
}

/// `NAME: redo POSITION`, then `failing CALL` or not, then `replay`, `open`, `status` .. and last `parts XID` or not.
fn answer(alloc: Global, line: &str) -> Result<String, Wrong> {
    let (asked, hex) = parts(line);
    let asked = words(alloc, asked)?;
    let log = bytes(alloc, hex)?;
    let [name, "redo", redo, ref rest @ ..] = *asked.as_slice() else {
        return Err(Wrong::Line);
    };
    let node = node(alloc, position(redo)?)?;
    let mut files = SteadyArchive::new(alloc);
    files.put(alloc, "000000010000000000000002", log.as_slice())?;
    let mut answer = Answer::new(alloc);
    answer.say(name);
    match *rest {
        ["failing", call, ref behind @ ..] => {
            let mut archive = MemoryArchive::new(alloc, files, &[number_u64(call)?])?;
            run(node, &mut archive, behind, &mut answer)?;
        }
        _ => run(node, &mut files, rest, &mut answer)?,
    }
    answer.finish()
}

/// A node at the origin of such a log.
fn node(alloc: Global, redo: Lsn) -> Result<Node, Wrong> {
    let Ok(tables) = read_schema(alloc, DESCRIPTION.as_bytes()) else {
        return Err(Wrong::Line);
    };
    let origin = Origin {
        system: 7,
        segsize: 0x100_0000,
        redo,
    };
    let pool = Pool::plain(alloc, tables.locators().len() as u16)?;
    Ok(Node::at_origin(alloc, tables, &origin, pool)?)
}

fn run<A: Archive>(
    node: Node,
    archive: &mut A,
    asked: &[&str],
    answer: &mut Answer,
) -> Result<(), Wrong> {
    let mut node = node;
    for word in asked {
        match *word {
            "replay" => show_replayed(answer, node.replay_one(archive)),
            "open" => show_opened(answer, node.open_scan("t")),
            "status" => show_status(answer, node.status()),
            _ => break,
        }
    }
    if let [.., "parts", xid] = *asked {
        show_transaction(answer, node.transactions(), Xid(number_u64(xid)?));
    }
    answer.field(" ", archive.faults());
    answer.say(" faults");
    Ok(())
}

fn show_replayed(answer: &mut Answer, replayed: Result<Replayed, NodeFault>) {
    match replayed {
        Ok(
            Replayed::Applied {
                start,
                at,
                cancelled,
            },
        ) => {
            answer.position(" applied ", start);
            answer.position(" ", at);
            answer.field(" cancelled ", u64::from(cancelled));
        }
        Ok(Replayed::AtEnd { lsn, why }) => {
            answer.position(" end ", lsn);
            answer.say(end_text(why));
        }
        Ok(Replayed::Refused { lsn, what }) => {
            answer.position(" refused ", lsn);
            show_refusal(answer, what);
        }
        Err(NodeFault::Archive) => answer.say(" archive failed"),
        Err(NodeFault::Memory) => answer.say(" out of memory"),
    }
    answer.say(",");
}

fn show_opened(answer: &mut Answer, opened: Result<Opened, NoMemory>) {
    match opened {
        Ok(Opened::Scan { id, .. }) => answer.field(" opened ", id),
        Ok(_) => answer.say(" not opened"),
        Err(NoMemory) => answer.say(" out of memory"),
    }
    answer.say(",");
}

fn end_text(why: EndWhy) -> &'static str {
    match why {
        EndWhy::Missing => " missing",
        EndWhy::Page => " page",
        EndWhy::Zero => " zero",
        EndWhy::Short => " short",
        EndWhy::Manager => " manager",
        EndWhy::Prev => " prev",
        EndWhy::Crc => " crc",
        EndWhy::Layout => " layout",
    }
}

fn show_refusal(answer: &mut Answer, what: Refusal) {
    match what {
        Refusal::Compressed => answer.say(" compressed"),
        Refusal::TooLong => answer.say(" too long"),
        Refusal::Length => answer.say(" length"),
        Refusal::Unsupported(_) => answer.say(" not yet"),
        Refusal::NoPage { block } => answer.field(" no page ", u64::from(block)),
        Refusal::NoTuple { place } => answer.place(" no tuple ", place),
        Refusal::PageFull { place } => answer.place(" page full ", place),
        Refusal::BadPage { block } => answer.field(" bad page ", u64::from(block)),
    }
}

fn show_status(answer: &mut Answer, status: NodeStatus) {
    answer.field(" [timeline ", u64::from(status.tli.0));
    answer.position(" at ", status.at);
    answer.position(" minimum ", status.min);
    answer.say(if status.awaited {
        " backup awaited "
    } else {
        " backup ended "
    });
    match status.state {
        State::Initialized => answer.say("initialized"),
        State::Pending { until } => answer.field("pending ", until.0),
        State::Ready => answer.say("ready"),
    }
    answer.say("],");
}

/// What is known of a transaction, and the latest that completed.
fn show_transaction(answer: &mut Answer, transactions: &XactState, xid: Xid) {
    answer.field(" ", xid.0);
    answer.say(match transactions.status(xid) {
        Status::None => " unknown",
        Status::Committed => " committed",
        Status::Aborted => " aborted",
        Status::Sub => " subtransaction",
    });
    answer.field(
        ", latest completed ",
        transactions.known.latest_completed().0,
    );
    answer.say(",");
}
