//! How a record in typed form is shown.
use crate::removals::{show_lines, show_removal};
use case_text::{Answer, Wrong};
use pg_types::{Locator, Xid};
use std::alloc::Global;
use wal_bodies::{
    Locators, LockEntries, Members, NewTuple, Rec, RecBlock, RecImage, RecKind, Xids,
};

/// A record: its transaction and info, where it begins and ends, what it says, and its blocks.
pub fn show(alloc: Global, rec: &Rec<'_>) -> Result<String, Wrong> {
    let mut answer = Answer::new(alloc);
    answer.number(rec.head.xid.0);
    answer.mask(" ", &[rec.head.info]);
    answer.position(" ", rec.start);
    answer.position(" ", rec.end);
    answer.say(" ");
    show_kind(&mut answer, rec);
    for block in rec.blocks.again() {
        show_block(&mut answer, &block);
    }
    answer.finish()
}

fn show_kind(answer: &mut Answer, rec: &Rec<'_>) {
    match &rec.kind {
        RecKind::Checkpoint { .. } => show_checkpoint(answer, &rec.kind),
        RecKind::Parameters { .. } => show_parameters(answer, &rec.kind),
        RecKind::Ended { .. } | RecKind::Running { .. } => show_xacts(answer, rec),
        RecKind::Assignment { top, xids } => {
            answer.field("assignment to ", top.0);
            show_xids(answer, xids.again());
        }
        RecKind::Truncate {
            block,
            locator,
            flags,
        } => {
            show_locator(answer, "truncate ", *locator);
            answer.field(" to ", u64::from(*block));
            answer.say(" flags ");
            answer.signed(i64::from(*flags));
        }
        RecKind::Locks { entries } => show_locks(answer, entries.again()),
        RecKind::Multixact {
            id,
            offset,
            members,
        } => {
            answer.field("multixact ", u64::from(*id));
            answer.field(" offset ", u64::from(*offset));
            show_members(answer, members.again());
        }
        RecKind::BackupEnd { start } => answer.position("backup-end ", *start),
        RecKind::FullPageWrites { on: true } => answer.say("page-writes on"),
        RecKind::FullPageWrites { on: false } => answer.say("page-writes off"),
        RecKind::Overwrite { given_up, time } => {
            answer.position("given-up ", *given_up);
            answer.say(" time ");
            answer.signed(*time);
        }
        RecKind::Images => answer.say("images"),
        RecKind::Other => answer.say("other"),
        _ => show_heap(answer, &rec.kind),
    }
}

fn show_checkpoint(answer: &mut Answer, kind: &RecKind<'_>) {
    if let RecKind::Checkpoint {
        redo,
        timeline,
        previous,
        full_page_writes,
        next,
        next_multi,
        next_member,
        oldest_multi,
        oldest_active,
    } = kind
    {
        answer.position("checkpoint redo ", *redo);
        answer.field(" timeline ", u64::from(timeline.0));
        answer.field(" previous ", u64::from(previous.0));
        answer.say(" page-writes ");
        answer.say(if *full_page_writes { "true" } else { "false" });
        answer.field(" next ", next.0);
        answer.field(" multi ", u64::from(*next_multi));
        answer.field(" member ", u64::from(*next_member));
        answer.field(" oldest-multi ", u64::from(*oldest_multi));
        answer.field(" oldest-active ", oldest_active.0);
    }
}

fn show_parameters(answer: &mut Answer, kind: &RecKind<'_>) {
    if let RecKind::Parameters {
        max_connections,
        max_worker_processes,
        max_wal_senders,
        max_prepared_transactions,
        max_locks_per_transaction,
        wal_level,
    } = kind
    {
        answer.say("parameters connections ");
        answer.signed(i64::from(*max_connections));
        answer.say(" workers ");
        answer.signed(i64::from(*max_worker_processes));
        answer.say(" senders ");
        answer.signed(i64::from(*max_wal_senders));
        answer.say(" prepared ");
        answer.signed(i64::from(*max_prepared_transactions));
        answer.say(" locks ");
        answer.signed(i64::from(*max_locks_per_transaction));
        answer.say(" level ");
        answer.signed(i64::from(*wal_level));
    }
}

fn show_xacts(answer: &mut Answer, rec: &Rec<'_>) {
    match &rec.kind {
        RecKind::Ended {
            time,
            xinfo,
            xids,
            files,
        } => {
            answer.say(if rec.head.info & 0x70 == 0 {
                "commit time "
            } else {
                "abort time "
            });
            answer.signed(*time);
            answer.hex(" xinfo 0x", u64::from(*xinfo));
            show_xids(answer, xids.again());
            show_files(answer, files.again());
        }
        RecKind::Running {
            tops,
            subs,
            overflow,
            next,
            oldest,
            latest,
            xids,
        } => {
            answer.field("running tops ", u64::from(*tops));
            answer.field(" subs ", u64::from(*subs));
            answer.say(" overflow ");
            answer.say(if *overflow { "true" } else { "false" });
            answer.field(" next ", next.0);
            answer.field(" oldest ", oldest.0);
            answer.field(" latest ", latest.0);
            show_xids(answer, xids.again());
        }
        _ => {}
    }
}

/// Ids between commas, and none as `-`.
fn show_xids(answer: &mut Answer, xids: Xids<'_>) {
    let mut is_first = true;
    for xid in xids {
        answer.field(if is_first { " xids " } else { "," }, xid.0);
        is_first = false;
    }
    if is_first {
        answer.say(" xids -");
    }
}

/// Files in the same way.
fn show_files(answer: &mut Answer, files: Locators<'_>) {
    let mut is_first = true;
    for file in files {
        show_locator(answer, if is_first { " files " } else { "," }, file);
        is_first = false;
    }
    if is_first {
        answer.say(" files -");
    }
}

/// A file as its tablespace, its database and its own number.
fn show_locator(answer: &mut Answer, name: &str, locator: Locator) {
    let Locator { space, db, rel } = locator;
    answer.field(name, u64::from(space));
    answer.field("/", u64::from(db));
    answer.field("/", u64::from(rel));
}

/// Locks in the same way, each as its transaction, its database and its relation.
fn show_locks(answer: &mut Answer, entries: LockEntries<'_>) {
    let mut is_first = true;
    for entry in entries {
        answer.field(if is_first { "locks " } else { "," }, entry.xid.0);
        answer.field(" ", u64::from(entry.database));
        answer.field("/", u64::from(entry.relation));
        is_first = false;
    }
    if is_first {
        answer.say("locks -");
    }
}

/// The members of a multixact in the same way, each as its transaction and its status.
fn show_members(answer: &mut Answer, members: Members<'_>) {
    let mut is_first = true;
    for member in members {
        answer.field(if is_first { " members " } else { "," }, member.xid.0);
        answer.field(" ", u64::from(member.status));
        is_first = false;
    }
    if is_first {
        answer.say(" members -");
    }
}

fn show_heap(answer: &mut Answer, kind: &RecKind<'_>) {
    match kind {
        RecKind::Insert { line, flags } => {
            answer.field("insert line ", u64::from(*line));
            answer.mask(" flags ", &[*flags]);
        }
        RecKind::Delete {
            xmax,
            line,
            bits,
            flags,
        } => show_mark(answer, "delete", *xmax, *line, [*bits, *flags]),
        RecKind::Lock {
            xmax,
            line,
            bits,
            flags,
        } => show_mark(answer, "lock", *xmax, *line, [*bits, *flags]),
        RecKind::LockUpdated {
            xmax,
            line,
            bits,
            flags,
        } => show_mark(answer, "lock-updated", *xmax, *line, [*bits, *flags]),
        RecKind::Confirm { line } => answer.field("confirm line ", u64::from(*line)),
        RecKind::MultiInsert { flags, lines } => {
            answer.mask("multi-insert flags ", &[*flags]);
            show_lines(answer, " lines ", lines.again());
        }
        RecKind::Update { .. } => show_update(answer, kind),
        _ => show_removal(answer, kind),
    }
}

/// A record that marks a tuple: the xmax, the line, and the bits and the flags of the mark.
fn show_mark(answer: &mut Answer, what: &str, xmax: Xid, line: u16, marks: [u8; 2]) {
    answer.say(what);
    answer.field(" xmax ", xmax.0);
    answer.field(" line ", u64::from(line));
    answer.mask(" bits ", &[marks[0]]);
    answer.mask(" flags ", &[marks[1]]);
}

fn show_update(answer: &mut Answer, kind: &RecKind<'_>) {
    if let RecKind::Update {
        old_xmax,
        old_line,
        old_bits,
        flags,
        new_xmax,
        new_line,
    } = kind
    {
        show_mark(answer, "update", *old_xmax, *old_line, [*old_bits, *flags]);
        answer.field(" new-xmax ", new_xmax.0);
        answer.field(" new-line ", u64::from(*new_line));
    }
}

/// A block, with its image and its tuples.
fn show_block(answer: &mut Answer, block: &RecBlock<'_>) {
    answer.field("; block ", u64::from(block.id));
    show_locator(answer, " ", block.locator);
    answer.field(" ", u64::from(block.block));
    if block.will_init {
        answer.say(" anew");
    }
    if let Some(image) = &block.image {
        show_image(answer, image);
    }
    for tuple in block.tuples.again() {
        show_new(answer, &tuple);
    }
}

fn show_image(answer: &mut Answer, image: &RecImage<'_>) {
    answer.say(if image.apply {
        ", image restored "
    } else {
        ", image kept "
    });
    answer.number(u64::from(image.hole_at));
    answer.say(" ");
    answer.bytes(image.bytes.as_slice());
}

fn show_new(answer: &mut Answer, tuple: &NewTuple<'_>) {
    answer.mask(", tuple ", &tuple.mask2.to_be_bytes());
    answer.mask(" ", &tuple.mask.to_be_bytes());
    answer.field(" ", u64::from(tuple.hoff));
    answer.field(" ", u64::from(tuple.prefix));
    answer.field(" ", u64::from(tuple.suffix));
    answer.say(" ");
    answer.bytes(tuple.rest.as_slice());
}
