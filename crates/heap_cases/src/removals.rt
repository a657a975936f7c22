//! How records of removals, of freezing and of visibility are shown.
use case_text::Answer;
use wal_bodies::{FreezePlan, FreezePlans, Lines, RecKind, Redirects};

pub fn show_removal(answer: &mut Answer, kind: &RecKind<'_>) {
    match kind {
        RecKind::Prune {
            horizon,
            catalogue,
            redirected,
            died,
            freed,
        } => {
            answer.field("prune horizon ", horizon.0);
            answer.field(" catalogue ", u64::from(*catalogue));
            show_redirects(answer, redirected.again());
            show_lines(answer, " dead ", died.again());
            show_lines(answer, " unused ", freed.again());
        }
        RecKind::Vacuum { freed } => {
            answer.say("vacuum");
            show_lines(answer, " unused ", freed.again());
        }
        RecKind::Freeze {
            horizon,
            catalogue,
            plans,
        } => {
            answer.field("freeze horizon ", horizon.0);
            answer.field(" catalogue ", u64::from(*catalogue));
            show_plans(answer, plans.again());
        }
        RecKind::Visible { horizon, flags } => {
            answer.field("visible horizon ", horizon.0);
            answer.mask(" flags ", &[*flags]);
        }
        _ => {}
    }
}

/// Lines between commas behind a name, and none as `-`.
pub fn show_lines(answer: &mut Answer, name: &str, lines: Lines<'_>) {
    let mut is_first = true;
    for line in lines {
        answer.field(if is_first { name } else { "," }, u64::from(line));
        is_first = false;
    }
    if is_first {
        answer.say(name);
        answer.say("-");
    }
}

/// Lines that lead to others in the same way.
fn show_redirects(answer: &mut Answer, redirects: Redirects<'_>) {
    let mut is_first = true;
    for line in redirects {
        answer.field(
            if is_first { " redirect " } else { "," },
            u64::from(line.from),
        );
        answer.field("-", u64::from(line.to));
        is_first = false;
    }
    if is_first {
        answer.say(" redirect -");
    }
}

fn show_plans(answer: &mut Answer, plans: FreezePlans<'_>) {
    let mut is_first = true;
    for plan in plans {
        show_plan(answer, plan);
        is_first = false;
    }
    if is_first {
        answer.say(" plan -");
    }
}

fn show_plan(answer: &mut Answer, plan: FreezePlan<'_>) {
    answer.field(" plan xmax ", plan.xmax.0);
    answer.mask(" mask2 ", &plan.mask2.to_be_bytes());
    answer.mask(" mask ", &plan.mask.to_be_bytes());
    answer.mask(" flags ", &[plan.flags]);
    show_lines(answer, " lines ", plan.lines);
}
