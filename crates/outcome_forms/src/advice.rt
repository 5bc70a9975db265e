//! What a person does next, or should know, after what a command came to: one line a kind.

use recall_outcomes::{CommandRefusal, MissedReach, Outcome};
use site_core::{Effects, Refusal};

/// A line for the error stream, behind the answer, which begins with `note: `; `None` where there is nothing to add.
pub(crate) fn advice(outcome: &Outcome) -> Option<&'static str> {
    match outcome {
        Outcome::Stepped(effects) => effects_advice(effects),
        Outcome::Reported {
            recall: _,
            report,
            ways: _,
            events: _,
        } => or_none(
            !report.ended,
            "note: the recall is open, so this isn't all yet: `recall run` goes on with it\n",
        ),
        Outcome::Standing { recalls, coded: _ } => open_advice(recalls.iter().any(|r| !r.ended)),
        Outcome::Waiting { detail, coded: _ } => open_advice(!detail.status.ended),
        Outcome::WouldStart {
            quarantined: _,
            messages: _,
        } => {
            Some(
                "note: nothing was begun; this is of the site alone, and `recall trace` tells what a recall would find at all sites\n",
            )
        }
        Outcome::Withheld => Some(
            "note: nothing was sent; have those sites capture the packings by `recall packs`, and run again, or run without `--unless-gaps`\n",
        ),
        Outcome::Audited {
            recalls,
            ended,
            coded: _,
        } => or_none(recalls.is_empty(), no_recall(*ended)),
        Outcome::Gaps { gaps, coded: _ } => or_none(
            gaps.packed.len() > 0,
            "note: past the site that shipped such a container on, a recall finds nothing of what others packed into it: before one reaches it, have that site capture the packing by `recall packs`\n",
        ),
        Outcome::Missed {
            recall: _,
            missed,
            coded: _,
        } => or_none(
            some_unheld(missed),
            "note: no recall holds all of this: `recall start <dir> <site> --gaps <recall>` begins a recall of each item at the site of its pair; warn the destinations of what left\n",
        ),
        Outcome::Refused(whys) => or_none(
            whys.iter().any(|why| is_blocked(why)),
            "note: nothing of the document was kept, and `recall capture --each` keeps its other events: if the goods have left, capture what the site that took them wrote, and start a recall of the item there\n",
        ),
        _ => None,
    }
}

/// That no recall was begun: by records that are consistent, or that may be copies that were taken one after another.
fn no_recall(ended: bool) -> &'static str {
    if ended {
        "note: no recall was begun\n"
    } else {
        "note: the records of the sites are consistent, and no recall was begun\n"
    }
}

fn or_none(is: bool, text: &'static str) -> Option<&'static str> {
    if is { Some(text) } else { None }
}

/// After a step, of which only a start has any.
fn effects_advice(effects: &Effects) -> Option<&'static str> {
    match effects {
        Effects::Started {
            recall: _,
            quarantined: _,
            numbered: _,
            ended: true,
        } => {
            Some(
                "note: nothing of it was shipped to another traced site, so the recall has ended; a quarantine is never lifted\n",
            )
        }
        Effects::Started {
            recall: _,
            quarantined: _,
            numbered: _,
            ended: false,
        } => {
            Some(
                "note: `recall run` tells the other sites of the recall; a quarantine is never lifted\n",
            )
        }
        _ => None,
    }
}

/// Where a recall is open.
fn open_advice(is_open: bool) -> Option<&'static str> {
    or_none(is_open, "note: `recall run` goes on with what is open\n")
}

/// Whether a recall misses something that none holds: a pair, or what left the traced sites.
fn some_unheld(missed: &MissedReach) -> bool {
    missed.pairs.iter().any(|pair| pair.held.is_none()) || !missed.outside.is_empty()
}

/// Whether an event was blocked.
fn is_blocked(why: &CommandRefusal) -> bool {
    match why {
        CommandRefusal::Step(
            Refusal::Blocked {
                recall: _,
                item: _,
                event: _,
            },
        ) => true,
        _ => false,
    }
}
