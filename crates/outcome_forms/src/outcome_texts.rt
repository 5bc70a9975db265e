//! Outcomes in lines of words, but for reports and traces.

use crate::gap_texts::gaps_text;
use crate::missed_texts::missed_reach_text;
use crate::shown_texts::shown;
use event_json::{PlainText, Sites};
use frame_core::RecallId;
use query_core::{RecallDetail, RecallStatus, SiteStanding, WaitingMessage};
use recall_outcomes::{
    AuditedRecall, CommandRefusal, InputOutcome, Outcome, SiteCoverage, StartedRecall, Task, Totals,
};
use recall_text::telling::{effects_text, ended_word, name_of, recall_text, refusal_text};
use recall_text::texts::message_text;
use recall_text::{LineRefusal, RefusedLine};
use report_core::Verdict;
use std::alloc::{AllocError, Global};

/// The lines of an outcome; none of a report and of a trace.
pub(crate) fn outcome_text(
    alloc: Global,
    sites: &Sites,
    outcome: &Outcome,
) -> Result<String, AllocError> {
    let mut text = String::new(alloc);
    match outcome {
        Outcome::Stepped(effects) => return effects_text(alloc, sites, "", effects),
        Outcome::Withheld => text.push_str("withheld\n")?,
        Outcome::Ran { recalls, coded: _ } => {
            for recall in recalls {
                push_ran(alloc, &mut text, sites, recall)?;
            }
        }
        Outcome::Standing { recalls, coded: _ } => {
            for recall in recalls {
                push_status(alloc, &mut text, sites, recall)?;
            }
        }
        Outcome::Waiting { detail, coded: _ } => push_detail(alloc, &mut text, sites, detail)?,
        Outcome::Known { site, items } => {
            let name = name_of(sites, *site);
            for known in items {
                let key = known.item.key(alloc)?;
                let events = known.events;
                let line = format!(in alloc; "item {name} {key} events {events}\n")?;
                text.push_str(line.as_str())?;
            }
            let count = items.len();
            text.push_str(format!(in alloc; "total {count}\n")?.as_str())?;
        }
        Outcome::WouldStart {
            quarantined,
            messages,
        } => return format!(in alloc; "would recall new {quarantined} messages {messages}\n"),
        Outcome::Audited {
            recalls,
            ended: _,
            coded: _,
        } => {
            for audited in recalls {
                push_audited(alloc, &mut text, sites, audited)?;
            }
        }
        Outcome::Covered(found) => {
            for coverage in found {
                push_coverage(alloc, &mut text, sites, coverage)?;
            }
        }
        Outcome::Inconsistent(misfit) => {
            let condition = misfit.condition;
            let name = name_of(sites, misfit.site);
            return format!(in alloc; "misfit {condition} {name}\n");
        }
        Outcome::Gaps { gaps, coded: _ } => return gaps_text(alloc, sites, gaps),
        Outcome::Missed {
            recall: _,
            missed,
            coded: _,
        } => return missed_reach_text(alloc, sites, missed),
        Outcome::Refused(whys) => {
            for why in whys {
                let words = why_words(alloc, sites, why)?;
                text.push_str(format!(in alloc; "refused {words}\n")?.as_str())?;
            }
        }
        _ => {}
    }
    Ok(text)
}

/// Adds whether a recall has ended.
fn push_ran(
    alloc: Global,
    text: &mut String,
    sites: &Sites,
    started: &StartedRecall,
) -> Result<(), AllocError> {
    let recall = recall_text(alloc, sites, started.recall)?;
    let word = ended_word(started.ended);
    text.push_str(format!(in alloc; "{recall} {word}\n")?.as_str())
}

/// Adds how a recall stands.
fn push_status(
    alloc: Global,
    text: &mut String,
    sites: &Sites,
    status: &RecallStatus,
) -> Result<(), AllocError> {
    let recall = recall_text(alloc, sites, status.recall)?;
    let word = ended_word(status.ended);
    let key = status.root.key(alloc)?;
    let (held, waiting) = (status.quarantined, status.waiting);
    let line = format!(in alloc;
        "{recall} {word} root {key} quarantined {held} waiting {waiting}\n"
    )?;
    text.push_str(line.as_str())
}

/// Adds how a recall stands, with a line for each site and each message that waits.
fn push_detail(
    alloc: Global,
    text: &mut String,
    sites: &Sites,
    detail: &RecallDetail,
) -> Result<(), AllocError> {
    push_status(alloc, text, sites, &detail.status)?;
    for standing in detail.sites.as_slice() {
        push_standing(alloc, text, sites, standing)?;
    }
    for waiting in detail.waiting.as_slice() {
        push_waiting(alloc, text, sites, waiting)?;
    }
    Ok(())
}

/// Adds what a recall is to a site.
fn push_standing(
    alloc: Global,
    text: &mut String,
    sites: &Sites,
    standing: &SiteStanding,
) -> Result<(), AllocError> {
    let name = name_of(sites, standing.site);
    let (held, waiting) = (standing.quarantined, standing.waiting);
    text.push_str(format!(in alloc; "site {name} quarantined {held} waiting {waiting}")?.as_str())?;
    if let Some(message) = standing.engaged_by {
        let message = message_text(alloc, sites, message)?;
        text.push_str(format!(in alloc; " engaged by {message}")?.as_str())?;
    }
    text.push_str("\n")
}

/// Adds a message that waits.
fn push_waiting(
    alloc: Global,
    text: &mut String,
    sites: &Sites,
    waiting: &WaitingMessage,
) -> Result<(), AllocError> {
    let message = message_text(alloc, sites, waiting.message)?;
    let name = name_of(sites, waiting.to);
    let key = waiting.item.key(alloc)?;
    let word = if waiting.told { "told" } else { "untold" };
    text.push_str(format!(in alloc; "waiting {message} to {name} {key} {word}\n")?.as_str())
}

/// Adds how a recall's quarantine compares with what its root reaches.
fn push_audited(
    alloc: Global,
    text: &mut String,
    sites: &Sites,
    audited: &AuditedRecall,
) -> Result<(), AllocError> {
    let recall = recall_text(alloc, sites, audited.recall)?;
    let line = match &audited.verdict {
        None => format!(in alloc; "open {recall}\n")?,
        Some(Verdict::Equal(count)) => format!(in alloc; "equal {recall} pairs {count}\n")?,
        Some(Verdict::Differs { pair, missing }) => {
            let name = name_of(sites, pair.site);
            let key = pair.item.key(alloc)?;
            let word = if *missing { "missing" } else { "extra" };
            format!(in alloc; "differs {recall} {name} {key} {word}\n")?
        }
    };
    text.push_str(line.as_str())
}

/// What is refused, behind the first word of its line.
fn why_words(alloc: Global, sites: &Sites, why: &CommandRefusal) -> Result<String, AllocError> {
    match why {
        CommandRefusal::Line(refused) => line_words(alloc, refused),
        CommandRefusal::NoWorld => String::from_str(alloc, "NoWorld"),
        CommandRefusal::Exists(name) => format!(in alloc; "Exists {name}"),
        CommandRefusal::NoSite(name) => format!(in alloc; "NoSite {name}"),
        CommandRefusal::BadEpc => String::from_str(alloc, "BadEpc"),
        CommandRefusal::BadKey => String::from_str(alloc, "BadKey"),
        CommandRefusal::BadScan(fault) => {
            let name = fault.name();
            format!(in alloc; "BadScan {name}")
        }
        CommandRefusal::BadRecall => String::from_str(alloc, "BadLine"),
        CommandRefusal::UnknownRecall => String::from_str(alloc, "UnknownRecall"),
        CommandRefusal::Step(why) => refusal_text(alloc, sites, why),
    }
}

/// Why a line of a list of sites is refused.
fn line_words(alloc: Global, refused: &RefusedLine) -> Result<String, AllocError> {
    match refused.why {
        LineRefusal::BadLine => String::from_str(alloc, "BadLine"),
        LineRefusal::BadSite(fault) => {
            let name = fault.name();
            format!(in alloc; "BadSite {name}")
        }
    }
}

/// The line of an input of several, with its source, as it is shown, behind it.
pub(crate) fn input_text(
    alloc: Global,
    sites: &Sites,
    source: &str,
    came: &InputOutcome,
) -> Result<String, AllocError> {
    let source = shown(alloc, source)?;
    match came {
        InputOutcome::Captured {
            fresh,
            known,
            skipped,
        } => format!(in alloc; "captured {fresh} known {known} skipped {skipped} {source}\n"),
        InputOutcome::Started {
            recall,
            quarantined,
            messages,
            ended,
        } => {
            let start = started_words(alloc, sites, *recall, *quarantined)?;
            let word = ended_word(*ended);
            format!(in alloc; "{start} messages {messages} {word} {source}\n")
        }
        InputOutcome::Refused(why) => {
            let words = why_words(alloc, sites, why)?;
            format!(in alloc; "refused {words} {source}\n")
        }
    }
}

/// The first words of a recall that was started.
fn started_words(
    alloc: Global,
    sites: &Sites,
    recall: RecallId,
    quarantined: u64,
) -> Result<String, AllocError> {
    let recall = recall_text(alloc, sites, recall)?;
    format!(in alloc; "recall {recall} new {quarantined}")
}

/// The line of what several inputs came to.
pub(crate) fn totals_text(alloc: Global, totals: Totals) -> Result<String, AllocError> {
    let Totals {
        task,
        inputs,
        captured,
        known,
        skipped,
        started,
        refused,
    } = totals;
    match task {
        Task::Capture => format!(in alloc;
            "documents {inputs} captured {captured} known {known} skipped {skipped} refused {refused}\n"
        ),
        Task::Start => { format!(in alloc; "items {inputs} started {started} refused {refused}\n") }
    }
}

/// Adds what a site captured, and from when to when; a dash stands for a time that there isn't.
fn push_coverage(
    alloc: Global,
    text: &mut String,
    sites: &Sites,
    coverage: &SiteCoverage,
) -> Result<(), AllocError> {
    let name = name_of(sites, coverage.site);
    let (events, items) = (coverage.events, coverage.items);
    let (first, last) = (or_dash(&coverage.first), or_dash(&coverage.last));
    let line = format!(in alloc;
        "site {name} events {events} items {items} first {first} last {last}\n"
    )?;
    text.push_str(line.as_str())
}

fn or_dash(time: &Option<PlainText>) -> &str {
    match time {
        Some(time) => time.as_str(),
        None => "-",
    }
}
