//! What is told beside an outcome, in lines of the error stream.

use crate::missed_notes::{missed_items_text, missed_text};
use event_json::{MAX_ADDRESSES, PlainText, SiteNo, Sites, Untraced};
use gap_core::UntoldShipment;
use item_spellings::are_one_place;
use query_core::StuckRecall;
use recall_outcomes::{
    AuditNotes, GapNotes, Knower, Knowers, Notes, Outcome, RunNotes, Stop, StopCause,
};
use recall_text::telling::{name_of, recall_text};
use report_core::OutsideShipment;
use site_recovery::Misfit;
use std::alloc::{AllocError, Global};

/// What it means where a recall waits at a site in vain.
const STUCK: &str =
    "note: each of these sites takes part in the recall and has no message of it left, so `recall run` can't end it; no run leads there: put all sites' files back as one backup has them, or begin a recall of the item anew\n";

/// What it means where containers were shipped on that never came from where they were packed.
const UNLINKED: &str =
    "note: so many containers were shipped on by sites that they never came to from where they were packed, so `recall packs` doesn't close them: `recall gaps --all` lists them\n";

/// The notes beside an outcome.
pub(crate) fn notes_text(
    alloc: Global,
    sites: &Sites,
    notes: &Notes,
) -> Result<String, AllocError> {
    match notes {
        Notes::Nothing => Ok(String::new(alloc)),
        Notes::Untraced(told) => untraced_text(alloc, &told.counts, told.places.as_slice()),
        Notes::Run(run) => run_text(alloc, sites, run),
        Notes::Knowers(knowers) => knowers_text(alloc, sites, knowers),
        Notes::Audit(found) => audit_text(alloc, sites, found),
        Notes::Missed(missed) => missed_items_text(alloc, sites, missed),
        Notes::Gaps(found) => gap_notes_text(alloc, *found),
        Notes::Misfit(misfit) => misfit_text(alloc, sites, *misfit),
    }
}

/// What documents say and isn't traced: a line for each count that isn't 0, and one that names destinations that are no
/// traced site.
pub(crate) fn untraced_text(
    alloc: Global,
    untraced: &Untraced,
    places: &[PlainText],
) -> Result<String, AllocError> {
    let counts = [
        (
            untraced.skipped,
            "event was skipped: TransactionEvent and AssociationEvent aren't traced",
            "events were skipped: TransactionEvent and AssociationEvent aren't traced",
        ),
        (
            untraced.aimless,
            "event of bizStep shipping has no destination: nothing is traced past it",
            "events of bizStep shipping have no destination: nothing is traced past them",
        ),
        (
            untraced.outside,
            "destination is no traced site: what went there counts as outside",
            "destinations are no traced site: what went there counts as outside",
        ),
        (
            untraced.unnamed,
            "event has no eventID: captured again, it counts again",
            "events have no eventID: captured again, they count again",
        ),
    ];
    let mut text = String::new(alloc);
    for (count, one, more) in counts {
        if count > 0 {
            let what = if count == 1 { one } else { more };
            text.push_str(format!(in alloc; "note: {count} {what}\n")?.as_str())?;
        }
    }
    push_no_sites(&mut text, places)?;
    Ok(text)
}

/// Adds a line that names places that are no traced site, if there are any.
fn push_no_sites(text: &mut String, places: &[PlainText]) -> Result<(), AllocError> {
    let mut front = "note: no traced site: ";
    for place in places {
        text.push_str(front)?;
        text.push_str(place.as_str())?;
        front = ", ";
    }
    if places.is_empty() {
        Ok(())
    } else if places.len() < 5 {
        text.push_str("\n")
    } else {
        text.push_str(", and perhaps more: `recall lint` names all\n")
    }
}

/// What is known of a run beside its recalls.
fn run_text(alloc: Global, sites: &Sites, run: &RunNotes) -> Result<String, AllocError> {
    let mut text = String::new(alloc);
    for stop in &run.stops {
        push_stop(alloc, &mut text, sites, stop)?;
    }
    text.push_str(missed_text(alloc, sites, run.missed.as_slice())?.as_str())?;
    if run.shared {
        text.push_str("the system gave fewer threads than sites, so sites took turns\n")?;
    }
    if run.unended {
        text.push_str("a further `recall run` goes on with the recalls that are open\n")?;
    }
    Ok(text)
}

/// Adds a site that stopped, and what is known of its file.
fn push_stop(
    alloc: Global,
    text: &mut String,
    sites: &Sites,
    stop: &Stop,
) -> Result<(), AllocError> {
    let name = name_of(sites, stop.site);
    let times = stop.times;
    let cause = match stop.cause {
        StopCause::Device => "Device",
        StopCause::Store => "Store",
    };
    let line = if times == 1 {
        format!(in alloc; "site {name} stopped once: {cause}\n")?
    } else {
        format!(in alloc; "site {name} stopped {times} times: {cause}\n")?
    };
    text.push_str(line.as_str())?;
    text.push_str(stop.known.as_str())
}

/// Who knows an item that the site that was asked doesn't know.
fn knowers_text(alloc: Global, sites: &Sites, knowers: &Knowers) -> Result<String, AllocError> {
    let mut text = String::new(alloc);
    let item = knowers.item.key(alloc)?;
    let given = knowers.text.as_str();
    for knower in &knowers.found {
        let line = match knower {
            Knower::Knows(site) => {
                let name = name_of(sites, *site);
                format!(in alloc; "note: {name} knows {item}\n")?
            }
            Knower::Has { site, item } => {
                let name = name_of(sites, *site);
                let key = item.key(alloc)?;
                format!(in alloc; "note: {name} has {key}, which ends in `{given}`\n")?
            }
        };
        text.push_str(line.as_str())?;
    }
    Ok(text)
}

/// What an audit found beside its verdicts.
fn audit_text(alloc: Global, sites: &Sites, found: &AuditNotes) -> Result<String, AllocError> {
    let mut text = String::new(alloc);
    if !found.stuck.is_empty() {
        text.push_str(stuck_text(alloc, sites, found.stuck.as_slice())?.as_str())?;
    }
    text.push_str(missed_text(alloc, sites, found.missed.as_slice())?.as_str())?;
    Ok(text)
}

/// The sites that recalls wait at in vain, and what can be done.
fn stuck_text(alloc: Global, sites: &Sites, stuck: &[StuckRecall]) -> Result<String, AllocError> {
    let mut text = String::new(alloc);
    for it in stuck {
        let recall = recall_text(alloc, sites, it.recall)?;
        let name = name_of(sites, it.site);
        text.push_str(format!(in alloc; "stuck {recall} at {name}\n")?.as_str())?;
    }
    text.push_str(STUCK)?;
    Ok(text)
}

/// How the records contradict each other.
fn misfit_text(alloc: Global, sites: &Sites, misfit: Misfit) -> Result<String, AllocError> {
    let condition = misfit.condition;
    let name = name_of(sites, misfit.site);
    format!(in alloc;
        "note: misfit {condition} {name}: the records contradict each other, so this isn't exact: `recall audit`\n"
    )
}

/// What is told beside gaps.
fn gap_notes_text(alloc: Global, found: GapNotes) -> Result<String, AllocError> {
    let count = found.unlinked;
    let mut text = format!(in alloc; "unlinked {count}\n")?;
    text.push_str(UNLINKED)?;
    Ok(text)
}

/// Of a report, of a trace to where an item went, and of what a recall misses: for each listed address of a site that
/// names a place outside in another spelling a line, with the first such place.
pub(crate) fn places_text(
    alloc: Global,
    sites: &Sites,
    outcome: &Outcome,
) -> Result<String, AllocError> {
    let mut text = String::new(alloc);
    for number in 0..sites.len() {
        if let Some(site) = SiteNo::of(number) {
            push_places(alloc, &mut text, sites, outcome, site)?;
        }
    }
    Ok(text)
}

/// Adds the lines of the addresses of a site.
fn push_places(
    alloc: Global,
    text: &mut String,
    sites: &Sites,
    outcome: &Outcome,
    site: SiteNo,
) -> Result<(), AllocError> {
    let name = name_of(sites, site);
    for place in 0..MAX_ADDRESSES as u64 {
        let Some(address) = sites.address(site, place) else {
            return Ok(());
        };
        if let Some(there) = other_spelling(outcome, address) {
            let line = format!(in alloc;
                "note: the destination {there} may be {name}, whose address {address} names the same place\n"
            )?;
            text.push_str(line.as_str())?;
        }
    }
    Ok(())
}

/// The first place outside, of what left the traced sites, that an address names in another spelling.
fn other_spelling<'a>(outcome: &'a Outcome, address: &str) -> Option<&'a str> {
    match outcome {
        Outcome::Reported {
            recall: _,
            report,
            ways: _,
            events: _,
        } => shipped_there(report.outside.as_slice(), address),
        Outcome::Traced {
            trace,
            ways: _,
            events: _,
        } => shipped_there(trace.outside.as_slice(), address),
        Outcome::Missed {
            recall: _,
            missed,
            coded: _,
        } => left_there(missed.outside.as_slice(), address),
        _ => None,
    }
}

fn shipped_there<'a>(outside: &'a [OutsideShipment], address: &str) -> Option<&'a str> {
    let found = outside
        .iter()
        .find(|s| are_one_place(address, s.destination.as_str()))?;
    Some(found.destination.as_str())
}

fn left_there<'a>(outside: &'a [UntoldShipment], address: &str) -> Option<&'a str> {
    let found = outside
        .iter()
        .find(|s| are_one_place(address, s.destination.as_str()))?;
    Some(found.destination.as_str())
}
