//! What is missed of what is told, and how much lies in it, in lines of the error stream.

use crate::tallies::tallies;
use event_json::{SiteNo, Sites};
use gap_core::GapLine;
use recall_outcomes::{MissedItems, MissedReach};
use recall_text::telling::{name_of, recall_text};
use std::alloc::{AllocError, Global};
use trace_core::Pair;

/// What it means where items are missed.
const MISSED: &str =
    "note: these items went on from there in containers that others packed, and the site never captured that, so this doesn't tell where they went: `recall gaps` lists the containers, `recall gaps <dir> <recall>` what isn't told, and `recall packs` closes them before a run\n";

/// What it means where recalls hold what is missed.
const HELD: &str =
    "note: these recalls hold what this one misses, and are reported by themselves: `recall report <dir> <recall>`\n";

/// What it means where items lie in one that is told.
const INSIDE: &str =
    "note: so many items were packed into it, and where they went isn't told: `recall items <dir> <site> --in <epc>` lists them, to trace each and to start its recall\n";

/// What it means where items lie in those of which recalls were started.
const INSIDE_ALL: &str =
    "note: so many items in all were packed into the recalled ones, and where they went isn't told: `recall items <dir> <site> --in <epc>` lists those in each, to trace each and to start its recall\n";

/// What is missed of what is told of an item.
pub(crate) fn missed_items_text(
    alloc: Global,
    sites: &Sites,
    missed: &MissedItems,
) -> Result<String, AllocError> {
    let mut text = String::new(alloc);
    push_sites(alloc, &mut text, sites, missed.pairs.as_slice())?;
    push_containers(alloc, &mut text, sites, missed.containers.as_slice())?;
    push_untold(alloc, &mut text, &missed.reach)?;
    push_holders(alloc, &mut text, sites, &missed.reach)?;
    if !missed.pairs.is_empty() {
        text.push_str(MISSED)?;
    }
    if missed.inside > 0 {
        let count = missed.inside;
        text.push_str(format!(in alloc; "inside {count}\n")?.as_str())?;
        text.push_str(INSIDE)?;
    }
    Ok(text)
}

/// How many items lie in those of which recalls were started, if any do.
pub(crate) fn inside_all_text(alloc: Global, count: u64) -> Result<String, AllocError> {
    if count == 0 {
        return Ok(String::new(alloc));
    }
    let mut text = format!(in alloc; "inside {count}\n")?;
    text.push_str(INSIDE_ALL)?;
    Ok(text)
}

/// How many items are missed at each site, and what can be done; nothing where none are.
pub(crate) fn missed_text(
    alloc: Global,
    sites: &Sites,
    missed: &[Pair],
) -> Result<String, AllocError> {
    let mut text = String::new(alloc);
    if !missed.is_empty() {
        push_sites(alloc, &mut text, sites, missed)?;
        text.push_str(MISSED)?;
    }
    Ok(text)
}

/// Adds how many items are missed at each site.
fn push_sites(
    alloc: Global,
    text: &mut String,
    sites: &Sites,
    missed: &[Pair],
) -> Result<(), AllocError> {
    for number in 0..sites.len() {
        if let Some(site) = SiteNo::of(number) {
            push_missed(alloc, text, sites, missed, site)?;
        }
    }
    Ok(())
}

/// Adds how many items are missed at a site, if there are any.
fn push_missed(
    alloc: Global,
    text: &mut String,
    sites: &Sites,
    missed: &[Pair],
    site: SiteNo,
) -> Result<(), AllocError> {
    let count = missed.iter().filter(|pair| pair.site == site).count();
    if count == 0 {
        return Ok(());
    }
    let name = name_of(sites, site);
    text.push_str(format!(in alloc; "missed {count} at {name}\n")?.as_str())
}

/// Adds how many containers each site shipped on that a certain one packed.
fn push_containers(
    alloc: Global,
    text: &mut String,
    sites: &Sites,
    containers: &[GapLine],
) -> Result<(), AllocError> {
    let mut ends = Vec::new(alloc);
    for line in containers {
        ends.push((line.site, line.by))?;
    }
    for ((site, by), count) in tallies(alloc, ends.as_slice())? {
        let (name, packer) = (name_of(sites, site), name_of(sites, by));
        let line = format!(in alloc; "containers {count} at {name} by {packer}\n")?;
        text.push_str(line.as_str())?;
    }
    Ok(())
}

/// Adds how much of what is missed no recall holds, if anything is known to be missed.
fn push_untold(alloc: Global, text: &mut String, reach: &MissedReach) -> Result<(), AllocError> {
    if reach.pairs.is_empty() && reach.outside.is_empty() {
        return Ok(());
    }
    let pairs = reach
        .pairs
        .iter()
        .filter(|pair| pair.held.is_none())
        .count();
    let outside = reach.outside.len();
    text.push_str(format!(in alloc; "untold pairs {pairs} outside {outside}\n")?.as_str())
}

/// Adds which recalls hold what is missed, and how much of it each, if any does.
fn push_holders(
    alloc: Global,
    text: &mut String,
    sites: &Sites,
    reach: &MissedReach,
) -> Result<(), AllocError> {
    let mut held = Vec::new(alloc);
    for pair in reach.pairs.as_slice() {
        if let Some(recall) = pair.held {
            held.push(recall)?;
        }
    }
    if held.is_empty() {
        return Ok(());
    }
    for (recall, count) in tallies(alloc, held.as_slice())? {
        let recall = recall_text(alloc, sites, recall)?;
        text.push_str(format!(in alloc; "held by {recall} {count}\n")?.as_str())?;
    }
    text.push_str(HELD)
}
