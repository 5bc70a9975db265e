//! What a recall misses, in lines of words.

use event_json::Sites;
use gap_core::UntoldShipment;
use recall_outcomes::{MissedPair, MissedReach};
use recall_text::telling::{name_of, recall_text};
use std::alloc::{AllocError, Global};

/// The lines of what a recall misses, and how much it is.
pub(crate) fn missed_reach_text(
    alloc: Global,
    sites: &Sites,
    missed: &MissedReach,
) -> Result<String, AllocError> {
    let mut text = String::new(alloc);
    for pair in missed.pairs.as_slice() {
        push_pair(alloc, &mut text, sites, pair)?;
    }
    for shipment in missed.outside.as_slice() {
        push_left(alloc, &mut text, sites, shipment)?;
    }
    let pairs = missed.pairs.len();
    let held = missed
        .pairs
        .iter()
        .filter(|pair| pair.held.is_some())
        .count();
    let left = missed.outside.len();
    text.push_str(format!(in alloc; "total missed {pairs} held {held} left {left}\n")?.as_str())?;
    Ok(text)
}

/// Adds a pair, and the recall that holds it, where one does.
fn push_pair(
    alloc: Global,
    text: &mut String,
    sites: &Sites,
    missed: &MissedPair,
) -> Result<(), AllocError> {
    let name = name_of(sites, missed.pair.site);
    let key = missed.pair.item.key(alloc)?;
    text.push_str(format!(in alloc; "gap missed {name} {key}")?.as_str())?;
    if let Some(recall) = missed.held {
        let recall = recall_text(alloc, sites, recall)?;
        text.push_str(format!(in alloc; " held by {recall}")?.as_str())?;
    }
    text.push_str("\n")
}

/// Adds an item that left the traced sites.
fn push_left(
    alloc: Global,
    text: &mut String,
    sites: &Sites,
    left: &UntoldShipment,
) -> Result<(), AllocError> {
    let name = name_of(sites, left.site);
    let key = left.item.key(alloc)?;
    let place = left.destination.as_str();
    text.push_str(format!(in alloc; "gap left {name} {key} {place}\n")?.as_str())
}
