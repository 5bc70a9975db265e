//! The gaps of what sites captured, in lines of words.

use event_json::Sites;
use gap_core::{GapLine, UnseenItem};
use recall_outcomes::FoundGaps;
use recall_text::telling::name_of;
use std::alloc::{AllocError, Global};
use trace_core::Pair;

/// The lines of gaps, kind by kind, and how many there are.
pub(crate) fn gaps_text(
    alloc: Global,
    sites: &Sites,
    gaps: &FoundGaps,
) -> Result<String, AllocError> {
    let mut text = String::new(alloc);
    for gap in gaps.packed.as_slice() {
        push_line(alloc, &mut text, sites, "packed", &gap.line)?;
    }
    for line in gaps.used.as_slice() {
        push_used(alloc, &mut text, sites, line)?;
    }
    for item in gaps.unseen.as_slice() {
        push_unseen(alloc, &mut text, sites, item)?;
    }
    for lot in gaps.lots.as_slice() {
        push_lot(alloc, &mut text, sites, lot)?;
    }
    for line in unlinked(gaps) {
        push_line(alloc, &mut text, sites, "unlinked", line)?;
    }
    push_total(alloc, &mut text, gaps)?;
    Ok(text)
}

/// The containers that never came from where they were packed; none where they aren't told.
fn unlinked(gaps: &FoundGaps) -> &[GapLine] {
    match &gaps.unlinked {
        None => &[],
        Some(lines) => lines.as_slice(),
    }
}

/// Adds a container that a site shipped on and another one packed.
fn push_line(
    alloc: Global,
    text: &mut String,
    sites: &Sites,
    kind: &str,
    line: &GapLine,
) -> Result<(), AllocError> {
    let name = name_of(sites, line.site);
    let key = line.container.key(alloc)?;
    let by = name_of(sites, line.by);
    let items = line.items;
    text.push_str(format!(in alloc; "gap {kind} {name} {key} by {by} items {items}\n")?.as_str())
}

/// Adds a container that went into a transformation without what lies in it.
fn push_used(
    alloc: Global,
    text: &mut String,
    sites: &Sites,
    line: &GapLine,
) -> Result<(), AllocError> {
    let name = name_of(sites, line.site);
    let key = line.container.key(alloc)?;
    let items = line.items;
    text.push_str(format!(in alloc; "gap used {name} {key} items {items}\n")?.as_str())
}

/// Adds an item of which no event of the site tells that it was shipped to.
fn push_unseen(
    alloc: Global,
    text: &mut String,
    sites: &Sites,
    unseen: &UnseenItem,
) -> Result<(), AllocError> {
    let name = name_of(sites, unseen.site);
    let key = unseen.item.key(alloc)?;
    let from = name_of(sites, unseen.from);
    text.push_str(format!(in alloc; "gap unseen {name} {key} from {from}\n")?.as_str())
}

/// Adds a lot that a recall holds, at a site where none does.
fn push_lot(alloc: Global, text: &mut String, sites: &Sites, lot: &Pair) -> Result<(), AllocError> {
    let name = name_of(sites, lot.site);
    let key = lot.item.key(alloc)?;
    text.push_str(format!(in alloc; "gap lot {name} {key}\n")?.as_str())
}

/// Adds how many gaps there are: of lots where there are any, and of containers that never came from where they were
/// packed where these are told.
fn push_total(alloc: Global, text: &mut String, gaps: &FoundGaps) -> Result<(), AllocError> {
    let (packed, items) = (gaps.packed.len(), gaps.items);
    let (used, unseen, lots) = (gaps.used.len(), gaps.unseen.len(), gaps.lots.len());
    let total = format!(in alloc;
        "total packed {packed} items {items} used {used} unseen {unseen}"
    )?;
    text.push_str(total.as_str())?;
    if lots > 0 {
        text.push_str(format!(in alloc; " lot {lots}")?.as_str())?;
    }
    if let Some(unlinked) = &gaps.unlinked {
        let count = unlinked.len();
        text.push_str(format!(in alloc; " unlinked {count}")?.as_str())?;
    }
    text.push_str("\n")
}
