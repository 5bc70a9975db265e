//! A report or a trace in lines of words, part by part, so that memory is taken for the text of one part at a time.

ghost use Rattle.std.specs.Prelude.{◌≡◌, true, IfErr};
ghost use Rattle.outcome_forms.specs.Writing.{AppendsText, is_of_writing};

use crate::writing::print;
use epc_core::Epc;
use event_json::{PlainText, Sites};
use recall_outcomes::{Fault, Ways};
use recall_text::telling::{ended_word, name_of, push_pair, recall_text};
use report_core::{CapturedEvent, OutsideEvent, PackingEvent, StepEvents};
use report_forms::{Account, OutsidePart, Part, Title, Way};
use std::alloc::{AllocError, Global};
use std::io::Write;
use trace_core::Pair;

/// Writes a report or a trace.
pub(crate) fn write_account_text<W: Write>(
    alloc: Global,
    sites: &Sites,
    ways: Ways,
    account: &Account<'_>,
    output: &mut W,
) -> Result<(), Fault>
    ensures text { AppendsText (W.contents output.old) (W.contents output.new) }
    ensures fault { IfErr result (λ e. is_of_writing e ≡ true) }
{
    print(output, head_text(alloc, sites, account)?.as_str())?;
    for place in 0..account.len() {
        let Some(part) = account.part(place) else {
            unreachable!()
        };
        print(output, part_text(alloc, sites, ways, &part)?.as_str())?;
    }
    print(output, end_text(alloc, sites, account)?.as_str())?;
    Ok(())
}

/// The first line: the recall and its root, or the root of a trace.
fn head_text(alloc: Global, sites: &Sites, account: &Account<'_>) -> Result<String, AllocError> {
    let root = account.root();
    let key = root.item.key(alloc)?;
    let name = name_of(sites, root.site);
    match account.title() {
        Title::Recall { recall, ended } => {
            let recall = recall_text(alloc, sites, recall)?;
            let word = ended_word(ended);
            format!(in alloc; "recall {recall} root {key} {word}\n")
        }
        Title::Forward => format!(in alloc; "trace forward {name} {key}\n"),
        Title::Back => format!(in alloc; "trace back {name} {key}\n"),
    }
}

/// The lines behind the pairs: what left the traced sites, or where the item came from, and how many there are.
fn end_text(alloc: Global, sites: &Sites, account: &Account<'_>) -> Result<String, AllocError> {
    let mut text = String::new(alloc);
    for place in 0..account.outside_len() {
        if let Some(part) = account.outside_part(place) {
            push_outside(alloc, &mut text, sites, &part)?;
        }
    }
    for origin in account.origins() {
        let name = name_of(sites, origin.site);
        let key = origin.item.key(alloc)?;
        text.push_str(format!(in alloc; "origin {name} {key}\n")?.as_str())?;
    }
    text.push_str(total_text(alloc, account)?.as_str())?;
    Ok(text)
}

/// Adds the line of a shipment that left the traced sites, and that of its event, where it is told.
fn push_outside(
    alloc: Global,
    text: &mut String,
    sites: &Sites,
    part: &OutsidePart<'_>,
) -> Result<(), AllocError> {
    let shipment = part.shipment;
    let name = name_of(sites, shipment.site);
    let key = shipment.item.key(alloc)?;
    let place = shipment.destination.as_str();
    text.push_str(format!(in alloc; "outside {name} {key} {place}\n")?.as_str())?;
    match part.event {
        Some(shown) => push_shown(alloc, text, &shipment.item, shown),
        None => Ok(()),
    }
}

/// Adds the line of the event that shows a shipment of an item, which ends with what the item left in, unless it is the
/// item itself.
fn push_shown(
    alloc: Global,
    text: &mut String,
    item: &Epc,
    shown: &OutsideEvent,
) -> Result<(), AllocError> {
    if shown.carrier == *item {
        return push_event(alloc, text, &shown.event, "shipped");
    }
    let key = shown.carrier.key(alloc)?;
    let did = format!(in alloc; "shipped in {key}")?;
    push_event(alloc, text, &shown.event, did.as_str())
}

/// The last line.
fn total_text(alloc: Global, account: &Account<'_>) -> Result<String, AllocError> {
    let pairs = account.len();
    let outside = account.outside_len();
    let origins = account.origins().len();
    match account.title() {
        Title::Back => format!(in alloc; "total {pairs} origins {origins}\n"),
        _ => format!(in alloc; "total {pairs} outside {outside}\n"),
    }
}

/// A pair, how it is reached, and the events that are told of that.
fn part_text(
    alloc: Global,
    sites: &Sites,
    ways: Ways,
    part: &Part<'_>,
) -> Result<String, AllocError> {
    let mut text = String::new(alloc);
    let steps = told_steps(part);
    match ways {
        Ways::Trails => {
            push_pair(alloc, &mut text, sites, part.pair)?;
            if let Some(trail) = part.way.pairs(alloc)? {
                push_trail(alloc, &mut text, sites, trail.as_slice(), steps)?;
            }
        }
        Ways::Steps => {
            push_beside(alloc, &mut text, sites, part)?;
            for step in steps {
                push_step(alloc, &mut text, step)?;
            }
        }
    }
    Ok(text)
}

/// The events of its steps; none where no trail is known.
fn told_steps<'a>(part: &Part<'a>) -> &'a [StepEvents] {
    match &part.way {
        Way::Unknown => &[],
        _ => part.events.unwrap_or(&[]),
    }
}

/// Adds a pair, with the pair beside it on its trail, where there is one.
fn push_beside(
    alloc: Global,
    text: &mut String,
    sites: &Sites,
    part: &Part<'_>,
) -> Result<(), AllocError> {
    let Some(beside) = part.way.beside() else {
        return push_pair(alloc, text, sites, part.pair);
    };
    let word = match &part.way {
        Way::To(_) => "to",
        _ => "from",
    };
    let (name, other) = (name_of(sites, part.pair.site), name_of(sites, beside.site));
    let (key, other_key) = (part.pair.item.key(alloc)?, beside.item.key(alloc)?);
    let line = format!(in alloc; "pair {name} {key} {word} {other} {other_key}\n")?;
    text.push_str(line.as_str())
}

/// Adds a line for each pair of a trail, with its place on the trail, from 1, and the events of the step that leads to
/// it.
fn push_trail(
    alloc: Global,
    text: &mut String,
    sites: &Sites,
    trail: &[Pair],
    steps: &[StepEvents],
) -> Result<(), AllocError> {
    for (place, pair) in trail.iter().enumerate() {
        let number = place + 1;
        let name = name_of(sites, pair.site);
        let key = pair.item.key(alloc)?;
        text.push_str(format!(in alloc; "  {number} {name} {key}\n")?.as_str())?;
        if place > 0 {
            if let Some(step) = steps.get(place - 1) {
                push_step(alloc, text, step)?;
            }
        }
    }
    Ok(())
}

/// Adds the events of a step: of a shipment also how the item came to lie in what was shipped, of a transformation
/// both, unless it is one event.
fn push_step(alloc: Global, text: &mut String, step: &StepEvents) -> Result<(), AllocError> {
    match step {
        StepEvents::Shipped { event, packings } => {
            push_event(alloc, text, event, "shipped")?;
            for packing in packings.as_slice() {
                push_packing(alloc, text, packing)?;
            }
            Ok(())
        }
        StepEvents::Made {
            taken_in,
            given_out,
        } => {
            push_event(alloc, text, taken_in, "made")?;
            if taken_in.number == given_out.number {
                return Ok(());
            }
            push_event(alloc, text, given_out, "made")
        }
    }
}

/// Adds the line of an event that put an item into another one.
fn push_packing(
    alloc: Global,
    text: &mut String,
    packing: &PackingEvent,
) -> Result<(), AllocError> {
    let key = packing.into.key(alloc)?;
    let did = format!(in alloc; "packed into {key}")?;
    push_event(alloc, text, &packing.event, did.as_str())
}

/// Adds the line of an event, which ends with what it did.
fn push_event(
    alloc: Global,
    text: &mut String,
    event: &CapturedEvent,
    did: &str,
) -> Result<(), AllocError> {
    let number = event.number;
    let (id, time) = (or_dash(event.id.as_ref()), or_dash(event.time.as_ref()));
    text.push_str(format!(in alloc; "    by {number} {id} {time} {did}\n")?.as_str())
}

/// A text, or a dash where there is none.
fn or_dash(text: Option<&PlainText>) -> &str {
    match text {
        None => "-",
        Some(text) => text.as_str(),
    }
}
