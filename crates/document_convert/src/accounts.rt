//! What a conversion found and changed, in numbers.

ghost use Rattle.std.specs.Prelude.{◌≡◌, count_by, IfOk, length, option_map};
ghost use Rattle.serde_json.specs.View.{items_view, view};
ghost use Rattle.event_json.specs.Untraced.{in_order, listed_events};
ghost use Rattle.document_convert.specs.Accounts.{
  elements_from,
  count_if,
  event_count,
  none_yet,
  quantities,
  with_document,
  with_line,
};
ghost use Rattle.document_convert.specs.DeclaredErrors.{is_declared};
ghost use Rattle.document_convert.specs.Links.{link_of};
ghost use Rattle.document_convert.specs.Parted.{has_parts};
ghost use Rattle.document_convert.specs.Placed.{asked_of, has_destination};
ghost use Rattle.document_convert.specs.Quantities.{has_quantities};
ghost use Rattle.document_convert.specs.Respelled.{spells_otherwise_by};
ghost use Rattle.document_convert.specs.UnitLots.{is_untied};

use crate::declared_errors::is_declared;
use crate::elements::elements_of;
use crate::event_lists::events_of;
use crate::parted::has_parts;
use crate::placed::{Question, has_destination};
use crate::quantities::has_quantities;
use crate::respelling::{Speller, spells_otherwise_by};
use crate::unit_lots::is_untied;
use event_json::Sites;
use serde_json::{Value, json};
use std::alloc::{AllocError, Global};

/// What a conversion found and changed. Each count is at most 2^64 - 1, and stays there.
#[derive(Clone, Copy, Debug, PartialEq, Eq)]
pub struct Account {
    /// The documents that were written, one a line.
    pub written: u64,
    /// Their events, derived ones and parts too.
    pub events: u64,
    /// The events with units that are links now.
    pub links: u64,
    /// The elements of lists of quantities that are lots among the items now.
    pub lots: u64,
    /// The events that were added: each leads from a lot to its units.
    pub derived: u64,
    /// The events with more lots of units than were tied to these: over 10 lot numbers, or over 1,000 units, each
    /// counted once for each lot.
    pub untied: u64,
    /// The events that became parts, since they had a list of more than 1,000 members: none of a document that stayed
    /// as it is, since its parts would have repeated much.
    pub parted: u64,
    /// The events that had been declared to be errors, and were kept without that.
    pub errors: u64,
    /// The events with destinations that are addresses of listed sites now.
    pub places: u64,
    /// The events with a destination that names the GLN of several listed sites, and stayed.
    pub places_of_several: u64,
    /// The events that still have quantities, with which a capture refuses them.
    pub left: u64,
}

/// What is counted of a document on its way.
#[derive(Clone, Copy, Debug)]
pub(crate) struct Counts {
    /// The elements of lists of quantities that it had.
    pub(crate) had: u64,
    /// The events that it came with.
    pub(crate) came: u64,
    /// Those that had been declared to be errors, and are kept.
    pub(crate) errors: u64,
    /// Those with units that become links.
    pub(crate) links: u64,
    /// Those with destinations that become addresses.
    pub(crate) places: u64,
    /// Those with a destination that names the GLN of several listed sites, and stays.
    pub(crate) places_of_several: u64,
    /// Those with more lots of units than are tied to these.
    pub(crate) untied: u64,
    /// Those that become parts.
    pub(crate) parted: u64,
}

impl Account {
    /// Before the first document.
    pub fn new() -> Account
        ensures { result ≡ none_yet }
    {
        Account {
            written: 0,
            events: 0,
            links: 0,
            lots: 0,
            derived: 0,
            untied: 0,
            parted: 0,
            errors: 0,
            places: 0,
            places_of_several: 0,
            left: 0,
        }
    }

    /// With what another conversion found.
    pub fn and(self, more: Account) -> Account {
        Account {
            written: self.written.saturating_add(more.written),
            events: self.events.saturating_add(more.events),
            links: self.links.saturating_add(more.links),
            lots: self.lots.saturating_add(more.lots),
            derived: self.derived.saturating_add(more.derived),
            untied: self.untied.saturating_add(more.untied),
            parted: self.parted.saturating_add(more.parted),
            errors: self.errors.saturating_add(more.errors),
            places: self.places.saturating_add(more.places),
            places_of_several: self
                .places_of_several
                .saturating_add(more.places_of_several),
            left: self.left.saturating_add(more.left),
        }
    }

    /// The line that tells it, as `note: written 1 events 3 links 0 lots 2 derived 1 untied 0 parted 0 errors 0
    /// places 0 places_of_several 0 left 0`, with its LF.
    ///
    /// # Errors
    /// Where memory runs out.
    pub fn text(self, alloc: Global) -> Result<String, AllocError> {
        let Account {
            written,
            events,
            links,
            lots,
            derived,
            untied,
            parted,
            errors,
            places,
            places_of_several,
            left,
        } = self;
        let mut text = format!(in alloc; "note: written {written} events {events}")?;
        text.push_str(format!(in alloc; " links {links} lots {lots} derived {derived}")?.as_str())?;
        text.push_str(format!(in alloc;
            " untied {untied} parted {parted} errors {errors} places {places}"
        )?.as_str())?;
        text.push_str(format!(in alloc;
            " places_of_several {places_of_several} left {left}\n"
        )?.as_str())?;
        Ok(text)
    }

    /// The same as a line of JSON.
    ///
    /// # Errors
    /// Where memory runs out.
    pub fn json(self, alloc: Global) -> Result<String, AllocError> {
        let account =
            json!(in alloc; {"derived": self.derived, "errors": self.errors, "events": self.events, "left": self.left, "links": self.links, "lots": self.lots, "parted": self.parted, "places": self.places, "places_of_several": self.places_of_several, "untied": self.untied, "written": self.written})?;
        let mut line = json!(in alloc; {"account": account})?.to_string(alloc)?;
        line.push('\n')?;
        Ok(line)
    }

    /// With a document more, of which this was counted, as it is before its long lists are parted.
    pub(crate) fn with(self, counts: Counts, document: &Value) -> Account
        ensures { result ≡ with_document self counts (view document.now) }
    {
        let events = events_of(document);
        let added = event_count(document).saturating_sub(counts.came);
        let moved = counts.had.saturating_sub(quantities(document));
        Account {
            written: self.written,
            events: self.events,
            links: self.links.saturating_add(counts.links),
            lots: self.lots.saturating_add(moved),
            derived: self.derived.saturating_add(added),
            untied: self.untied.saturating_add(counts.untied),
            parted: self.parted.saturating_add(counts.parted),
            errors: self.errors.saturating_add(counts.errors),
            places: self.places.saturating_add(counts.places),
            places_of_several: self
                .places_of_several
                .saturating_add(counts.places_of_several),
            left: self.left.saturating_add(left(events)),
        }
    }

    /// With a line more, of this document.
    pub(crate) fn with_line(self, document: &Value) -> Account
        ensures { result ≡ with_line self (view document.now) }
    {
        Account {
            written: self.written.saturating_add(1),
            events: self.events.saturating_add(event_count(document)),
            links: self.links,
            lots: self.lots,
            derived: self.derived,
            untied: self.untied,
            parted: self.parted,
            errors: self.errors,
            places: self.places,
            places_of_several: self.places_of_several,
            left: self.left,
        }
    }
}

/// How many events a document has.
pub(crate) fn event_count(document: &Value) -> u64
    ensures { result ≡ event_count (view document.now) }
{
    count(events_of(document))
}

/// How many events of a document were declared to be errors, where they are kept.
pub(crate) fn errors_of(document: &Value, errors: bool) -> u64
    ensures { result ≡ count_if errors is_declared (view document.now) }
{
    if errors {
        declared(events_of(document))
    } else {
        0
    }
}

/// How many of these events were.
#[tactic(auto, using(event_json::proofs::Counted::counted))]
fn declared(events: &[Value]) -> u64
    ensures { result ≡ count_by is_declared (in_order (items_view events.now)) }
{
    events.iter().filter(|event| is_declared(event)).count() as u64
}

/// How many events of a document spell a unit otherwise than by its link, where that is asked for.
pub(crate) fn links_of(alloc: Global, document: &Value, links: bool) -> Result<u64, AllocError>
    ensures { IfOk result
        (λ count. count ≡ count_if links (spells_otherwise_by link_of) (view document.now)) }
{
    if links {
        linked(alloc, events_of(document))
    } else {
        Ok(0)
    }
}

/// How many of these events do.
fn linked(alloc: Global, events: &[Value]) -> Result<u64, AllocError>
    ensures { IfOk result (λ count. count
        ≡ count_by (spells_otherwise_by link_of) (in_order (items_view events.now))) }
{
    let mut count: u64 = 0;
    for event in events.iter() {
        if spells_otherwise_by(alloc, Speller::Links, event)? {
            count += 1;
        }
    }
    Ok(count)
}

/// How many events of a document have a destination whose text is as it is asked, where that is asked for.
pub(crate) fn places_of(
    alloc: Global,
    sites: &Sites,
    question: Question,
    document: &Value,
    places: bool,
) -> Result<u64, AllocError>
    ensures { IfOk result (λ count. count
        ≡ count_if places (has_destination (asked_of sites.now question)) (view document.now)) }
{
    if places {
        placed(alloc, sites, question, events_of(document))
    } else {
        Ok(0)
    }
}

/// How many of these events have.
fn placed(
    alloc: Global,
    sites: &Sites,
    question: Question,
    events: &[Value],
) -> Result<u64, AllocError>
    ensures { IfOk result (λ count. count
        ≡ count_by (has_destination (asked_of sites.now question))
        (in_order (items_view events.now))) }
{
    let mut count: u64 = 0;
    for event in events.iter() {
        if has_destination(alloc, sites, question, event)? {
            count += 1;
        }
    }
    Ok(count)
}

/// How many events of a document have more lots of units than are tied to these, where that is asked for.
pub(crate) fn untied_of(alloc: Global, document: &Value, lots: bool) -> Result<u64, AllocError>
    ensures { IfOk result (λ count. count ≡ count_if lots is_untied (view document.now)) }
{
    if lots {
        untied(alloc, events_of(document))
    } else {
        Ok(0)
    }
}

/// How many of these events have.
fn untied(alloc: Global, events: &[Value]) -> Result<u64, AllocError>
    ensures { IfOk result
        (λ count. count ≡ count_by is_untied (in_order (items_view events.now))) }
{
    let mut count: u64 = 0;
    for event in events.iter() {
        if is_untied(alloc, event)? {
            count += 1;
        }
    }
    Ok(count)
}

/// How many events these are.
#[tactic(auto, using(crate::proofs::Lists::listed_length))]
fn count(events: &[Value]) -> u64
    ensures { result ≡ length (in_order (items_view events.now)) }
{
    events.len() as u64
}

/// How many events of a document become parts, where it is parted.
pub(crate) fn parted_of(document: &Value, parts: bool) -> u64
    ensures { result ≡ count_if parts has_parts (view document.now) }
{
    if parts {
        parted(events_of(document))
    } else {
        0
    }
}

/// How many of these events have parts.
#[tactic(auto, using(event_json::proofs::Counted::counted))]
fn parted(events: &[Value]) -> u64
    ensures { result ≡ count_by has_parts (in_order (items_view events.now)) }
{
    events.iter().filter(|event| has_parts(event)).count() as u64
}

/// How many of these events have quantities.
#[tactic(auto, using(event_json::proofs::Counted::counted))]
fn left(events: &[Value]) -> u64
    ensures { result ≡ count_by has_quantities (in_order (items_view events.now)) }
{
    events.iter().filter(|event| has_quantities(event)).count() as u64
}

/// How many elements the lists of quantities of a document's events have.
pub(crate) fn quantities(document: &Value) -> u64
    ensures { result ≡ quantities (view document.now) }
{
    let mut count: u64 = 0;
    for event in events_of(document).iter() {
        count = count.saturating_add(elements_of(event));
    }
    count
}
