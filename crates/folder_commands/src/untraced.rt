//! What documents say that isn't traced.

ghost use Rattle.std.specs.Prelude.{◌≡◌, Ok, IfErr, IfOk};
ghost use Rattle.event_json.specs.Untraced.{text_untraced};
ghost use Rattle.event_json.specs.declared.documents.Doc.{Doc};
ghost use Rattle.site_core.specs.Steps.{IsReadAs};
ghost use Rattle.folder_commands.specs.Untraced.{IsOutside, NamesPlaces, ShipsOutside, TellsUntraced, none_untraced, with_untraced};

use crate::places::{MAX_PLACES, name_events};
use event_json::{
    Doc, PlainText, ReadFault, Sequence, Sites, Untraced, read_document, read_untraced,
};
use recall_outcomes::Fault;
use std::alloc::Global;

/// Nothing.
pub(crate) fn none_untraced() -> Untraced
    ensures { result ≡ none_untraced }
{
    Untraced {
        skipped: 0,
        aimless: 0,
        outside: 0,
        unnamed: 0,
    }
}

/// With what one document more says. Each count is at most 2^64 - 1, and stays there.
pub(crate) fn with_untraced(all: Untraced, one: Untraced) -> Untraced
    ensures { result ≡ with_untraced all one }
{
    Untraced {
        skipped: all.skipped.saturating_add(one.skipped),
        aimless: all.aimless.saturating_add(one.aimless),
        outside: all.outside.saturating_add(one.outside),
        unnamed: all.unnamed.saturating_add(one.unnamed),
    }
}

/// What is told of a document that isn't traced, and nothing of one that is refused as a document: how much it is, and
/// the destinations that were named and more of its own.
pub(crate) fn told_of(
    alloc: Global,
    document: &[u8],
    sites: &Sites,
    named: &Sequence<PlainText>,
) -> Result<(Untraced, Sequence<PlainText>), Fault>
    ensures found { (doc : Doc) → IsReadAs sites.now document.now (Ok doc)
        → IfOk result (λ told. TellsUntraced sites.now document.now named.now told.0 told.1) }
    ensures failed { IfErr result (λ fault. fault ≡ Fault.NoMemory) }
{
    let untraced = untraced_of(alloc, document, sites)?;
    let places = places_of(alloc, document, sites, untraced, named)?;
    Ok((untraced, places))
}

/// What a document says that isn't traced, and nothing of one that is refused as a document.
fn untraced_of(alloc: Global, document: &[u8], sites: &Sites) -> Result<Untraced, Fault>
    ensures found { (doc : Doc) → IsReadAs sites.now document.now (Ok doc)
        → IfOk result (λ untraced. text_untraced sites.now document.now ≡ Ok untraced) }
    ensures failed { IfErr result (λ fault. fault ≡ Fault.NoMemory) }
{
    match read_untraced(alloc, document, sites) {
        Ok(untraced) => Ok(untraced),
        Err(ReadFault::Doc(_)) => Ok(none_untraced()),
        Err(ReadFault::NoMemory) => Err(Fault::NoMemory),
    }
}

/// The destinations that were named and more of a document, which says that so much isn't traced. Its bytes are parsed
/// again only where it has destinations that are no traced site and fewer than [`MAX_PLACES`] were named.
fn places_of(
    alloc: Global,
    document: &[u8],
    sites: &Sites,
    untraced: Untraced,
    named: &Sequence<PlainText>,
) -> Result<Sequence<PlainText>, Fault>
    ensures found { (doc : Doc) → IsReadAs sites.now document.now (Ok doc)
        → text_untraced sites.now document.now ≡ Ok untraced
        → IfOk result (NamesPlaces (ShipsOutside sites.now document.now) named.now) }
    ensures failed { IfErr result (λ fault. fault ≡ Fault.NoMemory) }
{
    let named = named.copy(alloc)?;
    if untraced.outside == 0 || named.len() >= MAX_PLACES {
        return Ok(named);
    }
    match read_document(alloc, document, sites) {
        Ok(doc) => with_places(alloc, &doc, named),
        Err(ReadFault::Doc(_)) => Ok(named),
        Err(ReadFault::NoMemory) => Err(Fault::NoMemory),
    }
}

/// The destinations that were named and more of a document.
fn with_places(
    alloc: Global,
    doc: &Doc,
    named: Sequence<PlainText>,
) -> Result<Sequence<PlainText>, Fault>
    ensures found { IfOk result (NamesPlaces (IsOutside doc.now.events) named) }
    ensures failed { IfErr result (λ fault. fault ≡ Fault.NoMemory) }
{
    let mut places = named.into_vec();
    name_events(alloc, doc.events.as_slice(), &mut places)?;
    Ok(Sequence::from_vec(places))
}
