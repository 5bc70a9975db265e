//! `packs`: the documents of the events by which sites close their packed gaps.

ghost use Rattle.std.specs.Prelude.{◌≡◌, ◌++◌, ◌∷◌, [], List, None, IfOk, IfSome, OnOk};
ghost use Rattle.event_json.specs.Events.{Content};
ghost use Rattle.gap_core.specs.declared.packs.GapPack.{GapPack};
ghost use Rattle.trace_core.specs.Chains.{sites_at};
ghost use Rattle.folder_questions.specs.Packs.{ArePackDocuments, AreThose, HasEvent, HaveDocuments, IsDocumentOf, IsEventAt, IsEventOf, is_asked};

use event_json::{Event, SiteNo, Sites};
use event_writing::packing_document;
use gap_core::{GapPack, packs_to_capture};
use recall_outcomes::Outcome;
use site_core::SiteState;
use site_folders::{Question, no_site};
use site_recovery::captured;
use std::alloc::{AllocError, Global};
use trace_core::Captured;

/// An event by which a site closes a packed gap, as a document that the site can capture.
#[derive(Debug, Drop)]
pub struct PackDocument {
    pub pack: GapPack,
    /// A document that is read as this event alone; `None` where no time names its instant.
    pub document: Option<String>,
}

/// The documents of the events by which sites close their packed gaps.
#[derive(Debug, Drop)]
pub enum PacksAnswer {
    /// The folder doesn't list the site, which is refused.
    NoSite(Outcome),
    /// By site, then by the site that captured them, then in the order in which it did.
    Found(Vec<PackDocument>),
}

/// The documents of the events by which all sites, or the one of a name, close their packed gaps.
#[derive(Drop)]
pub struct PacksOf<'a> {
    /// The site that is asked for; `None` for all.
    pub site: Option<&'a str>,
}

impl Question for PacksOf<'_> {
    ghost use Rattle.std.specs.Prelude.{option_map};
    ghost use Rattle.folder_questions.specs.Packs.{AnswersPacks, AsksWhere, RefusesWhere};

    type Asked = Option<SiteNo>;

    type Answer = PacksAnswer;

    ghost refuses = { λ q sites answer. RefusesWhere (option_map (λ t. t.now) q.site) sites answer };

    ghost asks = { λ q sites asked. AsksWhere (option_map (λ t. t.now) q.site) sites asked };

    // The documents of all events by which the sites that are asked for close their packed gaps, in order, each once. Each
    // is read as its event alone, whatever sites are listed; there is none only of an event whose instant no time names.
    ghost answers = { λ q asked rs answer. AnswersPacks rs asked answer };

    fn read(
        &self,
        alloc: Global,
        sites: &Sites,
    ) -> Result<Result<Option<SiteNo>, PacksAnswer>, AllocError> {
        let Some(name) = self.site else {
            return Ok(Ok(None));
        };
        match sites.find(name) {
            Some(site) => Ok(Ok(Some(site))),
            None => Ok(Err(PacksAnswer::NoSite(no_site(alloc, name)?))),
        }
    }

    fn answer(
        &self,
        alloc: Global,
        asked: Option<SiteNo>,
        records: &[&SiteState],
    ) -> Result<PacksAnswer, AllocError> {
        let captured = captured(alloc, records)?;
        let documents = pack_documents(alloc, captured.as_slice(), &asked)?;
        Ok(PacksAnswer::Found(documents))
    }
}

/// The documents of those events that are asked for.
pub(crate) fn pack_documents(
    alloc: Global,
    sites: &[&Captured],
    asked: &Option<SiteNo>,
) -> Result<Vec<PackDocument>, AllocError>
    ensures { IfOk result (λ documents.
        ArePackDocuments (sites_at sites.now) asked.now documents.items) }
{
    let packs = packs_to_capture(alloc, sites)?;
    documents_of(alloc, sites, asked, packs)
}

/// The documents of those of these events that are asked for.
pub(crate) fn documents_of(
    alloc: Global,
    sites: &[&Captured],
    asked: &Option<SiteNo>,
    packs: Vec<GapPack>,
) -> Result<Vec<PackDocument>, AllocError>
    ensures { IfOk result (λ documents. AreThose asked.now packs.items documents.items
        × HaveDocuments (sites_at sites.now) documents.items) }
{
    let mut documents = Vec::new(alloc);
    for pack in packs {
        note_document(alloc, sites, asked, pack, &mut documents)?;
    }
    Ok(documents)
}

/// Notes the document of an event, if that is asked for.
fn note_document(
    alloc: Global,
    sites: &[&Captured],
    asked: &Option<SiteNo>,
    pack: GapPack,
    documents: &mut Vec<PackDocument>,
) -> Result<(), AllocError>
    ensures those { OnOk result ((packs : List GapPack)
        → AreThose asked.now packs documents.old.items
        → AreThose asked.now (packs ++ pack ∷ []) documents.new.items) }
    ensures each { OnOk result (HaveDocuments (sites_at sites.now) documents.old.items
        → HaveDocuments (sites_at sites.now) documents.new.items) }
{
    if !is_asked(asked, &pack) {
        return Ok(());
    }
    let document = document_of(alloc, sites, &pack)?;
    documents.push(PackDocument { pack, document })?;
    Ok(())
}

/// Whether an event is asked for.
fn is_asked(asked: &Option<SiteNo>, pack: &GapPack) -> bool
    ensures { result ≡ is_asked asked.now pack.now }
{
    match asked {
        Some(site) => pack.site == *site,
        None => true,
    }
}

/// The document of the event that a packing tells of; `None` where there is none.
fn document_of(
    alloc: Global,
    sites: &[&Captured],
    pack: &GapPack,
) -> Result<Option<String>, AllocError>
    ensures { HasEvent (sites_at sites.now) pack.now
        → IfOk result (IsDocumentOf (sites_at sites.now) pack.now) }
{
    match event_of(sites, pack) {
        Some(event) => packing_document(alloc, event),
        None => Ok(None),
    }
}

/// The event that a packing tells of.
fn event_of<'a>(sites: &[&'a Captured], pack: &GapPack) -> Option<&'a Event>
    ensures some { IfSome result (λ e. IsEventOf (sites_at sites.now) pack.now e.now) }
    ensures none { result ≡ None → (e : Content) → IsEventOf (sites_at sites.now) pack.now e → ⊥ }
{
    for site in sites {
        if let Some(event) = event_at(site, pack) {
            return Some(event);
        }
    }
    None
}

/// That event, if it is one of this site.
fn event_at<'a>(site: &'a Captured, pack: &GapPack) -> Option<&'a Event>
    ensures some { IfSome result (λ e. IsEventAt site.now pack.now e.now) }
    ensures none { result ≡ None → (e : Content) → IsEventAt site.now pack.now e → ⊥ }
{
    if site.me() == pack.by {
        site.event(pack.place)
    } else {
        None
    }
}
