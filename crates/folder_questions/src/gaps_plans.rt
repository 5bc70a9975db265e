//! Plans of recalls of what another recall misses at a site, and of the captures before them.

ghost use Rattle.std.specs.Prelude.{◌≡◌, ◌++◌, IfOk, OnOk};
ghost use Rattle.gap_core.specs.Adding.{AddsToList};
ghost use Rattle.report_core.specs.Traces.{IsKnownAt};
ghost use Rattle.site_recovery.specs.Checking.{records_at};
ghost use Rattle.site_recovery.specs.FittingAt.{AreAllSites};
ghost use Rattle.site_recovery.specs.Laws.{captured_of};
ghost use Rattle.site_recovery.specs.Looks.{world_of};
ghost use Rattle.folder_questions.specs.GapsPlans.{AnswersGapsPlan, AreItemDocuments, AreUnknownAt, unheld, unheld_at};

use crate::asked::recall_at;
use crate::missed::missed_by;
use crate::packs::{PackDocument, documents_of};
use crate::packs_plans::note_captures;
use crate::plans::{Planned, inputs_of, knows, note_batch, refused_plan};
use epc_core::Epc;
use event_json::{SiteNo, Sites};
use frame_core::RecallId;
use gap_core::packs_of_items;
use recall_outcomes::{CommandRefusal, MissedPair, Task};
use site_core::SiteState;
use site_folders::{Question, no_site};
use site_recovery::{captured, own_recall};
use std::alloc::{AllocError, Global};
use trace_core::Pair;

/// Recalls of the items at the site of a name that another recall misses and that no recall holds; and before them the
/// captures of the events that tell the site where those lie that it doesn't know.
#[derive(Drop)]
pub struct GapsPlan<'a> {
    pub site: &'a str,
    /// The recall that misses them.
    pub recall: &'a str,
}

impl Question for GapsPlan<'_> {
    ghost use Rattle.folder_questions.specs.GapsPlans.{AnswersGapsPlan, AsksGapsPlan, RefusesGapsPlan};

    type Asked = (SiteNo, RecallId);

    type Answer = Planned;

    ghost refuses = { λ q sites plan. RefusesGapsPlan q.site.now q.recall.now sites plan };

    ghost asks = { λ q sites asked. AsksGapsPlan q.site.now q.recall.now sites asked.0 asked.1 };

    // The items of just those pairs at the site that the recall misses and no recall holds, by their keys; and before
    // them the documents of all events of others that tell the site where those lie that it doesn't know, in order; or
    // `UnknownRecall` exactly where no site began the recall.
    ghost answers = { λ q asked rs plan. AnswersGapsPlan rs asked.0 asked.1 plan };

    fn read(
        &self,
        alloc: Global,
        sites: &Sites,
    ) -> Result<Result<(SiteNo, RecallId), Planned>, AllocError> {
        let Some(site) = sites.find(self.site) else {
            return Ok(Err(Planned::Refused(no_site(alloc, self.site)?)));
        };
        match recall_at(alloc, sites, self.recall)? {
            Ok(recall) => Ok(Ok((site, recall))),
            Err(refused) => Ok(Err(Planned::Refused(refused))),
        }
    }

    fn answer(
        &self,
        alloc: Global,
        asked: (SiteNo, RecallId),
        records: &[&SiteState],
    ) -> Result<Planned, AllocError> {
        let (site, recall) = asked;
        gaps_plan(alloc, records, site, recall)
    }
}

/// Recalls of what a recall misses at a site, and the captures before them, if some site began the recall.
fn gaps_plan(
    alloc: Global,
    records: &[&SiteState],
    site: SiteNo,
    recall: RecallId,
) -> Result<Planned, AllocError>
    requires all { AreAllSites (records_at records.now) }
    ensures { IfOk result (AnswersGapsPlan (records_at records.now) site recall) }
{
    let Some(own) = own_recall(records, recall) else {
        return refused_plan(alloc, CommandRefusal::UnknownRecall);
    };
    let root = Pair {
        site: recall.site,
        item: own.root.copy(alloc)?,
    };
    let missed = missed_by(alloc, records, &root)?;
    let items = unheld_items(alloc, missed.pairs.as_slice(), site)?;
    let unknown = unknown_items(alloc, records, site, items.as_slice())?;
    let documents = item_documents(alloc, records, site, unknown.as_slice())?;
    let mut plan = Vec::new(alloc);
    note_captures(alloc, records, documents.as_slice(), site, &mut plan)?;
    let inputs = inputs_of(alloc, items)?;
    note_batch(site, Task::Start, inputs, &mut plan)?;
    Ok(Planned::Batches(plan))
}

/// The documents of the events of other sites that tell a site where some items lie.
fn item_documents(
    alloc: Global,
    records: &[&SiteState],
    site: SiteNo,
    items: &[Epc],
) -> Result<Vec<PackDocument>, AllocError>
    ensures { IfOk result (λ documents.
        AreItemDocuments (captured_of (records_at records.now)) site items.now documents.items) }
{
    let captured = captured(alloc, records)?;
    let packs = packs_of_items(alloc, captured.as_slice(), site, items)?;
    documents_of(alloc, captured.as_slice(), &None, packs)
}

/// Those of some items that a site doesn't know.
fn unknown_items(
    alloc: Global,
    records: &[&SiteState],
    site: SiteNo,
    items: &[Epc],
) -> Result<Vec<Epc>, AllocError>
    requires all { AreAllSites (records_at records.now) }
    ensures { IfOk result (λ unknown.
        AreUnknownAt (records_at records.now) site items.now unknown.items) }
{
    let mut unknown = Vec::new(alloc);
    for item in items {
        push_unknown(alloc, records, site, item, &mut unknown)?;
    }
    Ok(unknown)
}

/// Adds an item, if a site doesn't know it.
fn push_unknown(
    alloc: Global,
    records: &[&SiteState],
    site: SiteNo,
    item: &Epc,
    unknown: &mut Vec<Epc>,
) -> Result<(), AllocError>
    requires all { AreAllSites (records_at records.now) }
    ensures { OnOk result (AddsToList unknown.old.items unknown.new.items (λ i.
        (item.now ≡ i) × (IsKnownAt (world_of (records_at records.now)) site i → ⊥))) }
{
    if knows(records, site, item) {
        return Ok(());
    }
    let copy = item.copy(alloc)?;
    unknown.push(copy)?;
    Ok(())
}

/// The items of those pairs at a site that no recall holds.
fn unheld_items(alloc: Global, pairs: &[MissedPair], site: SiteNo) -> Result<Vec<Epc>, AllocError>
    ensures { IfOk result (λ items. items.items ≡ unheld_at site pairs.now) }
{
    let mut items = Vec::new(alloc);
    for missed in pairs {
        push_unheld(alloc, missed, site, &mut items)?;
    }
    Ok(items)
}

/// Adds the item of a pair, if it is at the site and no recall holds it.
fn push_unheld(
    alloc: Global,
    missed: &MissedPair,
    site: SiteNo,
    items: &mut Vec<Epc>,
) -> Result<(), AllocError>
    ensures { OnOk result (items.new.items ≡ items.old.items ++ unheld site missed.now) }
{
    if missed.pair.site == site && missed.held.is_none() {
        items.push(missed.pair.item.copy(alloc)?)?;
    }
    Ok(())
}
