//! What a question is about: an item at a site, or a recall; and the record of a site that is asked.

ghost use Rattle.std.specs.Prelude.{IfErr, IfOk};
ghost use Rattle.recall_outcomes.specs.declared.outcomes.CommandRefusal.TheVariants.{Step};
ghost use Rattle.site_core.specs.declared.outcomes.Refusal.TheVariants.{UnknownItem};
ghost use Rattle.site_folders.specs.Refusals.{IsRefusal};
ghost use Rattle.site_recovery.specs.Checking.{Finds, world_at};
ghost use Rattle.folder_questions.specs.Asked.{AsksItem, AsksRecall, RefusesItem, RefusesRecall};

use epc_core::Epc;
use event_json::{SiteNo, Sites};
use frame_core::RecallId;
use item_spellings::{Spelled, read_item};
use recall_outcomes::{CommandRefusal, Outcome};
use recall_text::telling::recall_of;
use site_core::{Refusal, SiteState};
use site_folders::{no_site, refusal, unspelled};
use std::alloc::{AllocError, Global};

/// The site of a name and the item that is spelled, or why there is no such.
pub(crate) fn item_at(
    alloc: Global,
    sites: &Sites,
    site: &str,
    item: &Spelled<'_>,
) -> Result<Result<(SiteNo, Epc), Outcome>, AllocError>
    ensures asked { IfOk result (λ read. IfOk read (λ of.
        AsksItem site.now item.now sites.now of.0 of.1)) }
    ensures refused { IfOk result (λ read. IfErr read (RefusesItem site.now item.now sites.now)) }
{
    let Some(number) = sites.find(site) else {
        return Ok(Err(no_site(alloc, site)?));
    };
    match read_item(alloc, item)? {
        Ok(item) => Ok(Ok((number, item))),
        Err(fault) => Ok(Err(unspelled(alloc, fault)?)),
    }
}

/// The recall that a text names, or why there is no such.
pub(crate) fn recall_at(
    alloc: Global,
    sites: &Sites,
    recall: &str,
) -> Result<Result<RecallId, Outcome>, AllocError>
    ensures asked { IfOk result (λ read. IfOk read (AsksRecall recall.now sites.now)) }
    ensures refused { IfOk result (λ read. IfErr read (RefusesRecall recall.now sites.now)) }
{
    let Some((name, number)) = recall_of(recall) else {
        return Ok(Err(refusal(alloc, CommandRefusal::BadRecall)?));
    };
    let Some(site) = sites.find(name) else {
        return Ok(Err(no_site(alloc, name)?));
    };
    Ok(Ok(RecallId { site, number }))
}

/// The record of a site, if it is among these.
pub(crate) fn record_of<'a>(records: &[&'a SiteState], site: SiteNo) -> Option<&'a SiteState>
    ensures { Finds (world_at records.now) site result }
{
    let place = site.number() as usize;
    if place < records.len() {
        Some(records[place])
    } else {
        None
    }
}

/// The site doesn't know the item.
pub(crate) fn unknown(alloc: Global) -> Result<Outcome, AllocError>
    ensures { IfOk result (IsRefusal (Step UnknownItem)) }
{
    refusal(alloc, CommandRefusal::Step(Refusal::UnknownItem))
}
