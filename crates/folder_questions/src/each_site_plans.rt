//! Plans of recalls of an item at each site of which an event names it.

ghost use Rattle.std.specs.Prelude.{◌≡◌, ◌++◌, IfOk, OnOk};
ghost use Rattle.std.specs.List.{flat_map};
ghost use Rattle.site_recovery.specs.Checking.{records_at};
ghost use Rattle.site_recovery.specs.FittingAt.{AreAllSites};
ghost use Rattle.folder_questions.specs.EachSitePlans.{AnswersEachSitePlan, started_at, starts_one};
ghost use Rattle.folder_questions.specs.Plans.{outlines};

use crate::plans::{
    Planned, PlannedBatch, knows, note_batch, planned_item, refused_plan, start_inputs,
};
use epc_core::Epc;
use event_json::{SiteNo, Sites};
use item_spellings::Spelled;
use recall_outcomes::{CommandRefusal, Task};
use site_core::{Refusal, SiteState};
use site_folders::Question;
use std::alloc::{AllocError, Global};

/// Recalls of an item that the site of a name knows: there, and at each other site of which an event names it.
#[derive(Drop)]
pub struct EachSitePlan<'a> {
    pub item: Spelled<'a>,
    pub site: &'a str,
}

impl Question for EachSitePlan<'_> {
    ghost use Rattle.folder_questions.specs.Asked.{AsksItem};
    ghost use Rattle.folder_questions.specs.EachSitePlans.{AnswersEachSitePlan};
    ghost use Rattle.folder_questions.specs.Plans.{RefusesItemPlan};

    type Asked = (SiteNo, Epc);

    type Answer = Planned;

    ghost refuses = { λ q sites plan. RefusesItemPlan q.site.now q.item sites plan };

    ghost asks = { λ q sites asked. AsksItem q.site.now q.item sites asked.0 asked.1 };

    // Site by site, the item at the site of the name and at just those others of which an event names it, by its key;
    // or `UnknownItem` exactly where the site of the name doesn't know it.
    ghost answers = { λ q asked rs plan. AnswersEachSitePlan rs asked.0 asked.1 plan };

    fn read(
        &self,
        alloc: Global,
        sites: &Sites,
    ) -> Result<Result<(SiteNo, Epc), Planned>, AllocError> {
        planned_item(alloc, sites, self.site, &self.item)
    }

    fn answer(
        &self,
        alloc: Global,
        asked: (SiteNo, Epc),
        records: &[&SiteState],
    ) -> Result<Planned, AllocError> {
        let (site, item) = asked;
        each_site_plan(alloc, records, site, &item)
    }
}

/// Recalls of an item at each site of which an event names it and at one site besides, if that knows it.
fn each_site_plan(
    alloc: Global,
    records: &[&SiteState],
    site: SiteNo,
    item: &Epc,
) -> Result<Planned, AllocError>
    requires all { AreAllSites (records_at records.now) }
    ensures { IfOk result (AnswersEachSitePlan (records_at records.now) site item.now) }
{
    if !knows(records, site, item) {
        return refused_plan(alloc, CommandRefusal::Step(Refusal::UnknownItem));
    }
    let plan = starts(alloc, records, site, item)?;
    Ok(Planned::Batches(plan))
}

/// The starts of recalls of an item, site by site.
fn starts(
    alloc: Global,
    records: &[&SiteState],
    site: SiteNo,
    item: &Epc,
) -> Result<Vec<PlannedBatch>, AllocError>
    ensures { IfOk result (λ plan. outlines plan.items
        ≡ flat_map (started_at site item.now) (records_at records.now)) }
{
    let mut plan = Vec::new(alloc);
    for state in records {
        note_start(alloc, state, site, item, &mut plan)?;
    }
    Ok(plan)
}

/// Adds the start of a recall of an item at the site of a record, if it starts one.
fn note_start(
    alloc: Global,
    state: &SiteState,
    site: SiteNo,
    item: &Epc,
    plan: &mut Vec<PlannedBatch>,
) -> Result<(), AllocError>
    ensures { OnOk result (outlines plan.new.items
        ≡ outlines plan.old.items ++ started_at site item.now state.now) }
{
    if !starts_one(state, site, item) {
        return Ok(());
    }
    let inputs = start_inputs(alloc, item, Vec::new(alloc))?;
    note_batch(state.me(), Task::Start, inputs, plan)
}

/// Whether this is the record of the site, or of one of which an event names the item.
fn starts_one(state: &SiteState, site: SiteNo, item: &Epc) -> bool
    ensures { result ≡ starts_one site item.now state.now }
{
    state.me() == site || state.captured().mentions(item)
}
