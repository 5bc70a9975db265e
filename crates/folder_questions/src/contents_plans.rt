//! Plans of recalls of an item and of all that lies in it.

ghost use Rattle.std.specs.Prelude.{IfOk};
ghost use Rattle.site_recovery.specs.Checking.{records_at};
ghost use Rattle.site_recovery.specs.FittingAt.{AreAllSites};
ghost use Rattle.folder_questions.specs.ContentsPlans.{AnswersContentsPlan};

use crate::plans::{Planned, knows, note_batch, planned_item, refused_plan, start_inputs};
use epc_core::Epc;
use event_json::{SiteNo, Sites};
use gap_core::items_inside;
use item_spellings::Spelled;
use recall_outcomes::{CommandRefusal, Task};
use site_core::{Refusal, SiteState};
use site_folders::Question;
use site_recovery::captured;
use std::alloc::{AllocError, Global};

/// Recalls of an item that the site of a name knows, and of each item that lies in it, at any depth and by the packings
/// of all sites.
#[derive(Drop)]
pub struct ContentsPlan<'a> {
    pub site: &'a str,
    pub item: Spelled<'a>,
}

impl Question for ContentsPlan<'_> {
    ghost use Rattle.folder_questions.specs.Asked.{AsksItem};
    ghost use Rattle.folder_questions.specs.ContentsPlans.{AnswersContentsPlan};
    ghost use Rattle.folder_questions.specs.Plans.{RefusesItemPlan};

    type Asked = (SiteNo, Epc);

    type Answer = Planned;

    ghost refuses = { λ q sites plan. RefusesItemPlan q.site.now q.item sites plan };

    ghost asks = { λ q sites asked. AsksItem q.site.now q.item sites asked.0 asked.1 };

    // The item first, and then just the items that any site put into it, or into what was, by their keys; or
    // `UnknownItem` exactly where the site doesn't know it.
    ghost answers = { λ q asked rs plan. AnswersContentsPlan rs asked.0 asked.1 plan };

    fn read(
        &self,
        alloc: Global,
        sites: &Sites,
    ) -> Result<Result<(SiteNo, Epc), Planned>, AllocError> {
        planned_item(alloc, sites, self.site, &self.item)
    }

    fn answer(
        &self,
        alloc: Global,
        asked: (SiteNo, Epc),
        records: &[&SiteState],
    ) -> Result<Planned, AllocError> {
        let (site, item) = asked;
        contents_plan(alloc, records, site, &item)
    }
}

/// Recalls of an item and of what lies in it, if the site knows it.
fn contents_plan(
    alloc: Global,
    records: &[&SiteState],
    site: SiteNo,
    item: &Epc,
) -> Result<Planned, AllocError>
    requires all { AreAllSites (records_at records.now) }
    ensures { IfOk result (AnswersContentsPlan (records_at records.now) site item.now) }
{
    if !knows(records, site, item) {
        return refused_plan(alloc, CommandRefusal::Step(Refusal::UnknownItem));
    }
    let captured = captured(alloc, records)?;
    let inside = items_inside(alloc, captured.as_slice(), item)?;
    let inputs = start_inputs(alloc, item, inside)?;
    let mut plan = Vec::new(alloc);
    note_batch(site, Task::Start, inputs, &mut plan)?;
    Ok(Planned::Batches(plan))
}
