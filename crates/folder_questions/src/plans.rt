//! Plans of what sites take one after another, which the records of all sites decide.

ghost use Rattle.std.specs.Prelude.{◌≡◌, ◌↔◌, ◌++◌, ◌∷◌, [], IfErr, IfOk, IsTrue, OnOk};
ghost use Rattle.report_core.specs.Traces.{IsKnownAt};
ghost use Rattle.site_recovery.specs.Checking.{records_at};
ghost use Rattle.site_recovery.specs.FittingAt.{AreAllSites};
ghost use Rattle.site_recovery.specs.Looks.{world_of};
ghost use Rattle.folder_questions.specs.Asked.{AsksItem};
ghost use Rattle.folder_questions.specs.Plans.{RefusesItemPlan, RefusesPlan, outlined, outlines, texts_of};

use crate::asked::{item_at, record_of};
use epc_core::Epc;
use event_json::{SiteNo, Sites};
use item_spellings::Spelled;
use recall_outcomes::{CommandRefusal, Outcome, Task};
use site_core::{SiteState, is_known};
use site_folders::refusal;
use std::alloc::{AllocError, Global};

/// A text that a site takes.
#[derive(Debug, Drop)]
pub struct PlannedInput {
    /// What it is told as.
    pub name: String,
    /// A document to capture, or the key of an item of which a recall is started.
    pub text: String,
}

/// What a site takes.
#[derive(Debug, Drop)]
pub struct PlannedBatch {
    pub site: SiteNo,
    pub task: Task,
    /// One after another.
    pub inputs: Vec<PlannedInput>,
}

/// A plan, or why there is none.
#[derive(Debug, Drop)]
pub enum Planned {
    Refused(Outcome),
    /// What sites take, one after another.
    Batches(Vec<PlannedBatch>),
}

/// The site of a name and the item that is spelled, or why there is no plan for such.
pub(crate) fn planned_item(
    alloc: Global,
    sites: &Sites,
    site: &str,
    item: &Spelled<'_>,
) -> Result<Result<(SiteNo, Epc), Planned>, AllocError>
    ensures asked { IfOk result (λ read. IfOk read (λ of.
        AsksItem site.now item.now sites.now of.0 of.1)) }
    ensures refused { IfOk result (λ read. IfErr read
        (RefusesItemPlan site.now item.now sites.now)) }
{
    match item_at(alloc, sites, site, item)? {
        Ok(asked) => Ok(Ok(asked)),
        Err(refused) => Ok(Err(Planned::Refused(refused))),
    }
}

/// There is no plan, for this reason.
pub(crate) fn refused_plan(alloc: Global, why: CommandRefusal) -> Result<Planned, AllocError>
    ensures { IfOk result (RefusesPlan why) }
{
    Ok(Planned::Refused(refusal(alloc, why)?))
}

/// Whether a site knows an item.
pub(crate) fn knows(records: &[&SiteState], site: SiteNo, item: &Epc) -> bool
    requires all { AreAllSites (records_at records.now) }
    ensures { IsTrue result ↔ IsKnownAt (world_of (records_at records.now)) site item.now }
{
    match record_of(records, site) {
        Some(state) => is_known(state.captured(), state.quarantine(), item),
        None => false,
    }
}

/// An item, and then others, to start recalls of them.
pub(crate) fn start_inputs(
    alloc: Global,
    item: &Epc,
    others: Vec<Epc>,
) -> Result<Vec<PlannedInput>, AllocError>
    ensures { IfOk result (λ inputs. texts_of inputs.items ≡ item.now ∷ others.items) }
{
    let mut inputs = Vec::new(alloc);
    push_start(alloc, item, &mut inputs)?;
    for other in others {
        push_start(alloc, &other, &mut inputs)?;
    }
    Ok(inputs)
}

/// Some items, to start recalls of them.
pub(crate) fn inputs_of(alloc: Global, items: Vec<Epc>) -> Result<Vec<PlannedInput>, AllocError>
    ensures { IfOk result (λ inputs. texts_of inputs.items ≡ items.items) }
{
    let mut inputs = Vec::new(alloc);
    for item in items {
        push_start(alloc, &item, &mut inputs)?;
    }
    Ok(inputs)
}

/// Adds an item, to start a recall of it.
fn push_start(alloc: Global, item: &Epc, inputs: &mut Vec<PlannedInput>) -> Result<(), AllocError>
    ensures { OnOk result (texts_of inputs.new.items ≡ texts_of inputs.old.items ++ item.now ∷ []) }
{
    inputs.push(PlannedInput {
        name: item.key(alloc)?,
        text: item.key(alloc)?,
    })?;
    Ok(())
}

/// Adds what a site takes to a plan, if it takes anything.
pub(crate) fn note_batch(
    site: SiteNo,
    task: Task,
    inputs: Vec<PlannedInput>,
    plan: &mut Vec<PlannedBatch>,
) -> Result<(), AllocError>
    ensures { OnOk result (outlines plan.new.items
        ≡ outlines plan.old.items ++ outlined site task (texts_of inputs.items)) }
{
    if inputs.is_empty() {
        return Ok(());
    }
    plan.push(PlannedBatch { site, task, inputs })?;
    Ok(())
}
