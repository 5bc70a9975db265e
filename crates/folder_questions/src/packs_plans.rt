//! Plans of the captures by which sites close their packed gaps.

ghost use Rattle.std.specs.Prelude.{◌≡◌, ◌++◌, IfOk, OnOk};
ghost use Rattle.std.specs.List.{flat_map};
ghost use Rattle.recall_outcomes.specs.declared.batches.Task.TheVariants.{Capture};
ghost use Rattle.site_recovery.specs.Checking.{records_at};
ghost use Rattle.site_recovery.specs.FittingAt.{AreAllSites};
ghost use Rattle.folder_questions.specs.PacksPlans.{AnswersPacksPlan, captured_at, text_at, texts_at};
ghost use Rattle.folder_questions.specs.Plans.{outlined, outlines, texts_of};

use crate::asked::record_of;
use crate::packs::{PackDocument, pack_documents};
use crate::plans::{Planned, PlannedBatch, PlannedInput, note_batch};
use event_json::{SiteNo, Sites};
use gap_core::GapPack;
use recall_outcomes::Task;
use recall_text::texts::name_of;
use site_core::SiteState;
use site_folders::{Question, no_site};
use site_recovery::captured;
use std::alloc::{AllocError, Global};

/// The captures by which all sites, or the one of a name, close their packed gaps.
#[derive(Drop)]
pub struct PacksPlan<'a> {
    /// The site that is asked for; `None` for all.
    pub site: Option<&'a str>,
}

impl Question for PacksPlan<'_> {
    ghost use Rattle.std.specs.Prelude.{option_map};
    ghost use Rattle.folder_questions.specs.Packs.{AsksWhere};
    ghost use Rattle.folder_questions.specs.PacksPlans.{AnswersPacksPlan, RefusesWherePlan};

    type Asked = Option<SiteNo>;

    type Answer = Planned;

    ghost refuses = { λ q sites plan.
        RefusesWherePlan (option_map (λ t. t.now) q.site) sites plan };

    ghost asks = { λ q sites asked. AsksWhere (option_map (λ t. t.now) q.site) sites asked };

    // Site by site, the documents of all events by which it closes its packed gaps, in order, each once.
    ghost answers = { λ q asked rs plan. AnswersPacksPlan rs asked plan };

    fn read(
        &self,
        alloc: Global,
        sites: &Sites,
    ) -> Result<Result<Option<SiteNo>, Planned>, AllocError> {
        let Some(name) = self.site else {
            return Ok(Ok(None));
        };
        match sites.find(name) {
            Some(site) => Ok(Ok(Some(site))),
            None => Ok(Err(Planned::Refused(no_site(alloc, name)?))),
        }
    }

    fn answer(
        &self,
        alloc: Global,
        asked: Option<SiteNo>,
        records: &[&SiteState],
    ) -> Result<Planned, AllocError> {
        packs_plan(alloc, records, asked)
    }
}

/// The captures of the documents of the events that are asked for.
fn packs_plan(
    alloc: Global,
    records: &[&SiteState],
    asked: Option<SiteNo>,
) -> Result<Planned, AllocError>
    requires all { AreAllSites (records_at records.now) }
    ensures { IfOk result (AnswersPacksPlan (records_at records.now) asked) }
{
    let captured = captured(alloc, records)?;
    let documents = pack_documents(alloc, captured.as_slice(), &asked)?;
    let plan = captures(alloc, records, documents.as_slice())?;
    Ok(Planned::Batches(plan))
}

/// The captures of documents, site by site.
fn captures(
    alloc: Global,
    records: &[&SiteState],
    documents: &[PackDocument],
) -> Result<Vec<PlannedBatch>, AllocError>
    ensures { IfOk result (λ plan. outlines plan.items
        ≡ flat_map (captured_at documents.now) (records_at records.now)) }
{
    let mut plan = Vec::new(alloc);
    for state in records {
        note_captures(alloc, records, documents, state.me(), &mut plan)?;
    }
    Ok(plan)
}

/// Adds the captures of a site.
pub(crate) fn note_captures(
    alloc: Global,
    records: &[&SiteState],
    documents: &[PackDocument],
    site: SiteNo,
    plan: &mut Vec<PlannedBatch>,
) -> Result<(), AllocError>
    ensures { OnOk result (outlines plan.new.items
        ≡ outlines plan.old.items ++ outlined site Capture (texts_at site documents.now)) }
{
    let inputs = capture_inputs(alloc, records, documents, site)?;
    note_batch(site, Task::Capture, inputs, plan)
}

/// The documents that a site captures.
fn capture_inputs(
    alloc: Global,
    records: &[&SiteState],
    documents: &[PackDocument],
    site: SiteNo,
) -> Result<Vec<PlannedInput>, AllocError>
    ensures { IfOk result (λ inputs. texts_of inputs.items ≡ texts_at site documents.now) }
{
    let mut inputs = Vec::new(alloc);
    for document in documents {
        push_capture(alloc, records, document, site, &mut inputs)?;
    }
    Ok(inputs)
}

/// Adds a document, if the site captures it.
fn push_capture(
    alloc: Global,
    records: &[&SiteState],
    document: &PackDocument,
    site: SiteNo,
    inputs: &mut Vec<PlannedInput>,
) -> Result<(), AllocError>
    ensures { OnOk result (texts_of inputs.new.items
        ≡ texts_of inputs.old.items ++ text_at site document.now) }
{
    if document.pack.site != site {
        return Ok(());
    }
    match &document.document {
        Some(text) => {
            inputs.push(PlannedInput {
                name: pack_name(alloc, records, &document.pack)?,
                text: String::from_str(alloc, text.as_str())?,
            })?;
            Ok(())
        }
        None => Ok(()),
    }
}

/// The name of a packing: who captures it, from whom, and the container.
fn pack_name(alloc: Global, records: &[&SiteState], pack: &GapPack) -> Result<String, AllocError> {
    let site = site_name(records, pack.site);
    let by = site_name(records, pack.by);
    let container = pack.container.key(alloc)?;
    format!(in alloc; "{site} from {by} {container}")
}

/// The name of a site.
fn site_name<'a>(records: &[&'a SiteState], site: SiteNo) -> &'a str {
    match record_of(records, site) {
        Some(state) => name_of(state.sites(), site),
        None => "",
    }
}
