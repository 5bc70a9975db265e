//! `start --dry-run`: what the start of a recall would do at its site.

ghost use Rattle.std.specs.Prelude.{◌≡◌, ◌≢◌, IfOk};
ghost use Rattle.recall_outcomes.specs.declared.outcomes.CommandRefusal.TheVariants.{Step};
ghost use Rattle.site_core.specs.declared.inputs.SiteInput.TheVariants.{Start};
ghost use Rattle.site_folders.specs.Refusals.{IsRefusal};
ghost use Rattle.site_recovery.specs.Checking.{records_at};
ghost use Rattle.site_recovery.specs.FittingAt.{AreAllSites};
ghost use Rattle.folder_questions.specs.DryStarts.{AnswersDryStart, AnswersStep, TellsStart, effects_of};

use crate::asked::{item_at, record_of, unknown};
use crate::beside::notes_from;
use epc_core::Epc;
use event_json::{SiteNo, Sites};
use item_spellings::Spelled;
use recall_outcomes::{CommandRefusal, Notes, Outcome};
use site_core::{Effects, Refusal, SiteInput, SiteState, Stepped, step};
use site_folders::{Question, refusal};
use std::alloc::{AllocError, Global};
use trace_core::Pair;

/// How many items of the site of a name the start of a recall would quarantine there, and how many messages it would
/// have for other sites; and beside that, what the recall would miss at all sites, and how many items lie in the one
/// that would be recalled. The step is made on a copy of the record.
#[derive(Drop)]
pub struct DryStart<'a> {
    pub site: &'a str,
    pub item: Spelled<'a>,
}

impl Question for DryStart<'_> {
    ghost use Rattle.folder_questions.specs.Asked.{AsksItem, RefusesItem};
    ghost use Rattle.folder_questions.specs.DryStarts.{AnswersDryStart};
    ghost use Rattle.recall_outcomes.specs.declared.notes.Notes.TheVariants.{Nothing};

    type Asked = (SiteNo, Epc);

    type Answer = (Outcome, Notes);

    ghost refuses = { λ q sites told. RefusesItem q.site.now q.item sites told.0 × (told.1 ≡ Nothing) };

    ghost asks = { λ q sites asked. AsksItem q.site.now q.item sites asked.0 asked.1 };

    // What the start of a recall of the item would do at the site; and noted beside it how the records contradict
    // each other, or, where they don't, just those pairs that the item reaches that are missed, in which containers
    // these went, what that leaves untold and which recall holds it, and how many items lie in the item.
    ghost answers = { λ q asked rs told. AnswersDryStart rs asked.0 asked.1 told.0 told.1 };

    fn read(
        &self,
        alloc: Global,
        sites: &Sites,
    ) -> Result<Result<(SiteNo, Epc), (Outcome, Notes)>, AllocError> {
        match item_at(alloc, sites, self.site, &self.item)? {
            Ok(asked) => Ok(Ok(asked)),
            Err(refused) => Ok(Err((refused, Notes::Nothing))),
        }
    }

    fn answer(
        &self,
        alloc: Global,
        asked: (SiteNo, Epc),
        records: &[&SiteState],
    ) -> Result<(Outcome, Notes), AllocError> {
        let (site, item) = asked;
        dry_start(alloc, records, site, item)
    }
}

/// What the start of a recall of an item at a site would do, and what it would miss.
fn dry_start(
    alloc: Global,
    records: &[&SiteState],
    site: SiteNo,
    item: Epc,
) -> Result<(Outcome, Notes), AllocError>
    requires all { AreAllSites (records_at records.now) }
    ensures { IfOk result (λ told.
        AnswersDryStart (records_at records.now) site item told.0 told.1) }
{
    let root = Pair {
        site,
        item: item.copy(alloc)?,
    };
    let notes = notes_from(alloc, records, &root)?;
    let Some(state) = record_of(records, site) else {
        return Ok((unknown(alloc)?, notes));
    };
    Ok((would_start(alloc, state, item)?, notes))
}

/// What the start of a recall would do.
fn would_start(alloc: Global, state: &SiteState, item: Epc) -> Result<Outcome, AllocError>
    ensures answered { IfOk result (AnswersStep state.now (Start item)) }
{
    match step(alloc, state, &SiteInput::Start(item)) {
        Ok(stepped) => would_of(&stepped),
        Err(why) => refused(alloc, why),
    }
}

/// Why a start would be refused, for which memory alone is no reason.
fn refused(alloc: Global, why: Refusal) -> Result<Outcome, AllocError>
    ensures answered { IfOk result (λ outcome. (why ≢ Refusal.NoMemory)
        × IsRefusal (Step why) outcome) }
{
    match &why {
        Refusal::NoMemory => Err(AllocError),
        _ => refusal(alloc, CommandRefusal::Step(why)),
    }
}

/// What is told of a step.
fn would_of(stepped: &Stepped) -> Result<Outcome, AllocError>
    ensures answered { IfOk result (TellsStart (effects_of stepped.now)) }
{
    match stepped {
        Stepped::Same(effects) => would(effects),
        Stepped::Next(_, effects) => would(effects),
    }
}

/// What is told of the effects of a start.
fn would(effects: &Effects) -> Result<Outcome, AllocError>
    ensures answered { IfOk result (TellsStart effects.now) }
{
    match effects {
        Effects::Started {
            quarantined,
            numbered,
            ..
        } => Ok(Outcome::WouldStart {
            quarantined: *quarantined,
            messages: *numbered,
        }),
        // A start has no other effects.
        _ => Err(AllocError),
    }
}
