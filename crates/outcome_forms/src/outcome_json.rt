//! What a command came to, as JSON values.

ghost use Rattle.std.specs.Prelude.{◌≡◌, IfOk, map};
ghost use Rattle.serde_json.specs.Data.{no_members, object, string};
ghost use Rattle.serde_json.specs.View.{view};
ghost use Rattle.outcome_forms.specs.Json.{audited_json, blocked_members, captured_members, created_json, differs_json, doc_members, effects_json, input_json, line_members, misfit_json, refused, source_name, started_members, step_members, totals_json, why_json, withheld_json};

use crate::values::{ToJson, array};
use epc_core::Epc;
use event_json::{DocFault, SiteNo, Sites};
use frame_core::RecallId;
use recall_outcomes::{AuditedRecall, CommandRefusal, InputOutcome, StartedRecall, Task, Totals};
use recall_text::telling::{name_of, recall_text};
use recall_text::texts::message_text;
use recall_text::{LineRefusal, RefusedLine};
use report_core::Verdict;
use serde_json::{Value, json};
use site_core::{Effects, Refusal};
use site_recovery::Misfit;
use std::alloc::{AllocError, Global};
use trace_core::Pair;

/// What a step did.
pub(crate) fn effects_json(
    alloc: Global,
    sites: &Sites,
    effects: &Effects,
) -> Result<Value, AllocError>
    ensures { IfOk result (λ v. view v ≡ effects_json sites.now effects.now) }
{
    match effects {
        Effects::Captured {
            fresh,
            known,
            skipped,
        } => captured_json(alloc, *fresh, *known, *skipped),
        Effects::Started {
            recall,
            quarantined,
            numbered,
            ended,
        } => started_json(alloc, sites, *recall, *quarantined, *numbered, *ended),
        Effects::Received {
            quarantined,
            numbered,
            owed,
        } => json!(in alloc; {"messages": *numbered, "new": *quarantined, "owed": *owed}),
        Effects::Repeat => json!(in alloc; {"effect": "repeat"}),
        Effects::Stale => json!(in alloc; {"effect": "stale"}),
        Effects::Cleared => json!(in alloc; {"effect": "cleared"}),
        Effects::ParentDue(parent) => {
            let parent = message_text(alloc, sites, *parent)?;
            json!(in alloc; {"due": parent.as_str(), "effect": "due"})
        }
        Effects::Ended(recall) => {
            let recall = recall_text(alloc, sites, *recall)?;
            json!(in alloc; {"effect": "ended", "recall": recall.as_str()})
        }
    }
}

/// What a capture did.
fn captured_json(alloc: Global, fresh: u64, known: u64, skipped: u64) -> Result<Value, AllocError>
    ensures { IfOk result (λ v. view v ≡ object (captured_members fresh known skipped)) }
{
    json!(in alloc; {"captured": fresh, "known": known, "skipped": skipped})
}

/// What a start did.
fn started_json(
    alloc: Global,
    sites: &Sites,
    recall: RecallId,
    quarantined: u64,
    messages: u64,
    ended: bool,
) -> Result<Value, AllocError>
    ensures { IfOk result (λ v. view v
        ≡ object (started_members sites.now recall quarantined messages ended)) }
{
    let recall = recall_text(alloc, sites, recall)?;
    json!(in alloc; {"ended": ended, "messages": messages, "new": quarantined, "recall": recall.as_str()})
}

impl ToJson for StartedRecall {
    ghost use Rattle.outcome_forms.specs.Json.{ran_json};

    ghost value = { ran_json };

    fn json(&self, alloc: Global, sites: &Sites) -> Result<Value, AllocError> {
        let recall = recall_text(alloc, sites, self.recall)?;
        json!(in alloc; {"ended": self.ended, "recall": recall.as_str()})
    }
}

impl ToJson for CommandRefusal {
    ghost use Rattle.outcome_forms.specs.Json.{why_json};

    ghost value = { why_json };

    fn json(&self, alloc: Global, sites: &Sites) -> Result<Value, AllocError> {
        why_json(alloc, sites, self)
    }
}

/// Why a command was refused.
pub(crate) fn why_json(
    alloc: Global,
    sites: &Sites,
    why: &CommandRefusal,
) -> Result<Value, AllocError>
    ensures { IfOk result (λ v. view v ≡ why_json sites.now why.now) }
{
    match why {
        CommandRefusal::Line(refused) => line_json(alloc, refused),
        CommandRefusal::NoWorld => refused(alloc, "NoWorld"),
        CommandRefusal::Exists(name) => {
            json!(in alloc; {"name": name.as_str(), "refused": "Exists"})
        }
        CommandRefusal::NoSite(name) => {
            json!(in alloc; {"refused": "NoSite", "site": name.as_str()})
        }
        CommandRefusal::BadEpc => refused(alloc, "BadEpc"),
        CommandRefusal::BadKey => refused(alloc, "BadKey"),
        CommandRefusal::BadScan(fault) => {
            json!(in alloc; {"kind": fault.name(), "refused": "BadScan"})
        }
        CommandRefusal::BadRecall => refused(alloc, "BadLine"),
        CommandRefusal::UnknownRecall => refused(alloc, "UnknownRecall"),
        CommandRefusal::Step(why) => step_json(alloc, sites, why),
    }
}

/// A refusal of this name.
fn refused(alloc: Global, name: &str) -> Result<Value, AllocError>
    ensures { IfOk result (λ v. view v ≡ object (refused name.now no_members)) }
{
    json!(in alloc; {"refused": name})
}

/// A line of a list of sites that is refused.
fn line_json(alloc: Global, refused: &RefusedLine) -> Result<Value, AllocError>
    ensures { IfOk result (λ v. view v ≡ object (line_members refused.now.line refused.now.why)) }
{
    match refused.why {
        LineRefusal::BadLine => { json!(in alloc; {"line": refused.line, "refused": "BadLine"}) }
        LineRefusal::BadSite(why) => {
            json!(in alloc; {"kind": why.name(), "line": refused.line, "refused": "BadSite"})
        }
    }
}

/// Why a step was refused.
pub(crate) fn step_json(alloc: Global, sites: &Sites, why: &Refusal) -> Result<Value, AllocError>
    ensures { IfOk result (λ v. view v ≡ object (step_members sites.now why.now)) }
{
    match why {
        Refusal::Blocked {
            recall,
            item,
            event,
        } => blocked_json(alloc, sites, *recall, item, *event),
        Refusal::IdTaken { event } => json!(in alloc; {"event": *event, "refused": "IdTaken"}),
        Refusal::UnknownItem => refused(alloc, "UnknownItem"),
        Refusal::NotMine => refused(alloc, "NotMine"),
        Refusal::NumbersSpent => refused(alloc, "NumbersSpent"),
        Refusal::Doc(fault) => doc_json(alloc, fault),
        Refusal::NoMemory => refused(alloc, "NoMemory"),
    }
}

/// An event that would lead out of a quarantine.
fn blocked_json(
    alloc: Global,
    sites: &Sites,
    recall: RecallId,
    item: &Epc,
    event: u64,
) -> Result<Value, AllocError>
    ensures { IfOk result (λ v. view v ≡ object (blocked_members sites.now recall item.now event)) }
{
    let recall = recall_text(alloc, sites, recall)?;
    let item = item.key(alloc)?;
    json!(in alloc; {"event": event, "item": item.as_str(), "recall": recall.as_str(), "refused": "Blocked"})
}

/// What is wrong with a document.
fn doc_json(alloc: Global, fault: &DocFault) -> Result<Value, AllocError>
    ensures { IfOk result (λ v. view v ≡ object (doc_members fault.now)) }
{
    json!(in alloc; {"event": fault.event, "field": fault.field.name(), "kind": fault.kind.name(), "refused": "Doc"})
}

/// The sites whose files were made.
pub(crate) fn created_json(alloc: Global, sites: &Sites) -> Result<Value, AllocError>
    ensures { IfOk result (λ v. view v ≡ created_json sites.now) }
{
    let names = array(names_json(alloc, sites)?);
    json!(in alloc; {"created": names})
}

/// That sites didn't run.
pub(crate) fn withheld_json(alloc: Global) -> Result<Value, AllocError>
    ensures { IfOk result (λ v. view v ≡ withheld_json) }
{
    json!(in alloc; {"withheld": true})
}

/// The names of the sites, in order.
fn names_json(alloc: Global, sites: &Sites) -> Result<Vec<Value>, AllocError>
    ensures { IfOk result (λ v. map view v.items ≡ map (λ s. string s.name) sites.now) }
{
    let mut list = Vec::new(alloc);
    for number in 0..sites.len() {
        let Some(site) = SiteNo::of(number) else {
            unreachable!()
        };
        list.push(Value::try_from_str(alloc, name_of(sites, site))?)?;
    }
    Ok(list)
}

/// What an input of several came to, with its source.
pub(crate) fn input_json(
    alloc: Global,
    task: Task,
    sites: &Sites,
    source: &str,
    came: &InputOutcome,
) -> Result<Value, AllocError>
    ensures { IfOk result (λ v. view v ≡ input_json task sites.now source.now came.now) }
{
    let mut value = match came {
        InputOutcome::Captured {
            fresh,
            known,
            skipped,
        } => captured_json(alloc, *fresh, *known, *skipped)?,
        InputOutcome::Started {
            recall,
            quarantined,
            messages,
            ended,
        } => started_json(alloc, sites, *recall, *quarantined, *messages, *ended)?,
        InputOutcome::Refused(why) => why_json(alloc, sites, why)?,
    };
    let Some(members) = value.as_object_mut() else {
        unreachable!()
    };
    let source = Value::try_from_str(alloc, source)?;
    serde_json::put(members, alloc, source_name(task), source)?;
    Ok(value)
}

/// The name of the member that tells where an input comes from.
fn source_name(task: Task) -> &'static str
    ensures { result.now ≡ source_name task }
{
    match task {
        Task::Capture => "file",
        Task::Start => "source",
    }
}

/// What all inputs came to.
pub(crate) fn totals_json(alloc: Global, totals: Totals) -> Result<Value, AllocError>
    ensures { IfOk result (λ v. view v ≡ totals_json totals) }
{
    match totals.task {
        Task::Capture => json!(in alloc; {
            "captured": totals.captured,
            "documents": totals.inputs,
            "known": totals.known,
            "refused": totals.refused,
            "skipped": totals.skipped
        }),
        Task::Start => json!(in alloc; {
            "items": totals.inputs,
            "refused": totals.refused,
            "started": totals.started
        }),
    }
}

/// Which condition fails, and the site that it is attributed to.
pub(crate) fn misfit_json(alloc: Global, sites: &Sites, misfit: Misfit) -> Result<Value, AllocError>
    ensures { IfOk result (λ v. view v ≡ misfit_json sites.now misfit) }
{
    json!(in alloc; {"misfit": misfit.condition, "site": name_of(sites, misfit.site)})
}

impl ToJson for AuditedRecall {
    ghost use Rattle.outcome_forms.specs.Json.{audited_json};

    ghost value = { audited_json };

    fn json(&self, alloc: Global, sites: &Sites) -> Result<Value, AllocError> {
        audited_json(alloc, sites, self)
    }
}

/// A recall that was audited.
fn audited_json(alloc: Global, sites: &Sites, audited: &AuditedRecall) -> Result<Value, AllocError>
    ensures { IfOk result (λ v. view v ≡ audited_json sites.now audited.now) }
{
    let recall = recall_text(alloc, sites, audited.recall)?;
    match &audited.verdict {
        None => json!(in alloc; {"audit": "open", "recall": recall.as_str()}),
        Some(Verdict::Equal(count)) => {
            json!(in alloc; {"audit": "equal", "pairs": *count, "recall": recall.as_str()})
        }
        Some(Verdict::Differs { pair, missing }) => {
            differs_json(alloc, sites, recall.as_str(), pair, *missing)
        }
    }
}

/// A recall whose quarantine differs at a pair.
fn differs_json(
    alloc: Global,
    sites: &Sites,
    recall: &str,
    pair: &Pair,
    missing: bool,
) -> Result<Value, AllocError>
    ensures { IfOk result (λ v. view v ≡ differs_json sites.now recall.now pair.now missing) }
{
    let site = name_of(sites, pair.site);
    let item = pair.item.key(alloc)?;
    json!(in alloc; {"audit": "differs", "item": item.as_str(), "missing": missing, "recall": recall, "site": site})
}
