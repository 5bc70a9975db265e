//! What is found, in lines of JSON.

ghost use Rattle.std.specs.Prelude.{◌≡◌, ◌++◌, false, IfOk, OnOk, string_bytes};
ghost use Rattle.serde_json.specs.Data.{object};
ghost use Rattle.serde_json.specs.View.{view};
ghost use Rattle.serde_json.specs.Written.{has_float};
ghost use Rattle.document_lint.specs.Lines.{fault_members, field_members, finding_json, finding_line, json_line, lint_json, near_members, other_members, outside_members, skipped_members, spelling_members, unnamed_members};

use crate::findings::{Finding, Lint, What};
use serde_json::{Value, json};
use std::alloc::{AllocError, Global};

impl Lint {
    /// An object for each finding, in a line of its own, with the document's source in it, which is its file's path.
    ///
    /// # Errors
    /// Where memory runs out.
    pub fn json(&self, alloc: Global, source: &str) -> Result<String, AllocError>
        ensures { IfOk result (λ t. string_bytes t ≡ lint_json source.now self.now) }
    {
        let mut text = String::new(alloc);
        for finding in self.findings.as_slice() {
            push_finding(alloc, &mut text, source, finding)?;
        }
        Ok(text)
    }
}

/// Adds the line of a finding.
#[tactic(auto, using(crate::proofs::FloatFree::finding_free))]
fn push_finding(
    alloc: Global,
    text: &mut String,
    source: &str,
    finding: &Finding,
) -> Result<(), AllocError>
    ensures { OnOk result (string_bytes text.new
        ≡ string_bytes text.old ++ finding_line source.now finding.now) }
{
    let value = finding_json(alloc, source, finding)?;
    let line = json_line(alloc, &value)?;
    text.push_str(line.as_str())
}

/// A value in a line of its own.
pub(crate) fn json_line(alloc: Global, value: &Value) -> Result<String, AllocError>
    requires { has_float (view value.now) ≡ false }
    ensures { IfOk result (λ t. string_bytes t ≡ json_line (view value.now)) }
{
    let mut text = value.to_string(alloc)?;
    text.push('\n')?;
    Ok(text)
}

/// The value of a finding.
fn finding_json(alloc: Global, source: &str, finding: &Finding) -> Result<Value, AllocError>
    ensures { IfOk result (λ v. view v ≡ finding_json source.now finding.now) }
{
    let event = finding.event;
    match &finding.what {
        What::Fault { field, kind } => fault_json(alloc, event, kind.name(), field.name(), source),
        What::Skipped(skipped) => skipped_json(alloc, event, source, skipped.name()),
        What::ShipsNowhere => field_json(alloc, event, "destinationList", source, "ShipsNowhere"),
        What::Outside(place) => outside_json(alloc, place.as_str(), event, source),
        What::OtherSpelling { site, address } => {
            spelling_json(alloc, address.as_str(), event, source, site.as_str())
        }
        What::NotShipped => field_json(alloc, event, "destinationList", source, "NotShipped"),
        What::NothingPacked => field_json(alloc, event, "childEPCs", source, "NothingPacked"),
        What::NoEventId => unnamed_json(alloc, event, source),
        What::NearMiss { field, text } => {
            near_json(alloc, event, field.name(), source, text.as_str())
        }
        What::OtherPlace { member, address } => {
            other_json(alloc, address.as_str(), event, member.name(), source)
        }
    }
}

fn fault_json(
    alloc: Global,
    event: u64,
    kind: &str,
    field: &str,
    source: &str,
) -> Result<Value, AllocError>
    ensures { IfOk result (λ v. view v
        ≡ object (fault_members source.now event field.now kind.now)) }
{
    json!(in alloc; {"event": event, "fault": kind, "field": field, "file": source})
}

fn skipped_json(alloc: Global, event: u64, source: &str, skipped: &str) -> Result<Value, AllocError>
    ensures { IfOk result (λ v. view v ≡ object (skipped_members source.now event skipped.now)) }
{
    json!(in alloc; {"event": event, "file": source, "type": skipped, "warning": "Skipped"})
}

fn field_json(
    alloc: Global,
    event: u64,
    field: &str,
    source: &str,
    warning: &str,
) -> Result<Value, AllocError>
    ensures { IfOk result (λ v. view v
        ≡ object (field_members source.now event field.now warning.now)) }
{
    json!(in alloc; {"event": event, "field": field, "file": source, "warning": warning})
}

fn outside_json(alloc: Global, place: &str, event: u64, source: &str) -> Result<Value, AllocError>
    ensures { IfOk result (λ v. view v ≡ object (outside_members source.now event place.now)) }
{
    json!(in alloc; {"address": place, "event": event, "field": "destinationList", "file": source, "warning": "Outside"})
}

fn spelling_json(
    alloc: Global,
    address: &str,
    event: u64,
    source: &str,
    site: &str,
) -> Result<Value, AllocError>
    ensures { IfOk result (λ v. view v
        ≡ object (spelling_members source.now event address.now site.now)) }
{
    json!(in alloc; {"address": address, "event": event, "field": "destinationList", "file": source, "site": site, "warning": "OtherSpelling"})
}

fn unnamed_json(alloc: Global, event: u64, source: &str) -> Result<Value, AllocError>
    ensures { IfOk result (λ v. view v ≡ object (unnamed_members source.now event)) }
{
    json!(in alloc; {"event": event, "file": source, "warning": "NoEventID"})
}

fn near_json(
    alloc: Global,
    event: u64,
    field: &str,
    source: &str,
    text: &str,
) -> Result<Value, AllocError>
    ensures { IfOk result (λ v. view v
        ≡ object (near_members source.now event field.now text.now)) }
{
    json!(in alloc; {"event": event, "field": field, "file": source, "text": text, "warning": "NearMiss"})
}

fn other_json(
    alloc: Global,
    address: &str,
    event: u64,
    member: &str,
    source: &str,
) -> Result<Value, AllocError>
    ensures { IfOk result (λ v. view v
        ≡ object (other_members source.now event member.now address.now)) }
{
    json!(in alloc; {"address": address, "event": event, "field": member, "file": source, "warning": "OtherPlace"})
}
