//! The gaps of what sites captured, as a JSON value.

ghost use Rattle.std.specs.Prelude.{◌≡◌, IfOk, map};
ghost use Rattle.serde_json.specs.View.{view};
ghost use Rattle.outcome_forms.specs.Json.{gap_line_json, gaps_json, packed_json, unlinked_json, unlinked_of, unseen_json, used_json};

use crate::step_json::text_or_null;
use crate::values::{ToJson, array, values};
use event_json::Sites;
use gap_core::{GapLine, UnseenItem};
use recall_outcomes::{FoundGaps, PackedGap};
use recall_text::telling::name_of;
use serde_json::{Value, json};
use std::alloc::{AllocError, Global};

/// All gaps.
#[tactic(auto, unfolding(crate::specs::Json::gaps_json))]
pub(crate) fn gaps_json(alloc: Global, sites: &Sites, gaps: &FoundGaps) -> Result<Value, AllocError>
    ensures { IfOk result (λ v. view v ≡ gaps_json sites.now gaps.now) }
{
    let lots = array(values(alloc, sites, gaps.lots.as_slice())?);
    let packed = array(values(alloc, sites, gaps.packed.as_slice())?);
    let unlinked = unlinked_json(alloc, sites, gaps)?;
    let unseen = array(values(alloc, sites, gaps.unseen.as_slice())?);
    let used = array(used_values(alloc, sites, gaps.used.as_slice())?);
    json!(in alloc; {
        "items": gaps.items,
        "lots": lots,
        "packed": packed,
        "unlinked": unlinked,
        "unseen": unseen,
        "used": used
    })
}

/// The containers that never came from where they were packed, or null where they aren't told.
fn unlinked_json(alloc: Global, sites: &Sites, gaps: &FoundGaps) -> Result<Value, AllocError>
    ensures { IfOk result (λ v. view v ≡ unlinked_json sites.now (unlinked_of gaps.now)) }
{
    match &gaps.unlinked {
        None => Ok(Value::Null),
        Some(lines) => Ok(array(values(alloc, sites, lines.as_slice())?)),
    }
}

impl ToJson for GapLine {
    ghost use Rattle.outcome_forms.specs.Json.{gap_line_json};

    ghost value = { gap_line_json };

    fn json(&self, alloc: Global, sites: &Sites) -> Result<Value, AllocError> {
        gap_line_json(alloc, sites, self)
    }
}

impl ToJson for PackedGap {
    ghost use Rattle.outcome_forms.specs.Json.{packed_json};

    ghost value = { packed_json };

    fn json(&self, alloc: Global, sites: &Sites) -> Result<Value, AllocError> {
        packed_json(alloc, sites, self)
    }
}

impl ToJson for UnseenItem {
    ghost use Rattle.outcome_forms.specs.Json.{unseen_json};

    ghost value = { unseen_json };

    fn json(&self, alloc: Global, sites: &Sites) -> Result<Value, AllocError> {
        unseen_json(alloc, sites, self)
    }
}

/// A container that a site shipped on and another one packed.
fn gap_line_json(alloc: Global, sites: &Sites, line: &GapLine) -> Result<Value, AllocError>
    ensures { IfOk result (λ v. view v ≡ gap_line_json sites.now line.now) }
{
    let by = name_of(sites, line.by);
    let item = line.container.key(alloc)?;
    let site = name_of(sites, line.site);
    json!(in alloc; {"by": by, "item": item.as_str(), "items": line.items, "site": site})
}

/// Such a container, and when it was packed and shipped.
fn packed_json(alloc: Global, sites: &Sites, gap: &PackedGap) -> Result<Value, AllocError>
    ensures { IfOk result (λ v. view v ≡ packed_json sites.now gap.now) }
{
    let by = name_of(sites, gap.line.by);
    let item = gap.line.container.key(alloc)?;
    let packed = text_or_null(alloc, gap.packed_at.as_ref())?;
    let shipped = text_or_null(alloc, gap.shipped_at.as_ref())?;
    let site = name_of(sites, gap.line.site);
    json!(in alloc; {
        "by": by,
        "item": item.as_str(),
        "items": gap.line.items,
        "packed_at": packed,
        "shipped_at": shipped,
        "site": site
    })
}

/// An item of which no event of the site tells that it was shipped to.
fn unseen_json(alloc: Global, sites: &Sites, unseen: &UnseenItem) -> Result<Value, AllocError>
    ensures { IfOk result (λ v. view v ≡ unseen_json sites.now unseen.now) }
{
    let from = name_of(sites, unseen.from);
    let item = unseen.item.key(alloc)?;
    let site = name_of(sites, unseen.site);
    json!(in alloc; {"from": from, "item": item.as_str(), "site": site})
}

/// Containers that went into transformations without what lies in them.
fn used_values(alloc: Global, sites: &Sites, lines: &[GapLine]) -> Result<Vec<Value>, AllocError>
    ensures { IfOk result (λ vs. map view vs.items ≡ map (used_json sites.now) lines.now) }
{
    let mut values = Vec::new(alloc);
    for line in lines {
        values.push(used_json(alloc, sites, line)?)?;
    }
    Ok(values)
}

fn used_json(alloc: Global, sites: &Sites, line: &GapLine) -> Result<Value, AllocError>
    ensures { IfOk result (λ v. view v ≡ used_json sites.now line.now) }
{
    let item = line.container.key(alloc)?;
    let site = name_of(sites, line.site);
    json!(in alloc; {"item": item.as_str(), "items": line.items, "site": site})
}
