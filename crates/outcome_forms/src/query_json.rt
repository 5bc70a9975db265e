//! How recalls stand, what they wait for, items that a site knows, and a start that isn't made, as JSON values.

ghost use Rattle.std.specs.Prelude.{◌≡◌, IfOk, map};
ghost use Rattle.serde_json.specs.View.{view};
ghost use Rattle.outcome_forms.specs.Json.{covered_json, detail_json, engaged_json, known_json, root_json, standing_json, status_json, waiting_json, would_json};

use crate::step_json::text_or_null;
use crate::values::{ToJson, array, values};
use event_json::{SiteNo, Sites};
use frame_core::MsgId;
use query_core::{KnownItem, RecallDetail, RecallStatus, SiteStanding, WaitingMessage};
use recall_outcomes::SiteCoverage;
use recall_text::telling::{name_of, recall_text};
use recall_text::texts::message_text;
use serde_json::{Value, json};
use std::alloc::{AllocError, Global};

impl ToJson for RecallStatus {
    ghost use Rattle.outcome_forms.specs.Json.{status_json};

    ghost value = { status_json };

    fn json(&self, alloc: Global, sites: &Sites) -> Result<Value, AllocError> {
        status_json(alloc, sites, self)
    }
}

impl ToJson for SiteCoverage {
    ghost use Rattle.outcome_forms.specs.Json.{covered_json};

    ghost value = { covered_json };

    fn json(&self, alloc: Global, sites: &Sites) -> Result<Value, AllocError> {
        covered_json(alloc, sites, self)
    }
}

impl ToJson for WaitingMessage {
    ghost use Rattle.outcome_forms.specs.Json.{waiting_json};

    ghost value = { waiting_json };

    fn json(&self, alloc: Global, sites: &Sites) -> Result<Value, AllocError> {
        waiting_json(alloc, sites, self)
    }
}

impl ToJson for SiteStanding {
    ghost use Rattle.outcome_forms.specs.Json.{standing_json};

    ghost value = { standing_json };

    fn json(&self, alloc: Global, sites: &Sites) -> Result<Value, AllocError> {
        standing_json(alloc, sites, self)
    }
}

/// How a recall stands.
#[tactic(auto, unfolding(crate::specs::Json::status_json))]
fn status_json(alloc: Global, sites: &Sites, status: &RecallStatus) -> Result<Value, AllocError>
    ensures { IfOk result (λ v. view v ≡ status_json sites.now status.now) }
{
    let recall = recall_text(alloc, sites, status.recall)?;
    let root = root_json(alloc, sites, status)?;
    json!(in alloc; {
        "ended": status.ended,
        "quarantined": status.quarantined,
        "recall": recall.as_str(),
        "root": root,
        "waiting": status.waiting
    })
}

/// The recalled item, at the site that began the recall.
fn root_json(alloc: Global, sites: &Sites, status: &RecallStatus) -> Result<Value, AllocError>
    ensures { IfOk result (λ v. view v ≡ root_json sites.now status.now) }
{
    let site = name_of(sites, status.recall.site);
    let item = status.root.key(alloc)?;
    json!(in alloc; {"item": item.as_str(), "site": site})
}

/// How a recall stands, with its sites and the messages that wait.
#[tactic(auto, unfolding(crate::specs::Json::detail_json))]
pub(crate) fn detail_json(
    alloc: Global,
    sites: &Sites,
    detail: &RecallDetail,
) -> Result<Value, AllocError>
    ensures { IfOk result (λ v. view v ≡ detail_json sites.now detail.now) }
{
    let messages = array(values(alloc, sites, detail.waiting.as_slice())?);
    let standings = array(values(alloc, sites, detail.sites.as_slice())?);
    let recall = recall_text(alloc, sites, detail.status.recall)?;
    let root = root_json(alloc, sites, &detail.status)?;
    json!(in alloc; {
        "ended": detail.status.ended,
        "messages": messages,
        "quarantined": detail.status.quarantined,
        "recall": recall.as_str(),
        "root": root,
        "sites": standings,
        "waiting": detail.status.waiting
    })
}

/// A message that waits.
fn waiting_json(alloc: Global, sites: &Sites, waiting: &WaitingMessage) -> Result<Value, AllocError>
    ensures { IfOk result (λ v. view v ≡ waiting_json sites.now waiting.now) }
{
    let item = waiting.item.key(alloc)?;
    let message = message_text(alloc, sites, waiting.message)?;
    let to = name_of(sites, waiting.to);
    json!(in alloc; {"item": item.as_str(), "message": message.as_str(), "to": to, "told": waiting.told})
}

/// What a recall is to a site.
fn standing_json(alloc: Global, sites: &Sites, standing: &SiteStanding) -> Result<Value, AllocError>
    ensures { IfOk result (λ v. view v ≡ standing_json sites.now standing.now) }
{
    let engaged = engaged_json(alloc, sites, standing.engaged_by)?;
    let site = name_of(sites, standing.site);
    json!(in alloc; {
        "engaged_by": engaged,
        "quarantined": standing.quarantined,
        "site": site,
        "waiting": standing.waiting
    })
}

/// The message by which a site is engaged, or null.
fn engaged_json(alloc: Global, sites: &Sites, parent: Option<MsgId>) -> Result<Value, AllocError>
    ensures { IfOk result (λ v. view v ≡ engaged_json sites.now parent) }
{
    match parent {
        None => Ok(Value::Null),
        Some(message) => {
            let text = message_text(alloc, sites, message)?;
            Value::try_from_str(alloc, text.as_str())
        }
    }
}

/// What a site captured, and from when to when.
fn covered_json(alloc: Global, sites: &Sites, coverage: &SiteCoverage) -> Result<Value, AllocError>
    ensures { IfOk result (λ v. view v ≡ covered_json sites.now coverage.now) }
{
    let first = text_or_null(alloc, coverage.first.as_ref())?;
    let last = text_or_null(alloc, coverage.last.as_ref())?;
    let site = name_of(sites, coverage.site);
    json!(in alloc; {
        "events": coverage.events,
        "first": first,
        "items": coverage.items,
        "last": last,
        "site": site
    })
}

/// Items that a site knows.
pub(crate) fn known_values(
    alloc: Global,
    sites: &Sites,
    site: SiteNo,
    items: &[KnownItem],
) -> Result<Vec<Value>, AllocError>
    ensures { IfOk result (λ vs. map view vs.items ≡ map (known_json sites.now site) items.now) }
{
    let mut values = Vec::new(alloc);
    for item in items {
        values.push(known_json(alloc, sites, site, item)?)?;
    }
    Ok(values)
}

/// An item that a site knows.
fn known_json(
    alloc: Global,
    sites: &Sites,
    site: SiteNo,
    known: &KnownItem,
) -> Result<Value, AllocError>
    ensures { IfOk result (λ v. view v ≡ known_json sites.now site known.now) }
{
    let item = known.item.key(alloc)?;
    let site = name_of(sites, site);
    json!(in alloc; {"events": known.events, "item": item.as_str(), "site": site})
}

/// What the site where a recall would begin would quarantine and send at once.
pub(crate) fn would_json(
    alloc: Global,
    quarantined: u64,
    messages: u64,
) -> Result<Value, AllocError>
    ensures { IfOk result (λ v. view v ≡ would_json quarantined messages) }
{
    json!(in alloc; {"messages": messages, "new": quarantined, "would": "recall"})
}
