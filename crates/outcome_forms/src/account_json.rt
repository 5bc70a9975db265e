//! A report or a trace as JSON: its parts as values, and the text around them.

ghost use Rattle.std.specs.Prelude.{◌≡◌, false, IfOk, string_bytes};
ghost use Rattle.serde_json.specs.Data.{boolean, object};
ghost use Rattle.serde_json.specs.View.{view};
ghost use Rattle.serde_json.specs.Written.{compact_text, has_float};
ghost use Rattle.report_forms.specs.Accounts.{part_of, way_beside, way_pairs};
ghost use Rattle.outcome_forms.specs.AccountTexts.{account_head, account_tail, back_head, forward_head, report_head, report_tail, trace_tail};
ghost use Rattle.outcome_forms.specs.Json.{before, behind, beside_json, list_of, part_json, shown_members, shown_way, trail_json, whole};

use crate::outside_json::outside_text;
use crate::step_json::put_events;
use crate::values::{ToJson, array, values};
use event_json::Sites;
use frame_core::RecallId;
use recall_outcomes::Ways;
use recall_text::telling::{name_of, recall_text};
use report_forms::{Account, Part, Title, Way};
use serde_json::{Value, json};
use std::alloc::{AllocError, Global};
use trace_core::Pair;

impl ToJson for Pair {
    ghost use Rattle.outcome_forms.specs.Json.{pair_json};

    ghost value = { pair_json };

    fn json(&self, alloc: Global, sites: &Sites) -> Result<Value, AllocError> {
        let site = name_of(sites, self.site);
        let item = self.item.key(alloc)?;
        json!(in alloc; {"item": item.as_str(), "site": site})
    }
}

/// A pair, how it is reached, and the events behind the steps that are told, where they are.
pub(crate) fn part_json(
    alloc: Global,
    sites: &Sites,
    ways: Ways,
    part: &Part<'_>,
) -> Result<Value, AllocError>
    ensures { IfOk result (λ v. view v ≡ part_json sites.now ways (part_of part.now)) }
{
    let mut value = way_json(alloc, sites, ways, part.pair, &part.way)?;
    let Some(members) = value.as_object_mut() else {
        unreachable!()
    };
    put_events(alloc, sites, members, part.events)?;
    Ok(value)
}

/// A pair, and how it is reached.
fn way_json(
    alloc: Global,
    sites: &Sites,
    ways: Ways,
    pair: &Pair,
    way: &Way<'_>,
) -> Result<Value, AllocError>
    ensures { IfOk result (λ v. view v ≡ object (shown_members sites.now pair.now (shown_way ways way.now))) }
{
    match ways {
        Ways::Trails => whole_json(alloc, sites, pair, way),
        Ways::Steps => match way {
            Way::To(_) => behind_json(alloc, sites, pair, way),
            Way::From(_) => before_json(alloc, sites, pair, way),
            Way::Unknown => before_json(alloc, sites, pair, way),
        },
    }
}

/// A pair, and the whole trail.
fn whole_json(alloc: Global, sites: &Sites, pair: &Pair, way: &Way<'_>) -> Result<Value, AllocError>
    ensures { IfOk result (λ v. view v
        ≡ object (shown_members sites.now pair.now (whole (way_pairs way.now)))) }
{
    let site = name_of(sites, pair.site);
    let item = pair.item.key(alloc)?;
    let trail = trail_json(alloc, sites, way)?;
    json!(in alloc; {"item": item.as_str(), "site": site, "trail": trail})
}

/// A pair, and the one before it on its trail.
fn before_json(
    alloc: Global,
    sites: &Sites,
    pair: &Pair,
    way: &Way<'_>,
) -> Result<Value, AllocError>
    ensures { IfOk result (λ v. view v
        ≡ object (shown_members sites.now pair.now (before (way_beside way.now)))) }
{
    let site = name_of(sites, pair.site);
    let item = pair.item.key(alloc)?;
    let from = beside_json(alloc, sites, way)?;
    json!(in alloc; {"from": from, "item": item.as_str(), "site": site})
}

/// A pair, and the one behind it on its trail.
fn behind_json(
    alloc: Global,
    sites: &Sites,
    pair: &Pair,
    way: &Way<'_>,
) -> Result<Value, AllocError>
    ensures { IfOk result (λ v. view v
        ≡ object (shown_members sites.now pair.now (behind (way_beside way.now)))) }
{
    let site = name_of(sites, pair.site);
    let item = pair.item.key(alloc)?;
    let to = beside_json(alloc, sites, way)?;
    json!(in alloc; {"item": item.as_str(), "site": site, "to": to})
}

/// The pairs of the trail, or null.
fn trail_json(alloc: Global, sites: &Sites, way: &Way<'_>) -> Result<Value, AllocError>
    ensures { IfOk result (λ v. view v ≡ trail_json sites.now (way_pairs way.now)) }
{
    match way.pairs(alloc)? {
        None => Ok(Value::Null),
        Some(pairs) => Ok(array(values(alloc, sites, pairs.as_slice())?)),
    }
}

/// The pair beside it on the trail, or null.
fn beside_json(alloc: Global, sites: &Sites, way: &Way<'_>) -> Result<Value, AllocError>
    ensures { IfOk result (λ v. view v ≡ beside_json sites.now (way_beside way.now)) }
{
    match way.beside() {
        None => Ok(Value::Null),
        Some(pair) => pair.json(alloc, sites),
    }
}

/// The text before the parts.
pub(crate) fn account_head(
    alloc: Global,
    sites: &Sites,
    account: &Account<'_>,
) -> Result<String, AllocError>
    ensures { IfOk result (λ t. string_bytes t ≡ account_head sites.now account.now) }
{
    match account.title() {
        Title::Recall { recall: _, ended } => report_head(alloc, sites, ended, account),
        Title::Forward => forward_head(alloc, sites, account),
        Title::Back => back_head(alloc, sites, account.origins()),
    }
}

fn report_head(
    alloc: Global,
    sites: &Sites,
    ended: bool,
    account: &Account<'_>,
) -> Result<String, AllocError>
    ensures { IfOk result (λ t. string_bytes t
        ≡ report_head sites.now ended account.now.outside) }
{
    let outside = outside_text(alloc, sites, account)?;
    let mut text = String::from_str(alloc, "{\"ended\":")?;
    text.push_str(flag_text(ended))?;
    text.push_str(",\"outside\":")?;
    text.push_str(outside.as_str())?;
    text.push_str(",\"pairs\":[")?;
    Ok(text)
}

fn forward_head(alloc: Global, sites: &Sites, account: &Account<'_>) -> Result<String, AllocError>
    ensures { IfOk result (λ t. string_bytes t ≡ forward_head sites.now account.now.outside) }
{
    let outside = outside_text(alloc, sites, account)?;
    let mut text = String::from_str(alloc, "{\"outside\":")?;
    text.push_str(outside.as_str())?;
    text.push_str(",\"pairs\":[")?;
    Ok(text)
}

#[tactic(auto, using(crate::proofs::Trees::pairs_free))]
fn back_head(alloc: Global, sites: &Sites, origins: &[Pair]) -> Result<String, AllocError>
    ensures { IfOk result (λ t. string_bytes t ≡ back_head sites.now origins.now) }
{
    let origins = list_text(alloc, sites, origins)?;
    let mut text = String::from_str(alloc, "{\"origins\":")?;
    text.push_str(origins.as_str())?;
    text.push_str(",\"pairs\":[")?;
    Ok(text)
}

/// The text behind the parts.
pub(crate) fn account_tail(
    alloc: Global,
    sites: &Sites,
    account: &Account<'_>,
) -> Result<String, AllocError>
    ensures { IfOk result (λ t. string_bytes t ≡ account_tail sites.now account.now) }
{
    let root = account.root();
    match account.title() {
        Title::Recall { recall, ended: _ } => report_tail(alloc, sites, recall, root),
        Title::Forward => trace_tail(alloc, sites, root, ",\"trace\":\"forward\"}\n"),
        Title::Back => trace_tail(alloc, sites, root, ",\"trace\":\"back\"}\n"),
    }
}

fn report_tail(
    alloc: Global,
    sites: &Sites,
    recall: RecallId,
    root: &Pair,
) -> Result<String, AllocError>
    ensures { IfOk result (λ t. string_bytes t ≡ report_tail sites.now recall root.now) }
{
    let recall = recall_text(alloc, sites, recall)?;
    let recall = value_text(alloc, &Value::try_from_str(alloc, recall.as_str())?)?;
    let root = value_text(alloc, &root.json(alloc, sites)?)?;
    let mut text = String::from_str(alloc, ",\"recall\":")?;
    text.push_str(recall.as_str())?;
    text.push_str(",\"root\":")?;
    text.push_str(root.as_str())?;
    text.push_str("}\n")?;
    Ok(text)
}

/// The text behind the parts of a trace, which ends so.
fn trace_tail(alloc: Global, sites: &Sites, root: &Pair, end: &str) -> Result<String, AllocError>
    ensures { IfOk result (λ t. string_bytes t ≡ trace_tail sites.now root.now end.now) }
{
    let root = value_text(alloc, &root.json(alloc, sites)?)?;
    let mut text = String::from_str(alloc, ",\"root\":")?;
    text.push_str(root.as_str())?;
    text.push_str(end)?;
    Ok(text)
}

fn flag_text(flag: bool) -> &'static str
    ensures { result.now ≡ compact_text (boolean flag) }
{
    if flag { "true" } else { "false" }
}

/// The text of an array of values.
fn list_text<T: ToJson>(alloc: Global, sites: &Sites, things: &[T]) -> Result<String, AllocError>
    requires { has_float (list_of (T.value sites.now) things.now) ≡ false }
    ensures { IfOk result (λ t. string_bytes t
        ≡ compact_text (list_of (T.value sites.now) things.now)) }
{
    value_text(alloc, &array(values(alloc, sites, things)?))
}

/// The text of a value.
pub(crate) fn value_text(alloc: Global, value: &Value) -> Result<String, AllocError>
    requires { has_float (view value.now) ≡ false }
    ensures { IfOk result (λ t. string_bytes t ≡ compact_text (view value.now)) }
{
    value.to_string(alloc)
}
