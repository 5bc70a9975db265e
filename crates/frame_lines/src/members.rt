//! Reading the members of a frame's object.
ghost use Rattle.std.specs.Prelude.{◌≡◌, ◌<◌, List, ℕ, Some, IfOk, codes, length, option_map};
ghost use Rattle.serde_json.specs.View.{view};
ghost use Rattle.frame_lines.specs.Finding.{Finds};
ghost use Rattle.frame_lines.specs.Lines.{HasTexts, IsFrameAmong, IsItem, IsMessageOf, IsRecallOf, members_of, text_in};
ghost use Rattle.recall_text.specs.Words.{message_text, name_at, recall_text};

use crate::identifiers::{message_named, recall_named, site_named};
use epc_core::Epc;
use event_json::{SiteNo, Sites};
use frame_core::{Frame, MsgId, RecallId};
use serde_json::Value;
use std::alloc::{AllocError, Global};

/// The text of a member, where the value is an object that has the member, and it is a text.
pub(crate) fn text_at<'a>(value: &'a Value, name: &str) -> Option<&'a str>
    ensures { option_map (λ t. t.now) result ≡ text_in name.now (view value.now) }
{
    value.get(name).and_then(Value::as_str)
}

/// The site of a member.
fn site_at(sites: &Sites, value: &Value, name: &str) -> Option<SiteNo>
    ensures { Finds (λ site. (site < length sites.now)
        × (text_in name.now (view value.now) ≡ Some (name_at sites.now site))) result }
{
    site_named(sites, text_at(value, name)?)
}

/// The message of the member `message`.
fn message_at(sites: &Sites, value: &Value) -> Option<MsgId>
    ensures { Finds (λ m. IsMessageOf sites.now m
        × (text_in (codes "message") (view value.now) ≡ Some (message_text sites.now m))) result }
{
    message_named(sites, text_at(value, "message")?)
}

/// The recall of the member `recall`.
fn recall_at(sites: &Sites, value: &Value) -> Option<RecallId>
    ensures { Finds (λ r. IsRecallOf sites.now r
        × (text_in (codes "recall") (view value.now) ≡ Some (recall_text sites.now r))) result }
{
    recall_named(sites, text_at(value, "recall")?)
}

/// The item of the member `item`.
///
/// # Errors
/// Out of memory.
fn item_at(alloc: Global, value: &Value) -> Result<Option<Epc>, AllocError>
    ensures { IfOk result (Finds (λ key. IsItem key
        × (text_in (codes "item") (view value.now) ≡ Some key))) }
{
    match text_at(value, "item") {
        Some(key) => Epc::from_key(alloc, key),
        None => Ok(None),
    }
}

/// The frame of these sites that a value tells.
///
/// # Errors
/// Out of memory.
pub(crate) fn told_frame(
    alloc: Global,
    sites: &Sites,
    value: &Value,
) -> Result<Option<Frame>, AllocError>
    ensures { (chain : List ℕ) → text_in (codes "chain") (view value.now) ≡ Some chain
        → IfOk result (Finds (λ f. IsFrameAmong sites.now f
        × HasTexts (members_of sites.now chain f) (view value.now))) }
{
    let Some(kind) = text_at(value, "frame") else {
        return Ok(None);
    };
    if kind == "message" {
        told_message(alloc, sites, value)
    } else if kind == "signal" {
        Ok(told_signal(sites, value))
    } else {
        Ok(None)
    }
}

/// The message of these sites that the value of a message tells.
///
/// # Errors
/// Out of memory.
fn told_message(alloc: Global, sites: &Sites, value: &Value) -> Result<Option<Frame>, AllocError>
    requires { text_in (codes "frame") (view value.now) ≡ Some (codes "message") }
    ensures { (chain : List ℕ) → text_in (codes "chain") (view value.now) ≡ Some chain
        → IfOk result (Finds (λ f. IsFrameAmong sites.now f
        × HasTexts (members_of sites.now chain f) (view value.now))) }
{
    let Some(id) = message_at(sites, value) else {
        return Ok(None);
    };
    let Some(recall) = recall_at(sites, value) else {
        return Ok(None);
    };
    let Some(dest) = site_at(sites, value, "to") else {
        return Ok(None);
    };
    let Some(item) = item_at(alloc, value)? else {
        return Ok(None);
    };
    Ok(Some(Frame::Recall {
        id,
        dest,
        recall,
        item,
    }))
}

/// The signal of these sites that the value of a signal tells.
fn told_signal(sites: &Sites, value: &Value) -> Option<Frame>
    requires { text_in (codes "frame") (view value.now) ≡ Some (codes "signal") }
    ensures { (chain : List ℕ) → text_in (codes "chain") (view value.now) ≡ Some chain
        → Finds (λ f. IsFrameAmong sites.now f
        × HasTexts (members_of sites.now chain f) (view value.now)) result }
{
    // No two sites have one name.
    let _names = sites.len();
    let id = message_at(sites, value)?;
    let by = site_at(sites, value, "by")?;
    let to = site_at(sites, value, "to")?;
    if to == id.site {
        Some(Frame::Signal { id, by })
    } else {
        None
    }
}
