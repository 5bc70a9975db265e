//! Frames as lines of text.
ghost use Rattle.std.specs.Prelude.{◌≡◌, ◌∷◌, [], ◌++◌, codes, fold, IfOk, OnOk, string_bytes};
ghost use Rattle.serde_json.specs.Data.{no_members, put, string};
ghost use Rattle.serde_json.specs.View.{members_view};
ghost use Rattle.frame_core.specs.Rows.{frame_of};
ghost use Rattle.frame_lines.specs.Lines.{frame_line, members_of, sum_of, with_text};

use crate::chains::ChainId;
use crate::sums::sum_of_text;
use event_json::Sites;
use frame_core::FrameView;
use recall_text::texts::{message_text, name_of, recall_text};
use serde_json::{Map, Value};
use std::alloc::{AllocError, Global};

/// A frame as a line of text, with LF at its end: a JSON object of the chain, the kind of frame, the sites by their
/// names, the message and, of a message, its recall and its item, and the sum of these in the chain and the list of
/// sites.
///
/// [`read_line`](crate::read_line) gives the frame back, where the sites that it names are of the list; the name of any
/// other site is written as an empty text, and such a line is no frame.
///
/// # Errors
/// Out of memory.
pub fn frame_line(
    alloc: Global,
    sites: &Sites,
    chain: &ChainId,
    frame: &FrameView<'_>,
) -> Result<String, AllocError>
    ensures { IfOk result (λ line. string_bytes line
        ≡ frame_line sites.now chain.now (frame_of frame.now)) }
{
    let sum = sum_of(alloc, sites, chain, frame)?;
    let mut members = members_of(alloc, sites, chain, frame)?;
    put_text(alloc, &mut members, "sum", sum)?;
    let mut line = Value::Object(members).to_string(alloc)?;
    line.push('\n')?;
    Ok(line)
}

/// The sum of a frame in a chain of these sites.
///
/// # Errors
/// Out of memory.
pub(crate) fn sum_of(
    alloc: Global,
    sites: &Sites,
    chain: &ChainId,
    frame: &FrameView<'_>,
) -> Result<String, AllocError>
    ensures { IfOk result (λ s. string_bytes s
        ≡ sum_of sites.now chain.now (frame_of frame.now)) }
{
    let members = members_of(alloc, sites, chain, frame)?;
    let text = Value::Object(members).to_string(alloc)?;
    sum_of_text(alloc, sites, chain, text.as_str())
}

/// The members of a frame's object, but for its sum.
fn members_of(
    alloc: Global,
    sites: &Sites,
    chain: &ChainId,
    frame: &FrameView<'_>,
) -> Result<Map<String, Value>, AllocError>
    ensures { IfOk result (λ m. members_view m.entries
        ≡ fold with_text no_members (members_of sites.now chain.now (frame_of frame.now))) }
{
    let chain = String::from_str(alloc, chain.as_str())?;
    match frame {
        FrameView::Recall {
            id,
            dest,
            recall,
            item,
        } => {
            let to = String::from_str(alloc, name_of(sites, *dest))?;
            let message = message_text(alloc, sites, *id)?;
            let recall = recall_text(alloc, sites, *recall)?;
            message_members(alloc, chain, item.key(alloc)?, message, recall, to)
        }
        FrameView::Signal { id, by } => {
            let by = String::from_str(alloc, name_of(sites, *by))?;
            let message = message_text(alloc, sites, *id)?;
            let to = String::from_str(alloc, name_of(sites, id.site))?;
            signal_members(alloc, by, chain, message, to)
        }
    }
}

/// The members of a message's object, but for its sum.
fn message_members(
    alloc: Global,
    chain: String,
    item: String,
    message: String,
    recall: String,
    to: String,
) -> Result<Map<String, Value>, AllocError>
    ensures { IfOk result (λ m. members_view m.entries ≡ fold with_text no_members (
        (codes "chain", string_bytes chain) ∷ (codes "frame", codes "message") ∷
        (codes "item", string_bytes item) ∷ (codes "message", string_bytes message) ∷
        (codes "recall", string_bytes recall) ∷ (codes "to", string_bytes to) ∷ [])) }
{
    let mut members = Map::new(alloc);
    put_text(alloc, &mut members, "chain", chain)?;
    put_text(
        alloc,
        &mut members,
        "frame",
        String::from_str(alloc, "message")?,
    )?;
    put_text(alloc, &mut members, "item", item)?;
    put_text(alloc, &mut members, "message", message)?;
    put_text(alloc, &mut members, "recall", recall)?;
    put_text(alloc, &mut members, "to", to)?;
    Ok(members)
}

/// The members of a signal's object, but for its sum.
fn signal_members(
    alloc: Global,
    by: String,
    chain: String,
    message: String,
    to: String,
) -> Result<Map<String, Value>, AllocError>
    ensures { IfOk result (λ m. members_view m.entries ≡ fold with_text no_members (
        (codes "by", string_bytes by) ∷ (codes "chain", string_bytes chain) ∷
        (codes "frame", codes "signal") ∷ (codes "message", string_bytes message) ∷
        (codes "to", string_bytes to) ∷ [])) }
{
    let mut members = Map::new(alloc);
    put_text(alloc, &mut members, "by", by)?;
    put_text(alloc, &mut members, "chain", chain)?;
    put_text(
        alloc,
        &mut members,
        "frame",
        String::from_str(alloc, "signal")?,
    )?;
    put_text(alloc, &mut members, "message", message)?;
    put_text(alloc, &mut members, "to", to)?;
    Ok(members)
}

/// Puts a text under a name.
///
/// # Errors
/// Out of memory.
fn put_text(
    alloc: Global,
    members: &mut Map<String, Value>,
    name: &str,
    text: String,
) -> Result<(), AllocError>
    ensures { OnOk result (members_view members.new.entries
        ≡ put name.now (string (string_bytes text)) (members_view members.old.entries)) }
{
    let name = String::from_str(alloc, name)?;
    match members.insert(name, Value::String(text)) {
        Ok(_) => Ok(()),
        Err(_) => Err(AllocError),
    }
}
