//! The packs, read back from the rows of their actions and parents, and from those of their children, in turn.
ghost use Rattle.std.specs.Prelude.{◌≡◌, ◌≤◌, ◌↔◌, ℕ, All, List, None, length, pos, slice_get, IfOk, IsTrue};
ghost use Rattle.event_json.specs.Contents.{number_of};
ghost use Rattle.event_json.specs.declared.bodies.Body.TheVariants.{Pack};
ghost use Rattle.event_json.specs.declared.limits.TheConstants.{MAX_LIST_MEMBERS};
ghost use Rattle.site_rows.specs.BadRows.{Tells};
ghost use Rattle.site_rows.specs.PartsInTurn.{ArePacksRead, IsBodyRead, IsHead, IsHeadOf, IsReadBy, packed_event};
ghost use Rattle.site_rows.specs.RecordRows.{packed_rows};
ghost use Rattle.site_rows.specs.Texts.{IsItemText};

use crate::reading_lists::{ListKey, list_at};
use crate::reading_numbers::natural;
use crate::reading_texts::item_of_key;
use crate::rows::{PackRow, PackedRow};
use crate::texts::Text;
use epc_core::Epc;
use event_json::{Action, Body, MAX_LIST_MEMBERS, Sequence, Sites};
use std::alloc::{AllocError, Global};

/// The most children of an event.
const CHILDREN: u64 = MAX_LIST_MEMBERS as u64;

/// Where the rows of `pack` were read to.
#[derive(Clone, Copy, Debug)]
pub(crate) struct PacksRead {
    /// The place of the next row, from 0.
    pub(crate) at: usize,
    /// Whether that row is bad or wanting. Nothing is read behind it.
    pub(crate) is_bad: bool,
}

/// What is said of the children of a pack, and its parent.
#[derive(Debug, Drop)]
pub(crate) struct Head {
    /// What is said of the children.
    pub(crate) action: Action,
    /// The parent, where there is one.
    pub(crate) parent: Option<Epc>,
}

/// The pack of this number, from the rows that stand next. Where its row of `pack` is bad or wanting, that is noted,
/// and any action stands in its place.
pub(crate) fn pack_at(
    alloc: Global,
    sites: &Sites,
    packs: &[PackRow],
    packed: &[PackedRow],
    read: &mut PacksRead,
    at: &mut usize,
    event: u64,
) -> Result<Body, AllocError>
    requires packs { read.old.at ≤ length packs.now }
    requires packed { at.old ≤ length packed.now }
    ensures part { IfOk result (λ body. (rows : List _) (place : ℕ) → place ≤ length rows
        → IsBodyRead sites.now event (pos 3) None rows place place body) }
    ensures pack { IfOk result (λ body. ArePacksRead (length sites.now) event
        (pos 3) None packs.now read.old.at read.new.at read.old.is_bad read.new.is_bad body) }
    ensures packed { IfOk result (λ body. IsReadBy packed_event packed_rows (length sites.now) event
        (pos 3) None packed.now at.old at.new body) }
{
    let head = head_at(alloc, packs, read, event)?;
    let list = ListKey {
        event,
        role: 0,
        most: CHILDREN,
    };
    let children: Sequence<Epc> = list_at(alloc, sites, packed, at, list)?;
    let Head { action, parent } = head;
    Ok(Body::Pack {
        action,
        parent,
        children,
    })
}

/// The action and the parent of the pack of this number, from the row that stands next.
fn head_at(
    alloc: Global,
    rows: &[PackRow],
    read: &mut PacksRead,
    event: u64,
) -> Result<Head, AllocError>
    requires within { read.old.at ≤ length rows.now }
    ensures head { IfOk result (λ head. IsHead head.action head.parent) }
    ensures read { IfOk result (λ head. (sites : ℕ) (children : List (List ℕ))
        → length children ≤ MAX_LIST_MEMBERS → All IsItemText children
        → ArePacksRead sites event (pos 3) None rows.now read.old.at read.new.at read.old.is_bad
        read.new.is_bad (Pack head.action head.parent children)) }
{
    if read.is_bad {
        return Ok(any_head());
    }
    match head_of(alloc, rows, read.at, event)? {
        Some(head) => {
            read.at += 1;
            Ok(head)
        }
        None => {
            read.is_bad = true;
            Ok(any_head())
        }
    }
}

/// An action that needs no parent.
fn any_head() -> Head
    ensures { IsHead result.action result.parent }
{
    Head {
        action: Action::Observe,
        parent: None,
    }
}

/// The action and the parent of the pack of this number, where its row stands at a place.
fn head_of(
    alloc: Global,
    rows: &[PackRow],
    at: usize,
    event: u64,
) -> Result<Option<Head>, AllocError>
    ensures { IfOk result (λ head. Tells head (λ h.
        IsHeadOf event (slice_get rows.now at) h.action h.parent)) }
{
    let Some(row) = rows.get(at) else {
        return Ok(None);
    };
    if !is_of(row, event) {
        return Ok(None);
    }
    let Some(action) = action_of(row) else {
        return Ok(None);
    };
    match parent_of(alloc, action, &row.parent)? {
        Some(parent) => Ok(Some(Head { action, parent })),
        None => Ok(None),
    }
}

/// Whether a row is that of the event of this number.
fn is_of(row: &PackRow, event: u64) -> bool
    ensures { IsTrue result ↔ (row.now.event ≡ pos event) }
{
    natural(row.event) == Some(event)
}

/// The action of a row.
fn action_of(row: &PackRow) -> Option<Action>
    ensures { Tells result (λ action. row.now.action ≡ pos (number_of action)) }
{
    match row.action {
        0 => Some(Action::Add),
        1 => Some(Action::Observe),
        2 => Some(Action::Delete),
        _ => None,
    }
}

/// The parent that a text stands for, or that there is none, where a pack with this action may have it.
fn parent_of(
    alloc: Global,
    action: Action,
    text: &Option<Text>,
) -> Result<Option<Option<Epc>>, AllocError>
    ensures { IfOk result (λ parent. Tells parent (λ p. (p ≡ text.now) × IsHead action p)) }
{
    match text {
        Some(text) => match item_of_key(alloc, text)? {
            Some(item) => Ok(Some(Some(item))),
            None => Ok(None),
        },
        None => match action {
            Action::Add => Ok(None),
            Action::Observe | Action::Delete => Ok(Some(None)),
        },
    }
}
