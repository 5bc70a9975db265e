//! The rows that a step changes, found at what it leaves, or, of a signal, at the record before it.
ghost use Rattle.std.specs.Prelude.{◌≡◌, ◌∷◌, [], ℕ, Bool, List, length, pos, IfOk};
ghost use Rattle.frame_core.specs.declared.frames.Frame.TheVariants as frames;
ghost use Rattle.frame_core.specs.Numbers.{Message};
ghost use Rattle.site_core.specs.Records.{Record};
ghost use Rattle.site_core.specs.Steps.{Does, Starts, Takes};
ghost use Rattle.site_core.specs.Undoing.{IsSignal, IsUndoOf};
ghost use Rattle.site_core.specs.declared.outcomes.Effects.{Effects};
ghost use Rattle.site_core.specs.declared.outcomes.Effects.TheVariants as effects;
ghost use Rattle.site_rows.specs.Laws.{HoldsItems, IsEventAmong, IsKept};
ghost use Rattle.site_rows.specs.EventTexts.{EachFrom};
ghost use Rattle.site_rows.specs.StepRows.{AreChangesOf, no_changes};

use crate::changed_rows::{
    ended_rows_at, message_keys, numbered_rows, numbers_changed, numbers_of, own_rows_at,
    parent_rows_of, recall_keys_at, rows_held, seen_rows_of,
};
use crate::changes::{RecallKey, RowChanges};
use crate::event_rows::{event_rows, pack_rows, packed_rows, part_rows};
use crate::rows::RecallRow;
use event_json::Sequence;
use frame_core::{Frame, MsgId, RecallId};
use site_core::{Effects, SiteInput, SiteState, StepUndo};
use std::alloc::{AllocError, Global};

/// The rows that a step changed that is no signal: what it added, and what it put in place. They are found at the
/// record after it and at what takes the step back. The effects count them, but for the members and the packs of
/// events. A record that can be read back from its rows leads to one that can be, too. Fails where memory runs out.
pub fn changes_of(
    alloc: Global,
    input: &SiteInput,
    effects: &Effects,
    undo: &StepUndo,
    new: &SiteState,
) -> Result<RowChanges, AllocError>
    requires no_signal { IsSignal input.now → ⊥ }
    // The changes lead from the rows before the step to those after it, and the step's effects say how many there are
    // of each table.
    // Not covered: that what is kept isn't gone through.
    ensures changes { (old : Record) → Does old input.now effects.now new.now
        → IsUndoOf undo.now old input.now
        → IfOk result (λ changes. AreChangesOf changes effects.now old new.now) }
    ensures items { (old : Record) → Does old input.now effects.now new.now
        → IsUndoOf undo.now old input.now → IsKept old → HoldsItems old
        → IfOk result (λ _. IsKept new.now × HoldsItems new.now) }
{
    match input {
        SiteInput::Capture(_) => captured_changes(alloc, undo.captured, new),
        SiteInput::Start(_) => started_changes(alloc, effects, undo, new),
        SiteInput::Deliver(frame) => delivered_changes(alloc, frame, effects, undo, new),
    }
}

/// The rows that a signal for this message changes, found at the record before it, by what it does: what it takes away,
/// and what it puts in place. Fails where memory runs out.
pub fn signal_changes_of(
    alloc: Global,
    old: &SiteState,
    message: MsgId,
    effects: &Effects,
) -> Result<RowChanges, AllocError>
    ensures { (by : ℕ) (new : Record) → Does old.now (SiteInput.Deliver (frames.Signal message by))
        effects.now new → IfOk result (λ changes. AreChangesOf changes effects.now old.now new) }
{
    signalled_changes(alloc, old, message.number, effects)
}

/// No row is changed. Does not allocate.
fn no_changes(alloc: Global) -> RowChanges
    ensures { result ≡ no_changes }
{
    RowChanges {
        event: Sequence::new(alloc),
        part: Sequence::new(alloc),
        pack: Sequence::new(alloc),
        packed: Sequence::new(alloc),
        quarantine: Sequence::new(alloc),
        outbox: Sequence::new(alloc),
        seen: Sequence::new(alloc),
        parent: Sequence::new(alloc),
        signalled: Sequence::new(alloc),
        left: Sequence::new(alloc),
        recall: Sequence::new(alloc),
        numbers: None,
    }
}

/// The rows that a capture adds: those of the events from this place on, which weren't captured before.
fn captured_changes(alloc: Global, from: usize, new: &SiteState) -> Result<RowChanges, AllocError>
    ensures changes { (old : Record) (bytes : List ℕ) (told : Effects)
        → Does old (SiteInput.Capture bytes) told new.now → from ≡ length old.captured.events
        → IfOk result (λ changes. AreChangesOf changes told old new.now) }
    ensures events { IfOk result (λ _.
        EachFrom (IsEventAmong (length new.now.sites)) from new.now.captured.events) }
{
    // Its reader shows the proof that events ship to sites of the list.
    let _me = new.me();
    let event = event_rows(alloc, new.captured(), from)?;
    let part = part_rows(alloc, new.sites(), new.captured(), from)?;
    let pack = pack_rows(alloc, new.captured(), from)?;
    let packed = packed_rows(alloc, new.captured(), from)?;
    Ok(RowChanges {
        event,
        part,
        pack,
        packed,
        quarantine: Sequence::new(alloc),
        outbox: Sequence::new(alloc),
        seen: Sequence::new(alloc),
        parent: Sequence::new(alloc),
        signalled: Sequence::new(alloc),
        left: Sequence::new(alloc),
        recall: Sequence::new(alloc),
        numbers: None,
    })
}

/// The rows that a start changes.
fn started_changes(
    alloc: Global,
    effects: &Effects,
    undo: &StepUndo,
    new: &SiteState,
) -> Result<RowChanges, AllocError>
    ensures { (old : Record) (root : List ℕ) → Does old (SiteInput.Start root) effects.now new.now
        → IsUndoOf undo.now old (SiteInput.Start root)
        → IfOk result (λ changes. AreChangesOf changes effects.now old new.now) }
{
    match effects {
        Effects::Started { recall, .. } => begun_changes(alloc, *recall, undo, new),
        _ => Ok(no_changes(alloc)),
    }
}

/// The rows that the start of this recall changes.
fn begun_changes(
    alloc: Global,
    recall: RecallId,
    undo: &StepUndo,
    new: &SiteState,
) -> Result<RowChanges, AllocError>
    ensures { (old : Record) (root : List ℕ) (quarantined numbered : ℕ) (ended : Bool)
        → Starts old root recall quarantined numbered ended new.now
        → IsUndoOf undo.now old (SiteInput.Start root)
        → IfOk result (λ changes. AreChangesOf changes
        (effects.Started recall quarantined numbered ended) old new.now) }
{
    let numbers = numbers_of(new)?;
    let quarantine = rows_held(alloc, recall, &undo.held)?;
    let outbox = numbered_rows(alloc, new, undo.next_message)?;
    let own = own_rows_at(alloc, new, recall.number)?;
    Ok(RowChanges {
        event: Sequence::new(alloc),
        part: Sequence::new(alloc),
        pack: Sequence::new(alloc),
        packed: Sequence::new(alloc),
        quarantine,
        outbox,
        seen: Sequence::new(alloc),
        parent: Sequence::new(alloc),
        signalled: Sequence::new(alloc),
        left: Sequence::new(alloc),
        recall: own,
        numbers: Some(numbers),
    })
}

/// The rows that a frame changes that is no signal.
fn delivered_changes(
    alloc: Global,
    frame: &Frame,
    effects: &Effects,
    undo: &StepUndo,
    new: &SiteState,
) -> Result<RowChanges, AllocError>
    requires no_signal { IsSignal (SiteInput.Deliver frame.now) → ⊥ }
    ensures changes { (old : Record) → Does old (SiteInput.Deliver frame.now) effects.now new.now
        → IsUndoOf undo.now old (SiteInput.Deliver frame.now)
        → IfOk result (λ changes. AreChangesOf changes effects.now old new.now) }
    ensures items { (old : Record) → Does old (SiteInput.Deliver frame.now) effects.now new.now
        → IsKept old → HoldsItems old → IfOk result (λ _. IsKept new.now × HoldsItems new.now) }
{
    match frame {
        Frame::Recall {
            id,
            recall,
            item,
            ..
        } => {
            // The form shows the proof that the message is about an item.
            let _form = item.form();
            taken_changes(alloc, *id, *recall, effects, undo, new)
        }
        Frame::Signal { .. } => Ok(no_changes(alloc)),
    }
}

/// The rows that a message of a recall changes, which may have been seen before.
fn taken_changes(
    alloc: Global,
    message: MsgId,
    recall: RecallId,
    effects: &Effects,
    undo: &StepUndo,
    new: &SiteState,
) -> Result<RowChanges, AllocError>
    ensures { (old : Record) (dest : ℕ) (item : List ℕ)
        → Does old (SiteInput.Deliver (frames.Recall message dest recall item)) effects.now new.now
        → IsUndoOf undo.now old (SiteInput.Deliver (frames.Recall message dest recall item))
        → IfOk result (λ changes. AreChangesOf changes effects.now old new.now) }
{
    match effects {
        Effects::Received { owed, .. } => {
            received_changes(alloc, message, recall, *owed, undo, new)
        }
        _ => Ok(no_changes(alloc)),
    }
}

/// The rows that a message of a recall changes that wasn't seen.
fn received_changes(
    alloc: Global,
    message: MsgId,
    recall: RecallId,
    owed: bool,
    undo: &StepUndo,
    new: &SiteState,
) -> Result<RowChanges, AllocError>
    ensures { (old : Record) (dest : ℕ) (item : List ℕ) (quarantined numbered : ℕ)
        → Takes old message dest recall item quarantined numbered owed new.now
        → IsUndoOf undo.now old (SiteInput.Deliver (frames.Recall message dest recall item))
        → IfOk result (λ changes. AreChangesOf changes (effects.Received quarantined numbered owed)
        old new.now) }
{
    let numbers = numbers_changed(undo.next_message, new)?;
    let quarantine = rows_held(alloc, recall, &undo.held)?;
    let outbox = numbered_rows(alloc, new, undo.next_message)?;
    let seen = seen_rows_of(alloc, message, recall)?;
    let parent = parent_rows_of(alloc, message, recall, owed)?;
    Ok(RowChanges {
        event: Sequence::new(alloc),
        part: Sequence::new(alloc),
        pack: Sequence::new(alloc),
        packed: Sequence::new(alloc),
        quarantine,
        outbox,
        seen,
        parent,
        signalled: Sequence::new(alloc),
        left: Sequence::new(alloc),
        recall: Sequence::new(alloc),
        numbers,
    })
}

/// The rows that a signal changes for the message of this number.
fn signalled_changes(
    alloc: Global,
    old: &SiteState,
    number: u64,
    effects: &Effects,
) -> Result<RowChanges, AllocError>
    ensures { (m : Message) (by : ℕ) (new : Record) → m.number ≡ number
        → Does old.now (SiteInput.Deliver (frames.Signal m by)) effects.now new
        → IfOk result (λ changes. AreChangesOf changes effects.now old.now new) }
{
    match effects {
        Effects::Cleared => {
            cleared_changes(alloc, number, Sequence::new(alloc), Sequence::new(alloc))
        }
        Effects::ParentDue(_) => {
            let left = recall_keys_at(alloc, old, number)?;
            cleared_changes(alloc, number, left, Sequence::new(alloc))
        }
        Effects::Ended(recall) => {
            let ended = ended_rows_at(alloc, old, recall.number)?;
            cleared_changes(alloc, number, Sequence::new(alloc), ended)
        }
        _ => Ok(no_changes(alloc)),
    }
}

/// The message of this number is taken out, and the parents of these recalls, and these own recalls are put.
fn cleared_changes(
    alloc: Global,
    number: u64,
    left: Sequence<RecallKey>,
    recall: Sequence<RecallRow>,
) -> Result<RowChanges, AllocError>
    ensures { IfOk result (λ changes. changes ≡ record no_changes {
      signalled = pos number ∷ [];
      left = left;
      recall = recall;
    }) }
{
    let signalled = message_keys(alloc, number)?;
    Ok(RowChanges {
        event: Sequence::new(alloc),
        part: Sequence::new(alloc),
        pack: Sequence::new(alloc),
        packed: Sequence::new(alloc),
        quarantine: Sequence::new(alloc),
        outbox: Sequence::new(alloc),
        seen: Sequence::new(alloc),
        parent: Sequence::new(alloc),
        signalled,
        left,
        recall,
        numbers: None,
    })
}
