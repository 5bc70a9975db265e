//! Answers that need no change of the record, and don't allocate.
ghost use Rattle.std.specs.Prelude.{◌≡◌, ◌≤◌, ◌<◌, ◌↔◌, length, IsTrue};
ghost use Rattle.frame_core.specs.declared.frames.Frame.TheVariants as frames;
ghost use Rattle.site_core.specs.Looks.{IsAnsweredBy};
ghost use Rattle.site_core.specs.Records.{IsNumber, IsMessageAmong, IsRecallAmong};
ghost use Rattle.site_core.specs.Steps.{IsForSite, IsOwnMessage};

use crate::inputs::SiteInput;
use crate::outcomes::{Effects, Refusal};
use crate::restoring::is_number;
use crate::spreading::is_known;
use crate::states::SiteState;
use epc_core::Epc;
use event_json::SiteNo;
use frame_core::{Frame, MsgId, RecallId};

/// What a step returns without memory and without a change, if it returns so. A keeper asks this first: what is
/// answered here is neither tried on a copy nor written down. None says that the step allocates or changes the site.
pub fn look(state: &SiteState, input: &SiteInput) -> Option<Result<Effects, Refusal>>
    ensures { IsAnsweredBy state.now input.now result }
{
    match input {
        SiteInput::Capture(_) => None,
        SiteInput::Start(root) => look_at_start(state, root),
        SiteInput::Deliver(
            Frame::Recall {
                id,
                dest,
                recall,
                item,
            },
        ) => look_at_message(state, *id, *dest, *recall, item),
        SiteInput::Deliver(Frame::Signal { id, by }) => look_at_signal(state, *id, *by),
    }
}

/// An item has to be known.
fn look_at_start(state: &SiteState, root: &Epc) -> Option<Result<Effects, Refusal>>
    ensures { IsAnsweredBy state.now (SiteInput.Start root.now) result }
{
    if is_known(state.captured(), state.quarantine(), root) {
        None
    } else {
        Some(Err(Refusal::UnknownItem))
    }
}

/// A message has to be for the site, and mustn't have been seen.
fn look_at_message(
    state: &SiteState,
    message: MsgId,
    dest: SiteNo,
    recall: RecallId,
    _item: &Epc,
) -> Option<Result<Effects, Refusal>>
    ensures { IsAnsweredBy state.now (SiteInput.Deliver
        (frames.Recall message dest recall _item.now)) result }
{
    if !is_for_site(state, message, dest, recall) {
        return Some(Err(Refusal::NotMine));
    }
    match state.seen_under(message) {
        Some(_) => Some(Ok(Effects::Repeat)),
        None => None,
    }
}

/// A signal has to be for a message of the site that stands, and from the site that it went to.
fn look_at_signal(state: &SiteState, message: MsgId, by: SiteNo) -> Option<Result<Effects, Refusal>>
    ensures { IsAnsweredBy state.now (SiteInput.Deliver (frames.Signal message by)) result }
{
    if !is_own_message(state, message) {
        return Some(Err(Refusal::NotMine));
    }
    match state.row(message.number) {
        None => Some(Ok(Effects::Stale)),
        Some(row) if row.dest == by => None,
        Some(_) => Some(Err(Refusal::NotMine)),
    }
}

/// Whether a message frame is for this site and from another of the list, of a recall that one of them can
/// have begun.
fn is_for_site(state: &SiteState, message: MsgId, dest: SiteNo, recall: RecallId) -> bool
    ensures { IsTrue result ↔ IsForSite state.now message dest recall }
{
    let me = state.me();
    dest == me
        && message.site != me
        && is_of_list(state, message.site, message.number)
        && is_of_list(state, recall.site, recall.number)
}

/// Whether a site is of the list, and can have given the number.
fn is_of_list(state: &SiteState, site: SiteNo, number: u64) -> bool
    ensures { IsTrue result ↔ ((site < length state.now.sites) × IsNumber number) }
{
    site.number() < state.sites().len() as u64 && is_number(number)
}

/// Whether this site can have sent a message.
fn is_own_message(state: &SiteState, message: MsgId) -> bool
    ensures { IsTrue result ↔ IsOwnMessage state.now message }
{
    message.site == state.me() && is_number(message.number)
}
