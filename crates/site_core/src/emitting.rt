//! The frames that a site may send.
ghost use Rattle.std.specs.Prelude.{◌≡◌, option_map, slice_get};
ghost use Rattle.frame_core.specs.Rows.{frame_of};
ghost use Rattle.site_core.specs.Emitting.{is_parent, message_frames, signal_frames, frame_at};

use crate::states::SiteState;
use frame_core::{FrameView, MsgId};

/// The frame that a site may send at this place, from 1: first the message of each row of its outbox, by
/// number, and then the signal of each message that it has seen and that is no parent, by sender and
/// number. `None` past the last one. Does not allocate.
pub fn emittable(state: &SiteState, place: u64) -> Option<FrameView<'_>>
    // Not covered: the order of places has no law; what a look-up costs.
    ensures { option_map frame_of result ≡ frame_at state.now.engagement place }
{
    if place == 0 {
        return None;
    }
    let messages = state.outbox().len() as u64;
    if place <= messages {
        message_at(state, place - 1)
    } else {
        signal_at(state, place - 1 - messages)
    }
}

/// The message at a place, from 0, among those that are not signalled.
fn message_at(state: &SiteState, place: u64) -> Option<FrameView<'_>>
    ensures { option_map frame_of result ≡ slice_get (message_frames state.now.engagement) place }
{
    let mut left = place;
    for (number, row) in state.outbox() {
        if left == 0 {
            return Some(FrameView::Recall {
                id: MsgId {
                    site: state.me(),
                    number: *number,
                },
                dest: row.dest,
                recall: row.recall,
                item: &row.item,
            });
        }
        left -= 1;
    }
    None
}

/// The signal at a place, from 0, among those that are due.
fn signal_at(state: &SiteState, place: u64) -> Option<FrameView<'_>>
    ensures { option_map frame_of result ≡ slice_get (signal_frames state.now.engagement) place }
{
    let mut left = place;
    for (message, _) in state.seen() {
        if !is_parent(state, *message) {
            if left == 0 {
                return Some(FrameView::Signal {
                    id: *message,
                    by: state.me(),
                });
            }
            left -= 1;
        }
    }
    None
}

/// Whether a message is the parent of some recall.
pub(crate) fn is_parent(state: &SiteState, message: MsgId) -> bool
    ensures { result ≡ is_parent state.now.engagement message }
{
    for (_, parent) in state.parents() {
        if *parent == message {
            return true;
        }
    }
    false
}
