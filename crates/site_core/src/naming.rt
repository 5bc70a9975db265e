//! The frames that a site may send, looked up by what they are of.
ghost use Rattle.std.specs.Prelude.{◌≡◌, option_map};
ghost use Rattle.frame_core.specs.Rows.{frame_of};
ghost use Rattle.site_core.specs.Naming.{frame_named};

use crate::emitting::is_parent;
use crate::states::SiteState;
use frame_core::{FrameView, MsgId};

/// What a frame is of that a site may send.
#[derive(Clone, Copy, Debug, PartialEq, Eq)]
pub enum FrameName {
    /// The message of this number.
    Message(u64),
    /// The signal of a message that was seen.
    Signal(MsgId),
}

/// The frame of this name that a site may send: the message where it isn't signalled, the signal where its
/// message was seen and is no parent. `None` where there is none. Does not allocate.
pub fn frame_named(state: &SiteState, name: FrameName) -> Option<FrameView<'_>>
    ensures { option_map frame_of result ≡ frame_named state.now.engagement name }
{
    match name {
        FrameName::Message(number) => message_named(state, number),
        FrameName::Signal(message) => signal_named(state, message),
    }
}

/// The message of a number, where it isn't signalled.
fn message_named(state: &SiteState, number: u64) -> Option<FrameView<'_>>
    ensures { option_map frame_of result ≡ frame_named state.now.engagement
        (FrameName.Message number) }
{
    match state.row(number) {
        None => None,
        Some(row) => Some(FrameView::Recall {
            id: MsgId {
                site: state.me(),
                number,
            },
            dest: row.dest,
            recall: row.recall,
            item: row.item,
        }),
    }
}

/// The signal of a message, where that was seen and is no parent.
fn signal_named(state: &SiteState, message: MsgId) -> Option<FrameView<'_>>
    ensures { option_map frame_of result ≡ frame_named state.now.engagement
        (FrameName.Signal message) }
{
    if state.seen_under(message).is_none() || is_parent(state, message) {
        return None;
    }
    Some(FrameView::Signal {
        id: message,
        by: state.me(),
    })
}
