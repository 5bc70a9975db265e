//! Which frame a site has for another.
ghost use Rattle.std.specs.Prelude.{◌≡◌, IfSome, option_and_then, option_map};
ghost use Rattle.frame_core.specs.Rows.{frame_of};
ghost use Rattle.site_threads.specs.Offers.{IsFor, message_to, offer_of, signal_of};

use event_json::SiteNo;
use frame_core::{FrameView, MsgId};
use site_core::{FrameName, SiteState, frame_named};

/// The signal of the message that was taken from the site in this turn, where the record makes it emittable; else the
/// message of the number that is next. `None` where there is neither.
pub fn offer(
    state: &SiteState,
    owed: Option<MsgId>,
    to: SiteNo,
    next: Option<u64>,
) -> Option<FrameView<'_>>
    ensures frame { option_map frame_of result ≡ offer_of state.now.engagement to owed next }
    ensures fits { IfSome result (λ f. IsFor state.now.engagement to (frame_of f)) }
{
    match owed_signal(state, owed, to) {
        Some(signal) => Some(signal),
        None => match next {
            None => None,
            Some(number) => message_to(state, number, to),
        },
    }
}

/// The message of this number, where it waits for a signal of the site.
fn message_to(state: &SiteState, number: u64, to: SiteNo) -> Option<FrameView<'_>>
    ensures frame { option_map frame_of result ≡ message_to state.now.engagement to number }
    ensures fits { IfSome result (λ f. IsFor state.now.engagement to (frame_of f)) }
{
    match state.row(number) {
        None => None,
        Some(row) => {
            if row.dest == to {
                frame_named(state, FrameName::Message(number))
            } else {
                None
            }
        }
    }
}

/// The signal of the message, where it is one of the site's and the record makes the signal emittable.
fn owed_signal(state: &SiteState, owed: Option<MsgId>, to: SiteNo) -> Option<FrameView<'_>>
    ensures frame { option_map frame_of result ≡ option_and_then (signal_of state.now.engagement to)
        owed }
    ensures fits { IfSome result (λ f. IsFor state.now.engagement to (frame_of f)) }
{
    match owed {
        None => None,
        Some(message) => {
            if message.site == to {
                frame_named(state, FrameName::Signal(message))
            } else {
                None
            }
        }
    }
}
