//! The calls on a seat: a few steps each.

ghost use Rattle.std.specs.Prelude.{◌≡◌, ◌+◌, ◌*◌, ◌<◌, ◌≤◌, [], length, MatchOption};
ghost use Rattle.event_json.specs.declared.limits.TheConstants.{MAX_SITES};
ghost use Rattle.world_core.specs.Turns.{addressee};
ghost use Rattle.wire_core.specs.Answers.{MatchPost, MayPost, MayTake, MayMark};
ghost use Rattle.wire_core.specs.Changes.{on, asks, offers, sends, receives, marks, below, from, AtRest, Level, AllBut, OneMore, Sent};
ghost use Rattle.wire_core.specs.Frames.{sender};

use crate::rules::{Hub, Token};
use crate::steps::{EMPTY, FULL, claim, cut, mark, note, publish, release, split};
use crate::ways;
use crate::ways::slot_index;
use event_json::SiteNo;
use frame_core::Frame;
use site_core::{SiteInput, SiteState};
use std::marker::Brand;
use std::snapshot::Snapshot;
use world_core::addressee;

/// What became of a frame that was to be posted.
#[derive(Debug, Drop, PartialEq, Eq)]
pub enum Post {
    /// It lies in the mailbox.
    Posted,
    /// It comes back: another one lies in the mailbox, or is being taken from it.
    Full(Frame),
}

/// Claims the mailbox to the frame's addressee, fills it and publishes it.
pub fn post_on(hub: &Hub, token: &mut Token, frame: Frame) -> Post
    requires seat { (token.old.table_id ≡ hub.now.table_id) × (token.old.me.1 ≡ [])
        × AtRest token.old.me.0.sites }
    requires layout { (hub.now.table_id.words ≡ MAX_SITES + MAX_SITES * length hub.now.key.items)
        × (length hub.now.key.items ≤ MAX_SITES) }
    requires site { sender frame < length hub.now.key.items }
    requires may { MayPost (length hub.now.key.items) frame token.old.me.0.sites }
    ensures seat { (token.new.table_id ≡ token.old.table_id) × (token.new.me.1 ≡ []) }
    ensures answer { MatchPost result ((token.new.me.0.sites ≡ on (sender frame) (sends frame)
        token.old.me.0.sites) × Level (sender frame) (addressee frame) token.old.me.0.sites)
        (λ f. (f ≡ frame) × (token.new.me.0.sites ≡ on (sender frame) (offers frame)
        token.old.me.0.sites) × Sent (sender frame) (addressee frame) token.old.me.0.sites
        × OneMore (sender frame) (addressee frame) token.old.me.0.sites) }
{
    let from = ways::sender(&frame);
    let to = addressee(&frame);
    if claim::<Brand>(hub, token, from, to, &frame) != EMPTY {
        return Post::Full(frame);
    }
    drop(hub.exchange(token, slot_index(from, to), Some(frame)));
    publish(hub, token, from, to);
    Post::Posted
}

/// Claims the mailbox from the other site and notes the frame in it, empties it and releases it.
pub fn take_on(hub: &Hub, token: &mut Token, to: SiteNo, from: SiteNo) -> Option<Frame>
    requires seat { (token.old.table_id ≡ hub.now.table_id) × (token.old.me.1 ≡ [])
        × AtRest token.old.me.0.sites }
    requires layout { (hub.now.table_id.words ≡ MAX_SITES + MAX_SITES * length hub.now.key.items)
        × (length hub.now.key.items ≤ MAX_SITES) }
    requires site { to < length hub.now.key.items }
    requires may { MayTake (length hub.now.key.items) to from token.old.me.0.sites }
    ensures seat { (token.new.table_id ≡ token.old.table_id) × (token.new.me.1 ≡ []) }
    ensures answer { MatchOption result ((token.new.me.0.sites ≡ on to (asks from)
        token.old.me.0.sites) × Level from to token.old.me.0.sites)
        (λ f. (token.new.me.0.sites ≡ on to (receives from f) token.old.me.0.sites)
        × (sender f ≡ from) × (addressee f ≡ to) × AllBut from to f token.old.me.0.sites) }
{
    if note::<Brand>(hub, token, from, to) != FULL {
        return None;
    }
    let frame = hub.exchange(token, slot_index(from, to), None);
    release::<Brand>(hub, token, from, to);
    frame
}

/// One mark.
pub fn mark_on(hub: &Hub, token: &mut Token, input: &Snapshot<SiteInput>, new: &SiteState)
    requires seat { (token.old.table_id ≡ hub.now.table_id) × (token.old.me.1 ≡ [])
        × (new.now.engagement.me < hub.now.table_id.words) }
    requires step { MayMark input.now.value new.now token.old.me.0.sites }
    ensures seat { (token.new.table_id ≡ token.old.table_id) × (token.new.me.1 ≡ []) }
    ensures marked { token.new.me.0.sites ≡ on new.now.engagement.me (marks input.now.value new.now)
        token.old.me.0.sites }
{
    mark::<Brand>(hub, token, input, new);
}

/// A cut, and the split there: the sites from `at` on go to the seat that is returned.
pub fn split_on(hub: &Hub, token: &mut Token, at: SiteNo) -> Token
    requires { (token.old.table_id ≡ hub.now.table_id) × (token.old.me.1 ≡ [])
        × (0 < hub.now.table_id.words) }
    ensures seats { (token.new.table_id ≡ token.old.table_id) × (token.new.me.1 ≡ [])
        × (result.table_id ≡ token.old.table_id) × (result.me.1 ≡ []) }
    ensures parts { (token.new.me.0.sites ≡ below at token.old.me.0.sites)
        × (result.me.0.sites ≡ from at token.old.me.0.sites) }
{
    cut::<Brand>(hub, token, at);
    split(hub, token)
}
