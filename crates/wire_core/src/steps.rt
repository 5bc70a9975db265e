//! The seven kinds of atomic step, one call of the table each.

ghost use Rattle.std.specs.Prelude.{◌≡◌, ◌≢◌, ℕ, ◌+◌, ◌*◌, ◌<◌, ◌≤◌, [], ◌∷◌, length, Some, None, Contains};
ghost use Rattle.event_json.specs.declared.limits.TheConstants.{MAX_SITES};
ghost use Rattle.frame_core.specs.declared.frames.Frame.{Frame};
ghost use Rattle.site_core.specs.Emitting.{emittable};
ghost use Rattle.world_core.specs.Turns.{addressee};
ghost use Rattle.wire_core.specs.declared.views.Log.{Log};
ghost use Rattle.wire_core.specs.declared.views.Doing.TheVariants.{Nothing, Writes, Reads};
ghost use Rattle.wire_core.specs.Answers.{MayMark};
ghost use Rattle.wire_core.specs.Changes.{Claimed, Published, Noted, Released, Marked, Cut, marks, offers, left, right, both};
ghost use Rattle.wire_core.specs.Frames.{sender};
ghost use Rattle.wire_core.specs.Mailboxes.{slot_of};

use crate::rules::{Hub, Token};
use crate::views::View;
use crate::ways::word_index;
use atomic_table::{Join, Play, Split};
use event_json::SiteNo;
use frame_core::Frame;
use site_core::{SiteInput, SiteState};
use std::marker::{Brand, PhantomData};
use std::snapshot::Snapshot;

/// Nothing lies in the mailbox.
pub const EMPTY: u64 = 0;

/// Its sender fills it.
pub const WRITING: u64 = 1;

/// A frame lies in it.
pub const FULL: u64 = 2;

/// Its receiver empties it.
pub const READING: u64 = 3;

/// A way from one site to another, for a proof to name.
pub trait Way {
    ghost from: { ℕ };

    ghost to: { ℕ };
}

impl Way for Brand {
    ghost from = { 0 };

    ghost to = { 0 };
}

/// A frame that is offered on a way, for a proof to name: the change that this makes in its sender's log.
pub trait Offering {
    ghost use Rattle.wire_core.specs.declared.views.Log.{Log};

    ghost from: { ℕ };

    ghost to: { ℕ };

    ghost offer: { Log → Log };
}

impl Offering for Brand {
    ghost from = { 0 };

    ghost to = { 0 };

    ghost offer = { λ e. e };
}

/// What a claim says.
pub struct Claims<N> {
    marker: PhantomData<N>,
}

impl<N: Offering> Play<Option<Frame>, View> for Claims<N> {
    ghost then = { λ s m found n. Claimed N.from N.to N.offer m found n };
}

/// The sender claims the mailbox, EMPTY to WRITING, for a frame that it offers.
pub fn claim<N: Offering>(
    hub: &Hub,
    token: &mut Token,
    from: SiteNo,
    to: SiteNo,
    frame: &Frame,
) -> u64
    requires way { (N.from ≡ from) × (N.to ≡ to) × (N.offer ≡ offers frame.now) × (from ≢ to) }
    requires seat { (token.old.table_id ≡ hub.now.table_id) × (token.old.me.1 ≡ []) }
    requires layout { (hub.now.table_id.words ≡ MAX_SITES + MAX_SITES * length hub.now.key.items)
        × (length hub.now.key.items ≤ MAX_SITES) }
    requires sites { (from < length hub.now.key.items) × (to < length hub.now.key.items) }
    requires rests { (e : Log) × Contains token.old.me.0.sites e × (e.site ≡ from)
        × (e.doing ≡ Nothing) }
    ensures seat { token.new.table_id ≡ token.old.table_id }
    ensures told { Claimed from to (offers frame.now) token.old.me result token.new.me }
{
    let _ = frame;
    hub.compare_exchange::<Claims<N>>(token, word_index(from, to), EMPTY, WRITING)
}

/// What a publishing says.
pub struct Publishes;

impl Play<Option<Frame>, View> for Publishes {
    ghost then = { λ s m found n. Published m n };
}

/// The sender stores FULL: the frame in its hands is sent.
pub fn publish(hub: &Hub, token: &mut Token, from: SiteNo, to: SiteNo)
    requires seat { token.old.table_id ≡ hub.now.table_id }
    requires layout { (hub.now.table_id.words ≡ MAX_SITES + MAX_SITES * length hub.now.key.items)
        × (length hub.now.key.items ≤ MAX_SITES) }
    requires sites { (from ≢ to) × (from < length hub.now.key.items)
        × (to < length hub.now.key.items) }
    requires frame { (f : Frame) × (token.old.me.1 ≡ (slot_of from to, Some f) ∷ [])
        × (sender f ≡ from) × (addressee f ≡ to) × (e : Log) × Contains token.old.me.0.sites e
        × (e.site ≡ from) × (e.doing ≡ Writes to) × Contains (emittable e.last.engagement) f }
    ensures seat { token.new.table_id ≡ token.old.table_id }
    ensures told { Published token.old.me token.new.me }
{
    hub.store::<Publishes>(token, word_index(from, to), FULL);
}

/// What a noting says.
pub struct Notes<N> {
    marker: PhantomData<N>,
}

impl<N: Way> Play<Option<Frame>, View> for Notes<N> {
    ghost then = { λ s m found n. Noted N.from N.to m found n };
}

/// The receiver claims the mailbox, FULL to READING, and notes the frame.
pub fn note<N: Way>(hub: &Hub, token: &mut Token, from: SiteNo, to: SiteNo) -> u64
    requires way { (N.from ≡ from) × (N.to ≡ to) × (from ≢ to) }
    requires seat { (token.old.table_id ≡ hub.now.table_id) × (token.old.me.1 ≡ []) }
    requires layout { (hub.now.table_id.words ≡ MAX_SITES + MAX_SITES * length hub.now.key.items)
        × (length hub.now.key.items ≤ MAX_SITES) }
    requires sites { (from < length hub.now.key.items) × (to < length hub.now.key.items) }
    requires rests { (e : Log) × Contains token.old.me.0.sites e × (e.site ≡ to)
        × (e.doing ≡ Nothing) }
    ensures seat { token.new.table_id ≡ token.old.table_id }
    ensures told { Noted from to token.old.me result token.new.me }
{
    hub.compare_exchange::<Notes<N>>(token, word_index(from, to), FULL, READING)
}

/// What a release says.
pub struct Releases<N> {
    marker: PhantomData<N>,
}

impl<N: Way> Play<Option<Frame>, View> for Releases<N> {
    ghost then = { λ s m found n. Released N.to m n };
}

/// The receiver stores EMPTY.
pub fn release<N: Way>(hub: &Hub, token: &mut Token, from: SiteNo, to: SiteNo)
    requires way { (N.to ≡ to) × (from ≢ to) }
    requires seat { (token.old.table_id ≡ hub.now.table_id)
        × (token.old.me.1 ≡ (slot_of from to, None) ∷ []) }
    requires layout { (hub.now.table_id.words ≡ MAX_SITES + MAX_SITES * length hub.now.key.items)
        × (length hub.now.key.items ≤ MAX_SITES) }
    requires sites { (from < length hub.now.key.items) × (to < length hub.now.key.items) }
    requires reads { (e : Log) × Contains token.old.me.0.sites e × (e.site ≡ to)
        × (e.doing ≡ Reads from) }
    ensures seat { token.new.table_id ≡ token.old.table_id }
    ensures told { Released to token.old.me token.new.me }
{
    hub.store::<Releases<N>>(token, word_index(from, to), EMPTY);
}

/// A mark, for a proof to name.
pub trait Marking {
    ghost use Rattle.wire_core.specs.declared.views.Log.{Log};

    ghost site: { ℕ };

    ghost change: { Log → Log };
}

impl Marking for Brand {
    ghost site = { 0 };

    ghost change = { λ e. e };
}

/// What a mark says.
pub struct Marks<N> {
    marker: PhantomData<N>,
}

impl<N: Marking> Play<Option<Frame>, View> for Marks<N> {
    ghost then = { λ s m found n. Marked N.site N.change m n };
}

/// One more input of the site is marked, with the record after it.
pub fn mark<N: Marking>(hub: &Hub, token: &mut Token, input: &Snapshot<SiteInput>, new: &SiteState)
    requires marking { (N.site ≡ new.now.engagement.me)
        × (N.change ≡ marks input.now.value new.now) }
    requires seat { (token.old.table_id ≡ hub.now.table_id) × (token.old.me.1 ≡ [])
        × (new.now.engagement.me < hub.now.table_id.words) }
    requires step { MayMark input.now.value new.now token.old.me.0.sites }
    ensures seat { token.new.table_id ≡ token.old.table_id }
    ensures told { Marked new.now.engagement.me (marks input.now.value new.now) token.old.me
        token.new.me }
{
    let _ = input;
    hub.fetch_add::<Marks<N>>(token, new.me().number() as usize, 1);
}

/// Where a seat is to be split, for a proof to name.
pub trait Cutting {
    ghost at: { ℕ };
}

impl Cutting for Brand {
    ghost at = { 0 };
}

/// What a cut says.
pub struct Cuts<N> {
    marker: PhantomData<N>,
}

impl<N: Cutting> Play<Option<Frame>, View> for Cuts<N> {
    ghost then = { λ s m found n. Cut N.at m n };
}

/// The seat notes where it is to be split: the first half of a split.
pub fn cut<N: Cutting>(hub: &Hub, token: &mut Token, at: SiteNo)
    requires cutting { N.at ≡ at }
    requires seat { (token.old.table_id ≡ hub.now.table_id) × (token.old.me.1 ≡ [])
        × (0 < hub.now.table_id.words) }
    ensures seat { token.new.table_id ≡ token.old.table_id }
    ensures told { Cut at token.old.me token.new.me }
{
    let _ = at;
    hub.load::<Cuts<N>>(token, 0);
}

/// How views are parted and put together.
pub struct Parts;

impl Split<View> for Parts {
    ghost use Rattle.wire_core.specs.Changes.{left, right};

    ghost left = { left };

    ghost right = { right };
}

impl Join<View> for Parts {
    ghost use Rattle.wire_core.specs.Changes.{both, spent};

    ghost both = { both };

    ghost spent = { spent };
}

/// The sites below the cut stay, and the others go to a new seat.
pub fn split(hub: &Hub, token: &mut Token) -> Token
    requires { (token.old.table_id ≡ hub.now.table_id) × (0 < hub.now.table_id.words) }
    ensures seat { (token.new.table_id ≡ token.old.table_id)
        × (result.table_id ≡ token.old.table_id) }
    ensures parts { (token.new.me ≡ (left token.old.me.0, token.old.me.1))
        × (result.me ≡ (right token.old.me.0, [])) }
{
    hub.split_seat::<Parts>(token)
}

/// The seat takes in the sites of another.
pub fn join(hub: &Hub, token: &mut Token, other: Token)
    requires { (token.old.table_id ≡ hub.now.table_id) × (other.table_id ≡ hub.now.table_id)
        × (other.me.1 ≡ []) × (0 < hub.now.table_id.words) }
    ensures { (token.new.table_id ≡ token.old.table_id)
        × (token.new.me ≡ (both token.old.me.0 other.me.0, token.old.me.1)) }
{
    hub.join_seat::<Parts>(token, other);
}
