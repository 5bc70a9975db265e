//! The frames that a site takes and posts in a turn.
ghost use Rattle.std.specs.Prelude.{◌≡◌, ℕ, ◌+◌, ◌^◌, ◌<◌, ◌≤◌, List, [], ◌∷◌, ◌++◌, Some, None, IfOk, IfErr, IfSome, IsSome, is_some, cond, is_ok, option_and_then, option_map, slice_index_or};
ghost use Rattle.event_json.specs.declared.limits.TheConstants.{MAX_SITES};
ghost use Rattle.frame_core.specs.declared.frames.Frame.{Frame};
ghost use Rattle.scholten_core.specs.Engagement.{Engagement};
ghost use Rattle.site_core.specs.declared.inputs.SiteInput.TheVariants.{Deliver};
ghost use Rattle.wire_core.specs.Answers.{MatchPost};
ghost use Rattle.site_threads.specs.Answering.{Delivers};
ghost use Rattle.site_threads.specs.Keepers.{shown_if};
ghost use Rattle.site_threads.specs.Offers.{IsFor, IsRound, message_of, next_to, offer_of, owed_by};
ghost use Rattle.site_threads.specs.Passing.{DeliversNoted, EntersFrames, OwesNoted, PassNothing, PostsNothing, PostsToEach, TakesNothing, TakesOfEach, incoming, owed_in};
ghost use Rattle.site_threads.specs.Running.{marks_in, MayDeliver};
ghost use Rattle.site_threads.specs.Sites.{Continues};

use crate::asked::Asked;
use crate::following::view_of;
use crate::gates::Gate;
use crate::jobs::Reply;
use crate::offers::offer;
use crate::rounds::Round;
use crate::sites::RunningSite;
use event_json::{MAX_SITES, SiteNo};
use frame_core::{Frame, MsgId};
use keeper_core::SiteKeeper;
use site_core::{SiteInput, SiteState};
use std::alloc::{AllocError, Global};
use wire_core::Post;

/// What became of frames that were taken.
#[derive(Clone, Copy)]
pub struct Received {
    /// How many were entered.
    pub entered: u64,
    /// How many were lost, since memory ran out in their step.
    pub lost: u64,
}

impl Received {
    /// There were none.
    fn none() -> Received
        ensures { result ≡ record { entered = 0; lost = 0 } }
    {
        Received {
            entered: 0,
            lost: 0,
        }
    }
}

/// What became of frames that were to be posted.
#[derive(Clone, Copy)]
pub struct Given {
    /// How many were posted.
    pub posted: u64,
    /// How many weren't offered, since memory ran out for their copies.
    pub uncopied: u64,
}

impl Given {
    /// There were none.
    fn none() -> Given
        ensures { result ≡ record { posted = 0; uncopied = 0 } }
    {
        Given {
            posted: 0,
            uncopied: 0,
        }
    }
}

impl<K: SiteKeeper, G: Gate> RunningSite<'_, K, G> {
    /// Asks the site of this number for a frame, if it is another: takes at most one, applies it and enters it. What
    /// became of it. Nobody is asked while the keeper is closed; a frame whose step finds no memory is lost.
    fn receive(&mut self, number: u64) -> Received
        requires few { marks_in self.old.seat.logs < 2 ^ 62 }
        requires there { (number < self.old.wire.sites) × (number < MAX_SITES) }
        requires room { 0 < self.old.room }
        ensures same { Continues K.stored 1 self.old self.new }
        ensures frames { TakesOfEach K.shown number (number + 1) self.old self.new result.entered
            result.lost }
        ensures posts { PostsNothing self.old self.new }
        ensures delivered { DeliversNoted K.shown K.may K.applies self.old self.new }
        ensures owed { OwesNoted self.old self.new }
        ensures count { result.entered + result.lost ≤ 1 }
    {
        let Some(other) = SiteNo::of(number) else {
            unreachable!()
        };
        if other == self.me {
            return Received::none();
        }
        if view_of(&self.keeper).is_none() {
            return Received::none();
        }
        let Some(frame) = self.wire.take(&mut self.seat, self.me, other) else {
            return Received::none();
        };
        let owed = &mut self.owed;
        owed[other.number() as usize] = message_of(&frame);
        self.enter(frame)
    }

    /// Applies a frame that was taken, and enters it. What became of it.
    fn enter(&mut self, frame: Frame) -> Received
        requires few { marks_in self.old.seat.logs < 2 ^ 62 }
        requires open { IsSome (shown_if K.shown self.old.keeper) }
        requires noted { MayDeliver (Deliver frame) self.old.seat.logs }
        requires room { 0 < self.old.room }
        ensures same { Continues K.stored 1 self.old self.new }
        ensures owed { self.new.owed ≡ self.old.owed }
        ensures frames { EntersFrames (is_some (shown_if K.shown self.old.keeper))
            (is_some (shown_if K.shown self.new.keeper)) (frame ∷ []) self.old.entries
            self.new.entries result.entered result.lost }
        ensures passes { PassNothing self.old self.new }
        ensures delivered { (noted : List Frame) (came : List Frame) → came ≡ noted ++ frame ∷ []
            → Delivers K.shown K.may K.applies self.old.keeper self.new.keeper noted came
            self.old.entries self.new.entries }
        ensures count { result.entered + result.lost ≤ 1 }
    {
        let input = SiteInput::Deliver(frame);
        let asked = Asked::of(&input, None);
        let taken = self.take_in(input, asked);
        count_entered(taken)
    }

    /// Offers the site of this number the frame that the record has for it, if it is another; the frame is posted
    /// unless the mailbox is full. What became of it. Nothing is offered while the keeper is closed.
    fn send(&mut self, number: u64) -> Given
        requires there { (number < self.old.wire.sites) × (number < MAX_SITES) }
        ensures same { Continues K.stored 0 self.old self.new }
        ensures takes { TakesNothing self.old self.new }
        ensures posted { PostsToEach K.shown number (number + 1) (owed_in self.old) self.old
            self.new result.posted result.uncopied }
        ensures count { result.posted + result.uncopied ≤ 1 }
    {
        let Some(to) = SiteNo::of(number) else {
            unreachable!()
        };
        if to == self.me {
            return Given::none();
        }
        let place = to.number() as usize;
        let owed = owed_at(&self.owed, to);
        let next = next_message(&self.keeper, &mut self.rounds[place], to);
        let Some(state) = view_of(&self.keeper) else {
            return Given::none();
        };
        let Ok(found) = offered(self.alloc, state, owed, to, next) else {
            return Given {
                posted: 0,
                uncopied: 1,
            };
        };
        let Some(frame) = found else {
            return Given::none();
        };
        let message = number_of(&frame);
        let posted = count_posted(self.wire.post(&mut self.seat, frame));
        self.rounds[place] = self.rounds[place].behind(posted, message);
        Given {
            posted,
            uncopied: 0,
        }
    }

    /// Asks each other site once, in the order of their numbers, takes at most one frame from each, and applies it.
    /// What became of them. A step in which the site stops is the last one.
    pub(crate) fn receive_all(&mut self) -> Received
        requires few { marks_in self.old.seat.logs < 2 ^ 61 + 18 }
        requires room { self.old.wire.sites ≤ self.old.room }
        ensures same { Continues K.stored MAX_SITES self.old self.new }
        ensures frames { TakesOfEach K.shown 0 self.old.wire.sites self.old self.new result.entered
            result.lost }
        ensures posts { PostsNothing self.old self.new }
        ensures delivered { DeliversNoted K.shown K.may K.applies self.old self.new }
        ensures owed { (took : List Frame)
            → (incoming self.new.seat.logs).noted ≡ (incoming self.old.seat.logs).noted ++ took
            → (to : ℕ) → owed_in self.new to ≡ owed_by took to }
    {
        self.owed = nothing_owed();
        let mut entered = 0;
        let mut lost = 0;
        for number in 0..self.wire.sites() {
            let one = self.receive(number as u64);
            entered += one.entered;
            lost += one.lost;
        }
        Received { entered, lost }
    }

    /// Offers each other site the frame that the record has for it, in the order of their numbers. What became of them.
    pub(crate) fn send_all(&mut self) -> Given
        ensures same { Continues K.stored 0 self.old self.new }
        ensures takes { TakesNothing self.old self.new }
        ensures posted { PostsToEach K.shown 0 self.old.wire.sites (owed_in self.old) self.old
            self.new result.posted result.uncopied }
        ensures count { result.posted + result.uncopied ≤ self.old.wire.sites }
    {
        let mut posted = 0;
        let mut uncopied = 0;
        for number in 0..self.wire.sites() {
            let one = self.send(number as u64);
            posted += one.posted;
            uncopied += one.uncopied;
        }
        Given { posted, uncopied }
    }
}

/// The number of the next message for a site of the record that is shown.
fn next_message<K: SiteKeeper>(keeper: &Option<K>, round: &mut Round, to: SiteNo) -> Option<u64>
    requires round { IfSome (shown_if K.shown keeper.now) (λ r. IsRound r.engagement to round.old) }
    ensures next { result ≡ option_and_then (λ r. next_to r.engagement to round.old.place)
        (shown_if K.shown keeper.now) }
    ensures round { (e : Engagement) → IfSome (shown_if K.shown keeper.now) (λ r. r.engagement ≡ e)
        → IsRound e to round.old → IsRound e to round.new }
    ensures place { round.new.place ≡ round.old.place }
{
    match view_of(keeper) {
        Some(state) => round.find(state, to),
        None => None,
    }
}

/// A copy of what the record has for the other site, if anything.
///
/// # Errors
/// Where there is something, and no memory for its copy.
fn offered(
    alloc: Global,
    state: &SiteState,
    owed: Option<MsgId>,
    to: SiteNo,
    next: Option<u64>,
) -> Result<Option<Frame>, AllocError>
    ensures found { IfOk result (λ found. found ≡ offer_of state.now.engagement to owed next) }
    ensures fits { IfOk result (λ found. IfSome found (IsFor state.now.engagement to)) }
    ensures uncopied { IfErr result (λ _. IsSome (offer_of state.now.engagement to owed next)) }
{
    match offer(state, owed, to, next) {
        None => Ok(None),
        Some(frame) => match frame.to_frame(alloc) {
            Ok(copy) => Ok(Some(copy)),
            Err(error) => Err(error),
        },
    }
}

/// What became of a frame that was taken: its step was entered, or found no memory.
fn count_entered(taken: Result<Reply, Asked>) -> Received
    ensures entered { result.entered ≡ cond (is_ok taken) 1 0 }
    ensures lost { result.lost ≡ cond (is_ok taken) 0 1 }
{
    match taken {
        Ok(_) => Received {
            entered: 1,
            lost: 0,
        },
        Err(asked) => {
            drop(asked);
            Received {
                entered: 0,
                lost: 1,
            }
        }
    }
}

/// How many frames were posted.
fn count_posted(answer: Post) -> u64
    ensures count { result ≤ 1 }
    ensures posted { MatchPost answer (result ≡ 1) (λ f. result ≡ 0) }
{
    match answer {
        Post::Posted => 1,
        Post::Full(frame) => {
            drop(frame);
            0
        }
    }
}

/// No message was taken yet.
fn nothing_owed() -> [Option<MsgId>; MAX_SITES]
    ensures { (to : ℕ) → slice_index_or result to None ≡ None }
{
    [None; MAX_SITES]
}

/// What is owed to a site.
fn owed_at(owed: &[Option<MsgId>; MAX_SITES], to: SiteNo) -> Option<MsgId>
    ensures { result ≡ slice_index_or owed.now to None }
{
    owed[to.number() as usize]
}

/// The message that a frame is. `None` of a signal.
fn message_of(frame: &Frame) -> Option<MsgId>
    ensures { result ≡ message_of frame.now }
{
    match frame {
        Frame::Recall { id, .. } => Some(*id),
        Frame::Signal { .. } => None,
    }
}

/// The number of the message that a frame is. `None` of a signal.
fn number_of(frame: &Frame) -> Option<u64>
    ensures { result ≡ option_map (λ m. m.number) (message_of frame.now) }
{
    match frame {
        Frame::Recall { id, .. } => Some(id.number),
        Frame::Signal { .. } => None,
    }
}
