//! A world whose sites are kept in memory: each event has one outcome there.

ghost use Rattle.std.specs.Prelude.{◌≡◌, ◌+◌, ℕ, Some, is_some, IfOk, OnOk, length, map, option_and_then, option_map, slice_get};
ghost use Rattle.frame_core.specs.Rows.{frame_of};
ghost use Rattle.site_core.specs.Naming.{frame_named};
ghost use Rattle.world_core.specs.Posting.{IsPlaceOf};
ghost use Rattle.site_core.specs.Records.{Record};
ghost use Rattle.site_core.specs.declared.inputs.SiteInput.{SiteInput};
ghost use Rattle.frame_core.specs.declared.frames.Frame.{Frame};
ghost use Rattle.world_core.specs.Recalls.{ended_in, quarantined};
ghost use Rattle.world_core.specs.Turns.{frame_at, input_at};
ghost use Rattle.world_core.specs.Worlds.{Standing, Up, Down, records};
ghost use Rattle.script_core.specs.Events.{Turns};
ghost use Rattle.script_core.specs.Happening.{Happens, with_site, with_sent};
ghost use Rattle.script_core.specs.State.{up_in};

use event_json::SiteNo;
use frame_core::{FrameView, RecallId};
use keeper_core::{Keep, KeepFault, MemoryKeeper};
use site_core::{Effects, FrameName, Refusal, SiteState};
use std::alloc::AllocError;
use std::marker::Model;
use trace_core::Pair;
use world_core::{Answer, World, WorldEvent, WorldInput};

/// What came of an input.
#[derive(Debug, Drop)]
pub(crate) enum Outcome {
    /// The step was done.
    Did(Effects),
    /// It was refused.
    Refused(Refusal),
    /// The site stopped in it.
    Stopped,
}

/// All sites in memory, and the frames sent.
#[derive(Drop)]
pub(crate) struct MemoryWorld {
    world: World<MemoryKeeper>,
    sent: u64,
}

impl Model for MemoryWorld {
    ghost use Rattle.std.specs.Prelude.{◌≡◌, None, All, length, map};
    ghost use Rattle.std.specs.Coded.{codes};
    ghost use Rattle.site_core.specs.Codes.{coded_record};
    ghost use Rattle.world_core.specs.Worlds.{WorldState};
    ghost use Rattle.script_core.specs.Keepers.{standing_of};

    ghost Value = { WorldState };

    ghost coded = { Prim.hlevel (codes, coded_record) };

    ghost view = { λ w. record { sites = map standing_of w.world.keepers; sent = w.world.sent } };

    // No stop is armed at a keeper: the script keeps those that are.
    ghost invariant = { λ w. All (λ k. k.armed ≡ None) w.world.keepers
        × (w.sent ≡ length w.world.sent) };
}

impl MemoryWorld {
    ghost use Rattle.std.specs.Prelude.{◌≡◌, [], None, All, length};
    ghost use Rattle.script_core.specs.Keepers.{standing_of};

    /// A world at whose keepers no stop is armed, and of which no frame was sent.
    pub(crate) fn new(world: World<MemoryKeeper>) -> MemoryWorld
        requires unarmed { All (λ k. k.armed ≡ None) world.keepers }
        requires unsent { world.sent ≡ [] }
        ensures { result ≡ record { sites = map standing_of world.keepers; sent = [] } }
    {
        MemoryWorld { world, sent: 0 }
    }

    /// The record of a site, `None` while it is closed and where there is no such site.
    pub(crate) fn view(&self, site: SiteNo) -> Option<&SiteState>
        ensures { option_map (λ s. s.now) result ≡ up_in self.now.sites site }
    {
        self.world.view(site)
    }

    /// Whether a site is up.
    pub(crate) fn is_up(&self, site: SiteNo) -> bool
        ensures { result ≡ is_some (up_in self.now.sites site) }
    {
        self.world.view(site).is_some()
    }

    /// The frame that was sent at a place, from 1.
    pub(crate) fn frame(&self, place: u64) -> Option<FrameView<'_>>
        ensures { option_map frame_of result ≡ frame_at self.now.sent place }
    {
        self.world.frame(place)
    }

    /// How many frames were sent.
    pub(crate) fn sent(&self) -> u64
        ensures { result ≡ length self.now.sent }
    {
        self.sent
    }

    /// One event, and its answer.
    fn turn(&mut self, event: WorldEvent) -> Answer
        ensures turns { Turns self.old event result self.new }
        ensures count { length self.new.sites ≡ length self.old.sites }
    {
        let answer = self.world.turn(event);
        if let Answer::Sent(place) = &answer {
            self.sent = *place;
        }
        answer
    }

    /// The step of a site that is up, or the stop that is armed for it.
    pub(crate) fn happen(
        &mut self,
        site: SiteNo,
        armed: Option<Keep>,
        input: WorldInput,
    ) -> Result<Outcome, AllocError>
        ensures does { (old : Record) (given : SiteInput) → up_in self.old.sites site ≡ Some old
            → input_at self.old.sent site input ≡ Some given
            → IfOk result (λ outcome. (standing : Standing)
            × Happens old armed given outcome standing
            × (self.new ≡ with_site self.old site standing)) }
        ensures count { length self.new.sites ≡ length self.old.sites }
    {
        match armed {
            None => self.step(site, input),
            Some(keep) => self.stop(site, input, keep),
        }
    }

    fn step(&mut self, site: SiteNo, input: WorldInput) -> Result<Outcome, AllocError>
        ensures does { (old : Record) (given : SiteInput) → up_in self.old.sites site ≡ Some old
            → input_at self.old.sent site input ≡ Some given
            → IfOk result (λ outcome. (standing : Standing)
            × Happens old None given outcome standing
            × (self.new ≡ with_site self.old site standing)) }
        ensures count { length self.new.sites ≡ length self.old.sites }
    {
        match self.turn(WorldEvent::Step { site, input }) {
            Answer::Done(effects) => Ok(Outcome::Did(effects)),
            Answer::Fault(KeepFault::Refused(why)) => Ok(Outcome::Refused(why)),
            // Only out of memory is left: the site is up, and the frame is for it.
            _ => Err(AllocError),
        }
    }

    fn stop(&mut self, site: SiteNo, input: WorldInput, keep: Keep) -> Result<Outcome, AllocError>
        ensures does { (old : Record) (given : SiteInput) → up_in self.old.sites site ≡ Some old
            → input_at self.old.sent site input ≡ Some given
            → IfOk result (λ outcome. (standing : Standing)
            × Happens old (Some keep) given outcome standing
            × (self.new ≡ with_site self.old site standing)) }
        ensures count { length self.new.sites ≡ length self.old.sites }
    {
        match self.turn(WorldEvent::Stop { site, input, keep }) {
            Answer::Stopped => Ok(Outcome::Stopped),
            // Only out of memory is left.
            _ => Err(AllocError),
        }
    }

    /// Sends the frame that the record of a site that is up makes emittable at a place, from 1, and returns its
    /// place among those sent.
    pub(crate) fn send(&mut self, site: SiteNo, name: FrameName) -> Result<u64, AllocError>
        ensures does { (old : Record) (frame : Frame) → up_in self.old.sites site ≡ Some old
            → frame_named old.engagement name ≡ Some frame
            → IfOk result (λ at. (at ≡ length self.old.sent + 1)
            × (self.new ≡ with_sent self.old frame)) }
        ensures count { length self.new.sites ≡ length self.old.sites }
    {
        match self.post(site, name) {
            Answer::Sent(at) => Ok(at),
            // Only out of memory is left.
            _ => Err(AllocError),
        }
    }

    /// The frame of a name is sent, and what that is answered.
    fn post(&mut self, site: SiteNo, name: FrameName) -> Answer
        ensures { (place : ℕ) × IsPlaceOf (up_in self.old.sites site) name place
            × Turns self.old (WorldEvent.Send site place) result self.new
            × (length self.new.sites ≡ length self.old.sites) }
    {
        let answer = self.world.post(site, name);
        if let Answer::Sent(place) = &answer {
            self.sent = *place;
        }
        answer
    }

    /// Opens a site where it is down.
    pub(crate) fn reopen(&mut self, site: SiteNo) -> Result<(), AllocError>
        ensures does { (r : Record) → slice_get self.old.sites site ≡ Some (Down r)
            → OnOk result (self.new ≡ with_site self.old site (Up r)) }
        ensures count { length self.new.sites ≡ length self.old.sites }
    {
        match self.turn(WorldEvent::Reopen { site }) {
            Answer::Reopened => Ok(()),
            // Only out of memory is left.
            _ => Err(AllocError),
        }
    }

    /// What all sites hold under a recall, where all are up.
    pub(crate) fn quarantined(&self, recall: RecallId) -> Result<Vec<Pair>, AllocError>
        ensures { IfOk result (λ pairs. pairs.items ≡ quarantined recall (records self.now)) }
    {
        match self.world.quarantined(recall) {
            Ok(pairs) => Ok(pairs),
            Err(_) => Err(AllocError),
        }
    }

    /// Whether a recall has ended, `None` where its initiator is down or has no such recall.
    pub(crate) fn ended(&self, recall: RecallId) -> Option<bool>
        ensures { result ≡ option_and_then (ended_in recall) (up_in self.now.sites recall.site) }
    {
        self.world.ended(recall)
    }
}
