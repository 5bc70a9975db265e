//! The world: all sites with their keepers, and the frames sent.
ghost use Rattle.std.specs.Prelude.{◌≡◌, ℕ, List, [], IfOk, IfErr, OnOk, OnErr};
ghost use Rattle.std.specs.Prelude.{option_map, option_and_then, slice_get};
ghost use Rattle.frame_core.specs.Rows.{frame_of};
ghost use Rattle.site_core.specs.Records.{Record};
ghost use Rattle.world_core.specs.Faults.{HindersKeepers, IfClosed, MakeAWorld};
ghost use Rattle.trace_core.specs.Pairs.{IsStrictlyAscending};
ghost use Rattle.world_core.specs.Keepers.{AllShow, Become, IsFirstClosed, MayBe, SitesFit};
ghost use Rattle.world_core.specs.Keepers.{sites_of};
ghost use Rattle.world_core.specs.Kinds.{KeepersTurn};
ghost use Rattle.world_core.specs.Laws.{ComesOut};
ghost use Rattle.world_core.specs.Posting.{IsPlaceAt};
ghost use Rattle.world_core.specs.Recalls.{AreExactOnceEnded, ended_in, quarantined};
ghost use Rattle.world_core.specs.Restarting.{AreStored, MakeAWorldAgain};
ghost use Rattle.world_core.specs.Turns.{Turns, frame_at};
ghost use Rattle.world_core.specs.Worlds.{WorldState};

use crate::events::{Answer, WorldEvent};
use crate::faults::{NotAWorld, ViewFault};
use crate::forming::together;
use crate::recalls::ended_at;
use crate::turns::{post, sent_at, take_turn};
use crate::views::views;
use event_json::SiteNo;
use frame_core::{Frame, FrameView, RecallId};
use keeper_core::SiteKeeper;
use site_core::{FrameName, SiteState};
use site_recovery::quarantined;
use std::alloc::{AllocError, Global};
use std::marker::Model;
use trace_core::Pair;

/// All sites, each with its keeper, in the order of their numbers, and the frames that were ever sent.
#[derive(Drop)]
pub struct World<K: SiteKeeper> {
    keepers: Vec<K>,
    sent: Vec<Frame>,
    alloc: Global,
}

impl<K: SiteKeeper> Model for World<K> {
    ghost use Rattle.world_core.specs.Keepers.{Sites, SitesFit, sites_of};
    ghost use Rattle.world_core.specs.Restarting.{AreOfOneList};

    ghost Value = { Sites K };

    ghost view = { λ w. sites_of w.keepers.items w.sent.items };

    // In whatever records the closed sites are opened, all are consistent, and of one list of sites.
    ghost invariant = { λ w.
        SitesFit K.shown K.may (sites_of w.keepers.items w.sent.items)
        × AreOfOneList K.shown K.may (sites_of w.keepers.items w.sent.items) };
}

impl<K: SiteKeeper> World<K> {
    /// The world of these keepers, each open, one for each site of the list that all of them have, in order. Their
    /// records are consistent, as those do at which nothing happened yet, and no frame was sent.
    ///
    /// # Errors
    /// In this order: `Closed`, `OtherSites`, `Misfit`; and `NoMemory`. The keepers are given back as they were.
    pub fn new(alloc: Global, keepers: Vec<K>) -> Result<World<K>, NotAWorld<K>>
        ensures world { IfOk result (λ world. world ≡ sites_of keepers.items []) }
        ensures shown { OnOk result ((records : List Record) × AllShow K.shown keepers.items records
            × MakeAWorld records) }
        ensures back { IfErr result (λ e. e.keepers.items ≡ keepers.items) }
        ensures err { IfErr result (λ e. HindersKeepers K.shown keepers.items e.fault) }
    {
        match together(alloc, &keepers) {
            Ok(()) => Ok(World {
                keepers,
                sent: Vec::new(alloc),
                alloc,
            }),
            Err(fault) => Err(NotAWorld { keepers, fault }),
        }
    }

    /// One event, and its answer.
    pub fn turn(&mut self, event: WorldEvent) -> Answer
        // `turn` is one event of the definition, in each world that closed keepers may be.
        ensures world { Become K.shown K.may self.old self.new
            (λ old new. Turns old event result new) }
        // What a crash leaves on the sites' devices is handed on by each event and each run.
        ensures stored { AreStored K.stored self.old.keepers → AreStored K.stored self.new.keepers }
        // For a caller that knows what this kind of keeper promises.
        ensures kind { KeepersTurn K.shown K.applies K.stops K.reopens
            self.old event result self.new }
    {
        take_turn(self.alloc, &mut self.keepers, &mut self.sent, event)
    }

    /// Sends the frame of a name, and returns what a turn does that sends the frame at its place among those that the
    /// record of the site makes emittable; `NoFrame` where it makes none of that name so. It looks that frame up, and
    /// doesn't go through those before it.
    pub fn post(&mut self, site: SiteNo, name: FrameName) -> Answer
        // Not covered: that it looks the frame up and doesn't go through those before it.
        ensures { (place : ℕ) × IsPlaceAt K.shown self.old.keepers site name place
            × Become K.shown K.may self.old self.new
            (λ old new. Turns old (WorldEvent.Send site place) result new)
            × KeepersTurn K.shown K.applies K.stops K.reopens self.old
            (WorldEvent.Send site place) result self.new }
    {
        post(self.alloc, &self.keepers, &mut self.sent, site, name)
    }

    /// A list of events, one after another, and the answer to each. Each site stands then as its answered steps in
    /// order, with each step that it went down in whole or absent; a frame is sent only as the kept record of an open
    /// site makes it emittable; and whenever the site that began a recall has recorded its end, at each moment and
    /// afterwards, what is quarantined under it, at all sites, is what its root reaches, each pair once, and stays so.
    /// Started again, the sites make a world again. A crash leaves on the sites' devices what they show, or may be
    /// opened in, as before.
    ///
    /// # Errors
    /// Where there is no room for all answers: before the first event, and nothing changes.
    pub fn run(&mut self, events: Vec<WorldEvent>) -> Result<Vec<Answer>, AllocError>
        // The headline, field by field: the run, each site's steps, the frames, the ended recalls at each moment, and
        // that the sites started again make a world again.
        // Not covered: that a run ends a recall: only that one can.
        ensures headline { IfOk result (λ answers. Become K.shown K.may self.old self.new
            (λ old new. ComesOut old events.items answers.items new)) }
        ensures stored { AreStored K.stored self.old.keepers → AreStored K.stored self.new.keepers }
        ensures err { OnErr result (self.new ≡ self.old) }
    {
        let mut answers = Vec::with_capacity(self.alloc, events.len())?;
        for event in events {
            // There is room for it.
            let answer = self.turn(event);
            let _ = answers.push(answer);
        }
        Ok(answers)
    }

    /// The record of a site, or None while it is closed, and where there is no such site.
    pub fn view(&self, site: SiteNo) -> Option<&SiteState>
        ensures { option_map (λ s. s.now) result
            ≡ option_and_then K.shown (slice_get self.now.keepers site) }
    {
        self.keepers.get(site.number() as usize)?.view()
    }

    /// The frame that was sent at a place, from 1.
    pub fn frame(&self, place: u64) -> Option<FrameView<'_>>
        ensures { option_map frame_of result ≡ frame_at self.now.sent place }
    {
        Some(sent_at(&self.sent, place)?.view())
    }

    /// What is quarantined under a recall, at all sites: each pair once, by site, and then by item. Once the site that
    /// began the recall has recorded its end, these are just the pairs that chains of made and shipped items reach from
    /// its root, through the events that all sites captured.
    ///
    /// # Errors
    /// `Closed` with the least site that is closed.
    pub fn quarantined(&self, recall: RecallId) -> Result<Vec<Pair>, ViewFault>
        ensures ok { IfOk result (λ pairs. (records : List Record)
            × AllShow K.shown self.now.keepers records
            × (pairs.items ≡ quarantined recall records)) }
        ensures ascending { IfOk result (λ pairs. IsStrictlyAscending pairs.items) }
        ensures exact { IfOk result (λ pairs. (records : List Record)
            → AllShow K.shown self.now.keepers records
            → AreExactOnceEnded recall records pairs.items) }
        ensures closed { IfErr result (λ fault.
            IfClosed fault (IsFirstClosed K.shown self.now.keepers)) }
    {
        let states = views(self.alloc, &self.keepers)?;
        Ok(quarantined(self.alloc, &states, recall)?)
    }

    /// Whether a recall has ended. None where the site that began it is closed, and where it has no such recall.
    /// Does not allocate.
    pub fn ended(&self, recall: RecallId) -> Option<bool>
        ensures { result ≡ option_and_then (ended_in recall)
            (option_and_then K.shown (slice_get self.now.keepers recall.site)) }
    {
        ended_at(self.view(recall.site)?, recall)
    }

    /// At least one world is possible, so claims about all of them aren't vacuous. Each is consistent, and its records
    /// make a world again once the sites are started again, when no frame is in flight.
    pub fn stands(&self)
        ensures some { (world : WorldState) × MayBe K.shown K.may self.now world }
        ensures fits { SitesFit K.shown K.may self.now }
        // All sites started again, in whatever records they may be opened, make a world again, in which no frame is in
        // flight.
        ensures again { MakeAWorldAgain K.shown K.may self.now }
    {
        let _ = &self.keepers;
    }

    /// The keepers, in the order of their sites.
    pub fn into_keepers(self) -> Vec<K>
        ensures { result.items ≡ self.keepers }
    {
        self.keepers
    }
}
