//! All that one site keeps.
ghost use Rattle.std.specs.Prelude.{◌≡◌, ◌<◌, length, option_map, IfOk};
ghost use Rattle.std.specs.Ordering.{nat_cmp};
ghost use Rattle.std.specs.FinMap as map;
ghost use Rattle.frame_core.specs.Identifiers.{recall_cmp, message_cmp};
ghost use Rattle.frame_core.specs.Outboxes.{IsNextTo};
ghost use Rattle.frame_core.specs.Rows.{row_of};
ghost use Rattle.frame_core.specs.Tables.{as_map};
ghost use Rattle.frame_core.specs.Unsignalled.{IsNextNumber};
ghost use Rattle.site_core.specs.Records.{fresh, IsSound};

use crate::quarantines::Quarantine;
use crate::shortcuts::Shortcuts;
use event_json::{SiteNo, Sites};
use frame_core::{MsgId, RecallId, Row, RowView};
use scholten_core::{Diffusion, Own};
use std::alloc::{AllocError, Global};
use std::collections::BTreeMap;
use std::hash::RandomState;
use std::marker::Model;
use trace_core::Captured;

/// All that one site keeps: the list of sites, the events that it captured, the items that are
/// quarantined at it, and its part in the recalls that pass it. Beside them it keeps what it knows of the
/// quarantine, so that a message's search may stop at what is held.
///
/// Every site number in it is of its list, and every message and recall number is 1 to 2^62.
#[derive(Debug)]
pub struct SiteState {
    pub(crate) sites: Sites,
    pub(crate) captured: Captured,
    pub(crate) quarantine: Quarantine,
    pub(crate) diffusion: Diffusion,
    pub(crate) shortcuts: Shortcuts,
    pub(crate) alloc: Global,
}

// It is written out, so that a caller does not prove again how all that a site keeps is dropped.
impl Drop for SiteState {
    fn drop(self) {
        let SiteState {
            sites: _,
            captured: _,
            quarantine: _,
            diffusion: _,
            shortcuts: _,
            alloc: _,
        } = self;
    }
}

impl Model for SiteState {
    ghost use Rattle.site_core.specs.Codes.{coded_record};
    ghost use Rattle.site_core.specs.Records.{Record, IsSound};
    ghost use Rattle.site_core.specs.Shortcuts.{AreShortcuts};

    ghost Value = { Record };

    ghost coded = { coded_record };

    ghost view = { λ s. record {
      sites = s.sites;
      captured = s.captured;
      quarantine = s.quarantine;
      engagement = s.diffusion;
    } };

    ghost invariant = { λ s. IsSound (record {
      sites = s.sites;
      captured = s.captured;
      quarantine = s.quarantine;
      engagement = s.diffusion;
    })
        × AreShortcuts s.captured s.quarantine s.shortcuts };
}

impl SiteState {
    /// The site `me` of these sites, which has captured nothing yet, with the keys of the hash by which items are
    /// numbered, drawn at random, so that nobody can choose texts that collide. Does not allocate.
    pub fn new(alloc: Global, keys: RandomState, sites: Sites, me: SiteNo) -> SiteState
        requires of_the_list { me < length sites }
        ensures { result ≡ fresh sites me }
    {
        let quarantine = Quarantine::new(alloc);
        let shortcuts = Shortcuts::new(alloc, &quarantine);
        SiteState {
            sites,
            captured: Captured::new(alloc, keys, me),
            quarantine,
            diffusion: Diffusion::new(alloc, me),
            shortcuts,
            alloc,
        }
    }

    /// A site that keeps just this. Whether what is quarantined is closed inside the site is found out here, by a
    /// search for each recall. Memory may run out in it: then that isn't known, and messages of recalls are found
    /// by searches that don't stop at what is quarantined, with the same answers.
    pub fn restore(
        alloc: Global,
        sites: Sites,
        captured: Captured,
        quarantine: Quarantine,
        diffusion: Diffusion,
    ) -> SiteState
        requires sound { IsSound (record {
          sites = sites;
          captured = captured;
          quarantine = quarantine;
          engagement = diffusion;
        }) }
        ensures { result ≡ record {
          sites = sites;
          captured = captured;
          quarantine = quarantine;
          engagement = diffusion;
        } }
    {
        let shortcuts = Shortcuts::found(alloc, &captured, &quarantine);
        SiteState {
            sites,
            captured,
            quarantine,
            diffusion,
            shortcuts,
            alloc,
        }
    }

    /// The site's own number.
    pub fn me(&self) -> SiteNo
        ensures me { result ≡ self.now.engagement.me }
        // The record is sound: the sites, the captured events, the quarantine and the engagement, with every site
        // number of the list and every number in range.
        ensures sound { IsSound self.now }
    {
        self.diffusion.me()
    }

    /// All sites, in the order of their numbers.
    pub fn sites(&self) -> &Sites
        ensures { result.now ≡ self.now.sites }
    {
        &self.sites
    }

    /// The captured events.
    pub fn captured(&self) -> &Captured
        ensures { result.now ≡ self.now.captured }
    {
        &self.captured
    }

    /// The items that are quarantined here.
    pub fn quarantine(&self) -> &Quarantine
        ensures { result.now ≡ self.now.quarantine }
    {
        &self.quarantine
    }

    /// The messages that are not signalled, by number.
    pub fn outbox(&self) -> &BTreeMap<u64, Row>
        ensures outbox { as_map nat_cmp result.now ≡ self.now.engagement.outbox }
        ensures entries { result.now.entries ≡ map.entries self.now.engagement.outbox }
    {
        self.diffusion.outbox()
    }

    /// The message of this number, where it is not signalled.
    pub fn row(&self, number: u64) -> Option<RowView<'_>>
        ensures { option_map row_of result ≡ map.get self.now.engagement.outbox number }
    {
        self.diffusion.row(number)
    }

    /// The number of the first message for a site that it has not signalled, from a number on. Does not allocate.
    pub fn first_to(&self, dest: SiteNo, from: u64) -> Option<u64>
        ensures { IsNextTo self.now.engagement.outbox dest from result }
    {
        self.diffusion.first_to(dest, from)
    }

    /// The recall that a message was seen under.
    pub fn seen_under(&self, message: MsgId) -> Option<RecallId>
        ensures { result ≡ map.get self.now.engagement.seen message }
    {
        self.diffusion.seen_under(message)
    }

    /// The messages seen, each with the recall that it was seen under.
    pub fn seen(&self) -> &BTreeMap<MsgId, RecallId>
        ensures seen { as_map message_cmp result.now ≡ self.now.engagement.seen }
        ensures entries { result.now.entries ≡ map.entries self.now.engagement.seen }
    {
        self.diffusion.seen()
    }

    /// The recalls that the site is engaged for, each with its parent.
    pub fn parents(&self) -> &BTreeMap<RecallId, MsgId>
        ensures parents { as_map recall_cmp result.now ≡ self.now.engagement.parents }
        ensures entries { result.now.entries ≡ map.entries self.now.engagement.parents }
    {
        self.diffusion.parents()
    }

    /// The recalls that the site began, by number.
    pub fn own_recalls(&self) -> &BTreeMap<u64, Own>
        ensures own { as_map nat_cmp result.now ≡ self.now.engagement.own }
        ensures entries { result.now.entries ≡ map.entries self.now.engagement.own }
    {
        self.diffusion.own_recalls()
    }

    /// The number that the next message gets, 2^62 + 1 where the numbers are spent.
    pub fn next_message(&self) -> u64
        ensures next { result ≡ self.now.engagement.next_message }
        ensures in_range { IsNextNumber result }
    {
        self.diffusion.next_message()
    }

    /// The number that the next recall gets, 2^62 + 1 where the numbers are spent.
    pub fn next_recall(&self) -> u64
        ensures next { result ≡ self.now.engagement.next_recall }
        ensures in_range { IsNextNumber result }
    {
        self.diffusion.next_recall()
    }

    /// An equal site.
    pub fn copy(&self, alloc: Global) -> Result<SiteState, AllocError>
        ensures { IfOk result (λ s. s ≡ self.now) }
    {
        let sites = self.sites.copy(alloc)?;
        let captured = self.captured.copy(alloc)?;
        let quarantine = self.quarantine.copy(alloc)?;
        let diffusion = self.diffusion.copy(alloc)?;
        let shortcuts = Shortcuts::begun(alloc, &self.shortcuts);
        Ok(SiteState {
            sites,
            captured,
            quarantine,
            diffusion,
            shortcuts,
            alloc,
        })
    }
}
