//! Whether the parts of a record are sound: a test for parts that come from elsewhere.
ghost use Rattle.std.specs.Prelude.{◌≡◌, ◌↔◌, ◌<◌, ℕ, All, IsTrue, IsSome, Some, slice_get};
ghost use Rattle.std.specs.FinMap.{get};
ghost use Rattle.event_json.specs.Sites.{ShipsAmong};
ghost use Rattle.frame_core.specs.Numbers.{Recall, Message};
ghost use Rattle.frame_core.specs.declared.rows.Row.{Row};
ghost use Rattle.frame_core.specs.Unsignalled.{IsNextNumber};
ghost use Rattle.site_core.specs.Quarantines.{HasNoEmptySet};
ghost use Rattle.site_core.specs.Records.{IsNumber, IsRecallAmong, IsMessageAmong, IsRowAmong, IsEngagementAmong, IsSound};

use crate::every::{EntryTest, each_entry};
use crate::item_sets::ItemSet;
use crate::quarantines::Quarantine;
use crate::states::SiteState;
use event_json::{Body, Event, SiteNo, Sites};
use frame_core::{LAST_NUMBER, MsgId, RecallId, Row};
use scholten_core::{Diffusion, Own};
use std::alloc::Global;
use trace_core::Captured;

impl SiteState {
    /// A site that keeps just this, exactly where every site number in it is of the list, every message and
    /// recall number is 1 to 2^62, and the events are those of the site itself; else `None`. For parts that
    /// come from elsewhere. It goes through all of them once, which does not allocate, and then does what
    /// [`SiteState::restore`] does.
    pub fn restore_if_sound(
        alloc: Global,
        sites: Sites,
        captured: Captured,
        quarantine: Quarantine,
        diffusion: Diffusion,
    ) -> Option<SiteState>
        ensures sound { IsSome result ↔ IsSound (record {
          sites = sites;
          captured = captured;
          quarantine = quarantine;
          engagement = diffusion;
        }) }
        ensures kept { (state : _) → result ≡ Some state
            → state ≡ record {
              sites = sites;
              captured = captured;
              quarantine = quarantine;
              engagement = diffusion;
            } }
    {
        if is_sound(&sites, &captured, &quarantine, &diffusion) {
            Some(SiteState::restore(alloc, sites, captured, quarantine, diffusion))
        } else {
            None
        }
    }
}

/// Whether all parts are sound together.
fn is_sound(
    sites: &Sites,
    captured: &Captured,
    quarantine: &Quarantine,
    diffusion: &Diffusion,
) -> bool
    ensures { IsTrue result ↔ IsSound (record {
      sites = sites.now;
      captured = captured.now;
      quarantine = quarantine.now;
      engagement = diffusion.now;
    }) }
{
    let among = Among {
        sites: sites.len() as u64,
    };
    captured.me() == diffusion.me()
        && is_of_list(among.sites, diffusion.me())
        && are_events_among(among.sites, captured)
        && is_quarantine_among(&among, quarantine)
        && is_engagement_among(&among, diffusion)
}

/// Whether items are quarantined under recalls of the sites alone.
fn is_quarantine_among(among: &Among, quarantine: &Quarantine) -> bool
    ensures among { IsTrue result ↔ ((r : Recall) → IsSome (get quarantine.now r)
        → IsRecallAmong among.now.sites r) }
    ensures no_empty_set { HasNoEmptySet quarantine.now }
{
    each_entry(quarantine.by_recall(), among)
}

/// Whether the rows, the seen messages, the parents and the own recalls are of the sites.
fn is_engagement_among(among: &Among, diffusion: &Diffusion) -> bool
    ensures among { IsTrue result ↔ IsEngagementAmong among.now.sites diffusion.now }
    ensures next_message { IsNextNumber diffusion.now.next_message }
    ensures next_recall { IsNextNumber diffusion.now.next_recall }
{
    // Their readers show the proof that the next numbers are in range.
    let _next = (diffusion.next_message(), diffusion.next_recall());
    are_rows_among(among, diffusion)
        && are_seen_among(among, diffusion)
        && are_parents_among(among, diffusion)
        && are_own_among(among, diffusion)
}

fn are_rows_among(among: &Among, diffusion: &Diffusion) -> bool
    ensures { IsTrue result ↔ ((number : ℕ) (row : Row) → get diffusion.now.outbox number ≡ Some row
        → IsRowAmong among.now.sites number row) }
{
    each_entry(diffusion.outbox(), among)
}

fn are_seen_among(among: &Among, diffusion: &Diffusion) -> bool
    ensures { IsTrue result ↔ ((m : Message) (r : Recall) → get diffusion.now.seen m ≡ Some r
        → IsMessageAmong among.now.sites m × IsRecallAmong among.now.sites r) }
{
    each_entry(diffusion.seen(), among)
}

fn are_parents_among(among: &Among, diffusion: &Diffusion) -> bool
    ensures { IsTrue result ↔ ((r : Recall) (m : Message) → get diffusion.now.parents r ≡ Some m
        → IsRecallAmong among.now.sites r × IsMessageAmong among.now.sites m) }
{
    each_entry(diffusion.parents(), among)
}

fn are_own_among(among: &Among, diffusion: &Diffusion) -> bool
    ensures { IsTrue result ↔ ((number : ℕ) → IsSome (get diffusion.now.own number)
        → IsNumber number) }
{
    each_entry(diffusion.own_recalls(), among)
}

/// That a list has so many sites, and that what is kept is of them.
#[derive(Drop)]
struct Among {
    sites: u64,
}

impl EntryTest<RecallId, ItemSet> for Among {
    ghost use Rattle.site_core.specs.Records.{IsRecallAmong};

    ghost holds = { λ t r _. IsRecallAmong t.sites r };

    fn passes(&self, recall: &RecallId, _items: &ItemSet) -> bool {
        is_recall_among(self.sites, *recall)
    }
}

impl EntryTest<u64, Row> for Among {
    ghost use Rattle.site_core.specs.Records.{IsRowAmong};

    ghost holds = { λ t n row. IsRowAmong t.sites n row };

    fn passes(&self, number: &u64, row: &Row) -> bool {
        is_number(*number)
            && is_of_list(self.sites, row.dest)
            && is_recall_among(self.sites, row.recall)
    }
}

impl EntryTest<MsgId, RecallId> for Among {
    ghost use Rattle.site_core.specs.Records.{IsMessageAmong, IsRecallAmong};

    ghost holds = { λ t m r. IsMessageAmong t.sites m × IsRecallAmong t.sites r };

    fn passes(&self, message: &MsgId, recall: &RecallId) -> bool {
        is_message_among(self.sites, *message) && is_recall_among(self.sites, *recall)
    }
}

impl EntryTest<RecallId, MsgId> for Among {
    ghost use Rattle.site_core.specs.Records.{IsMessageAmong, IsRecallAmong};

    ghost holds = { λ t r m. IsRecallAmong t.sites r × IsMessageAmong t.sites m };

    fn passes(&self, recall: &RecallId, message: &MsgId) -> bool {
        is_recall_among(self.sites, *recall) && is_message_among(self.sites, *message)
    }
}

impl EntryTest<u64, Own> for Among {
    ghost use Rattle.frame_core.specs.Unsignalled.{IsNextNumber};
    ghost use Rattle.site_core.specs.Quarantines.{HasNoEmptySet};
    ghost use Rattle.site_core.specs.Records.{IsNumber};

    ghost holds = { λ _ n _. IsNumber n };

    fn passes(&self, number: &u64, _own: &Own) -> bool {
        is_number(*number)
    }
}

/// Whether what was shipped went to sites of the list.
fn are_events_among(sites: u64, captured: &Captured) -> bool
    ensures { IsTrue result ↔ All (λ e. ShipsAmong sites e.body) captured.now.events }
{
    for place in 0..captured.len() {
        if !is_event_among(sites, captured, place) {
            return false;
        }
    }
    true
}

/// Whether what the event at a place ships goes to sites of the list.
fn is_event_among(sites: u64, captured: &Captured, place: usize) -> bool
    ensures { IsTrue result ↔ ((e : _) → slice_get captured.now.events place ≡ Some e
        → ShipsAmong sites e.body) }
{
    match captured.event(place) {
        Some(event) => is_body_among(sites, event.body()),
        None => true,
    }
}

/// Whether what a body ships goes to sites of the list.
fn is_body_among(len: u64, body: &Body) -> bool
    ensures { IsTrue result ↔ ShipsAmong len body.now }
{
    match body {
        Body::Ship { sites, .. } => sites.as_slice().iter().all(|site| site.number() < len),
        _ => true,
    }
}

/// Whether a site is of the list.
fn is_of_list(sites: u64, site: SiteNo) -> bool
    ensures { IsTrue result ↔ (site < sites) }
{
    site.number() < sites
}

/// Whether one of the sites began the recall.
fn is_recall_among(sites: u64, recall: RecallId) -> bool
    ensures { IsTrue result ↔ IsRecallAmong sites recall }
{
    is_of_list(sites, recall.site) && is_number(recall.number)
}

/// Whether one of the sites sends the message.
fn is_message_among(sites: u64, message: MsgId) -> bool
    ensures { IsTrue result ↔ IsMessageAmong sites message }
{
    is_of_list(sites, message.site) && is_number(message.number)
}

/// Whether a message or a recall can have the number.
pub(crate) fn is_number(number: u64) -> bool
    ensures { IsTrue result ↔ IsNumber number }
{
    number >= 1 && number <= LAST_NUMBER
}
