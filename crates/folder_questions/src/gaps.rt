//! `gaps`: where sites tell nothing of what others packed, or sent them.

ghost use Rattle.std.specs.Prelude.{◌≡◌, IfOk, OnOk, option_map, slice_get};
ghost use Rattle.std.specs.List.{AllZip};
ghost use Rattle.site_recovery.specs.Checking.{records_at};
ghost use Rattle.trace_core.specs.Chains.{sites_at};
ghost use Rattle.folder_questions.specs.Gaps.{AddsTimed, IsTimed, NotesUnlinked, TellsTimeAt, TellsTimeOf};

use crate::lots::lot_gaps;
use event_json::{PlainText, SiteNo, Sites};
use gap_core::{
    GapEvents, GapLine, gap_events, packed_gaps, unlinked_containers, unseen_items, used_gaps,
};
use recall_outcomes::{FoundGaps, GapNotes, Notes, Outcome, PackedGap};
use report_core::time_of;
use site_core::SiteState;
use site_folders::Question;
use site_recovery::captured;
use std::alloc::{AllocError, Global};
use trace_core::Captured;

/// The gaps of what all sites captured; and beside them how many containers sites shipped on that another one packed
/// from which they never came.
#[derive(Drop)]
pub struct GapsOf {
    /// Whether those containers are listed, too.
    pub all: bool,
    /// Whether the program's status tells that there are gaps.
    pub coded: bool,
}

impl Question for GapsOf {
    ghost use Rattle.std.specs.Prelude.{⊤};
    ghost use Rattle.folder_questions.specs.Gaps.{AnswersGaps};

    type Asked = ();

    type Answer = (Outcome, Notes);

    ghost refuses = { λ q sites told. ⊥ };

    ghost asks = { λ q sites asked. ⊤ };

    // The gaps of what the records have captured and hold: packed ones by container with how many items and with the
    // times of the packing and of the shipment, used ones, unseen ones, lots, all of them and no others, in order; and
    // containers that never came from where they were packed, listed, or counted in a note.
    ghost answers = { λ q asked rs told. AnswersGaps rs q.all q.coded told.0 told.1 };

    fn read(
        &self,
        _alloc: Global,
        _sites: &Sites,
    ) -> Result<Result<(), (Outcome, Notes)>, AllocError> {
        Ok(Ok(()))
    }

    fn answer(
        &self,
        alloc: Global,
        _asked: (),
        records: &[&SiteState],
    ) -> Result<(Outcome, Notes), AllocError> {
        let captured = captured(alloc, records)?;
        let sites = captured.as_slice();
        let packed = packed_gaps(alloc, sites)?;
        let unlinked = unlinked_containers(alloc, sites)?;
        let count = unlinked.len();
        let gaps = FoundGaps {
            packed: timed(alloc, sites, packed.lines.as_slice())?,
            items: packed.items,
            used: used_gaps(alloc, sites)?,
            unseen: unseen_items(alloc, sites)?,
            lots: lot_gaps(alloc, records)?,
            unlinked: if self.all { Some(unlinked) } else { None },
        };
        let outcome = Outcome::Gaps {
            gaps,
            coded: self.coded,
        };
        Ok((outcome, unlinked_notes(self.all, count)))
    }
}

/// Packed gaps, each with the times of its first packing and its last shipment.
fn timed(
    alloc: Global,
    sites: &[&Captured],
    lines: &[GapLine],
) -> Result<Vec<PackedGap>, AllocError>
    ensures { IfOk result (λ packed.
        AllZip (IsTimed (sites_at sites.now)) lines.now packed.items) }
{
    let events = gap_events(alloc, sites, lines)?;
    let told = events.as_slice();
    let mut packed = Vec::new(alloc);
    for place in 0..lines.len() {
        push_timed(alloc, sites, &lines[place], &told[place], &mut packed)?;
    }
    Ok(packed)
}

/// Adds a packed gap, with the times of its events.
fn push_timed(
    alloc: Global,
    sites: &[&Captured],
    line: &GapLine,
    events: &GapEvents,
    packed: &mut Vec<PackedGap>,
) -> Result<(), AllocError>
    ensures { OnOk result (AddsTimed (sites_at sites.now) line.now events.now packed.old.items
        packed.new.items) }
{
    packed.push(PackedGap {
        line: copy_of(alloc, line)?,
        packed_at: time_at(alloc, sites, line.by, events.packed)?,
        shipped_at: time_at(alloc, sites, line.site, events.shipped)?,
    })?;
    Ok(())
}

/// An equal line.
fn copy_of(alloc: Global, line: &GapLine) -> Result<GapLine, AllocError>
    ensures { IfOk result (λ copy. copy ≡ line.now) }
{
    Ok(GapLine {
        site: line.site,
        container: line.container.copy(alloc)?,
        by: line.by,
        items: line.items,
    })
}

/// The time of the event at a place of the site of a number, where there is one.
fn time_at(
    alloc: Global,
    sites: &[&Captured],
    number: SiteNo,
    place: Option<usize>,
) -> Result<Option<PlainText>, AllocError>
    ensures { IfOk result (TellsTimeAt (sites_at sites.now) number place) }
{
    let Some(place) = place else {
        return Ok(None);
    };
    match site_of(sites, number) {
        Some(site) => time_of_event(alloc, site, place),
        None => Ok(None),
    }
}

/// The site of a number. The sites stand in the order of their numbers.
fn site_of<'a>(sites: &[&'a Captured], number: SiteNo) -> Option<&'a Captured>
    ensures { option_map (λ s. s.now) result ≡ slice_get (sites_at sites.now) number }
{
    let place = number.number() as usize;
    if place < sites.len() {
        Some(sites[place])
    } else {
        None
    }
}

/// The time of the event at a place, if there is one.
fn time_of_event(
    alloc: Global,
    site: &Captured,
    place: usize,
) -> Result<Option<PlainText>, AllocError>
    ensures { IfOk result (TellsTimeOf site.now place) }
{
    match site.event(place) {
        Some(event) => time_of(alloc, event.instant()),
        None => Ok(None),
    }
}

/// What is noted of containers that never came from where they were packed, where these aren't listed.
fn unlinked_notes(all: bool, count: usize) -> Notes
    ensures { NotesUnlinked all count result }
{
    if all || count == 0 {
        return Notes::Nothing;
    }
    Notes::Gaps(GapNotes { unlinked: count })
}
