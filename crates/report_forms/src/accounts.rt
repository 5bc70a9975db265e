//! A report or a trace in parts: each pair with how it is reached and with the events that are told of that, and each
//! shipment out of the traced sites with the event that is told of it.

ghost use Rattle.std.specs.Prelude.{◌≡◌, IfOk, length, option_map, slice_get};
ghost use Rattle.std.specs.Option.{is_some, unwrap_or};
ghost use Rattle.report_forms.specs.Accounts.{back_account, outside_in, outside_part_of, part_of, report_account};
ghost use Rattle.report_forms.specs.Accounts.{shipments_of, steps_in, trace_account, way_beside, way_pairs, ways_in};
ghost use Rattle.report_forms.specs.declared.accounts.Way.TheVariants.{Unknown};

use event_json::Sequence;
use frame_core::RecallId;
use report_core::{
    BackTrace, BackTrail, BackTrails, OutsideEvent, OutsideShipment, RecallReport, ShownEvents,
    StepEvents, Trace,
};
use std::alloc::{AllocError, Global};
use std::marker::Model;
use trace_core::{AllTrails, Pair, Trail, Trails};

/// What a report or a trace is of.
#[derive(Clone, Copy, Debug, PartialEq, Eq)]
pub enum Title {
    /// A recall, and whether it has ended.
    Recall { recall: RecallId, ended: bool },
    /// Where an item went.
    Forward,
    /// Where an item came from.
    Back,
}

/// How a pair is reached.
#[derive(Drop)]
pub enum Way<'a> {
    /// By no trail that is known.
    Unknown,
    /// By a trail from the root, which it ends.
    From(Trail<'a>),
    /// By a trail to the root, which it begins.
    To(BackTrail<'a>),
}

impl<'a> Way<'a> {
    /// The pairs of the trail, where there is one.
    ///
    /// # Errors
    /// Out of memory.
    pub fn pairs(&self, alloc: Global) -> Result<Option<Vec<Pair>>, AllocError>
        ensures { IfOk result (λ pairs. option_map (λ v. v.items) pairs ≡ way_pairs self.now) }
    {
        match self {
            Way::Unknown => Ok(None),
            Way::From(trail) => Ok(Some(trail.pairs(alloc)?)),
            Way::To(trail) => Ok(Some(trail.pairs(alloc)?)),
        }
    }

    /// The pair beside it on the trail, where there is one: a look-up.
    pub fn beside(&self) -> Option<&Pair>
        ensures { option_map (λ p. p.now) result ≡ way_beside self.now }
    {
        match self {
            Way::Unknown => None,
            Way::From(trail) => trail.before_last(),
            Way::To(trail) => trail.second(),
        }
    }
}

/// A pair, how it is reached, and the events of its steps, where they are shown.
#[derive(Drop)]
pub struct Part<'a> {
    pub pair: &'a Pair,
    pub way: Way<'a>,
    pub events: Option<&'a [StepEvents]>,
}

/// A shipment out of the traced sites, and what shows it, where that is told.
#[derive(Drop)]
pub struct OutsidePart<'a> {
    pub shipment: &'a OutsideShipment,
    pub event: Option<&'a OutsideEvent>,
}

/// The trails of a report or a trace.
#[derive(Drop)]
enum AnyTrails<'a> {
    Held(&'a Trails),
    Led(&'a AllTrails),
    Leading(&'a BackTrails),
}

impl<'a> AnyTrails<'a> {
    /// How the pair at a place is reached.
    fn way(&self, place: usize) -> Way<'_>
        ensures { result ≡ unwrap_or (slice_get (ways_in self.now) place) Unknown }
    {
        match self {
            AnyTrails::Held(trails) => match trails.get(place) {
                Some(Some(trail)) => Way::From(trail),
                Some(None) => Way::Unknown,
                None => Way::Unknown,
            },
            AnyTrails::Led(trails) => match trails.get(place) {
                Some(trail) => Way::From(trail),
                None => Way::Unknown,
            },
            AnyTrails::Leading(trails) => match trails.get(place) {
                Some(trail) => Way::To(trail),
                None => Way::Unknown,
            },
        }
    }
}

/// A report or a trace in parts.
#[derive(Drop)]
pub struct Account<'a> {
    title: Title,
    root: &'a Pair,
    told: bool,
    pairs: &'a [Pair],
    trails: AnyTrails<'a>,
    events: &'a [Sequence<StepEvents>],
    outside: &'a [OutsideShipment],
    outside_events: &'a [OutsideEvent],
    origins: &'a [Pair],
}

impl<'a> Model for Account<'a> {
    ghost use Rattle.report_forms.specs.Accounts.{Account, account_of, outside_parts, parts_of, ways_in};

    ghost Value = { Account };

    ghost view = { λ a. account_of a.title a.root.now a.told
        (parts_of a.pairs.now (ways_in a.trails) a.events.now)
        (outside_parts a.outside.now a.outside_events.now) a.origins.now };
}

impl<'a> Account<'a> {
    /// A report, with the events behind its steps and shipments, as far as they are shown.
    pub fn of_report(
        recall: RecallId,
        report: &'a RecallReport,
        events: Option<&'a ShownEvents>,
    ) -> Account<'a>
        ensures { result ≡ report_account recall report.now
            (option_map (λ e. e.now) events.entry) }
    {
        Account {
            title: Title::Recall {
                recall,
                ended: report.ended,
            },
            root: &report.root,
            told: are_told(events),
            pairs: report.pairs.as_slice(),
            trails: AnyTrails::Held(&report.trails),
            events: steps_in(events),
            outside: report.outside.as_slice(),
            outside_events: outside_in(events),
            origins: &[],
        }
    }

    /// A trace to where an item went.
    pub fn of_trace(trace: &'a Trace, events: Option<&'a ShownEvents>) -> Account<'a>
        ensures { result ≡ trace_account trace.now (option_map (λ e. e.now) events.entry) }
    {
        Account {
            title: Title::Forward,
            root: &trace.root,
            told: are_told(events),
            pairs: trace.pairs.as_slice(),
            trails: AnyTrails::Led(&trace.trails),
            events: steps_in(events),
            outside: trace.outside.as_slice(),
            outside_events: outside_in(events),
            origins: &[],
        }
    }

    /// A trace to where an item came from.
    pub fn of_back(trace: &'a BackTrace, events: &'a [Sequence<StepEvents>]) -> Account<'a>
        ensures { result ≡ back_account trace.now events.now }
    {
        Account {
            title: Title::Back,
            root: &trace.root,
            told: are_steps_told(events),
            pairs: trace.pairs.as_slice(),
            trails: AnyTrails::Leading(&trace.trails),
            events,
            outside: &[],
            outside_events: &[],
            origins: trace.origins.as_slice(),
        }
    }

    pub fn title(&self) -> Title
        ensures { result ≡ self.now.title }
    {
        self.title
    }

    /// The pair that was asked for or recalled.
    pub fn root(&self) -> &Pair
        ensures { result.now ≡ self.now.root }
    {
        self.root
    }

    /// Whether the events are told, those behind the steps and those behind the shipments.
    pub fn tells_events(&self) -> bool
        ensures { result ≡ self.now.told }
    {
        self.told
    }

    /// How many parts there are.
    pub fn len(&self) -> usize
        ensures { result ≡ length self.now.parts }
    {
        self.pairs.len()
    }

    /// The part at a place, from 0.
    pub fn part(&self, place: usize) -> Option<Part<'_>>
        ensures { option_map part_of result ≡ slice_get self.now.parts place }
    {
        match self.pairs.get(place) {
            None => None,
            Some(pair) => Some(Part {
                pair,
                way: self.trails.way(place),
                events: events_at(self.events, place),
            }),
        }
    }

    /// What left the traced sites.
    pub fn outside(&self) -> &[OutsideShipment]
        ensures { result.now ≡ shipments_of self.now }
    {
        self.outside
    }

    /// How many shipments left them.
    pub fn outside_len(&self) -> usize
        ensures { result ≡ length self.now.outside }
    {
        self.outside.len()
    }

    /// The shipment that left them at a place, from 0.
    pub fn outside_part(&self, place: usize) -> Option<OutsidePart<'_>>
        ensures { option_map outside_part_of result ≡ slice_get self.now.outside place }
    {
        match self.outside.get(place) {
            None => None,
            Some(shipment) => Some(OutsidePart {
                shipment,
                event: shown_at(self.outside_events, place),
            }),
        }
    }

    /// The pairs that no pair is related to.
    pub fn origins(&self) -> &[Pair]
        ensures { result.now ≡ self.now.origins }
    {
        self.origins
    }
}

/// Whether events are told.
fn are_told(events: Option<&ShownEvents>) -> bool
    ensures { result ≡ is_some (option_map (λ e. e.now) events.entry) }
{
    match events {
        None => false,
        Some(_) => true,
    }
}

/// Whether events of trails are, each of which has a list of them, be it empty.
fn are_steps_told(events: &[Sequence<StepEvents>]) -> bool
    ensures { result ≡ is_some (slice_get events.now 0) }
{
    match events_at(events, 0) {
        None => false,
        Some(_) => true,
    }
}

/// The events of the steps, none where they aren't told.
fn steps_in<'a>(events: Option<&'a ShownEvents>) -> &'a [Sequence<StepEvents>]
    ensures { result.now ≡ steps_in (option_map (λ e. e.now) events.entry) }
{
    match events {
        None => &[],
        Some(events) => events.steps.as_slice(),
    }
}

/// The events behind the shipments, none where they aren't told.
fn outside_in<'a>(events: Option<&'a ShownEvents>) -> &'a [OutsideEvent]
    ensures { result.now ≡ outside_in (option_map (λ e. e.now) events.entry) }
{
    match events {
        None => &[],
        Some(events) => events.outside.as_slice(),
    }
}

/// The events of the steps of the pair at a place, where they are told.
fn events_at(events: &[Sequence<StepEvents>], place: usize) -> Option<&[StepEvents]>
    ensures { option_map (λ s. s.now) result ≡ slice_get events.now place }
{
    Some(events.get(place)?.as_slice())
}

/// What shows the shipment at a place, where that is told.
fn shown_at(events: &[OutsideEvent], place: usize) -> Option<&OutsideEvent>
    ensures { option_map (λ e. e.now) result ≡ slice_get events.now place }
{
    events.get(place)
}
