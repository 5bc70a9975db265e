//! Shipments between the sites by which items are missed.
ghost use Rattle.std.specs.Prelude.{◌↔◌, ◌<◌, ◌≡◌, IfOk, OnOk, Contains, length};
ghost use Rattle.trace_core.specs.Chains.{sites_at};
ghost use Rattle.gap_core.specs.Adding.{AddsToList};
ghost use Rattle.gap_core.specs.MissedSteps.{IsMissedStep, IsMissedStepAt, IsMissedStepTo, IsStepFrom};
ghost use Rattle.gap_core.specs.Sources.{AreKnown, AreOwn};
ghost use Rattle.gap_core.specs.declared.missed_steps.MissedStep.{MissedStep};

use crate::batches::{is_own, read_sites};
use crate::missed::note_all;
use crate::searches::{known_packings, own_packings};
use crate::shipments::places_to;
use crate::site_gaps::sent_by;
use crate::sources::Sources;
use epc_core::Epc;
use event_json::SiteNo;
use std::alloc::{AllocError, Global};
use std::collections::BTreeMap;
use trace_core::{Captured, Pair};

/// An item that a site sent to another one, by what is known there, while its own packings don't say so.
#[derive(Debug, Drop)]
pub struct MissedStep {
    /// The item, at the site that sent it.
    pub from: Pair,
    /// The site that it was sent to.
    pub to: SiteNo,
}

/// All of them.
pub fn missed_steps(alloc: Global, sites: &[&Captured]) -> Result<Vec<MissedStep>, AllocError>
    ensures { IfOk result (λ steps. (m : MissedStep) → Contains steps.items m
        ↔ IsMissedStep (sites_at sites.now) m) }
{
    let own = own_packings(alloc, sites)?;
    let known = known_packings(alloc, sites)?;
    let mut steps = Vec::new(alloc);
    for at in 0..sites.len() {
        note_site(alloc, sites, &own, &known, at, &mut steps)?;
    }
    Ok(steps)
}

/// Notes those from the site of a place, by what each site packed and by what is known at each.
fn note_site(
    alloc: Global,
    sites: &[&Captured],
    own: &BTreeMap<Epc, Sources>,
    known: &BTreeMap<Epc, Sources>,
    at: usize,
    steps: &mut Vec<MissedStep>,
) -> Result<(), AllocError>
    requires own { AreOwn (sites_at sites.now) own.now }
    requires known { AreKnown (sites_at sites.now) known.now }
    requires at { at < length sites.now }
    ensures { OnOk result (AddsToList steps.old.items steps.new.items
        (IsMissedStepAt (sites_at sites.now) at)) }
{
    read_sites(sites[at]);
    for number in 0..16 {
        note_number(alloc, sites, own, known, at, number, steps)?;
    }
    Ok(())
}

/// Notes those to the site of a number.
fn note_number(
    alloc: Global,
    sites: &[&Captured],
    own: &BTreeMap<Epc, Sources>,
    known: &BTreeMap<Epc, Sources>,
    at: usize,
    number: u64,
    steps: &mut Vec<MissedStep>,
) -> Result<(), AllocError>
    requires own { AreOwn (sites_at sites.now) own.now }
    requires known { AreKnown (sites_at sites.now) known.now }
    requires at { at < length sites.now }
    requires number { number < 16 }
    ensures { OnOk result (AddsToList steps.old.items steps.new.items
        (IsMissedStepTo (sites_at sites.now) at number)) }
{
    match SiteNo::of(number) {
        Some(to) => note_to(alloc, sites, own, known, at, to, steps),
        None => Ok(()),
    }
}

/// Notes those to a site.
fn note_to(
    alloc: Global,
    sites: &[&Captured],
    own: &BTreeMap<Epc, Sources>,
    known: &BTreeMap<Epc, Sources>,
    at: usize,
    to: SiteNo,
    steps: &mut Vec<MissedStep>,
) -> Result<(), AllocError>
    requires own { AreOwn (sites_at sites.now) own.now }
    requires known { AreKnown (sites_at sites.now) known.now }
    requires at { at < length sites.now }
    ensures { OnOk result (AddsToList steps.old.items steps.new.items
        (IsMissedStepTo (sites_at sites.now) at to)) }
{
    if is_own(sites[at], to) {
        return Ok(());
    }
    let places = places_to(alloc, sites[at], to)?;
    let told = sent_by(alloc, sites, own, at, places.as_slice())?;
    let sent = sent_by(alloc, sites, known, at, places.as_slice())?;
    let mut missed = Vec::new(alloc);
    note_all(alloc, sites, at, &sent, &told, &mut missed)?;
    push_steps(alloc, &missed, to, steps)
}

/// Adds a step to a site from each of some pairs.
fn push_steps(
    alloc: Global,
    missed: &[Pair],
    to: SiteNo,
    steps: &mut Vec<MissedStep>,
) -> Result<(), AllocError>
    ensures { OnOk result (AddsToList steps.old.items steps.new.items (IsStepFrom missed.now to)) }
{
    for pair in missed {
        push_step(alloc, pair, to, steps)?;
    }
    Ok(())
}

/// Adds a step to a site from a pair.
fn push_step(
    alloc: Global,
    pair: &Pair,
    to: SiteNo,
    steps: &mut Vec<MissedStep>,
) -> Result<(), AllocError>
    ensures { OnOk result (AddsToList steps.old.items steps.new.items (λ m.
        record { from = pair.now; to = to } ≡ m)) }
{
    steps.push(MissedStep {
        from: pair.copy(alloc)?,
        to,
    })?;
    Ok(())
}
