//! `gaps` of a recall: what it misses.

ghost use Rattle.std.specs.Prelude.{◌≡◌, IfOk, OnOk};
ghost use Rattle.site_recovery.specs.Checking.{records_at, world_at};
ghost use Rattle.site_recovery.specs.FittingAt.{AreAllSites};
ghost use Rattle.folder_questions.specs.Missed.{AddsHolder, AreHolders, AreMissedBy, IsHolder, TellsAll, TellsOne};

use crate::asked::{recall_at, record_of};
use event_json::{SiteNo, Sites};
use frame_core::RecallId;
use gap_core::{Reached, missed_of, reached_from, untold_shipments};
use recall_outcomes::{CommandRefusal, MissedPair, MissedReach, Outcome};
use site_core::SiteState;
use site_folders::{Question, refusal};
use site_recovery::{captured, own_recall};
use std::alloc::{AllocError, Global};
use trace_core::Pair;

/// What the recall misses that a text names: the pairs that its root reaches by the packings of all sites that are
/// known where the goods went, and not by the sites' own ones; each with the least recall that holds it, if one does;
/// and what so left the traced sites.
#[derive(Drop)]
pub struct MissedOf<'a> {
    pub recall: &'a str,
    /// Whether the status tells that something of it isn't quarantined, or left the traced sites.
    pub coded: bool,
}

impl Question for MissedOf<'_> {
    ghost use Rattle.folder_questions.specs.Asked.{AsksRecall, RefusesRecall};
    ghost use Rattle.folder_questions.specs.Missed.{AnswersMissed};

    type Asked = RecallId;

    type Answer = Outcome;

    ghost refuses = { λ q sites outcome. RefusesRecall q.recall.now sites outcome };

    ghost asks = { λ q sites recall. AsksRecall q.recall.now sites recall };

    // All pairs that the recall's root reaches by what is known of packings and not by the sites' own ones, each with
    // the least recall under which it is quarantined, or none exactly where there is none, and all shipments that so
    // left the traced sites; or `UnknownRecall` exactly where no site began the recall.
    ghost answers = { λ q recall rs outcome. AnswersMissed rs recall q.coded outcome };

    fn read(&self, alloc: Global, sites: &Sites) -> Result<Result<RecallId, Outcome>, AllocError> {
        recall_at(alloc, sites, self.recall)
    }

    fn answer(
        &self,
        alloc: Global,
        recall: RecallId,
        records: &[&SiteState],
    ) -> Result<Outcome, AllocError> {
        let Some(own) = own_recall(records, recall) else {
            return refusal(alloc, CommandRefusal::UnknownRecall);
        };
        let root = Pair {
            site: recall.site,
            item: own.root.copy(alloc)?,
        };
        Ok(Outcome::Missed {
            recall,
            missed: missed_by(alloc, records, &root)?,
            coded: self.coded,
        })
    }
}

/// What a recall of a root misses.
pub(crate) fn missed_by(
    alloc: Global,
    records: &[&SiteState],
    root: &Pair,
) -> Result<MissedReach, AllocError>
    requires all { AreAllSites (records_at records.now) }
    ensures { IfOk result (AreMissedBy (records_at records.now) root.now) }
{
    let captured = captured(alloc, records)?;
    let mut reached = reached_from(alloc, captured.as_slice(), root)?;
    let missed = missed_of(alloc, &reached)?;
    let pairs = with_holders(alloc, records, missed.as_slice())?;
    tell_held(alloc, pairs.as_slice(), &mut reached)?;
    let outside = untold_shipments(alloc, captured.as_slice(), &reached)?;
    Ok(MissedReach { pairs, outside })
}

/// Notes that those of some pairs are told that a recall holds: its report shows what left of them.
fn tell_held(alloc: Global, pairs: &[MissedPair], reached: &mut Reached) -> Result<(), AllocError>
    ensures { OnOk result (TellsAll pairs.now reached.old reached.new) }
{
    for missed in pairs {
        tell_if_held(alloc, missed, reached)?;
    }
    Ok(())
}

/// Notes that a pair is told, if a recall holds it.
fn tell_if_held(alloc: Global, missed: &MissedPair, reached: &mut Reached) -> Result<(), AllocError>
    ensures { OnOk result (TellsOne missed.now reached.old reached.new) }
{
    match missed.held {
        Some(_) => reached.tell(missed.pair.copy(alloc)?),
        None => Ok(()),
    }
}

/// Pairs, each with the least recall that holds it.
fn with_holders(
    alloc: Global,
    records: &[&SiteState],
    pairs: &[Pair],
) -> Result<Vec<MissedPair>, AllocError>
    ensures { IfOk result (λ found. AreHolders (world_at records.now) pairs.now found.items) }
{
    let mut found = Vec::new(alloc);
    for pair in pairs {
        push_holder(alloc, records, pair, &mut found)?;
    }
    Ok(found)
}

/// Adds a pair with the least recall that holds it.
fn push_holder(
    alloc: Global,
    records: &[&SiteState],
    pair: &Pair,
    found: &mut Vec<MissedPair>,
) -> Result<(), AllocError>
    ensures { OnOk result (AddsHolder (world_at records.now) pair.now found.old.items found.new.items) }
{
    found.push(MissedPair {
        pair: pair.copy(alloc)?,
        held: holder(records, pair),
    })?;
    Ok(())
}

/// The least recall under which a pair is quarantined.
fn holder(records: &[&SiteState], pair: &Pair) -> Option<RecallId>
    ensures { IsHolder (world_at records.now) pair.now result }
{
    match record_of(records, pair.site) {
        Some(state) => state.quarantine().least_holder(&pair.item),
        None => None,
    }
}
