//! What is reported beside an outcome.

ghost use Rattle.std.specs.Prelude.{◌≡◌, []};
ghost use Rattle.recall_outcomes.specs.Missed.{IsNoReach};

use crate::outcomes::MissedReach;
use epc_core::Epc;
use event_json::{PlainText, SiteNo, Untraced};
use gap_core::GapLine;
use query_core::StuckRecall;
use site_recovery::Misfit;
use std::alloc::Global;
use trace_core::Pair;

/// What is reported beside an outcome.
#[derive(Debug, Drop)]
pub enum Notes {
    /// Nothing.
    Nothing,
    /// What a document that was captured says and isn't traced.
    Untraced(UntracedNotes),
    /// What is known of a run beside its recalls.
    Run(RunNotes),
    /// Who knows an item that the site that was asked doesn't know.
    Knowers(Knowers),
    /// What an audit found beside its verdicts: something at least.
    Audit(AuditNotes),
    /// What is missed of what is told: something at least.
    Missed(MissedItems),
    /// What is told beside gaps: something at least.
    Gaps(GapNotes),
    /// The records contradict each other so, and what is told isn't exact.
    Misfit(Misfit),
}

/// What is told of documents that were captured.
#[derive(Debug, Drop)]
pub struct UntracedNotes {
    /// What they say and isn't traced.
    pub counts: Untraced,
    /// Destinations that are no traced site: at most five, each once.
    pub places: Vec<PlainText>,
}

/// What is missed of what is told of an item.
#[derive(Debug, Drop)]
pub struct MissedItems {
    /// Items that are told, each at the site that sent it on with something that others packed, so that it isn't told where
    /// it went.
    pub pairs: Vec<Pair>,
    /// The containers in which they went on, by who shipped and who packed them; none where they weren't looked for.
    pub containers: Vec<GapLine>,
    /// What isn't told by that, and which recalls hold it; nothing where it wasn't looked for.
    pub reach: MissedReach,
    /// How many items were packed into the item, at any depth and by any site: where they went isn't told.
    pub inside: u64,
}

impl MissedItems {
    /// These pairs, and so many items inside, where nothing else was looked for. Does not allocate.
    pub fn of(alloc: Global, pairs: Vec<Pair>, inside: u64) -> MissedItems
        ensures pairs { result.pairs ≡ pairs }
        ensures inside { result.inside ≡ inside }
        ensures containers { result.containers.items ≡ [] }
        ensures reach { IsNoReach result.reach }
    {
        MissedItems {
            pairs,
            containers: Vec::new(alloc),
            reach: MissedReach::nothing(alloc),
            inside,
        }
    }
}

/// What is told beside gaps.
#[derive(Clone, Copy, Debug, PartialEq, Eq)]
pub struct GapNotes {
    /// How many containers sites shipped on that others packed from which they never came, where these aren't listed.
    pub unlinked: usize,
}

/// What an audit found beside its verdicts.
#[derive(Debug, Drop)]
pub struct AuditNotes {
    /// The sites that recalls wait at in vain, by their numbers.
    pub stuck: Vec<StuckRecall>,
    /// Items that recalls reach, each at the site that sent it on with something that others packed, so that the recalls
    /// don't find where it went.
    pub missed: Vec<Pair>,
}

/// Why a site stopped.
#[derive(Clone, Copy, Debug, PartialEq, Eq)]
pub enum StopCause {
    /// Its device failed.
    Device,
    /// The database refused for a cause of its own.
    Store,
}

/// A site that stopped in steps of a run, after each of which it was opened again.
#[derive(Debug, Drop)]
pub struct Stop {
    pub site: SiteNo,
    /// In how many steps.
    pub times: usize,
    /// `Device` where its device failed at least once in the run.
    pub cause: StopCause,
    /// What is known of the failures that its file met: whole lines, or nothing.
    pub known: String,
}

/// What is known of a run beside its recalls.
#[derive(Debug, Drop)]
pub struct RunNotes {
    /// The sites that stopped in a step of it, in the order of their numbers.
    pub stops: Vec<Stop>,
    /// Whether the system gave fewer threads than sites, so that sites shared threads.
    pub shared: bool,
    /// Whether a recall is open after it.
    pub unended: bool,
    /// Items that recalls reach which were open before it, each at the site that sent it on with something that others
    /// packed, so that the recalls don't find where it went.
    pub missed: Vec<Pair>,
}

/// What is known of an item that the site that was asked doesn't know.
#[derive(Debug, Drop)]
pub struct Knowers {
    pub item: Epc,
    /// The text that was given for it.
    pub text: String,
    /// Who knows it, and what that site knows in its place, by the numbers of the sites.
    pub found: Vec<Knower>,
}

/// A site that knows the item, or an item that may have been meant.
#[derive(Debug, Drop)]
pub enum Knower {
    /// This site knows the item.
    Knows(SiteNo),
    /// The site that was asked knows this item, which ends in the text that was given.
    Has { site: SiteNo, item: Epc },
}
