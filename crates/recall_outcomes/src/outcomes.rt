//! What a command on the sites' files did, or why it was refused.

ghost use Rattle.std.specs.Prelude.{◌≡◌};
ghost use Rattle.std.specs.List.{list_any};
ghost use Rattle.recall_outcomes.specs.Missed.{IsNoReach};
ghost use Rattle.recall_outcomes.specs.Statuses.{audit_status, has_gaps, has_missed, is_amiss, is_open, is_unended, is_unheld, is_unjudged, outcome_status};

use crate::notes::Notes;
use event_json::{PlainText, Sequence, SiteNo, Sites};
use frame_core::RecallId;
use gap_core::{GapLine, UnseenItem, UntoldShipment};
use item_spellings::ScanFault;
use query_core::{KnownItem, RecallDetail, RecallStatus};
use recall_text::RefusedLine;
use report_core::{BackTrace, RecallReport, ShownEvents, StepEvents, Trace, Verdict};
use site_core::{Effects, Refusal};
use site_recovery::Misfit;
use std::alloc::Global;
use trace_core::Pair;

/// Whether a path is shown in full or by its last step.
#[derive(Clone, Copy, Debug, PartialEq, Eq)]
pub enum Ways {
    /// By all pairs of its trail.
    Trails,
    /// By the pair beside it on its trail.
    Steps,
}

/// A recall as the site that began it keeps it.
#[derive(Clone, Copy, Debug, PartialEq, Eq)]
pub struct StartedRecall {
    pub recall: RecallId,
    /// Whether that site has recorded the end.
    pub ended: bool,
}

/// A recall that was audited.
#[derive(Debug, Drop)]
pub struct AuditedRecall {
    pub recall: RecallId,
    /// How its quarantine compares with what its root reaches; `None` while the recall is open.
    pub verdict: Option<Verdict>,
}

/// What a site captured, and from when to when.
#[derive(Debug, Drop)]
pub struct SiteCoverage {
    pub site: SiteNo,
    /// How many events it captured.
    pub events: u64,
    /// How many items it knows: events of it name them, or they are quarantined there.
    pub items: u64,
    /// When the earliest of the events happened, in UTC; `None` where there is none, or no time names its instant.
    pub first: Option<PlainText>,
    /// When the last of them happened, in the same way.
    pub last: Option<PlainText>,
}

/// A container that a site shipped on and another one packed: the first one never captured that.
#[derive(Debug, Drop)]
pub struct PackedGap {
    pub line: GapLine,
    /// When the site that packed it first put something into it, in UTC; `None` where no time names that instant.
    pub packed_at: Option<PlainText>,
    /// When the other site last shipped it on, in the same way.
    pub shipped_at: Option<PlainText>,
}

/// Where a site's events say nothing of what others packed, or sent it.
#[derive(Debug, Drop)]
pub struct FoundGaps {
    /// The containers that a site shipped on and others packed.
    pub packed: Vec<PackedGap>,
    /// How many items all of those have.
    pub items: usize,
    /// The containers that a site took into a transformation, and what lies in them not.
    pub used: Vec<GapLine>,
    /// The items that were shipped to a site of which no event names them.
    pub unseen: Vec<UnseenItem>,
    /// The lots that some recall holds, each at a site of which an event names it and where no recall holds it.
    pub lots: Vec<Pair>,
    /// The containers that a site shipped on and that another one packed from which they never came; `None` where they
    /// aren't told.
    pub unlinked: Option<Vec<GapLine>>,
}

/// A pair that a recall misses: its root reaches it by the packings that other sites captured alone.
#[derive(Debug, Drop)]
pub struct MissedPair {
    pub pair: Pair,
    /// A recall under which it is quarantined; `None` where there is none.
    pub held: Option<RecallId>,
}

/// What a recall misses, since sites sent items on in something that others packed, and never captured that.
#[derive(Debug, Drop)]
pub struct MissedReach {
    /// By site and item.
    pub pairs: Vec<MissedPair>,
    /// The shipments out of the traced sites that its report doesn't tell, by site, item and destination.
    pub outside: Vec<UntoldShipment>,
}

impl MissedReach {
    /// Nothing is missed. Does not allocate.
    pub fn nothing(alloc: Global) -> MissedReach
        ensures { IsNoReach result }
    {
        MissedReach {
            pairs: Vec::new(alloc),
            outside: Vec::new(alloc),
        }
    }
}

/// What a command on the sites' files did, or why it was refused.
#[derive(Debug, Drop)]
pub enum Outcome {
    /// The files of the sites were made.
    Created,
    /// A site took a step, with these effects.
    Stepped(Effects),
    /// The sites ran.
    Ran {
        /// The recalls that sites have begun, by site and then by number.
        recalls: Vec<StartedRecall>,
        /// Whether the program's status tells that one is open.
        coded: bool,
    },
    /// The sites didn't run, and nothing changed: open recalls miss items, and it was asked that they don't run then.
    Withheld,
    /// A recall is reported.
    Reported {
        recall: RecallId,
        report: RecallReport,
        ways: Ways,
        /// The events behind its steps and its shipments; `None` where they aren't told.
        events: Option<ShownEvents>,
    },
    /// An item was traced to where it went.
    Traced {
        trace: Trace,
        ways: Ways,
        /// The events behind its steps and its shipments; `None` where they aren't told.
        events: Option<ShownEvents>,
    },
    /// An item was traced to where it came from.
    TracedBack {
        trace: BackTrace,
        ways: Ways,
        /// For each of its pairs the events of the steps that are told, in their order; `None` where they aren't told.
        events: Option<Vec<Sequence<StepEvents>>>,
    },
    /// How the recalls that sites have begun stand, by site and then by number.
    Standing {
        recalls: Vec<RecallStatus>,
        /// Whether the program's status tells that one is open.
        coded: bool,
    },
    /// How one recall stands, and what it waits for.
    Waiting {
        detail: RecallDetail,
        /// Whether the program's status tells that it is open.
        coded: bool,
    },
    /// Items that a site knows.
    Known {
        site: SiteNo,
        items: Vec<KnownItem>,
    },
    /// What the site where a recall would begin would quarantine and send at once. Nothing was begun.
    WouldStart {
        quarantined: u64,
        messages: u64,
    },
    /// The records are consistent, or may be copies that were taken one after another, and each recall was audited.
    Audited {
        /// By site and then by number.
        recalls: Vec<AuditedRecall>,
        /// Whether they may be such copies, of which nothing says that they are consistent.
        ended: bool,
        /// Whether the program's status tells that one is open.
        coded: bool,
    },
    /// The records of the sites aren't consistent.
    Inconsistent(Misfit),
    /// What each site captured, by the numbers of the sites.
    Covered(Vec<SiteCoverage>),
    /// The gaps of what the sites captured.
    Gaps {
        gaps: FoundGaps,
        /// Whether the program's status tells that there are any.
        coded: bool,
    },
    /// What a recall misses.
    Missed {
        recall: RecallId,
        missed: MissedReach,
        /// Whether the program's status tells that something of it isn't quarantined, or left the traced sites.
        coded: bool,
    },
    /// It was refused, for these reasons, and nothing changed.
    Refused(Vec<CommandRefusal>),
}

/// Why a command on the sites' files was refused.
#[derive(Debug, Drop)]
pub enum CommandRefusal {
    /// A line of the list of sites is no `site` line, or its site can't be added.
    Line(RefusedLine),
    /// The list has fewer than two sites.
    NoWorld,
    /// There is a file of this site, or a list of sites, already.
    Exists(String),
    /// The folder lists no site of this name.
    NoSite(String),
    /// The text is no EPC.
    BadEpc,
    /// The text is no item's printed key.
    BadKey,
    /// The text isn't what a scanner gives of an item.
    BadScan(ScanFault),
    /// The text names no recall.
    BadRecall,
    /// The site began no such recall.
    UnknownRecall,
    /// The site refused the step.
    Step(Refusal),
}

/// What a command on the sites' files returns.
#[derive(Debug, Drop)]
pub struct Output {
    /// The sites by which the outcome is told: those of the folder's list, and of `init` those of the list that was
    /// read.
    pub sites: Sites,
    /// What was done, or why it was refused.
    pub outcome: Outcome,
    /// What is told beside it.
    pub notes: Notes,
}

impl Outcome {
    /// The status of a program that ends with it: 0 done, 1 refused, 4 a discrepancy, and where it was asked for, 5 for
    /// a recall that is open, for gaps, for what a recall misses and none holds, or for a run that was withheld.
    pub fn status(&self) -> u8
        ensures { result ≡ outcome_status self.now }
    {
        match self {
            Outcome::Created => 0,
            Outcome::Stepped(_) => 0,
            Outcome::Ran { recalls, coded } => {
                if *coded && some_unended(recalls.as_slice()) {
                    5
                } else {
                    0
                }
            }
            Outcome::Withheld => 5,
            Outcome::Reported {
                recall: _,
                report: _,
                ways: _,
                events: _,
            } => 0,
            Outcome::Traced {
                trace: _,
                ways: _,
                events: _,
            } => 0,
            Outcome::TracedBack {
                trace: _,
                ways: _,
                events: _,
            } => 0,
            Outcome::Standing { recalls, coded } => {
                if *coded && some_open(recalls.as_slice()) {
                    5
                } else {
                    0
                }
            }
            Outcome::Waiting { detail, coded } => {
                if *coded && is_open(&detail.status) {
                    5
                } else {
                    0
                }
            }
            Outcome::Known { site: _, items: _ } => 0,
            Outcome::WouldStart {
                quarantined: _,
                messages: _,
            } => 0,
            Outcome::Audited {
                recalls,
                ended: _,
                coded,
            } => audit_status(recalls.as_slice(), *coded),
            Outcome::Inconsistent(_) => 4,
            Outcome::Covered(_) => 0,
            Outcome::Gaps { gaps, coded } => { if *coded && has_gaps(gaps) { 5 } else { 0 } }
            Outcome::Missed {
                recall: _,
                missed,
                coded,
            } => { if *coded && has_missed(missed) { 5 } else { 0 } }
            Outcome::Refused(_) => 1,
        }
    }
}

/// The status of an audit: 4 a discrepancy, and where it was asked for, 5 for a recall that is open.
fn audit_status(recalls: &[AuditedRecall], coded: bool) -> u8
    ensures { result ≡ audit_status recalls.now coded }
{
    if some_amiss(recalls) {
        4
    } else if coded && some_unjudged(recalls) {
        5
    } else {
        0
    }
}

/// Whether some recall was open when it was audited.
fn some_unjudged(recalls: &[AuditedRecall]) -> bool
    ensures { result ≡ list_any is_unjudged recalls.now }
{
    recalls.iter().any(|recall| is_unjudged(recall))
}

/// Whether a recall was open when it was audited.
fn is_unjudged(audited: &AuditedRecall) -> bool
    ensures { result ≡ is_unjudged audited.now }
{
    audited.verdict.is_none()
}

/// Whether some recall is open after a run.
fn some_unended(recalls: &[StartedRecall]) -> bool
    ensures { result ≡ list_any is_unended recalls.now }
{
    recalls.iter().any(|recall| is_unended(recall))
}

/// Whether a recall is open: the site that began it hasn't recorded the end.
fn is_unended(recall: &StartedRecall) -> bool
    ensures { result ≡ is_unended recall.now }
{
    !recall.ended
}

/// Whether the quarantine of some recall differs from what its root reaches.
fn some_amiss(recalls: &[AuditedRecall]) -> bool
    ensures { result ≡ list_any is_amiss recalls.now }
{
    recalls.iter().any(|recall| is_amiss(recall))
}

/// Whether a recall's quarantine differs from what its root reaches.
fn is_amiss(audited: &AuditedRecall) -> bool
    ensures { result ≡ is_amiss audited.now }
{
    match &audited.verdict {
        None => false,
        Some(Verdict::Equal(_)) => false,
        Some(
            Verdict::Differs {
                pair: _,
                missing: _,
            },
        ) => true,
    }
}

/// Whether some recall is open.
fn some_open(recalls: &[RecallStatus]) -> bool
    ensures { result ≡ list_any is_open recalls.now }
{
    recalls.iter().any(|recall| is_open(recall))
}

/// Whether a recall is open: the site that began it hasn't recorded the end.
fn is_open(status: &RecallStatus) -> bool
    ensures { result ≡ is_open status.now }
{
    !status.ended
}

/// Whether there are gaps; containers that never came from where they were packed are none.
fn has_gaps(gaps: &FoundGaps) -> bool
    ensures { result ≡ has_gaps gaps.now }
{
    !(gaps.packed.is_empty()
        && gaps.used.is_empty()
        && gaps.unseen.is_empty()
        && gaps.lots.is_empty())
}

/// Whether something that a recall misses is held by no recall, or left the traced sites.
fn has_missed(missed: &MissedReach) -> bool
    ensures { result ≡ has_missed missed.now }
{
    some_unheld(missed.pairs.as_slice()) || !missed.outside.is_empty()
}

/// Whether some pair is held by no recall.
fn some_unheld(pairs: &[MissedPair]) -> bool
    ensures { result ≡ list_any is_unheld pairs.now }
{
    pairs.iter().any(|missed| is_unheld(missed))
}

/// Whether a pair is quarantined under no recall.
fn is_unheld(missed: &MissedPair) -> bool
    ensures { result ≡ is_unheld missed.now }
{
    missed.held.is_none()
}
