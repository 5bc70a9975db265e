//! The account of an outcome that is a report or a trace, by which all forms print it.

ghost use Rattle.std.specs.Prelude.{◌≡◌, option_map};
ghost use Rattle.outcome_forms.specs.Accounts.{account_of, told_events};

use event_json::Sequence;
use recall_outcomes::{Outcome, Ways};
use report_core::StepEvents;
use report_forms::Account;

/// The account of a report or a trace, and how it tells the trails.
pub(crate) fn account_of(outcome: &Outcome) -> Option<(Account<'_>, Ways)>
    ensures { result ≡ account_of outcome.now }
{
    match outcome {
        Outcome::Reported {
            recall,
            report,
            ways,
            events,
        } => Some((Account::of_report(*recall, report, events.as_ref()), *ways)),
        Outcome::Traced {
            trace,
            ways,
            events,
        } => Some((Account::of_trace(trace, events.as_ref()), *ways)),
        Outcome::TracedBack {
            trace,
            ways,
            events,
        } => Some((Account::of_back(trace, told_events(events)), *ways)),
        _ => None,
    }
}

/// The events of the steps of a trace back; none where they weren't asked for.
fn told_events(events: &Option<Vec<Sequence<StepEvents>>>) -> &[Sequence<StepEvents>]
    ensures { result.now ≡ told_events events.now }
{
    match events {
        None => &[],
        Some(events) => events.as_slice(),
    }
}
