//! The answer to an input that a site was given.

ghost use Rattle.std.specs.Prelude.{◌≡◌, IfOk};
ghost use Rattle.recall_text.specs.Answer.{answer_of};
ghost use Rattle.script_core.specs.Tasks.{outcome_said};

use crate::worlds::Outcome;
use event_json::{SiteNo, Sites};
use recall_text::answers::Answer;
use recall_text::texts::{effects_text, refusal_text, stopped_text};
use std::alloc::{AllocError, Global};

/// What came of an input that a site was given. `about` is the message that it brings or signals.
pub(crate) fn of_outcome(
    alloc: Global,
    sites: &Sites,
    site: SiteNo,
    about: &str,
    outcome: &Outcome,
) -> Result<Answer, AllocError>
    ensures { IfOk result (λ a. answer_of a ≡ outcome_said sites.now site about.now outcome.now) }
{
    match outcome {
        Outcome::Did(effects) => Ok(Answer::Done(effects_text(alloc, sites, about, effects)?)),
        Outcome::Refused(why) => {
            let what = refusal_text(alloc, sites, why)?;
            Answer::refusal(alloc, what.as_str())
        }
        Outcome::Stopped => Ok(Answer::Done(stopped_text(alloc, sites, site)?)),
    }
}
