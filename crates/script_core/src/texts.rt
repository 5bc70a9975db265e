//! Texts of what is reported while rounds of `pump` run.

ghost use Rattle.std.specs.Prelude.{◌≡◌, ◌++◌, OnOk, string_bytes};
ghost use Rattle.recall_text.specs.Words.{ended_text};
ghost use Rattle.script_core.specs.Pumping.{pump_text};

use crate::worlds::Outcome;
use event_json::{SiteNo, Sites};
use frame_core::RecallId;
use recall_text::texts::{recall_text, stopped_text};
use site_core::Effects;
use std::alloc::{AllocError, Global};

/// Adds what is reported while rounds of `pump` run: that a recall has ended, and that a site stopped.
pub(crate) fn push_outcome(
    alloc: Global,
    text: &mut String,
    sites: &Sites,
    site: SiteNo,
    outcome: &Outcome,
) -> Result<(), AllocError>
    ensures { OnOk result (string_bytes text.new
        ≡ string_bytes text.old ++ pump_text sites.now site outcome.now) }
{
    match outcome {
        Outcome::Did(Effects::Ended(recall)) => push_ended(alloc, text, sites, *recall),
        Outcome::Stopped => {
            let line = stopped_text(alloc, sites, site)?;
            text.push_str(line.as_str())
        }
        _ => Ok(()),
    }
}

fn push_ended(
    alloc: Global,
    text: &mut String,
    sites: &Sites,
    recall: RecallId,
) -> Result<(), AllocError>
    ensures { OnOk result (string_bytes text.new
        ≡ string_bytes text.old ++ ended_text sites.now recall) }
{
    let recall = recall_text(alloc, sites, recall)?;
    let recall = recall.as_str();
    let line = format!(in alloc; "ended {recall}\n")?;
    text.push_str(line.as_str())
}
