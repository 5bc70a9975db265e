//! Values of JSON as lines: those of an outcome, and a report or a trace part by part, so that memory is taken for the
//! text of one part at a time.

ghost use Rattle.std.specs.Prelude.{◌≡◌, ◌++◌, [], ◌∷◌, All, None, false, true, IfErr, IfOk, OnOk, map, string_bytes};
ghost use Rattle.std.specs.Io.KnownBytes.{Appends};
ghost use Rattle.serde_json.specs.View.{items_of, view};
ghost use Rattle.serde_json.specs.Written.{comma_if, compact_text, has_float, items_text};
ghost use Rattle.report_forms.specs.Accounts.{part_of};
ghost use Rattle.outcome_forms.specs.Accounts.{account_of};
ghost use Rattle.outcome_forms.specs.Json.{account_json, json_line, json_lines, outcome_json, part_json};
ghost use Rattle.outcome_forms.specs.Writing.{AppendsText, is_of_writing};

use crate::account_json::{account_head, account_tail, part_json, value_text};
use crate::gap_json::gaps_json;
use crate::missed_json::missed_json;
use crate::outcome_json::{created_json, effects_json, misfit_json, withheld_json};
use crate::query_json::{detail_json, known_values, would_json};
use crate::values::values;
use crate::writing::print;
use event_json::Sites;
use recall_outcomes::{Fault, Outcome, Ways};
use report_forms::{Account, Part};
use serde_json::Value;
use std::alloc::{AllocError, Global};
use std::io::Write;

/// The values of an outcome that is no report and no trace.
pub(crate) fn outcome_values(
    alloc: Global,
    sites: &Sites,
    outcome: &Outcome,
) -> Result<Vec<Value>, AllocError>
    ensures { IfOk result (λ vs. account_of outcome.now ≡ None
        → map view vs.items ≡ outcome_json sites.now outcome.now) }
{
    match outcome {
        Outcome::Created => one(alloc, created_json(alloc, sites)?),
        Outcome::Stepped(effects) => one(alloc, effects_json(alloc, sites, effects)?),
        Outcome::Ran { recalls, coded: _ } => values(alloc, sites, recalls.as_slice()),
        Outcome::Withheld => one(alloc, withheld_json(alloc)?),
        Outcome::Standing { recalls, coded: _ } => values(alloc, sites, recalls.as_slice()),
        Outcome::Waiting { detail, coded: _ } => one(alloc, detail_json(alloc, sites, detail)?),
        Outcome::Known { site, items } => known_values(alloc, sites, *site, items.as_slice()),
        Outcome::WouldStart {
            quarantined,
            messages,
        } => one(alloc, would_json(alloc, *quarantined, *messages)?),
        Outcome::Audited {
            recalls,
            ended: _,
            coded: _,
        } => values(alloc, sites, recalls.as_slice()),
        Outcome::Inconsistent(misfit) => one(alloc, misfit_json(alloc, sites, *misfit)?),
        Outcome::Covered(found) => values(alloc, sites, found.as_slice()),
        Outcome::Gaps { gaps, coded: _ } => one(alloc, gaps_json(alloc, sites, gaps)?),
        Outcome::Missed {
            recall,
            missed,
            coded: _,
        } => one(alloc, missed_json(alloc, sites, *recall, missed)?),
        Outcome::Refused(whys) => values(alloc, sites, whys.as_slice()),
        _ => Ok(Vec::new(alloc)),
    }
}

/// One value alone.
fn one(alloc: Global, value: Value) -> Result<Vec<Value>, AllocError>
    ensures { IfOk result (λ vs. map view vs.items ≡ view value ∷ []) }
{
    let mut values = Vec::new(alloc);
    values.push(value)?;
    Ok(values)
}

/// Values, a line for each.
pub(crate) fn value_lines(alloc: Global, values: &[Value]) -> Result<String, AllocError>
    requires { All (λ v. has_float (view v) ≡ false) values.now }
    ensures { IfOk result (λ t. string_bytes t ≡ json_lines (map view values.now)) }
{
    let mut text = String::new(alloc);
    for value in values {
        text.push_str(value_line(alloc, value)?.as_str())?;
    }
    Ok(text)
}

/// A value in a line of its own.
pub(crate) fn value_line(alloc: Global, value: &Value) -> Result<String, AllocError>
    requires { has_float (view value.now) ≡ false }
    ensures { IfOk result (λ t. string_bytes t ≡ json_line (view value.now)) }
{
    let mut text = value_text(alloc, value)?;
    text.push('\n')?;
    Ok(text)
}

/// Writes the line of a report or a trace.
pub(crate) fn write_account<W: Write>(
    alloc: Global,
    sites: &Sites,
    ways: Ways,
    account: &Account<'_>,
    output: &mut W,
) -> Result<(), Fault>
    ensures ok { OnOk result (Appends (W.contents output.old) (W.contents output.new)
        (json_line (account_json sites.now ways account.now))) }
    ensures text { AppendsText (W.contents output.old) (W.contents output.new) }
    ensures fault { IfErr result (λ e. is_of_writing e ≡ true) }
{
    let head = account_head(alloc, sites, account)?;
    let tail = account_tail(alloc, sites, account)?;
    print(output, head.as_str())?;
    write_parts(alloc, sites, ways, account, output)?;
    print(output, tail.as_str())?;
    Ok(())
}

/// Writes the parts of a report or a trace, up to the bracket behind them.
fn write_parts<W: Write>(
    alloc: Global,
    sites: &Sites,
    ways: Ways,
    account: &Account<'_>,
    output: &mut W,
) -> Result<(), Fault>
    ensures ok { OnOk result (Appends (W.contents output.old) (W.contents output.new)
        (items_text false (items_of (map (part_json sites.now ways) account.now.parts)))) }
    ensures text { AppendsText (W.contents output.old) (W.contents output.new) }
    ensures fault { IfErr result (λ e. is_of_writing e ≡ true) }
{
    for place in 0..account.len() {
        let Some(part) = account.part(place) else {
            unreachable!()
        };
        let text = part_text(alloc, sites, ways, &part, place != 0)?;
        print(output, text.as_str())?;
    }
    print(output, "]")?;
    Ok(())
}

/// The text of a part, behind a comma where it is a later one.
#[tactic(auto, using(crate::proofs::Trees::part_free))]
fn part_text(
    alloc: Global,
    sites: &Sites,
    ways: Ways,
    part: &Part<'_>,
    later: bool,
) -> Result<String, AllocError>
    ensures { IfOk result (λ t. string_bytes t
        ≡ comma_if later ++ compact_text (part_json sites.now ways (part_of part.now))) }
{
    let value = part_json(alloc, sites, ways, part)?;
    let text = value_text(alloc, &value)?;
    let mut whole = String::from_str(alloc, comma_if(later))?;
    whole.push_str(text.as_str())?;
    Ok(whole)
}

fn comma_if(later: bool) -> &'static str
    ensures { result.now ≡ comma_if later }
{
    if later { "," } else { "" }
}
