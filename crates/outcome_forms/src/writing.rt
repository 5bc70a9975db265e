//! Outcomes as they are written to the standard output.

ghost use Rattle.std.specs.Prelude.{◌≡◌, true, IfErr, OnErr, OnOk};
ghost use Rattle.std.specs.Io.KnownBytes.{Appends};
ghost use Rattle.recall_text.specs.Writing.{AppendsBeginning};
ghost use Rattle.outcome_forms.specs.Json.{input_json, json_line, json_lines, outcome_json, totals_json};
ghost use Rattle.outcome_forms.specs.Writing.{AppendsText, Writes, WritesLines, is_of_writing};

use crate::account_texts::write_account_text;
use crate::accounts::account_of;
use crate::forms::Form;
use crate::json_lines::{outcome_values, value_line, value_lines, write_account};
use crate::outcome_json::{input_json, totals_json};
use crate::outcome_texts::{input_text, outcome_text, totals_text};
use event_json::Sites;
use recall_outcomes::{Fault, InputOutcome, Outcome, Task, Totals, Ways};
use recall_text::write_text;
use report_forms::{Account, csv_table, dot_graph};
use std::alloc::Global;
use std::io::Write;

/// Writes an outcome: whole lines.
///
/// # Errors
/// `Write` and `NoMemory`, at which a beginning may have been written.
pub fn write_outcome<W: Write>(
    alloc: Global,
    form: Form,
    sites: &Sites,
    outcome: &Outcome,
    output: &mut W,
) -> Result<(), Fault>
    // As JSON, what is written of an outcome is just the lines of its values, also where a report or a trace is written
    // pair by pair.
    //
    // As rows, what is written of a report or a trace is read back as the rows of its account; as a picture, no text of
    // others becomes a part of its language.
    ensures ok { OnOk result (Writes form sites.now outcome.now (W.contents output.old)
        (W.contents output.new)) }
    ensures text { AppendsText (W.contents output.old) (W.contents output.new) }
    ensures fault { IfErr result (λ e. is_of_writing e ≡ true) }
{
    match account_of(outcome) {
        Some((account, ways)) => match form {
            Form::Text => write_account_text(alloc, sites, ways, &account, output),
            Form::Json => write_account(alloc, sites, ways, &account, output),
            Form::Csv => print(output, csv_table(alloc, sites, &account, false)?.as_str()),
            Form::GuardedCsv => print(output, csv_table(alloc, sites, &account, true)?.as_str()),
            Form::Dot => print(output, dot_graph(alloc, sites, &account)?.as_str()),
        },
        None => match form {
            Form::Json => {
                let values = outcome_values(alloc, sites, outcome)?;
                print(output, value_lines(alloc, values.as_slice())?.as_str())
            }
            Form::Text | Form::Csv | Form::GuardedCsv | Form::Dot => {
                print(output, outcome_text(alloc, sites, outcome)?.as_str())
            }
        },
    }
}

/// Writes what came of an input of several, a line.
///
/// # Errors
/// `Write` and `NoMemory`, at which a beginning may have been written.
pub fn write_input<W: Write>(
    alloc: Global,
    form: Form,
    task: Task,
    sites: &Sites,
    source: &str,
    came: &InputOutcome,
    output: &mut W,
) -> Result<(), Fault>
    ensures ok { OnOk result (WritesLines form
        (json_line (input_json task sites.now source.now came.now)) (W.contents output.old)
        (W.contents output.new)) }
    ensures text { AppendsText (W.contents output.old) (W.contents output.new) }
    ensures fault { IfErr result (λ e. is_of_writing e ≡ true) }
{
    match form {
        Form::Json => {
            let value = input_json(alloc, task, sites, source, came)?;
            print(output, value_line(alloc, &value)?.as_str())
        }
        Form::Text | Form::Csv | Form::GuardedCsv | Form::Dot => {
            print(output, input_text(alloc, sites, source, came)?.as_str())
        }
    }
}

/// Writes what several inputs came to, a line.
///
/// # Errors
/// `Write` and `NoMemory`, at which a beginning may have been written.
pub fn write_totals<W: Write>(
    alloc: Global,
    form: Form,
    totals: Totals,
    output: &mut W,
) -> Result<(), Fault>
    ensures ok { OnOk result (WritesLines form (json_line (totals_json totals))
        (W.contents output.old) (W.contents output.new)) }
    ensures text { AppendsText (W.contents output.old) (W.contents output.new) }
    ensures fault { IfErr result (λ e. is_of_writing e ≡ true) }
{
    match form {
        Form::Json => {
            let value = totals_json(alloc, totals)?;
            print(output, value_line(alloc, &value)?.as_str())
        }
        Form::Text | Form::Csv | Form::GuardedCsv | Form::Dot => print(
            output,
            totals_text(alloc, totals)?.as_str(),
        ),
    }
}

/// Writes a text.
pub(crate) fn print<W: Write>(output: &mut W, text: &str) -> Result<(), Fault>
    ensures ok { OnOk result (Appends (W.contents output.old) (W.contents output.new) text.now) }
    ensures err { OnErr result (AppendsBeginning (W.contents output.old) (W.contents output.new)
        text.now) }
    ensures fault { IfErr result (λ e. is_of_writing e ≡ true) }
{
    match write_text(output, text.as_bytes()) {
        Ok(()) => Ok(()),
        Err(_) => Err(Fault::Write),
    }
}
