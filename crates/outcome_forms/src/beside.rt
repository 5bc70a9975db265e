//! What is written to the error stream: what refusals mean, notes, advice and faults. What memory or the stream doesn't
//! allow is left out.

ghost use Rattle.outcome_forms.specs.Writing.{AppendsText};

use crate::advice::advice;
use crate::fault_json::{fault_json, note_lines};
use crate::fault_texts::{bare_line, fault_text};
use crate::forms::Form;
use crate::input_sentences::InputSentences;
use crate::missed_notes::inside_all_text;
use crate::notes::{notes_text, places_text, untraced_text};
use crate::sentences::sentences;
use event_json::{PlainText, Untraced};
use recall_outcomes::{Failure, Fault, Outcome, Output};
use recall_text::write_text;
use std::alloc::{AllocError, Global};
use std::io::Write;

/// Writes what is reported beside an outcome: what its refusals mean (not in JSON), its notes, its advice, and which
/// places outside may be a traced site.
pub fn write_beside<E: Write>(alloc: Global, form: Form, output: &Output, errors: &mut E)
    ensures { AppendsText (E.contents errors.old) (E.contents errors.new) }
{
    explain(alloc, form, &output.outcome, errors);
    let sites = &output.sites;
    note(alloc, form, notes_text(alloc, sites, &output.notes), errors);
    note(alloc, form, advice_of(alloc, &output.outcome), errors);
    note(
        alloc,
        form,
        places_text(alloc, sites, &output.outcome),
        errors,
    );
}

/// Writes what refusals mean, where that isn't printed as JSON.
fn explain<E: Write>(alloc: Global, form: Form, outcome: &Outcome, errors: &mut E)
    ensures { AppendsText (E.contents errors.old) (E.contents errors.new) }
{
    match form {
        Form::Text | Form::Csv | Form::GuardedCsv | Form::Dot => say(
            errors,
            sentences_of(alloc, outcome),
        ),
        Form::Json => {}
    }
}

/// Writes what the refusals of several inputs mean, where that isn't printed as JSON.
pub fn write_sentences<E: Write>(
    alloc: Global,
    form: Form,
    sentences: &InputSentences,
    errors: &mut E,
)
    ensures { AppendsText (E.contents errors.old) (E.contents errors.new) }
{
    match form {
        Form::Text | Form::Csv | Form::GuardedCsv | Form::Dot => say(errors, sentences.text(alloc)),
        Form::Json => {}
    }
}

/// Writes what is noted of a batch: what its documents say and isn't traced, with destinations that are no traced site,
/// and how many items lie in those of which it started recalls.
pub fn write_noted<E: Write>(
    alloc: Global,
    form: Form,
    untraced: &Untraced,
    places: &[PlainText],
    inside: u64,
    errors: &mut E,
)
    ensures { AppendsText (E.contents errors.old) (E.contents errors.new) }
{
    note(alloc, form, untraced_text(alloc, untraced, places), errors);
    note(alloc, form, inside_all_text(alloc, inside), errors);
}

/// Writes a fault: its name, the file that it is about and what is known of that, and what it means. Its name alone,
/// where memory runs out for the rest.
pub fn write_fault<E: Write>(
    alloc: Global,
    form: Form,
    fault: Fault,
    failure: Option<&Failure>,
    errors: &mut E,
)
    ensures { AppendsText (E.contents errors.old) (E.contents errors.new) }
{
    match fault_lines(alloc, form, fault, failure) {
        Ok(text) => say(errors, Ok(text)),
        Err(_) => say_str(errors, bare_line(form, fault)),
    }
}

fn fault_lines(
    alloc: Global,
    form: Form,
    fault: Fault,
    failure: Option<&Failure>,
) -> Result<String, AllocError> {
    match form {
        Form::Text | Form::Csv | Form::GuardedCsv | Form::Dot => fault_text(alloc, fault, failure),
        Form::Json => {
            let mut line = fault_json(alloc, fault, failure)?.to_string(alloc)?;
            line.push_str("\n")?;
            Ok(line)
        }
    }
}

fn sentences_of(alloc: Global, outcome: &Outcome) -> Result<String, AllocError> {
    match outcome {
        Outcome::Refused(whys) => sentences(alloc, whys.as_slice()),
        _ => Ok(String::new(alloc)),
    }
}

fn advice_of(alloc: Global, outcome: &Outcome) -> Result<String, AllocError> {
    String::from_str(alloc, advice(outcome).unwrap_or(""))
}

/// Writes lines of notes, as JSON a value for each.
fn note<E: Write>(alloc: Global, form: Form, text: Result<String, AllocError>, errors: &mut E)
    ensures { AppendsText (E.contents errors.old) (E.contents errors.new) }
{
    match form {
        Form::Text | Form::Csv | Form::GuardedCsv | Form::Dot => say(errors, text),
        Form::Json => {
            if let Ok(text) = text {
                say(errors, note_lines(alloc, text.as_str()));
            }
        }
    }
}

fn say<E: Write>(errors: &mut E, text: Result<String, AllocError>)
    ensures { AppendsText (E.contents errors.old) (E.contents errors.new) }
{
    if let Ok(text) = text {
        say_str(errors, text.as_str());
    }
}

/// Writes to the error stream. Where that fails there is nobody left to report it to.
fn say_str<E: Write>(errors: &mut E, text: &str)
    ensures { AppendsText (E.contents errors.old) (E.contents errors.new) }
{
    let _ = write_text(errors, text.as_bytes());
}
