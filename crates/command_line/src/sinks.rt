//! The lines of what came of several inputs, or was found in several documents, which are written as soon as it is
//! known.

ghost use Rattle.std.specs.Prelude.{◌≡◌, IfErr, IfOk, OnOk, string_bytes};
ghost use Rattle.std.specs.Io.KnownBytes.{Appends};
ghost use Rattle.document_lint.specs.Lines.{lint_json};

use document_lint::Lint;
use event_json::Sites;
use folder_commands::{InputSink, LintSink};
use outcome_forms::{Form, InputSentences, shown, write_input};
use recall_outcomes::{Fault, InputOutcome, Task};
use recall_text::write_text;
use std::alloc::{AllocError, Global};
use std::cell::RefCell;
use std::io::Write;

/// A line for what came of each input. Beside that it gathers what refusals mean.
#[derive(Drop)]
pub(crate) struct InputLines<'a> {
    pub(crate) alloc: Global,
    pub(crate) form: Form,
    /// What is done with the inputs.
    pub(crate) task: Task,
    pub(crate) sentences: &'a RefCell<InputSentences>,
}

impl<W: Write> InputSink<W> for InputLines<'_> {
    ghost use Rattle.command_line.specs.Ends.{InputLine};

    ghost takes = { λ lines before sites source came after.
        InputLine W.contents lines.form lines.task before sites source came after };

    fn take(
        &self,
        output: &mut W,
        sites: &Sites,
        source: &str,
        came: &InputOutcome,
    ) -> Result<(), Fault> {
        if let Ok(mut sentences) = self.sentences.try_borrow_mut() {
            sentences.add(came);
        }
        write_input(
            self.alloc, self.form, self.task, sites, source, came, output,
        )
    }
}

/// The lines of what is found in each document.
#[derive(Drop)]
pub(crate) struct LintLines {
    pub(crate) alloc: Global,
    pub(crate) form: Form,
}

impl<W: Write> LintSink<W> for LintLines {
    ghost use Rattle.command_line.specs.Ends.{LintLine};

    ghost takes = { λ lines before path found after.
        LintLine W.contents lines.form before path found after };

    fn take(&self, output: &mut W, path: &str, found: &Lint) -> Result<(), Fault> {
        let lines = lint_lines(self.alloc, self.form, path, found)?;
        print(output, lines.as_str())
    }
}

/// The lines of what is found in a document. In lines of words its path is as it is shown.
fn lint_lines(alloc: Global, form: Form, path: &str, found: &Lint) -> Result<String, AllocError>
    ensures { form ≡ Form.Json → IfOk result (λ t. string_bytes t ≡ lint_json path.now found.now) }
{
    match form {
        Form::Json => found.json(alloc, path),
        Form::Text | Form::Csv | Form::GuardedCsv | Form::Dot => {
            let path = shown(alloc, path)?;
            found.text(alloc, path.as_str())
        }
    }
}

/// Writes a text.
pub(crate) fn print<W: Write>(output: &mut W, text: &str) -> Result<(), Fault>
    ensures written { OnOk result (Appends (W.contents output.old) (W.contents output.new) text.now) }
    ensures failed { IfErr result (λ fault. fault ≡ Fault.Write) }
{
    match write_text(output, text.as_bytes()) {
        Ok(()) => Ok(()),
        Err(_) => Err(Fault::Write),
    }
}
