//! How several documents are captured, or several recalls started.

ghost use Rattle.std.specs.Prelude.{◌≡◌, IfErr, IfOk};
ghost use Rattle.folder_commands.specs.Words.{task_of};
ghost use Rattle.command_line.specs.Ends.{BatchEnds, InputLine, TakesBatch, TellsBatch};

use crate::asked::Batch;
use crate::commands::{fault, tell_output};
use crate::limits::LimitsDocuments;
use crate::sinks::InputLines;
use folder_commands::{BatchCame, BatchOutput, take_inputs, task_of};
use keeper_core::SiteKeeper;
use outcome_forms::{Form, InputSentences, write_noted, write_sentences, write_totals};
use recall_outcomes::{Fault, Notes, Output};
use site_folders::Files;
use std::alloc::Global;
use std::cell::RefCell;
use std::io::Write;

/// Captures several documents, or starts several recalls, each of which is answered once it is kept, and returns the
/// status to end with.
pub(crate) fn take_batch<K: SiteKeeper, F: Files<K> + LimitsDocuments, W: Write, E: Write>(
    alloc: Global,
    files: &mut F,
    batch: &Batch<'_>,
    output: &mut W,
    errors: &mut E,
) -> u8
    ensures { TellsBatch F.does F.waits F.limits K.shown K.may K.stored W.contents batch.now
        files.old files.new output.old output.new result }
{
    files.wait_for(batch.terms.wait);
    files.limit_to(batch.terms.most);
    let sentences = RefCell::new(InputSentences::new(alloc));
    let taken = take_all(alloc, files, batch, &sentences, output);
    write_sentences(alloc, batch.terms.form, &sentences.into_inner(), errors);
    match taken {
        Ok(told) => tell_batch(alloc, batch.terms.form, true, files, told, output, errors),
        Err(cause) => fault(alloc, batch.terms.form, files, cause, errors),
    }
}

/// Takes the inputs, and gathers what their refusals mean.
fn take_all<K: SiteKeeper, F: Files<K>, W: Write>(
    alloc: Global,
    files: &mut F,
    batch: &Batch<'_>,
    sentences: &RefCell<InputSentences>,
    output: &mut W,
) -> Result<BatchOutput, Fault>
    ensures { TakesBatch F.does K.shown K.may K.stored W.contents batch.now files.old files.new
        output.old output.new result }
{
    let lines = InputLines {
        alloc,
        form: batch.terms.form,
        task: task_of(batch.kind),
        sentences,
    };
    let inputs = folder_commands::Batch {
        words: batch.words.as_slice(),
        kind: batch.kind,
    };
    take_inputs(
        alloc,
        files,
        batch.folder,
        batch.site,
        &inputs,
        &lines,
        output,
    )
}

/// Prints what the inputs came to; and beside it what isn't traced, and how many items lie in the recalled ones, where
/// that is to be told.
pub(crate) fn tell_batch<K: SiteKeeper, F: Files<K>, W: Write, E: Write>(
    alloc: Global,
    form: Form,
    tells_inside: bool,
    files: &F,
    told: BatchOutput,
    output: &mut W,
    errors: &mut E,
) -> u8
    ensures { BatchEnds form told.sites told.came (W.contents output.old) (W.contents output.new)
        result }
{
    let BatchOutput { sites, came } = told;
    match came {
        BatchCame::NoSite(outcome) => {
            let refused = Output {
                sites,
                outcome,
                notes: Notes::Nothing,
            };
            tell_output(alloc, form, files, &refused, output, errors)
        }
        BatchCame::Taken { totals, noted } => match write_totals(alloc, form, totals, output) {
            Ok(()) => {
                let inside = if tells_inside { noted.inside } else { 0 };
                let places = noted.places.as_slice();
                write_noted(alloc, form, &noted.untraced, places, inside, errors);
                totals.status()
            }
            Err(cause) => fault(alloc, form, files, cause, errors),
        },
    }
}
