//! Several inputs of one site: its file is opened once, and each input is a step of its own. They are documents, which
//! are captured, or EPCs of items, of which recalls are started.

ghost use Rattle.std.specs.Prelude.{◌≡◌, [], ◌∷◌, IfErr, IfOk, map};
ghost use Rattle.recall_outcomes.specs.Batches.{none_yet};
ghost use Rattle.site_folders.specs.FileCalls.{Led};
ghost use Rattle.folder_commands.specs.Batches.{BatchFails, TakesAll, TakesEach, TakesRead, no_counts, no_notes};
ghost use Rattle.folder_commands.specs.Inputs.{input_of};
ghost use Rattle.folder_commands.specs.Words.{BeginsLines, BeginsWord, BeginsWords, ReadsLines, ReadsWord, ReadsWords, Texts, Words};

use crate::inputs::{Doing, Given, InputNotes, done_with};
use crate::untraced::none_untraced;
use crate::words::{Batch, WordKind, line_input, read_document, read_events, task_of, word_input};
use event_json::{Sequence, Sites};
use keeper_core::SiteKeeper;
use recall_outcomes::{Fault, InputOutcome, Outcome, Task, Totals};
use site_folders::{Files, no_site, open_site, sites_of};
use std::alloc::Global;
use std::mem;

/// Writes to an output what came of each input, one after another, as soon as it is kept.
pub trait InputSink<W> {
    ghost use Rattle.std.specs.Prelude.{◌≡◌, ◌⊎◌, List, ℕ, IfErr, OnOk};
    ghost use Rattle.event_json.specs.Sites.{Site};
    ghost use Rattle.recall_outcomes.specs.declared.batches.InputOutcome.{InputOutcome};

    /// From this output, telling it what came of the input of this source at a site of these led to that output.
    ghost takes: { Self → W → List Site → List ℕ → InputOutcome → W → Type 0 };

    /// Takes what came of the input of a source. `Write` where it can't be written.
    fn take(
        &self,
        output: &mut W,
        sites: &Sites,
        source: &str,
        came: &InputOutcome,
    ) -> Result<(), Fault>
        ensures taken { OnOk result (takes self.now output.old sites.now source.now came.now
            output.new) }
        ensures failed { IfErr result (λ fault. (fault ≡ Fault.Write) ⊎ (fault ≡ Fault.NoMemory)) };
}

/// What several inputs came to.
#[derive(Debug, Drop)]
pub struct BatchOutput {
    /// The sites that the folder lists.
    pub sites: Sites,
    pub came: BatchCame,
}

/// What several inputs came to, or why none was taken.
#[derive(Debug, Drop)]
pub enum BatchCame {
    /// The folder doesn't list the site, which is refused.
    NoSite(Outcome),
    /// The inputs were taken, or refused one by one.
    Taken { totals: Totals, noted: InputNotes },
}

/// What the inputs so far came to, and what is noted of them.
#[derive(Debug, Drop)]
pub(crate) struct Counts {
    pub(crate) totals: Totals,
    pub(crate) noted: InputNotes,
}

/// A batch at a site whose file is open.
#[derive(Drop)]
pub(crate) struct BatchRun<K> {
    pub(crate) alloc: Global,
    /// The sites that the folder lists.
    pub(crate) sites: Sites,
    pub(crate) keeper: K,
    pub(crate) counts: Counts,
}

/// Captures documents, or starts recalls of items, at a site of a folder, whose file is opened once. Each input is a
/// step of its own, and the sink gets what came of it once it is kept. A refused input doesn't affect the others.
///
/// # Errors
/// Those of the folder's list, those of opening the site's file, `Read` where a file of inputs can't be read, those of
/// a step, and those of the sink. The inputs of which the sink was told stay taken. After `NoMemory`, `Write`, `Device`
/// or `Store` the one behind them may be kept, too: a document that is captured again has its events with an eventID
/// known then, and those without one are captured twice; a recall that is started again is a second one.
pub fn take_inputs<K: SiteKeeper, F: Files<K>, W, S: InputSink<W>>(
    alloc: Global,
    files: &mut F,
    folder: &str,
    site: &str,
    batch: &Batch<'_>,
    sink: &S,
    output: &mut W,
) -> Result<BatchOutput, Fault>
    // The file is opened once; each input is read, and captured, or a recall of its item started, or refused, from the
    // record that the one before it left, and told to the sink once it is kept, in order; then the file is closed in
    // the record to which they lead, which a crash leaves there.
    ensures all { IfOk result (λ told. Led F.does files.old files.new
        (TakesAll K.shown K.stored (S.takes sink.now) folder.now site.now
        (Words batch.now.kind (map (λ w. w.now) batch.now.words.now)) output.old output.new told)) }
    // Nothing was changed or told; or those that were told are kept, in order, the fault is that of the file of inputs,
    // of the next input's step, of the sink, or of memory, and the file was closed in the record to which those inputs
    // lead, or in the one after one input more.
    ensures failed { IfErr result (λ fault. Led F.does files.old files.new
        (BatchFails K.shown K.stored (S.takes sink.now) folder.now site.now
        (Words batch.now.kind (map (λ w. w.now) batch.now.words.now)) K.may output.old output.new
        fault)) }
{
    let sites = sites_of(alloc, files, folder)?;
    let Some(number) = sites.find(site) else {
        let outcome = no_site(alloc, site)?;
        return Ok(BatchOutput {
            sites,
            came: BatchCame::NoSite(outcome),
        });
    };
    let keeper = open_site(alloc, files, folder, &sites, number)?;
    let counts = no_counts(alloc, task_of(batch.kind));
    let mut run = BatchRun {
        alloc,
        sites,
        keeper,
        counts,
    };
    let done = take_all(&mut run, files, sink, output, batch);
    files.close_site(run.keeper);
    done?;
    Ok(BatchOutput {
        sites: run.sites,
        came: BatchCame::Taken {
            totals: run.counts.totals,
            noted: run.counts.noted,
        },
    })
}

/// Takes inputs that are given at a site of a folder, as [`take_inputs`] takes those of words, to be counted as those
/// of a task.
///
/// # Errors
/// Those of [`take_inputs`], but for `Read` of a file of inputs.
pub fn take_texts<K: SiteKeeper, F: Files<K>, W, S: InputSink<W>>(
    alloc: Global,
    files: &mut F,
    folder: &str,
    site: &str,
    task: Task,
    inputs: Vec<Given>,
    sink: &S,
    output: &mut W,
) -> Result<BatchOutput, Fault>
    // As `take_inputs` has it, of these inputs.
    ensures all { IfOk result (λ told. Led F.does files.old files.new
        (TakesAll K.shown K.stored (S.takes sink.now) folder.now site.now
        (Texts task (map input_of inputs.items)) output.old output.new told)) }
    // And so of a fault; no file of inputs is read.
    ensures failed { IfErr result (λ fault. Led F.does files.old files.new
        (BatchFails K.shown K.stored (S.takes sink.now) folder.now site.now
        (Texts task (map input_of inputs.items)) K.may output.old output.new fault)) }
{
    let sites = sites_of(alloc, files, folder)?;
    let Some(number) = sites.find(site) else {
        let outcome = no_site(alloc, site)?;
        return Ok(BatchOutput {
            sites,
            came: BatchCame::NoSite(outcome),
        });
    };
    let keeper = open_site(alloc, files, folder, &sites, number)?;
    let counts = no_counts(alloc, task);
    let mut run = BatchRun {
        alloc,
        sites,
        keeper,
        counts,
    };
    let done = take_each(&mut run, sink, output, inputs);
    files.close_site(run.keeper);
    done?;
    Ok(BatchOutput {
        sites: run.sites,
        came: BatchCame::Taken {
            totals: run.counts.totals,
            noted: run.counts.noted,
        },
    })
}

/// Before the first input.
fn no_counts(alloc: Global, task: Task) -> Counts
    ensures { result ≡ no_counts task }
{
    Counts {
        totals: Totals::new(task),
        noted: no_notes(alloc),
    }
}

/// Nothing is noted.
fn no_notes(alloc: Global) -> InputNotes
    ensures { result ≡ no_notes }
{
    InputNotes {
        untraced: none_untraced(),
        places: Sequence::new(alloc),
        inside: 0,
    }
}

/// Takes the inputs of all words, in order.
fn take_all<K: SiteKeeper, F: Files<K>, W, S: InputSink<W>>(
    run: &mut BatchRun<K>,
    files: &mut F,
    sink: &S,
    output: &mut W,
    batch: &Batch<'_>,
) -> Result<(), Fault>
    ensures { TakesRead K.shown K.may K.stored (S.takes sink.now) F.does
        (ReadsWords batch.now.kind (map (λ w. w.now) batch.now.words.now))
        (BeginsWords batch.now.kind (map (λ w. w.now) batch.now.words.now))
        files.old files.new run.old run.new output.old output.new result }
{
    for word in batch.words {
        take_word(run, files, sink, output, batch.kind, word)?;
    }
    Ok(())
}

/// Takes the inputs of a word.
fn take_word<K: SiteKeeper, F: Files<K>, W, S: InputSink<W>>(
    run: &mut BatchRun<K>,
    files: &mut F,
    sink: &S,
    output: &mut W,
    kind: WordKind,
    word: &str,
) -> Result<(), Fault>
    ensures { TakesRead K.shown K.may K.stored (S.takes sink.now) F.does (ReadsWord kind word.now)
        (BeginsWord kind word.now) files.old files.new run.old run.new output.old output.new result }
{
    match kind {
        WordKind::Document => {
            let inputs = read_document(run.alloc, files, word)?;
            take_each(run, sink, output, inputs)
        }
        WordKind::DocumentLines => take_lines(run, files, sink, output, Doing::Capture, word),
        WordKind::DocumentEvents => {
            let inputs = read_events(run.alloc, files, word)?;
            take_each(run, sink, output, inputs)
        }
        WordKind::Epc(spelling) => {
            let inputs = word_input(run.alloc, Doing::Start(spelling), word)?;
            take_each(run, sink, output, inputs)
        }
        WordKind::EpcLines(spelling) => take_lines(
            run,
            files,
            sink,
            output,
            Doing::Start(spelling),
            word,
        ),
    }
}

/// Takes the inputs of a file's lines, each before the next one is read.
fn take_lines<K: SiteKeeper, F: Files<K>, W, S: InputSink<W>>(
    run: &mut BatchRun<K>,
    files: &mut F,
    sink: &S,
    output: &mut W,
    doing: Doing,
    path: &str,
) -> Result<(), Fault>
    ensures { TakesRead K.shown K.may K.stored (S.takes sink.now) F.does (ReadsLines doing path.now)
        (BeginsLines doing path.now) files.old files.new run.old run.new output.old output.new result }
{
    for number in 1..u64::MAX {
        let Some(line) = files.read_line(run.alloc, path)? else {
            return Ok(());
        };
        let inputs = line_input(run.alloc, doing, path, number, line)?;
        take_each(run, sink, output, inputs)?;
    }
    // No file has as many lines.
    Err(Fault::NoMemory)
}

/// Takes inputs, one after another.
fn take_each<K: SiteKeeper, W, S: InputSink<W>>(
    run: &mut BatchRun<K>,
    sink: &S,
    output: &mut W,
    inputs: Vec<Given>,
) -> Result<(), Fault>
    ensures { TakesEach K.shown K.may K.stored (S.takes sink.now) (map input_of inputs.items) run.old run.new
        output.old output.new result }
{
    for input in inputs {
        take(run, sink, output, input)?;
    }
    Ok(())
}

/// Takes an input, tells of it, and counts it.
fn take<K: SiteKeeper, W, S: InputSink<W>>(
    run: &mut BatchRun<K>,
    sink: &S,
    output: &mut W,
    input: Given,
) -> Result<(), Fault>
    ensures { TakesEach K.shown K.may K.stored (S.takes sink.now) (input_of input ∷ []) run.old run.new
        output.old output.new result }
{
    let Given {
        doing,
        source,
        bytes,
    } = input;
    let noted = mem::replace(&mut run.counts.noted, no_notes(run.alloc));
    let (came, noted) = done_with(run.alloc, &mut run.keeper, doing, bytes, noted)?;
    sink.take(output, &run.sites, source.as_str(), &came)?;
    run.counts = Counts {
        totals: run.counts.totals.with(&came),
        noted,
    };
    Ok(())
}
