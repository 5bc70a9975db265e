//! How a command line ends: what it asks for is done, and printed.

ghost use Rattle.std.specs.Prelude.{◌≡◌, ◌⊎◌, ◌==◌, if◌then◌else◌};
ghost use Rattle.command_line.specs.Ends.{CommandEnds, Ends, OutcomeEnds, RunsScript, SimRuns, streams};
ghost use Rattle.command_line.specs.Lives.{LeadByActs};

use crate::asked::Asked;
use crate::batch_commands::take_batch;
use crate::convert_commands::convert_files;
use crate::folder_tasks::do_command;
use crate::limits::LimitsDocuments;
use crate::lint_commands::lint_files;
use crate::pack_commands::pack_files;
use crate::plan_commands::do_plan;
use crate::sinks::print;
use crate::{command_lines, statuses};
use keeper_core::SiteKeeper;
use outcome_forms::{Form, fault_line, write_beside, write_fault, write_outcome};
use recall_outcomes::{Fault, Output};
use recall_text::{ScriptFault, write_text};
use script_core::{Tally, run_script};
use site_folders::Files;
use site_threads::Gate;
use std::alloc::Global;
use std::hash::RandomState;
use std::io::{Read, Write};
use std::sync::Wait;
use std::thread::Threads;
use std::time::Clock;

/// Does what the words of a command line ask for, and returns the status to end with: 0 done, 1
/// something was refused, 2 bad command line, 3 a fault that isn't printed as `refused`, out of
/// memory too, 4 an audit found a discrepancy, 5 a recall is open, where that was asked for.
///
/// The words begin with the program's name. Answers, refusals and help go to `output`, faults and what is wrong with a
/// command line to `errors`, and so do the notes of a run. What a command on the sites' files comes to is that of the
/// calls of `files` that lead to it; without such a command `files` isn't asked. In a run each site has a copy of the
/// gate to its turns. The keys are those of the hash by which items are numbered, drawn at random, so that nobody can
/// choose texts that collide.
///
/// Whatever it comes to, its calls are acts of the sites (clause `acts`), so that one command after another is a run of
/// the world ([`crate::laws::folders_come_out`]).
pub fn run_command<
    R: Threads + Wait + Clock + Sync,
    K: SiteKeeper + Send,
    F: Files<K> + LimitsDocuments,
    G: Gate + Copy + Send,
    I: Read,
    W: Write,
    E: Write,
>(
    rt: &R,
    alloc: Global,
    keys: RandomState,
    files: &mut F,
    gate: G,
    words: &[String],
    input: &mut I,
    output: &mut W,
    errors: &mut E,
) -> u8
    // A command line asks for a script, a command on files, several inputs, a look through documents, the packings that
    // close gaps, a conversion of documents, help, or is a bad one, as `clap` reads it for this command; or memory runs
    // out.
    //
    // A command on files was done: its row says what the calls of the files that lead to its output say of the records
    // and of the outcome; that was written in the form that was asked for, with the outcome's status, or writing
    // failed, with 3. Or it has a fault, which is that of the calls, with 3, and nothing was written.
    // Not covered: that a file is waited for, or a longer document isn't read: the machine's files say nothing of these
    // calls.
    //
    // Several inputs end as `take_inputs` says, with a line for what came of each, written once it is kept; a look
    // through documents as `lint_documents` says.
    //
    // The packings that close gaps are those of the folder's records, as documents: a line of each was written, with 0,
    // or writing failed, with 3; or the site isn't listed, which is refused.
    //
    // What is planned is what the records of all sites say; or it is refused. Each site took its part as `take_texts`
    // says, one after another, with a line for what came of each input, written once it is kept, and totals; up to a
    // fault, with 3, or with 1 exactly where something was refused.
    // Not covered: the names under which the lines tell of inputs.
    //
    // In a conversion each file was read, one after another, and the lines of its documents, by no sites or by those of
    // the list that is given, were written, in order, and nothing else, with 0, or 1 exactly where something in a file
    // is no document. Or a fault ended it, with 3: the files before one were converted, and that one can't be read,
    // memory ran out at it, or its lines can't be written. A list is read before any document; where it is refused,
    // with 1, or can't be read, with 3, no document is. Not covered: what the error stream is told.
    //
    // Help has 0, or 3 where it couldn't be written; a bad command line has 2, and nothing was read or written.
    // Not covered: the text of help.
    ensures ends { Ends F.does F.waits F.limits F.knows K.shown K.failed K.may K.reopens G.gives_up
        K.stored W.contents words.now files.old files.new
        (streams I.remaining input.old output.old) (streams I.remaining input.new output.new) result }
    // The status of a script is 0 exactly where it was answered to its end and nothing was refused, 1 where something
    // was refused, and 3 after a fault, with what that fault leaves.
    ensures sim { SimRuns W.contents files.old files.new
        (streams I.remaining input.old output.old) (streams I.remaining input.new output.new)
        result words.now }
    // Whatever a command comes to, its calls of the files, or those of each part of a plan, are acts of single sites,
    // by frames that these gave each other, wherever the files go on.
    ensures acts { LeadByActs K.shown K.may F.does files.old files.new }
{
    answer(rt, alloc, keys, files, gate, words, input, output, errors)
}

/// Does what the words of a command line ask for, as [`run_command`] says it: the other clauses there follow from this
/// one.
fn answer<
    R: Threads + Wait + Clock + Sync,
    K: SiteKeeper + Send,
    F: Files<K> + LimitsDocuments,
    G: Gate + Copy + Send,
    I: Read,
    W: Write,
    E: Write,
>(
    rt: &R,
    alloc: Global,
    keys: RandomState,
    files: &mut F,
    gate: G,
    words: &[String],
    input: &mut I,
    output: &mut W,
    errors: &mut E,
) -> u8
    ensures { Ends F.does F.waits F.limits F.knows K.shown K.failed K.may K.reopens G.gives_up
        K.stored W.contents words.now files.old files.new
        (streams I.remaining input.old output.old) (streams I.remaining input.new output.new) result }
{
    match command_lines::read(alloc, words) {
        Ok(Asked::Sim) => sim(alloc, keys, input, output, errors),
        Ok(Asked::Files(command, terms)) => {
            files.wait_for(terms.wait);
            files.limit_to(terms.most);
            let came = do_command(rt, alloc, keys, files, gate, &command);
            tell(alloc, terms.form, files, &came, output, errors)
        }
        Ok(Asked::Batch(batch)) => take_batch(alloc, files, &batch, output, errors),
        Ok(Asked::Lint(asked)) => lint_files(alloc, files, &asked, output, errors),
        Ok(Asked::Packs(asked)) => pack_files(alloc, files, &asked, output, errors),
        Ok(Asked::Plan(asked)) => do_plan(alloc, files, &asked, output, errors),
        Ok(Asked::Convert(asked)) => convert_files(alloc, files, &asked, output, errors),
        Ok(Asked::Help(text)) => help(text.as_str(), output, errors),
        Ok(Asked::Mistake(text)) => {
            say(errors, text.as_str());
            statuses::BAD_COMMAND_LINE
        }
        Err(_) => bare_fault(Fault::NoMemory, errors),
    }
}

/// Runs a script.
fn sim<I: Read, W: Write, E: Write>(
    alloc: Global,
    keys: RandomState,
    input: &mut I,
    output: &mut W,
    errors: &mut E,
) -> u8
    ensures { RunsScript W.contents (streams I.remaining input.old output.old)
        (streams I.remaining input.new output.new) result }
{
    match run_script(alloc, keys, input, output) {
        Ok(tally) => status_of(tally),
        Err(cause) => {
            say(errors, script_fault_line(cause));
            statuses::FAULT
        }
    }
}

/// The status of a script that was answered to its end.
fn status_of(tally: Tally) -> u8
    ensures { result ≡ (if tally.refused == 0 then 0 else 1) }
{
    if tally.refused == 0 {
        statuses::DONE
    } else {
        statuses::REFUSED
    }
}

/// The line that reports a fault of a script.
fn script_fault_line(cause: ScriptFault) -> &'static str {
    match cause {
        ScriptFault::NoMemory => "fault NoMemory\n",
        ScriptFault::Read => "fault Read\n",
        ScriptFault::Write => "fault Write\n",
        ScriptFault::LineTooLong => "fault LineTooLong\n",
        ScriptFault::TurnsSpent => "fault TurnsSpent\n",
    }
}

/// Prints what a command on the sites' files came to.
fn tell<K: SiteKeeper, F: Files<K>, W: Write, E: Write>(
    alloc: Global,
    form: Form,
    files: &F,
    came: &Result<Output, Fault>,
    output: &mut W,
    errors: &mut E,
) -> u8
    ensures { CommandEnds form came.now (W.contents output.old) (W.contents output.new) result }
{
    match came {
        Ok(told) => tell_output(alloc, form, files, told, output, errors),
        Err(cause) => fault(alloc, form, files, *cause, errors),
    }
}

/// Prints an outcome, and behind it on the error stream what stands beside it.
pub(crate) fn tell_output<K: SiteKeeper, F: Files<K>, W: Write, E: Write>(
    alloc: Global,
    form: Form,
    files: &F,
    told: &Output,
    output: &mut W,
    errors: &mut E,
) -> u8
    ensures { OutcomeEnds form told.now.sites told.now.outcome (W.contents output.old)
        (W.contents output.new) result }
{
    match write_outcome(alloc, form, &told.sites, &told.outcome, output) {
        Ok(()) => {
            write_beside(alloc, form, told, errors);
            told.outcome.status()
        }
        Err(cause) => fault(alloc, form, files, cause, errors),
    }
}

/// Prints help.
fn help<W: Write, E: Write>(text: &str, output: &mut W, errors: &mut E) -> u8
    ensures { (result ≡ 0) ⊎ (result ≡ 3) }
{
    match print(output, text) {
        Ok(()) => statuses::DONE,
        Err(cause) => bare_fault(cause, errors),
    }
}

/// Prints a fault of a command on the sites' files.
pub(crate) fn fault<K: SiteKeeper, F: Files<K>, E: Write>(
    alloc: Global,
    form: Form,
    files: &F,
    cause: Fault,
    errors: &mut E,
) -> u8
    ensures { result ≡ 3 }
{
    write_fault(alloc, form, cause, files.failure(), errors);
    statuses::FAULT
}

/// Prints the name of a fault.
fn bare_fault<E: Write>(cause: Fault, errors: &mut E) -> u8
    ensures { result ≡ 3 }
{
    say(errors, fault_line(cause));
    statuses::FAULT
}

/// Writes to the error stream. Where that fails there is nobody left to report it to.
fn say<E: Write>(errors: &mut E, text: &str) {
    let _ = write_text(errors, text.as_bytes());
}
