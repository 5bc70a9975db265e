//! `packs`: what its words ask for, and how it ends.

ghost use Rattle.std.specs.Prelude.{◌≡◌, ◌++◌, IfOk, IfSome, OnOk, string_bytes};
ghost use Rattle.clap.specs.Words.{found_of, rows_of};
ghost use Rattle.std.specs.Io.KnownBytes.{Appends};
ghost use Rattle.command_line.specs.CommandLines.{GivesTerms, IsPacksCommand};
ghost use Rattle.command_line.specs.Ends.{PacksEnd, TellsPacks};
ghost use Rattle.command_line.specs.Packs.{Finds, document_line, document_lines};

use crate::asked::{Asked, Terms};
use crate::command_lines::{argument, is_set};
use crate::commands::{fault, tell_output};
use crate::plan_commands::{Aim, PlanCommand};
use crate::sinks::print;
use crate::statuses;
use clap::ArgMatches;
use event_json::Sites;
use folder_questions::{PackDocument, PacksAnswer, PacksOf};
use keeper_core::SiteKeeper;
use outcome_forms::Form;
use recall_outcomes::{Fault, Notes, Output};
use site_folders::{Files, ask};
use std::alloc::{AllocError, Global};
use std::io::Write;

/// The events by which the sites of a folder, or one of them, close their packed gaps.
#[derive(Debug, Drop)]
pub(crate) struct PackFiles<'a> {
    pub(crate) folder: &'a str,
    /// The site whose gaps they close; `None` for all.
    pub(crate) site: Option<&'a str>,
    pub(crate) terms: Terms,
}

/// The command for the events by which sites close their packed gaps: they are captured, or their documents printed.
pub(crate) fn packs_command<'a>(given: &ArgMatches<'a>, terms: Terms) -> Option<Asked<'a>>
    requires { GivesTerms (rows_of (found_of given.now)) terms }
    ensures { IfSome result (IsPacksCommand (rows_of (found_of given.now))) }
{
    let folder = argument(given, "dir")?;
    let site = given.get_str("site");
    if is_set(given, "dry-run") {
        Some(Asked::Packs(PackFiles {
            folder,
            site,
            terms,
        }))
    } else {
        let aim = Aim::Packs { site };
        Some(Asked::Plan(PlanCommand { folder, aim, terms }))
    }
}

/// Writes the documents of the events that are asked for, and returns the status to end with.
pub(crate) fn pack_files<K: SiteKeeper, F: Files<K>, W: Write, E: Write>(
    alloc: Global,
    files: &mut F,
    asked: &PackFiles<'_>,
    output: &mut W,
    errors: &mut E,
) -> u8
    ensures { TellsPacks F.does F.waits K.shown K.stored W.contents asked.now files.old files.new
        output.old output.new result }
{
    files.wait_for(asked.terms.wait);
    match find(alloc, files, asked) {
        Ok(told) => tell_packs(alloc, files, asked.terms.form, told, output, errors),
        Err(cause) => fault(alloc, asked.terms.form, files, cause, errors),
    }
}

/// Asks the folder's records for them.
fn find<K: SiteKeeper, F: Files<K>>(
    alloc: Global,
    files: &mut F,
    asked: &PackFiles<'_>,
) -> Result<(Sites, PacksAnswer), Fault>
    ensures { Finds F.does K.shown K.stored asked.now files.old files.new result }
{
    ask(alloc, files, asked.folder, &PacksOf { site: asked.site })
}

/// Prints what was found, a document a line.
fn tell_packs<K: SiteKeeper, F: Files<K>, W: Write, E: Write>(
    alloc: Global,
    files: &F,
    form: Form,
    told: (Sites, PacksAnswer),
    output: &mut W,
    errors: &mut E,
) -> u8
    ensures { PacksEnd form told.0 told.1 (W.contents output.old) (W.contents output.new) result }
{
    let (sites, answer) = told;
    match answer {
        PacksAnswer::NoSite(outcome) => {
            let refused = Output {
                sites,
                outcome,
                notes: Notes::Nothing,
            };
            tell_output(alloc, form, files, &refused, output, errors)
        }
        PacksAnswer::Found(documents) => match write_all(alloc, documents.as_slice(), output) {
            Ok(()) => statuses::DONE,
            Err(cause) => fault(alloc, form, files, cause, errors),
        },
    }
}

/// Writes the lines of the documents.
fn write_all<W: Write>(
    alloc: Global,
    documents: &[PackDocument],
    output: &mut W,
) -> Result<(), Fault>
    ensures { OnOk result (Appends (W.contents output.old) (W.contents output.new)
        (document_lines documents.now)) }
{
    let lines = document_lines(alloc, documents)?;
    print(output, lines.as_str())
}

/// The lines of the documents.
fn document_lines(alloc: Global, documents: &[PackDocument]) -> Result<String, AllocError>
    ensures { IfOk result (λ text. string_bytes text ≡ document_lines documents.now) }
{
    let mut lines = String::new(alloc);
    for pack in documents {
        push_line(&mut lines, pack)?;
    }
    Ok(lines)
}

/// Adds the line of a document, if there is one.
fn push_line(lines: &mut String, pack: &PackDocument) -> Result<(), AllocError>
    ensures { OnOk result (string_bytes lines.new ≡ string_bytes lines.old ++ document_line pack.now) }
{
    let Some(text) = &pack.document else {
        return Ok(());
    };
    lines.push_str(text.as_str())?;
    lines.push('\n')
}
