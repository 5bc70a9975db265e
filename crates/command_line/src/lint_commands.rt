//! `lint`: what its words ask for, and how it ends.

ghost use Rattle.std.specs.Prelude.{IfSome, OnOk};
ghost use Rattle.clap.specs.Words.{found_of, rows_of};
ghost use Rattle.document_lint.specs.Lines.{json_line, totals_json};
ghost use Rattle.outcome_forms.specs.Writing.{WritesLines};
ghost use Rattle.command_line.specs.CommandLines.{GivesForm, IsLintCommand};
ghost use Rattle.command_line.specs.Ends.{LintEnds, LintsFiles, TellsLint};

use crate::asked::Asked;
use crate::command_lines::{argument, copied, most_of};
use crate::commands::{fault, tell_output};
use crate::limits::LimitsDocuments;
use crate::sinks::{LintLines, print};
use clap::ArgMatches;
use document_lint::LintTotals;
use folder_commands::{LintCame, LintOutput, lint_documents};
use keeper_core::SiteKeeper;
use outcome_forms::Form;
use recall_outcomes::{Fault, Notes, Output};
use site_folders::Files;
use std::alloc::Global;
use std::io::Write;

/// Documents of files that are looked through, by a list of sites.
#[derive(Debug, Drop)]
pub(crate) struct LintFiles<'a> {
    /// The file that lists the sites.
    pub(crate) list: &'a str,
    /// The site that is to capture them, if it is named.
    pub(crate) site: Option<&'a str>,
    pub(crate) paths: Vec<&'a str>,
    /// How many bytes a document has at most.
    pub(crate) most: u64,
    /// How it is printed.
    pub(crate) form: Form,
}

/// The command to look through documents.
pub(crate) fn lint_command<'a>(
    alloc: Global,
    given: &ArgMatches<'a>,
    form: Form,
) -> Option<Asked<'a>>
    requires { GivesForm (rows_of (found_of given.now)) form }
    ensures { IfSome result (IsLintCommand (rows_of (found_of given.now))) }
{
    let list = argument(given, "sites")?;
    let site = given.get_str("site");
    let most = most_of(given)?;
    let paths = given.get_strs("file")?;
    let paths = copied(alloc, paths).ok()?;
    Some(Asked::Lint(LintFiles {
        list,
        site,
        paths,
        most,
        form,
    }))
}

/// Looks through documents, and returns the status to end with.
pub(crate) fn lint_files<K: SiteKeeper, F: Files<K> + LimitsDocuments, W: Write, E: Write>(
    alloc: Global,
    files: &mut F,
    asked: &LintFiles<'_>,
    output: &mut W,
    errors: &mut E,
) -> u8
    ensures { TellsLint F.does F.limits W.contents asked.now files.old files.new output.old output.new
        result }
{
    files.limit_to(asked.most);
    match look(alloc, files, asked, output) {
        Ok(told) => tell_lint(alloc, files, asked.form, told, output, errors),
        Err(cause) => fault(alloc, asked.form, files, cause, errors),
    }
}

/// Looks through the documents.
fn look<K: SiteKeeper, F: Files<K>, W: Write>(
    alloc: Global,
    files: &mut F,
    asked: &LintFiles<'_>,
    output: &mut W,
) -> Result<LintOutput, Fault>
    ensures { LintsFiles F.does W.contents asked.now files.old files.new output.old output.new
        result }
{
    let lines = LintLines {
        alloc,
        form: asked.form,
    };
    let paths = asked.paths.as_slice();
    lint_documents(alloc, files, asked.list, asked.site, paths, &lines, output)
}

/// Prints what was found in all documents.
fn tell_lint<K: SiteKeeper, F: Files<K>, W: Write, E: Write>(
    alloc: Global,
    files: &F,
    form: Form,
    told: LintOutput,
    output: &mut W,
    errors: &mut E,
) -> u8
    ensures { LintEnds form told.sites told.came (W.contents output.old) (W.contents output.new)
        result }
{
    let LintOutput { sites, came } = told;
    match came {
        LintCame::Refused(outcome) => {
            let refused = Output {
                sites,
                outcome,
                notes: Notes::Nothing,
            };
            tell_output(alloc, form, files, &refused, output, errors)
        }
        LintCame::Looked(totals) => match write_lint_totals(alloc, form, totals, output) {
            Ok(()) => totals.status(),
            Err(cause) => fault(alloc, form, files, cause, errors),
        },
    }
}

/// Writes the line of the totals.
fn write_lint_totals<W: Write>(
    alloc: Global,
    form: Form,
    totals: LintTotals,
    output: &mut W,
) -> Result<(), Fault>
    ensures { OnOk result (WritesLines form (json_line (totals_json totals)) (W.contents output.old)
        (W.contents output.new)) }
{
    match form {
        Form::Json => print(output, totals.json(alloc)?.as_str()),
        Form::Text | Form::Csv | Form::GuardedCsv | Form::Dot => print(
            output,
            totals.text(alloc)?.as_str(),
        ),
    }
}
