//! `convert`: what its words ask for, and how it ends.

ghost use Rattle.std.specs.Prelude.{◌≡◌, ◌⊎◌, ◌||◌, false, IfErr, IfOk, IfSome, map};
ghost use Rattle.clap.specs.Words.{found_of, rows_of};
ghost use Rattle.site_folders.specs.FileCalls.{Led};
ghost use Rattle.command_line.specs.CommandLines.{GivesForm, IsConvertCommand};
ghost use Rattle.command_line.specs.Converting.{BreaksAt, ConvertFails, Converts, ConvertsOne, EndsBy, EndsByList, EndsUnlisted, TellsConvert, converted_status, is_told};

use crate::asked::Asked;
use crate::command_lines::{argument, copied, is_set, most_of};
use crate::commands::{fault, tell_output};
use crate::limits::LimitsDocuments;
use crate::sinks::print;
use crate::statuses;
use clap::ArgMatches;
use document_convert::{Account, Conversion, Converted, Refused, convert};
use event_json::Sites;
use folder_commands::{SitesCame, listed_sites};
use keeper_core::SiteKeeper;
use outcome_forms::{Form, write_input};
use recall_outcomes::{CommandRefusal, Fault, InputOutcome, Task};
use recall_text::write_text;
use site_core::Refusal;
use site_folders::Files;
use std::alloc::{AllocError, Global};
use std::io::Write;

/// Files of documents as they are found, of which documents are made that are captured.
#[derive(Debug, Drop)]
pub(crate) struct ConvertFiles<'a> {
    pub(crate) paths: Vec<&'a str>,
    /// What is converted of each document.
    pub(crate) ways: Conversion,
    /// The file that lists the sites of which destinations become addresses, if they do.
    pub(crate) places: Option<&'a str>,
    /// How many bytes a file has at most.
    pub(crate) most: u64,
    /// How the account and what is refused are printed.
    pub(crate) form: Form,
}

/// What all files came to so far.
#[derive(Clone, Copy, Debug)]
struct Total {
    account: Account,
    /// Whether something was no document.
    refused: bool,
}

/// The command to convert documents.
pub(crate) fn convert_command<'a>(
    alloc: Global,
    given: &ArgMatches<'a>,
    form: Form,
) -> Option<Asked<'a>>
    requires { GivesForm (rows_of (found_of given.now)) form }
    ensures { IfSome result (IsConvertCommand (rows_of (found_of given.now))) }
{
    let (lots, links) = (is_set(given, "lots"), is_set(given, "links"));
    let errors = is_set(given, "keep-errors");
    let list = given.get_str("places");
    let ways = Conversion {
        lots,
        links,
        errors,
        places: list.is_some(),
    };
    let most = most_of(given)?;
    let paths = given.get_strs("file")?;
    let paths = copied(alloc, paths).ok()?;
    Some(Asked::Convert(ConvertFiles {
        paths,
        ways,
        places: list,
        most,
        form,
    }))
}

/// Writes the documents of all files, each converted, and returns the status to end with. Where a list of sites is
/// given, it is read before any document, and nothing is converted where it is refused.
pub(crate) fn convert_files<K: SiteKeeper, F: Files<K> + LimitsDocuments, W: Write, E: Write>(
    alloc: Global,
    files: &mut F,
    asked: &ConvertFiles<'_>,
    output: &mut W,
    errors: &mut E,
) -> u8
    ensures { TellsConvert F.does F.limits W.contents asked.now files.old files.new output.old
        output.new result }
{
    match asked.places {
        Some(list) => {
            files.limit_to(asked.most);
            convert_listed(alloc, files, asked, list, output, errors)
        }
        None => {
            files.limit_all_to(asked.most);
            let sites = Sites::new(alloc);
            convert_by(alloc, files, asked, &sites, output, errors)
        }
    }
}

/// Writes the documents by the sites of a list, or why this is refused.
fn convert_listed<K: SiteKeeper, F: Files<K>, W: Write, E: Write>(
    alloc: Global,
    files: &mut F,
    asked: &ConvertFiles<'_>,
    list: &str,
    output: &mut W,
    errors: &mut E,
) -> u8
    ensures { EndsByList F.does W.contents list.now asked.now files.old files.new output.old
        output.new result
        ⊎ EndsUnlisted F.does W.contents list.now files.old files.new output.old output.new result }
{
    match listed_sites(alloc, files, list) {
        Ok(SitesCame::Listed(sites)) => convert_by(alloc, files, asked, &sites, output, errors),
        Ok(SitesCame::Refused(refused)) => {
            tell_output(alloc, asked.form, files, &refused, output, errors)
        }
        Err(cause) => fault(alloc, asked.form, files, cause, errors),
    }
}

/// Writes the documents by these sites.
fn convert_by<K: SiteKeeper, F: Files<K>, W: Write, E: Write>(
    alloc: Global,
    files: &mut F,
    asked: &ConvertFiles<'_>,
    sites: &Sites,
    output: &mut W,
    errors: &mut E,
) -> u8
    ensures { EndsBy F.does W.contents sites.now asked.now files.old files.new output.old output.new
        result }
{
    let paths = asked.paths.as_slice();
    match convert_all(alloc, files, asked, sites, paths, output, errors) {
        Ok(total) => {
            tell_account(alloc, asked.form, total.account, errors);
            status_of(total.refused)
        }
        Err(cause) => fault(alloc, asked.form, files, cause, errors),
    }
}

/// The status of a conversion to its end.
fn status_of(refused: bool) -> u8
    ensures { result ≡ converted_status refused }
{
    if refused {
        statuses::REFUSED
    } else {
        statuses::DONE
    }
}

/// Converts the documents of all files.
fn convert_all<K: SiteKeeper, F: Files<K>, W: Write, E: Write>(
    alloc: Global,
    files: &mut F,
    asked: &ConvertFiles<'_>,
    sites: &Sites,
    paths: &[&str],
    output: &mut W,
    errors: &mut E,
) -> Result<Total, Fault>
    ensures all { IfOk result (λ total. Led F.does files.old files.new
        (Converts W.contents (asked.now.ways, sites.now) (map (λ p. p.now) paths.now) output.old output.new
        total.refused)) }
    ensures failed { IfErr result (λ fault. Led F.does files.old files.new
        (ConvertFails W.contents (asked.now.ways, sites.now) (map (λ p. p.now) paths.now) output.old output.new
        fault)) }
{
    let mut total = Total::new();
    for path in paths {
        total = convert_file(alloc, files, asked, sites, path, total, output, errors)?;
    }
    Ok(total)
}

/// Converts the documents of a file: the error stream is told what is none, and the output gets the rest.
fn convert_file<K: SiteKeeper, F: Files<K>, W: Write, E: Write>(
    alloc: Global,
    files: &mut F,
    asked: &ConvertFiles<'_>,
    sites: &Sites,
    path: &str,
    total: Total,
    output: &mut W,
    errors: &mut E,
) -> Result<Total, Fault>
    ensures all { IfOk result (λ after. Led F.does files.old files.new
        (ConvertsOne W.contents (asked.now.ways, sites.now) path.now output.old output.new total.refused
        after.refused)) }
    ensures failed { IfErr result (λ fault. Led F.does files.old files.new
        (BreaksAt W.contents path.now output.old output.new fault)) }
{
    let bytes = files.read(alloc, path)?;
    let converted = convert(alloc, bytes.as_slice(), asked.ways, sites)?;
    tell_refused(
        alloc,
        asked.form,
        path,
        converted.refused.as_slice(),
        errors,
    )?;
    print(output, converted.lines.as_str())?;
    Ok(total.with(&converted))
}

impl Total {
    /// Before the first file.
    fn new() -> Total
        ensures { result.refused ≡ false }
    {
        Total {
            account: Account::new(),
            refused: false,
        }
    }

    /// With a file more.
    fn with(self, converted: &Converted) -> Total
        ensures { result.refused ≡ (self.refused || is_told converted.now.refused.items) }
    {
        Total {
            account: self.account.and(converted.account),
            refused: self.refused || !converted.refused.is_empty(),
        }
    }
}

/// Tells the error stream what of a file is no document. What that stream doesn't take is left out.
fn tell_refused<E: Write>(
    alloc: Global,
    form: Form,
    path: &str,
    refused: &[Refused],
    errors: &mut E,
) -> Result<(), AllocError> {
    let sites = Sites::new(alloc);
    for one in refused {
        let line = one.line;
        let source = if line == 0 {
            String::from_str(alloc, path)?
        } else {
            format!(in alloc; "{path}:{line}")?
        };
        let came = InputOutcome::Refused(CommandRefusal::Step(Refusal::Doc(one.fault)));
        let told = write_input(
            alloc,
            form,
            Task::Capture,
            &sites,
            source.as_str(),
            &came,
            errors,
        );
        if let Err(Fault::NoMemory) = told {
            return Err(AllocError);
        }
    }
    Ok(())
}

/// Tells the error stream what a conversion changed, as far as memory and that stream allow.
fn tell_account<E: Write>(alloc: Global, form: Form, account: Account, errors: &mut E) {
    let text = match form {
        Form::Json => account.json(alloc),
        Form::Text | Form::Csv | Form::GuardedCsv | Form::Dot => account.text(alloc),
    };
    if let Ok(text) = text {
        let _ = write_text(errors, text.as_bytes());
    }
}
