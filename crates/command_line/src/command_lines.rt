//! What the words of a command line ask for.

ghost use Rattle.std.specs.Prelude.{◌≡◌, ◌↔◌, ◌⊎◌, codes, false, None, IfNone, IfOk, IfSome, IsTrue, length};
ghost use Rattle.clap.specs.Words.{first_of, found_of, kind_of, rows_of, subcommand_rows_of};
ghost use Rattle.command_line.specs.CommandLines.{texts_of, AsksAtOdds, AsksFor, AsksIdleSpelling, AsksLinesAndEvents, AsksNamed, AsksOf, AsksTwoForms, AsksTwoSpellings, AsksUntoldEvents, Gives, GivesDocuments, GivesForm, GivesMost, GivesNumber, GivesSpelling, GivesTerms, IsCapture, IsMistake, IsSet, IsStart, IsToldAs, epcs_kind, has_many};

use crate::asked::{Asked, Batch, FileCommand, Terms};
use crate::convert_commands::convert_command;
use crate::folder_words::file_command;
use crate::grammar::recall;
use crate::helps;
use crate::lint_commands::lint_command;
use crate::pack_commands::packs_command;
use crate::plan_commands::plan_start;
use clap::error::ErrorKind;
use clap::{ArgMatches, Error};
use folder_commands::WordKind;
use item_spellings::{Spelled, Spelling};
use outcome_forms::Form;
use std::alloc::{AllocError, Global};

/// Reads the words of a command line, the program's name first.
pub(crate) fn read<'a>(alloc: Global, words: &'a [String]) -> Result<Asked<'a>, AllocError>
    ensures { IfOk result (AsksFor (texts_of words.now)) }
{
    let command = recall(alloc)?;
    match command.try_get_matches_from(words) {
        // The command has no other subcommands, no argument is left out, and the turns are in range.
        Ok(matches) => named(alloc, &matches).ok_or(AllocError),
        Err(error) => of_error(alloc, &error),
    }
}

/// What the subcommand that was met asks for. None where memory runs out.
fn named<'a>(alloc: Global, matches: &ArgMatches<'a>) -> Option<Asked<'a>>
    ensures { IfSome result (AsksNamed (subcommand_rows_of matches.now)) }
{
    let (name, given) = matches.subcommand()?;
    let Some(form) = form_of(given) else {
        return mistake(alloc, helps::TWO_FORMS).ok();
    };
    if spelling_of(given).is_none() {
        return mistake(alloc, helps::TWO_SPELLINGS).ok();
    }
    if asks_untold_events(given) {
        return mistake(alloc, helps::UNTOLD_EVENTS).ok();
    }
    if asks_at_odds(given) {
        return mistake(alloc, helps::AT_ODDS).ok();
    }
    if asks_idle_spelling(name, given) {
        return mistake(alloc, helps::IDLE_SPELLING).ok();
    }
    if name == "sim" {
        Some(Asked::Sim)
    } else if name == "lint" {
        lint_command(alloc, given, form)
    } else if name == "convert" {
        convert_command(alloc, given, form)
    } else {
        let wait = number(given, "wait")?;
        let most = most_of(given)?;
        on_folder(alloc, name, given, Terms { form, wait, most })
    }
}

/// What a subcommand on a folder asks for.
fn on_folder<'a>(
    alloc: Global,
    name: &str,
    given: &ArgMatches<'a>,
    terms: Terms,
) -> Option<Asked<'a>>
    requires { GivesTerms (rows_of (found_of given.now)) terms }
    ensures { IfSome result (AsksOf name.now (rows_of (found_of given.now))) }
{
    if name == "capture" {
        capture_command(alloc, given, terms)
    } else if name == "start" {
        start_command(alloc, given, terms)
    } else if name == "packs" {
        packs_command(given, terms)
    } else {
        let command = file_command(name, given)?;
        Some(Asked::Files(command, terms))
    }
}

/// What is reported where options contradict one another. `clap` would refuse them, but then its contract tells no
/// argument.
pub(crate) fn mistake<'a>(alloc: Global, what: &str) -> Result<Asked<'a>, AllocError>
    ensures { IfOk result IsMistake }
{
    let text = String::from_str(alloc, what)?;
    Ok(Asked::Mistake(text))
}

/// The command to capture documents: that of one file, or a batch.
fn capture_command<'a>(alloc: Global, given: &ArgMatches<'a>, terms: Terms) -> Option<Asked<'a>>
    requires { GivesTerms (rows_of (found_of given.now)) terms }
    ensures { IfSome result (IsCapture (rows_of (found_of given.now))) }
{
    let folder = argument(given, "dir")?;
    let site = argument(given, "site")?;
    let paths = given.get_strs("file")?;
    let Some(kind) = documents_kind(given) else {
        return mistake(alloc, helps::LINES_AND_EVENTS).ok();
    };
    if is_one_input(paths, has_many(kind)) {
        let file = paths[0];
        let command = FileCommand::Capture { folder, site, file };
        return Some(Asked::Files(command, terms));
    }
    let words = copied(alloc, paths).ok()?;
    Some(Asked::Batch(Batch {
        folder,
        site,
        words,
        kind,
        terms,
    }))
}

/// The command to start a recall of an item, or a batch; or what is planned first.
fn start_command<'a>(alloc: Global, given: &ArgMatches<'a>, terms: Terms) -> Option<Asked<'a>>
    requires { GivesTerms (rows_of (found_of given.now)) terms }
    ensures { IfSome result (IsStart (rows_of (found_of given.now))) }
{
    if asks_plan(given) {
        return plan_start(alloc, given, terms);
    }
    let folder = argument(given, "dir")?;
    let site = argument(given, "site")?;
    let epcs = given.get_strs("epc")?;
    let spelling = spelling_of(given)?;
    let by_lines = is_set(given, "from");
    let dry = is_set(given, "dry-run");
    if is_one_input(epcs, by_lines) {
        let text = epcs[0];
        let item = Spelled { text, spelling };
        let command = FileCommand::Start {
            folder,
            site,
            item,
            dry,
        };
        return Some(Asked::Files(command, terms));
    }
    if dry {
        return mistake(alloc, helps::ONE_DRY_START).ok();
    }
    let words = copied(alloc, epcs).ok()?;
    let kind = epcs_kind(by_lines, spelling);
    Some(Asked::Batch(Batch {
        folder,
        site,
        words,
        kind,
        terms,
    }))
}

/// Whether a start is to be planned by what other sites know.
fn asks_plan(given: &ArgMatches<'_>) -> bool
    ensures { IsTrue result ↔ (IsSet (rows_of (found_of given.now)) (codes "contents")
        ⊎ IsSet (rows_of (found_of given.now)) (codes "gaps")
        ⊎ IsSet (rows_of (found_of given.now)) (codes "each-site")) }
{
    is_set(given, "contents") || is_set(given, "gaps") || is_set(given, "each-site")
}

/// What words are that are files of documents. None where both the lines and the events of a file are to be taken on
/// their own.
fn documents_kind(given: &ArgMatches<'_>) -> Option<WordKind>
    ensures one { IfSome result (GivesDocuments (rows_of (found_of given.now))) }
    ensures two { IfNone result (AsksLinesAndEvents (rows_of (found_of given.now))) }
{
    let by_lines = is_set(given, "lines");
    let by_events = is_set(given, "each");
    match (by_lines, by_events) {
        (false, false) => Some(WordKind::Document),
        (true, false) => Some(WordKind::DocumentLines),
        (false, true) => Some(WordKind::DocumentEvents),
        (true, true) => None,
    }
}

/// Whether a word may be several inputs.
fn has_many(kind: WordKind) -> bool
    ensures { result ≡ has_many kind }
{
    match kind {
        WordKind::Document => false,
        WordKind::DocumentLines => true,
        WordKind::DocumentEvents => true,
        WordKind::Epc(_) => false,
        WordKind::EpcLines(_) => true,
    }
}

/// What words are that are EPCs, or files of which each line is one.
fn epcs_kind(by_lines: bool, spelling: Spelling) -> WordKind
    ensures { result ≡ epcs_kind by_lines spelling }
{
    if by_lines {
        WordKind::EpcLines(spelling)
    } else {
        WordKind::Epc(spelling)
    }
}

/// Whether the words are one that is one input, where a word may be several or not.
fn is_one_input(words: &[&str], has_many: bool) -> bool
    ensures { IsTrue result ↔ ((has_many ≡ false) × (length words.now ≡ 1)) }
{
    !has_many && words.len() == 1
}

/// A list of the same texts.
pub(crate) fn copied<'a>(alloc: Global, texts: &[&'a str]) -> Result<Vec<&'a str>, AllocError>
    ensures { IfOk result (λ copy. copy.items ≡ texts.now) }
{
    let mut copy = Vec::new(alloc);
    for text in texts {
        copy.push(*text)?;
    }
    Ok(copy)
}

/// Whether the option of a name is there.
pub(crate) fn is_set(given: &ArgMatches<'_>, name: &str) -> bool
    ensures { IsTrue result ↔ IsSet (rows_of (found_of given.now)) name.now }
{
    match given.get_str(name) {
        Some(text) => text == "true",
        None => false,
    }
}

/// How what a command comes to is printed. None where two forms are asked for.
fn form_of(given: &ArgMatches<'_>) -> Option<Form>
    ensures one { IfSome result (GivesForm (rows_of (found_of given.now))) }
    ensures two { IfNone result (AsksTwoForms (rows_of (found_of given.now))) }
{
    let json = is_set(given, "json");
    let csv = is_set(given, "csv");
    let guarded = is_set(given, "csv-guarded");
    let dot = is_set(given, "dot");
    match (json, csv, guarded, dot) {
        (false, false, false, false) => Some(Form::Text),
        (true, false, false, false) => Some(Form::Json),
        (false, true, false, false) => Some(Form::Csv),
        (false, false, true, false) => Some(Form::GuardedCsv),
        (false, false, false, true) => Some(Form::Dot),
        _ => None,
    }
}

/// Whether events are asked for in a picture, or of what lies in an item, which tell none.
fn asks_untold_events(given: &ArgMatches<'_>) -> bool
    ensures { IsTrue result ↔ AsksUntoldEvents (rows_of (found_of given.now)) }
{
    is_set(given, "events") && (is_set(given, "dot") || is_set(given, "contents"))
}

/// Whether what lies in an item is to be traced back, or all gaps are asked for with what one recall misses.
fn asks_at_odds(given: &ArgMatches<'_>) -> bool
    ensures { IsTrue result ↔ AsksAtOdds (rows_of (found_of given.now)) }
{
    asks_contents_back(given) || asks_all_of_one(given)
}

fn asks_contents_back(given: &ArgMatches<'_>) -> bool
    ensures { IsTrue result ↔ (IsSet (rows_of (found_of given.now)) (codes "contents")
        × IsSet (rows_of (found_of given.now)) (codes "back")) }
{
    is_set(given, "contents") && is_set(given, "back")
}

fn asks_all_of_one(given: &ArgMatches<'_>) -> bool
    ensures { IsTrue result ↔ (IsSet (rows_of (found_of given.now)) (codes "all")
        × ((first_of (codes "recall") (rows_of (found_of given.now)) ≡ None) → ⊥)) }
{
    is_set(given, "all") && !is_absent(given, "recall")
}

/// Whether it is said how an item is spelled where no item is given: at `items` without `--in`.
fn asks_idle_spelling(name: &str, given: &ArgMatches<'_>) -> bool
    ensures { IsTrue result ↔ AsksIdleSpelling name.now (rows_of (found_of given.now)) }
{
    name == "items" && is_absent(given, "in") && (is_set(given, "key") || is_set(given, "scan"))
}

/// Whether the argument of a name isn't there.
fn is_absent(given: &ArgMatches<'_>, name: &str) -> bool
    ensures { IsTrue result ↔ (first_of name.now (rows_of (found_of given.now)) ≡ None) }
{
    match given.get_str(name) {
        Some(_) => false,
        None => true,
    }
}

/// How the item is spelled. None where two ways are named.
pub(crate) fn spelling_of(given: &ArgMatches<'_>) -> Option<Spelling>
    ensures one { IfSome result (GivesSpelling (rows_of (found_of given.now))) }
    ensures two { IfNone result (AsksTwoSpellings (rows_of (found_of given.now))) }
{
    let key = is_set(given, "key");
    let scan = is_set(given, "scan");
    match (key, scan) {
        (false, false) => Some(Spelling::Epc),
        (true, false) => Some(Spelling::Key),
        (false, true) => Some(Spelling::Scan),
        (true, true) => None,
    }
}

/// The argument of a name.
pub(crate) fn argument<'a>(given: &ArgMatches<'a>, name: &str) -> Option<&'a str>
    ensures { IfSome result (λ v. Gives (rows_of (found_of given.now)) name.now v.now) }
{
    given.get_str(name)
}

/// The number that the argument of a name gives.
pub(crate) fn number(given: &ArgMatches<'_>, name: &str) -> Option<u64>
    ensures { IfSome result (λ n. GivesNumber (rows_of (found_of given.now)) name.now n) }
{
    given.get_one::<u64>(name)
}

/// How many bytes a document has at most: those that are given, or 64 MiB for a command that isn't asked.
pub(crate) fn most_of(given: &ArgMatches<'_>) -> Option<u64>
    ensures { IfSome result (GivesMost (rows_of (found_of given.now))) }
{
    match given.get_str("max-bytes") {
        Some(_) => number(given, "max-bytes"),
        None => Some(67_108_864),
    }
}

/// What an error of `clap` is reported as. Help and the version that were asked for are among its errors.
fn of_error<'a>(alloc: Global, error: &Error) -> Result<Asked<'a>, AllocError>
    ensures { IfOk result (IsToldAs (kind_of error.now)) }
{
    match error.kind() {
        ErrorKind::OutOfMemory => Err(AllocError),
        ErrorKind::DisplayHelp | ErrorKind::DisplayVersion => {
            Ok(Asked::Help(error.to_string(alloc)?))
        }
        _ => Ok(Asked::Mistake(error.to_string(alloc)?)),
    }
}
