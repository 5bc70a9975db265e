//! What the words of a command on the files of a folder ask for.

ghost use Rattle.std.specs.Prelude.{◌≡◌, ◌↔◌, None, IfSome, IsTrue, codes};
ghost use Rattle.clap.specs.Words.{first_of, found_of, rows_of};
ghost use Rattle.command_line.specs.CommandLines.{Gives, GivesItem, GivesOrNone, GivesWays, IsCommand};

use crate::asked::FileCommand;
use crate::command_lines::{argument, is_set, number, spelling_of};
use clap::ArgMatches;
use folder_commands::RunTerms;
use item_spellings::{Spelled, Spelling};
use recall_outcomes::Ways;

/// The command of a name on the sites' files.
pub(crate) fn file_command<'a>(name: &str, given: &ArgMatches<'a>) -> Option<FileCommand<'a>>
    ensures { IfSome result (λ c. IsCommand c name.now (rows_of (found_of given.now))) }
{
    let folder = argument(given, "dir")?;
    if name == "init" {
        let list = argument(given, "sites")?;
        Some(FileCommand::Init { folder, list })
    } else if name == "copy" {
        let to = argument(given, "to")?;
        Some(FileCommand::Copy { folder, to })
    } else if name == "run" {
        all_sites_command(folder, given)
    } else if name == "report" {
        let recall = argument(given, "recall")?;
        let (ways, events) = (ways_of(given), is_set(given, "events"));
        Some(FileCommand::Report {
            folder,
            recall,
            ways,
            events,
        })
    } else if name == "audit" {
        Some(audit_command(folder, given))
    } else if name == "coverage" {
        Some(FileCommand::Coverage { folder })
    } else if name == "gaps" {
        Some(gaps_command(folder, given))
    } else if name == "status" {
        Some(status_command(folder, given))
    } else {
        site_command(name, folder, given)
    }
}

/// The command to run all sites.
fn all_sites_command<'a>(folder: &'a str, given: &ArgMatches<'a>) -> Option<FileCommand<'a>>
    requires { Gives (rows_of (found_of given.now)) (codes "dir") folder.now }
    ensures { IfSome result (λ c. IsCommand c (codes "run") (rows_of (found_of given.now))) }
{
    let turns = number(given, "turns")?;
    if turns < 1 || 1_000_000 < turns {
        return None;
    }
    let terms = RunTerms {
        turns,
        until_ended: is_set(given, "until-ended"),
        unless_gaps: is_set(given, "unless-gaps"),
        coded: is_set(given, "exit-code"),
    };
    Some(FileCommand::Run { folder, terms })
}

/// The command to audit all sites.
fn audit_command<'a>(folder: &'a str, given: &ArgMatches<'a>) -> FileCommand<'a>
    requires { Gives (rows_of (found_of given.now)) (codes "dir") folder.now }
    ensures { IsCommand result (codes "audit") (rows_of (found_of given.now)) }
{
    FileCommand::Audit {
        folder,
        ended: is_set(given, "ended"),
        coded: is_set(given, "exit-code"),
    }
}

/// The command of a name at one site.
fn site_command<'a>(name: &str, folder: &'a str, given: &ArgMatches<'a>) -> Option<FileCommand<'a>>
    requires { Gives (rows_of (found_of given.now)) (codes "dir") folder.now }
    ensures { IfSome result (λ c. IsCommand c name.now (rows_of (found_of given.now))) }
{
    let site = argument(given, "site")?;
    if name == "trace" {
        trace_command(folder, site, given)
    } else if name == "items" {
        items_command(folder, site, given)
    } else {
        None
    }
}

/// The command that traces an item, or an item and all that lies in it.
fn trace_command<'a>(
    folder: &'a str,
    site: &'a str,
    given: &ArgMatches<'a>,
) -> Option<FileCommand<'a>>
    requires folder { Gives (rows_of (found_of given.now)) (codes "dir") folder.now }
    requires site { Gives (rows_of (found_of given.now)) (codes "site") site.now }
    ensures { IfSome result (λ c. IsCommand c (codes "trace") (rows_of (found_of given.now))) }
{
    let item = item_of(given)?;
    let ways = ways_of(given);
    if is_set(given, "contents") {
        return Some(FileCommand::TraceContents {
            folder,
            site,
            item,
            ways,
        });
    }
    Some(FileCommand::Trace {
        folder,
        site,
        item,
        back: is_set(given, "back"),
        ways,
        events: is_set(given, "events"),
    })
}

/// The command that asks for items: those that a site knows, or those that lie in one that it knows.
fn items_command<'a>(
    folder: &'a str,
    site: &'a str,
    given: &ArgMatches<'a>,
) -> Option<FileCommand<'a>>
    requires folder { Gives (rows_of (found_of given.now)) (codes "dir") folder.now }
    requires site { Gives (rows_of (found_of given.now)) (codes "site") site.now }
    ensures { IfSome result (λ c. IsCommand c (codes "items") (rows_of (found_of given.now))) }
{
    let text = text_of(given);
    match given.get_str("in") {
        Some(container) => {
            let spelling = spelling_of(given)?;
            let item = Spelled {
                text: container,
                spelling,
            };
            Some(FileCommand::Inside {
                folder,
                site,
                item,
                text,
            })
        }
        None => known_items(folder, site, text, given),
    }
}

/// The command that asks for the items that a site knows. None where it is said how an item is spelled: that is refused
/// before.
fn known_items<'a>(
    folder: &'a str,
    site: &'a str,
    text: &'a str,
    given: &ArgMatches<'a>,
) -> Option<FileCommand<'a>>
    requires folder { Gives (rows_of (found_of given.now)) (codes "dir") folder.now }
    requires site { Gives (rows_of (found_of given.now)) (codes "site") site.now }
    requires text { GivesOrNone (rows_of (found_of given.now)) (codes "text") text.now }
    requires none { first_of (codes "in") (rows_of (found_of given.now)) ≡ None }
    ensures { IfSome result (λ c. IsCommand c (codes "items") (rows_of (found_of given.now))) }
{
    match spelling_of(given)? {
        Spelling::Epc => Some(FileCommand::Items { folder, site, text }),
        Spelling::Key | Spelling::Scan => None,
    }
}

/// The command that asks how recalls stand: the one that is named, or all.
fn status_command<'a>(folder: &'a str, given: &ArgMatches<'a>) -> FileCommand<'a>
    requires { Gives (rows_of (found_of given.now)) (codes "dir") folder.now }
    ensures { IsCommand result (codes "status") (rows_of (found_of given.now)) }
{
    let coded = is_set(given, "exit-code");
    match given.get_str("recall") {
        Some(recall) => FileCommand::Recall {
            folder,
            recall,
            coded,
        },
        None => FileCommand::Recalls { folder, coded },
    }
}

/// The command that asks for gaps, or for what the recall misses that is named.
fn gaps_command<'a>(folder: &'a str, given: &ArgMatches<'a>) -> FileCommand<'a>
    requires { Gives (rows_of (found_of given.now)) (codes "dir") folder.now }
    ensures { IsCommand result (codes "gaps") (rows_of (found_of given.now)) }
{
    let coded = is_set(given, "exit-code");
    match given.get_str("recall") {
        Some(recall) => FileCommand::Missed {
            folder,
            recall,
            coded,
        },
        None => FileCommand::Gaps {
            folder,
            all: is_set(given, "all"),
            coded,
        },
    }
}

/// The text that the keys of items are to contain, which is empty where none is given.
fn text_of<'a>(given: &ArgMatches<'a>) -> &'a str
    ensures { GivesOrNone (rows_of (found_of given.now)) (codes "text") result.now }
{
    match given.get_str("text") {
        Some(text) => text,
        None => "",
    }
}

/// The item that is given, by its spelling.
fn item_of<'a>(given: &ArgMatches<'a>) -> Option<Spelled<'a>>
    ensures { IfSome result (GivesItem (rows_of (found_of given.now))) }
{
    let text = argument(given, "epc")?;
    let spelling = spelling_of(given)?;
    Some(Spelled { text, spelling })
}

/// Whether paths are shown in full or by their last step.
fn ways_of(given: &ArgMatches<'_>) -> Ways
    ensures { GivesWays (rows_of (found_of given.now)) result }
{
    if is_set(given, "brief") {
        Ways::Steps
    } else {
        Ways::Trails
    }
}
