//! The arguments and options of commands, as `clap` reads them.

ghost use Rattle.std.specs.Prelude.{◌≡◌, false, codes};
ghost use Rattle.clap.specs.Words.{new_rule, rule_of};
ghost use Rattle.command_line.specs.CommandLines.{capturing, containing, epcs, files, flag, folder, max_bytes, places, required, turns, wait};

use clap::builder::ValueParser;
use clap::{Arg, ArgAction, value_parser};
use std::alloc::Global;

/// An argument that has to be there.
pub(crate) fn required<'a>(alloc: Global, name: &'a str, help: &'a str) -> Arg<'a>
    ensures rule { rule_of result ≡ required name.entry.now }
    ensures local { result.global ≡ false }
{
    Arg::new(alloc, name).required(true).help(help)
}

/// The folder. The empty word is none: it comes of a variable of the shell that isn't set, and `/sites` would be read.
pub(crate) fn folder<'a>(alloc: Global) -> Arg<'a>
    ensures rule { rule_of result ≡ folder }
    ensures local { result.global ≡ false }
{
    required(alloc, "dir", "The folder of the sites' files").value_parser(
        ValueParser::NonEmptyString,
    )
}

/// Whether what it comes to is printed as JSON.
pub(crate) fn json<'a>(alloc: Global) -> Arg<'a>
    ensures rule { rule_of result ≡ flag (codes "json") }
    ensures local { result.global ≡ false }
{
    flag(alloc, "json", "Print JSON, an object a line")
}

/// For how many seconds a file is waited for that is in use.
pub(crate) fn wait<'a>(alloc: Global) -> Arg<'a>
    ensures rule { rule_of result ≡ wait }
    ensures local { result.global ≡ false }
{
    Arg::new(alloc, "wait")
        .long("wait")
        .value_name("seconds")
        .value_parser(value_parser!(u64).range(0..=86_400))
        .default_value("0")
        .help("Wait so long for a site's file that another program has open, 0 to 86400")
}

/// An option without a value.
pub(crate) fn flag<'a>(alloc: Global, name: &'a str, help: &'a str) -> Arg<'a>
    ensures rule { rule_of result ≡ flag name.entry.now }
    ensures local { result.global ≡ false }
{
    Arg::new(alloc, name)
        .long(name)
        .action(ArgAction::SetTrue)
        .help(help)
}

/// An argument that may be left out.
pub(crate) fn optional<'a>(alloc: Global, name: &'a str, help: &'a str) -> Arg<'a>
    ensures rule { rule_of result ≡ new_rule name.entry.now }
    ensures local { result.global ≡ false }
{
    Arg::new(alloc, name).help(help)
}

/// Whether a pair is told with the pair beside it on its trail, in place of all of it.
pub(crate) fn brief<'a>(alloc: Global) -> Arg<'a>
    ensures rule { rule_of result ≡ flag (codes "brief") }
    ensures local { result.global ≡ false }
{
    flag(
        alloc,
        "brief",
        "Tell of each pair the step beside it, not its whole trail",
    )
}

/// Whether the events behind the steps are told.
pub(crate) fn events<'a>(alloc: Global) -> Arg<'a>
    ensures rule { rule_of result ≡ flag (codes "events") }
    ensures local { result.global ≡ false }
{
    flag(
        alloc,
        "events",
        "Tell behind each step the events that relate its pairs",
    )
}

/// Whether it is printed as rows.
pub(crate) fn csv<'a>(alloc: Global) -> Arg<'a>
    ensures rule { rule_of result ≡ flag (codes "csv") }
    ensures local { result.global ≡ false }
{
    flag(
        alloc,
        "csv",
        "Print rows of comma-separated fields, for a spreadsheet",
    )
}

/// Whether it is printed as rows in which no cell begins as a formula.
pub(crate) fn csv_guarded<'a>(alloc: Global) -> Arg<'a>
    ensures rule { rule_of result ≡ flag (codes "csv-guarded") }
    ensures local { result.global ≡ false }
{
    flag(
        alloc,
        "csv-guarded",
        "As --csv, with ' before a cell that a spreadsheet might take for a formula",
    )
}

/// Whether it is printed as a picture.
pub(crate) fn dot<'a>(alloc: Global) -> Arg<'a>
    ensures rule { rule_of result ≡ flag (codes "dot") }
    ensures local { result.global ≡ false }
{
    flag(alloc, "dot", "Print a picture of the spread for Graphviz")
}

/// Whether the item is given as it is printed.
pub(crate) fn key<'a>(alloc: Global) -> Arg<'a>
    ensures rule { rule_of result ≡ flag (codes "key") }
    ensures local { result.global ≡ false }
{
    flag(alloc, "key", "The item is given as this program prints it")
}

/// Whether the item is given as a scanner gives it.
pub(crate) fn scan<'a>(alloc: Global) -> Arg<'a>
    ensures rule { rule_of result ≡ flag (codes "scan") }
    ensures local { result.global ≡ false }
{
    flag(
        alloc,
        "scan",
        "The item is given as a scanner gives it, in GS1 element strings",
    )
}

/// The files of the documents, one at least.
pub(crate) fn files<'a>(alloc: Global) -> Arg<'a>
    ensures rule { rule_of result ≡ files }
    ensures local { result.global ≡ false }
{
    required(
        alloc,
        "file",
        "The files of the documents; `-` is the standard input",
    )
    .action(ArgAction::Append)
}

/// How many bytes a document, or a line, has at most: up to 1 GiB.
pub(crate) fn max_bytes<'a>(alloc: Global) -> Arg<'a>
    ensures rule { rule_of result ≡ max_bytes }
    ensures local { result.global ≡ false }
{
    Arg::new(alloc, "max-bytes")
        .long("max-bytes")
        .value_name("n")
        .value_parser(value_parser!(u64).range(1..=1_073_741_824))
        .default_value("67108864")
        .help("Refuse a document, or a line, that is longer, 1 to 1073741824")
}

/// Whether each line is a document.
pub(crate) fn lines<'a>(alloc: Global) -> Arg<'a>
    ensures rule { rule_of result ≡ flag (codes "lines") }
    ensures local { result.global ≡ false }
{
    flag(alloc, "lines", "Each line of a file is a document")
}

/// Whether each event is captured on its own.
pub(crate) fn each<'a>(alloc: Global) -> Arg<'a>
    ensures rule { rule_of result ≡ flag (codes "each") }
    ensures local { result.global ≡ false }
{
    flag(alloc, "each", "Capture each event of a document on its own")
}

/// The EPCs of the items, one at least.
pub(crate) fn epcs<'a>(alloc: Global) -> Arg<'a>
    ensures rule { rule_of result ≡ epcs }
    ensures local { result.global ≡ false }
{
    required(
        alloc,
        "epc",
        "The EPCs of the items, each of which is recalled",
    )
    .action(ArgAction::Append)
}

/// Whether the status tells that a recall is open.
pub(crate) fn exit_code<'a>(alloc: Global) -> Arg<'a>
    ensures rule { rule_of result ≡ flag (codes "exit-code") }
    ensures local { result.global ≡ false }
{
    flag(
        alloc,
        "exit-code",
        "End with status 5 while a recall is open",
    )
}

/// The number of turns that each site makes.
pub(crate) fn turns<'a>(alloc: Global) -> Arg<'a>
    ensures rule { rule_of result ≡ turns }
    ensures local { result.global ≡ false }
{
    Arg::new(alloc, "turns")
        .long("turns")
        .value_name("n")
        .value_parser(value_parser!(u64).range(1..=1_000_000))
        .default_value("2000")
        .help("The turns that each site makes, 1 to 1000000")
}

/// The item of which it is asked what lies in it.
pub(crate) fn containing<'a>(alloc: Global) -> Arg<'a>
    ensures rule { rule_of result ≡ containing }
    ensures local { result.global ≡ false }
{
    Arg::new(alloc, "in").long("in").value_name("epc").help(
        "List what lies in this item, by the packings of all sites",
    )
}

/// The site that is to capture the documents.
pub(crate) fn capturing<'a>(alloc: Global) -> Arg<'a>
    ensures rule { rule_of result ≡ capturing }
    ensures local { result.global ≡ false }
{
    of_site(
        alloc,
        "Tell of events that happened at another traced site than this one",
    )
}

/// One site, which is named by an option.
pub(crate) fn of_site<'a>(alloc: Global, help: &'a str) -> Arg<'a>
    ensures rule { rule_of result ≡ capturing }
    ensures local { result.global ≡ false }
{
    Arg::new(alloc, "site")
        .long("site")
        .value_name("name")
        .help(help)
}

/// The list of the sites of which destinations become addresses.
pub(crate) fn places<'a>(alloc: Global) -> Arg<'a>
    ensures rule { rule_of result ≡ places }
    ensures local { result.global ≡ false }
{
    Arg::new(alloc, "places")
        .long("places")
        .value_name("sites")
        .help(
            "Write a destination that names the place of a site of this list as this site's address",
        )
}
