//! The commands of `recall`, each with its arguments and options, as `clap` reads them.

ghost use Rattle.std.specs.Prelude.{◌≡◌, IfOk};
ghost use Rattle.clap.specs.Words.{app_of};
ghost use Rattle.command_line.specs.CommandLines.{audit, capture, convert, copy, coverage, gaps, init, items, lint, on_folder, packs, recall, report, run, sim, start, status, trace};

use crate::arguments::{
    brief, capturing, containing, csv, csv_guarded, dot, each, epcs, events, exit_code, files,
    flag, folder, json, key, lines, max_bytes, of_site, optional, places, required, scan, turns,
    wait,
};
use crate::helps;
use clap::Command;
use std::alloc::{AllocError, Global};

/// The command `recall`.
pub(crate) fn recall<'a>(alloc: Global) -> Result<Command<'a>, AllocError>
    ensures { IfOk result (λ command. app_of command ≡ recall) }
{
    let program = Command::new(alloc, "recall")
        .bin_name("recall")?
        .about(helps::ABOUT)
        .version(helps::VERSION)
        .after_help(helps::PAGE)
        .subcommand_required(true)
        .subcommand(sim(alloc))?
        .subcommand(init(alloc)?)?
        .subcommand(capture(alloc)?)?;
    program
        .subcommand(start(alloc)?)?
        .subcommand(run(alloc)?)?
        .subcommand(report(alloc)?)?
        .subcommand(audit(alloc)?)?
        .subcommand(trace(alloc)?)?
        .subcommand(status(alloc)?)?
        .subcommand(items(alloc)?)?
        .subcommand(lint(alloc)?)?
        .subcommand(gaps(alloc)?)?
        .subcommand(packs(alloc)?)?
        .subcommand(convert(alloc)?)?
        .subcommand(coverage(alloc)?)?
        .subcommand(copy(alloc)?)
}

/// A command on a folder.
fn on_folder<'a>(
    alloc: Global,
    name: &'a str,
    about: &'a str,
    example: &'a str,
) -> Result<Command<'a>, AllocError>
    ensures { IfOk result (λ command. app_of command ≡ on_folder name.entry.now) }
{
    Command::new(alloc, name)
        .about(about)
        .after_help(example)
        .arg(folder(alloc))?
        .arg(json(alloc))?
        .arg(wait(alloc))
}

fn sim<'a>(alloc: Global) -> Command<'a>
    ensures { app_of result ≡ sim }
{
    Command::new(alloc, "sim")
        .about(helps::SIM_ABOUT)
        .after_help(helps::SIM_EXAMPLE)
}

fn init<'a>(alloc: Global) -> Result<Command<'a>, AllocError>
    ensures { IfOk result (λ command. app_of command ≡ init) }
{
    on_folder(alloc, "init", helps::INIT_ABOUT, helps::INIT_EXAMPLE)?.arg(required(
        alloc,
        "sites",
        "The file that lists the sites",
    ))
}

fn capture<'a>(alloc: Global) -> Result<Command<'a>, AllocError>
    ensures { IfOk result (λ command. app_of command ≡ capture) }
{
    on_folder(
        alloc,
        "capture",
        helps::CAPTURE_ABOUT,
        helps::CAPTURE_EXAMPLE,
    )?
    .arg(required(alloc, "site", "The site that captures them"))?
    .arg(files(alloc))?
    .arg(lines(alloc))?
    .arg(each(alloc))?
    .arg(max_bytes(alloc))
}

fn start<'a>(alloc: Global) -> Result<Command<'a>, AllocError>
    ensures { IfOk result (λ command. app_of command ≡ start) }
{
    on_folder(alloc, "start", helps::START_ABOUT, helps::START_EXAMPLE)?
        .arg(required(alloc, "site", "The site that starts it"))?
        .arg(epcs(alloc))?
        .arg(flag(
            alloc,
            "from",
            "Each word is a file, of which each line is an EPC",
        ))?
        .arg(flag(
            alloc,
            "dry-run",
            "Tell what the start would do, and do nothing",
        ))?
        .arg(flag(
            alloc,
            "contents",
            "Start a recall of each item that lies in it, too",
        ))?
        .arg(flag(
            alloc,
            "gaps",
            "Recall at the site what the recall misses that is given as <epc>",
        ))?
        .arg(flag(
            alloc,
            "each-site",
            "Start it at each other site, too, of which an event names the item",
        ))?
        .arg(key(alloc))?
        .arg(scan(alloc))?
        .arg(max_bytes(alloc))
}

fn run<'a>(alloc: Global) -> Result<Command<'a>, AllocError>
    ensures { IfOk result (λ command. app_of command ≡ run) }
{
    on_folder(alloc, "run", helps::RUN_ABOUT, helps::RUN_EXAMPLE)?
        .arg(turns(alloc))?
        .arg(flag(
            alloc,
            "until-ended",
            "Run so many turns again and again, until each recall has ended or nothing moves",
        ))?
        .arg(flag(
            alloc,
            "unless-gaps",
            "Send nothing, and end with status 5, where an open recall misses items",
        ))?
        .arg(exit_code(alloc))
}

fn report<'a>(alloc: Global) -> Result<Command<'a>, AllocError>
    ensures { IfOk result (λ command. app_of command ≡ report) }
{
    on_folder(alloc, "report", helps::REPORT_ABOUT, helps::REPORT_EXAMPLE)?
        .arg(required(alloc, "recall", "The recall, as dairy#1"))?
        .arg(brief(alloc))?
        .arg(events(alloc))?
        .arg(csv(alloc))?
        .arg(csv_guarded(alloc))?
        .arg(dot(alloc))
}

fn audit<'a>(alloc: Global) -> Result<Command<'a>, AllocError>
    ensures { IfOk result (λ command. app_of command ≡ audit) }
{
    on_folder(alloc, "audit", helps::AUDIT_ABOUT, helps::AUDIT_EXAMPLE)?
        .arg(flag(
            alloc,
            "ended",
            "Compare ended recalls alone: of files that were copied one after another, behind their ends",
        ))?
        .arg(exit_code(alloc))
}

fn trace<'a>(alloc: Global) -> Result<Command<'a>, AllocError>
    ensures { IfOk result (λ command. app_of command ≡ trace) }
{
    on_folder(alloc, "trace", helps::TRACE_ABOUT, helps::TRACE_EXAMPLE)?
        .arg(required(alloc, "site", "The site that has the item"))?
        .arg(required(alloc, "epc", "The EPC of the item"))?
        .arg(flag(alloc, "back", "Trace where it came from, not where it went"))?
        .arg(flag(alloc, "contents", "Trace with it all that lies in it"))?
        .arg(brief(alloc))?
        .arg(events(alloc))?
        .arg(csv(alloc))?
        .arg(csv_guarded(alloc))?
        .arg(dot(alloc))?
        .arg(key(alloc))?
        .arg(scan(alloc))
}

fn status<'a>(alloc: Global) -> Result<Command<'a>, AllocError>
    ensures { IfOk result (λ command. app_of command ≡ status) }
{
    on_folder(alloc, "status", helps::STATUS_ABOUT, helps::STATUS_EXAMPLE)?
        .arg(optional(
            alloc,
            "recall",
            "The recall, as dairy#1; all of them where it is left out",
        ))?
        .arg(exit_code(alloc))
}

fn gaps<'a>(alloc: Global) -> Result<Command<'a>, AllocError>
    ensures { IfOk result (λ command. app_of command ≡ gaps) }
{
    on_folder(alloc, "gaps", helps::GAPS_ABOUT, helps::GAPS_EXAMPLE)?
        .arg(optional(
            alloc,
            "recall",
            "A recall, as dairy#1: what it misses; the gaps of all sites where it is left out",
        ))?
        .arg(flag(
            alloc,
            "all",
            "List containers, too, that never came from where they were packed",
        ))?
        .arg(flag(
            alloc,
            "exit-code",
            "End with status 5 where there are gaps, or what is missed isn't held",
        ))
}

fn packs<'a>(alloc: Global) -> Result<Command<'a>, AllocError>
    ensures { IfOk result (λ command. app_of command ≡ packs) }
{
    on_folder(alloc, "packs", helps::PACKS_ABOUT, helps::PACKS_EXAMPLE)?
        .arg(of_site(alloc, "The site; all of them where it is left out"))?
        .arg(flag(
            alloc,
            "dry-run",
            "Print the packings as documents, and capture nothing",
        ))
}

fn coverage<'a>(alloc: Global) -> Result<Command<'a>, AllocError>
    ensures { IfOk result (λ command. app_of command ≡ coverage) }
{
    on_folder(
        alloc,
        "coverage",
        helps::COVERAGE_ABOUT,
        helps::COVERAGE_EXAMPLE,
    )
}

fn copy<'a>(alloc: Global) -> Result<Command<'a>, AllocError>
    ensures { IfOk result (λ command. app_of command ≡ copy) }
{
    on_folder(alloc, "copy", helps::COPY_ABOUT, helps::COPY_EXAMPLE)?.arg(required(
        alloc,
        "to",
        "The folder of the copy, which has to be there",
    ))
}

fn items<'a>(alloc: Global) -> Result<Command<'a>, AllocError>
    ensures { IfOk result (λ command. app_of command ≡ items) }
{
    on_folder(alloc, "items", helps::ITEMS_ABOUT, helps::ITEMS_EXAMPLE)?
        .arg(required(alloc, "site", "The site"))?
        .arg(optional(
            alloc,
            "text",
            "What an item contains as it is printed, as the end of its serial",
        ))?
        .arg(containing(alloc))?
        .arg(key(alloc))?
        .arg(scan(alloc))
}

fn lint<'a>(alloc: Global) -> Result<Command<'a>, AllocError>
    ensures { IfOk result (λ command. app_of command ≡ lint) }
{
    Command::new(alloc, "lint")
        .about(helps::LINT_ABOUT)
        .after_help(helps::LINT_EXAMPLE)
        .arg(required(alloc, "sites", "The file that lists the sites"))?
        .arg(files(alloc))?
        .arg(json(alloc))?
        .arg(capturing(alloc))?
        .arg(max_bytes(alloc))
}

fn convert<'a>(alloc: Global) -> Result<Command<'a>, AllocError>
    ensures { IfOk result (λ command. app_of command ≡ convert) }
{
    Command::new(alloc, "convert")
        .about(helps::CONVERT_ABOUT)
        .after_help(helps::CONVERT_EXAMPLE)
        .arg(files(alloc))?
        .arg(json(alloc))?
        .arg(flag(
            alloc,
            "lots",
            "Put the lots of quantity lists among the items",
        ))?
        .arg(flag(
            alloc,
            "links",
            "Write units of links on any host, and of element strings, on id.gs1.org",
        ))?
        .arg(flag(
            alloc,
            "keep-errors",
            "Keep events that were declared to be errors, without their errorDeclaration",
        ))?
        .arg(places(alloc))?
        .arg(max_bytes(alloc))
}
