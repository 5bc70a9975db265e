//! What each command on a folder does. Behind one on an item that was refused since the site doesn't know the item, it
//! is asked who does.

ghost use Rattle.std.specs.Prelude.{◌≡◌, IfErr, IfOk};
ghost use Rattle.std.specs.List.{list_any};
ghost use Rattle.site_folders.specs.FileCalls.{Led};
ghost use Rattle.command_line.specs.CommandLines.{HasTurns};
ghost use Rattle.command_line.specs.Leads.{FailsBy, LeadsTo};
ghost use Rattle.command_line.specs.UnknownItems.{TellsBehind, is_unknown, is_unknown_item};

use crate::asked::FileCommand;
use event_json::Sites;
use folder_commands::{capture, copy, init, run_sites, start};
use folder_questions::{
    Audit, ContentsOf, ContentsTraceOf, CoverageOf, DryStart, GapsOf, ItemsOf, KnowersOf, MissedOf,
    ReportOf, StatusOf, Statuses, TraceOf,
};
use item_spellings::Spelled;
use keeper_core::SiteKeeper;
use recall_outcomes::{CommandRefusal, Fault, Notes, Outcome, Output};
use site_core::Refusal;
use site_folders::{Files, ask, ask_site};
use site_threads::Gate;
use std::alloc::Global;
use std::hash::RandomState;
use std::sync::Wait;
use std::thread::Threads;
use std::time::Clock;

/// Does a command on the sites' files.
pub(crate) fn do_command<
    R: Threads + Wait + Clock + Sync,
    K: SiteKeeper + Send,
    F: Files<K>,
    G: Gate + Copy + Send,
>(
    rt: &R,
    alloc: Global,
    keys: RandomState,
    files: &mut F,
    gate: G,
    command: &FileCommand<'_>,
) -> Result<Output, Fault>
    requires { HasTurns command.now }
    ensures led { IfOk result (λ output. Led F.does files.old files.new
        (LeadsTo (F.knows files.new) K.shown K.failed K.may K.stored command.now output)) }
    ensures failed { IfErr result (λ fault. Led F.does files.old files.new
        (FailsBy K.shown K.failed K.may K.reopens G.gives_up K.stored command.now fault)) }
{
    match command {
        FileCommand::Run { folder, terms } => run_sites(rt, alloc, files, gate, folder, *terms),
        FileCommand::Init { folder, list } => init(alloc, keys, files, folder, list),
        FileCommand::Copy { folder, to } => copy(alloc, files, folder, to),
        FileCommand::Capture { folder, site, file } => capture(alloc, files, folder, site, file),
        FileCommand::Start {
            folder,
            site,
            item,
            dry,
        } => {
            let (site, item) = (*site, *item);
            let first = if *dry {
                with_notes(ask(alloc, files, folder, &DryStart { site, item })?)
            } else {
                start(alloc, files, folder, site, &item)?
            };
            Ok(with_knowers(alloc, files, folder, &KnowersOf { site, item }, first))
        }
        FileCommand::Report {
            folder,
            recall,
            ways,
            events,
        } => {
            let question = ReportOf {
                recall,
                ways: *ways,
                events: *events,
            };
            Ok(with_notes(ask(alloc, files, folder, &question)?))
        }
        FileCommand::Audit {
            folder,
            ended,
            coded,
        } => {
            let question = Audit {
                ended: *ended,
                coded: *coded,
            };
            Ok(with_notes(ask(alloc, files, folder, &question)?))
        }
        FileCommand::Trace {
            folder,
            site,
            item,
            back,
            ways,
            events,
        } => {
            let (site, item) = (*site, *item);
            let question = TraceOf {
                site,
                item,
                back: *back,
                ways: *ways,
                events: *events,
            };
            let first = with_notes(ask(alloc, files, folder, &question)?);
            Ok(with_knowers(alloc, files, folder, &KnowersOf { site, item }, first))
        }
        FileCommand::TraceContents {
            folder,
            site,
            item,
            ways,
        } => {
            let (site, item) = (*site, *item);
            let question = ContentsTraceOf {
                site,
                item,
                ways: *ways,
            };
            let first = with_notes(ask(alloc, files, folder, &question)?);
            Ok(with_knowers(alloc, files, folder, &KnowersOf { site, item }, first))
        }
        FileCommand::Recalls { folder, coded } => {
            let question = Statuses { coded: *coded };
            Ok(with_notes(ask(alloc, files, folder, &question)?))
        }
        FileCommand::Recall {
            folder,
            recall,
            coded,
        } => {
            let question = StatusOf {
                recall,
                coded: *coded,
            };
            Ok(with_notes(ask(alloc, files, folder, &question)?))
        }
        FileCommand::Items { folder, site, text } => {
            Ok(plain(ask_site(alloc, files, folder, &ItemsOf { site, text })?))
        }
        FileCommand::Coverage { folder } => {
            Ok(plain(ask(alloc, files, folder, &CoverageOf {})?))
        }
        FileCommand::Inside {
            folder,
            site,
            item,
            text,
        } => {
            let (site, item) = (*site, *item);
            let question = ContentsOf { site, item, text };
            let first = plain(ask(alloc, files, folder, &question)?);
            Ok(with_knowers(alloc, files, folder, &KnowersOf { site, item }, first))
        }
        FileCommand::Gaps { folder, all, coded } => {
            let question = GapsOf {
                all: *all,
                coded: *coded,
            };
            Ok(with_notes(ask(alloc, files, folder, &question)?))
        }
        FileCommand::Missed {
            folder,
            recall,
            coded,
        } => {
            let question = MissedOf {
                recall,
                coded: *coded,
            };
            Ok(plain(ask(alloc, files, folder, &question)?))
        }
    }
}

/// An outcome with what is told beside it.
fn with_notes(told: (Sites, (Outcome, Notes))) -> Output
    ensures sites { result.sites ≡ told.0 }
    ensures outcome { result.outcome ≡ told.1.0 }
    ensures notes { result.notes ≡ told.1.1 }
{
    let (sites, (outcome, notes)) = told;
    Output {
        sites,
        outcome,
        notes,
    }
}

/// An outcome beside which nothing is told.
fn plain(told: (Sites, Outcome)) -> Output
    ensures sites { result.sites ≡ told.0 }
    ensures outcome { result.outcome ≡ told.1 }
    ensures silent { result.notes ≡ Notes.Nothing }
{
    let (sites, outcome) = told;
    Output {
        sites,
        outcome,
        notes: Notes::Nothing,
    }
}

/// What a command on an item at a site came to, and who knows the item where the site doesn't. Nothing is told where
/// that can't be found out.
fn with_knowers<K: SiteKeeper, F: Files<K>>(
    alloc: Global,
    files: &mut F,
    folder: &str,
    question: &KnowersOf<'_>,
    first: Output,
) -> Output
    ensures { Led F.does files.old files.new
        (TellsBehind K.shown K.stored folder.now question.now (is_unknown first.outcome) first
        result) }
{
    if !is_unknown(&first.outcome) {
        return first;
    }
    let notes = noted(ask(alloc, files, folder, question));
    let Output {
        sites,
        outcome,
        notes: _,
    } = first;
    Output {
        sites,
        outcome,
        notes,
    }
}

/// The notes that were asked for, or nothing where that failed.
fn noted(asked: Result<(Sites, Notes), Fault>) -> Notes
    ensures told { IfOk asked (λ told. result ≡ told.1) }
    ensures failed { IfErr asked (λ fault. result ≡ Notes.Nothing) }
{
    match asked {
        Ok((_, notes)) => notes,
        Err(_) => Notes::Nothing,
    }
}

/// Whether a command was refused since the site doesn't know the item.
fn is_unknown(outcome: &Outcome) -> bool
    ensures { result ≡ is_unknown outcome.now }
{
    match outcome {
        Outcome::Refused(whys) => some_unknown(whys.as_slice()),
        _ => false,
    }
}

/// Whether one of the reasons is that the site doesn't know the item.
fn some_unknown(whys: &[CommandRefusal]) -> bool
    ensures { result ≡ list_any is_unknown_item whys.now }
{
    whys.iter().any(|why| is_unknown_item(why))
}

fn is_unknown_item(why: &CommandRefusal) -> bool
    ensures { result ≡ is_unknown_item why.now }
{
    match why {
        CommandRefusal::Step(Refusal::UnknownItem) => true,
        _ => false,
    }
}
