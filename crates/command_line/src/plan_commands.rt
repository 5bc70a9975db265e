//! Commands that are planned: the records of all sites are asked what sites are to take, and then these take it, one
//! site after another.

ghost use Rattle.std.specs.Prelude.{◌≡◌, ◌↔◌, ◌⊎◌, ◌==◌, IfNone, IfOk, IfSome, IsTrue, Some, codes, false, length, map, if◌then◌else◌};
ghost use Rattle.clap.specs.Words.{Text, all_of, found_of, rows_of};
ghost use Rattle.folder_commands.specs.Inputs.{input_of};
ghost use Rattle.command_line.specs.CommandLines.{AsksNoAim, Gives, GivesLone, GivesSpelling, GivesTerms, IsAim, IsSet, IsStart};
ghost use Rattle.command_line.specs.Ends.{PlanEnds, TakesPart, TakesPlan, TellsPart, TellsPlan};
ghost use Rattle.command_line.specs.Plans.{FindsPlan, doing_of, planned_input};

use crate::asked::{Asked, Terms};
use crate::batch_commands::tell_batch;
use crate::command_lines::{argument, is_set, mistake, spelling_of};
use crate::commands::{fault, tell_output};
use crate::sinks::InputLines;
use crate::{helps, statuses};
use clap::ArgMatches;
use event_json::Sites;
use folder_commands::{BatchOutput, Doing, Given, take_texts};
use folder_questions::{
    ContentsPlan, EachSitePlan, GapsPlan, PacksPlan, Planned, PlannedBatch, PlannedInput,
};
use item_spellings::{Spelled, Spelling};
use keeper_core::SiteKeeper;
use outcome_forms::{InputSentences, write_sentences};
use recall_outcomes::{Fault, Notes, Output, Task};
use recall_text::texts::name_of;
use site_folders::{Files, ask};
use std::alloc::{AllocError, Global};
use std::cell::RefCell;
use std::io::Write;

/// A command that is planned.
#[derive(Debug, Drop)]
pub(crate) struct PlanCommand<'a> {
    pub(crate) folder: &'a str,
    pub(crate) aim: Aim<'a>,
    pub(crate) terms: Terms,
}

/// What a plan is for.
#[derive(Clone, Copy, Debug)]
pub(crate) enum Aim<'a> {
    /// Recalls of an item and of all that lies in it are started at a site.
    Contents { site: &'a str, item: Spelled<'a> },
    /// A recall of an item is started at a site, and at each other one of which an event names it.
    EachSite { site: &'a str, item: Spelled<'a> },
    /// A site starts recalls of what a recall misses there, and captures what tells it where that lies.
    Gaps { site: &'a str, recall: &'a str },
    /// All sites, or one, close their packed gaps.
    Packs { site: Option<&'a str> },
}

/// The command for a start that is planned.
pub(crate) fn plan_start<'a>(
    alloc: Global,
    given: &ArgMatches<'a>,
    terms: Terms,
) -> Option<Asked<'a>>
    requires planned { IsSet (rows_of (found_of given.now)) (codes "contents")
        ⊎ IsSet (rows_of (found_of given.now)) (codes "gaps")
        ⊎ IsSet (rows_of (found_of given.now)) (codes "each-site") }
    requires terms { GivesTerms (rows_of (found_of given.now)) terms }
    ensures { IfSome result (IsStart (rows_of (found_of given.now))) }
{
    let folder = argument(given, "dir")?;
    let site = argument(given, "site")?;
    let words = given.get_strs("epc")?;
    let spelling = spelling_of(given)?;
    match start_aim(given, site, words, spelling) {
        Some(aim) => Some(Asked::Plan(PlanCommand { folder, aim, terms })),
        None => mistake(alloc, helps::NO_PLAN).ok(),
    }
}

/// What a start that is planned is for; `None` where there is no such plan.
fn start_aim<'a>(
    given: &ArgMatches<'_>,
    site: &'a str,
    words: &[&'a str],
    spelling: Spelling,
) -> Option<Aim<'a>>
    requires site { Gives (rows_of (found_of given.now)) (codes "site") site.now }
    requires words { all_of (codes "epc") (rows_of (found_of given.now))
        ≡ Some (map (λ w. w.now) words.now) }
    requires spelling { GivesSpelling (rows_of (found_of given.now)) spelling }
    ensures some { IfSome result (λ aim. IsAim aim (codes "start") (rows_of (found_of given.now))) }
    ensures none { IfNone result (AsksNoAim (rows_of (found_of given.now))) }
{
    if !is_lone(given, words) {
        return None;
    }
    let text = words[0];
    let item = Spelled { text, spelling };
    let contents = is_set(given, "contents");
    let gaps = is_set(given, "gaps");
    let each = is_set(given, "each-site");
    match (contents, gaps, each) {
        (true, false, false) => Some(Aim::Contents { site, item }),
        (false, false, true) => Some(Aim::EachSite { site, item }),
        (false, true, false) => if is_epc(spelling) {
            Some(Aim::Gaps { site, recall: text })
        } else {
            None
        },
        _ => None,
    }
}

/// Whether one word is given, which isn't a file, and what it asks for isn't dry.
fn is_lone(given: &ArgMatches<'_>, words: &[&str]) -> bool
    requires { all_of (codes "epc") (rows_of (found_of given.now)) ≡ Some (map (λ w. w.now) words.now) }
    ensures { IsTrue result ↔ ((text : Text) × GivesLone (rows_of (found_of given.now)) text) }
{
    let by_lines = is_set(given, "from");
    let dry = is_set(given, "dry-run");
    is_alone(words, by_lines, dry)
}

/// Whether the words are one, and neither of these is so.
fn is_alone(words: &[&str], by_lines: bool, dry: bool) -> bool
    ensures { IsTrue result ↔ ((by_lines ≡ false) × (dry ≡ false) × (length words.now ≡ 1)) }
{
    !by_lines && !dry && words.len() == 1
}

/// Whether an item is given as an EPC.
fn is_epc(spelling: Spelling) -> bool
    ensures { IsTrue result ↔ (spelling ≡ Spelling.Epc) }
{
    match spelling {
        Spelling::Epc => true,
        Spelling::Key | Spelling::Scan => false,
    }
}

/// Does what is planned, and returns the status to end with.
pub(crate) fn do_plan<K: SiteKeeper, F: Files<K>, W: Write, E: Write>(
    alloc: Global,
    files: &mut F,
    asked: &PlanCommand<'_>,
    output: &mut W,
    errors: &mut E,
) -> u8
    ensures { TellsPlan F.does F.waits K.shown K.may K.stored W.contents asked.now files.old
        files.new output.old output.new result }
{
    files.wait_for(asked.terms.wait);
    match find(alloc, files, asked) {
        Ok((sites, planned)) => tell_plan(alloc, files, asked, sites, planned, output, errors),
        Err(cause) => fault(alloc, asked.terms.form, files, cause, errors),
    }
}

/// Asks the records of all sites what is to be done.
fn find<K: SiteKeeper, F: Files<K>>(
    alloc: Global,
    files: &mut F,
    asked: &PlanCommand<'_>,
) -> Result<(Sites, Planned), Fault>
    ensures { FindsPlan F.does K.shown K.stored asked.now.folder.now asked.now.aim files.old files.new
        result }
{
    match asked.aim {
        Aim::Contents { site, item } => {
            ask(alloc, files, asked.folder, &ContentsPlan { site, item })
        }
        Aim::EachSite { site, item } => {
            ask(alloc, files, asked.folder, &EachSitePlan { site, item })
        }
        Aim::Gaps { site, recall } => {
            ask(alloc, files, asked.folder, &GapsPlan { site, recall })
        }
        Aim::Packs { site } => ask(alloc, files, asked.folder, &PacksPlan { site }),
    }
}

/// Does what was planned, or prints why there is no plan.
fn tell_plan<K: SiteKeeper, F: Files<K>, W: Write, E: Write>(
    alloc: Global,
    files: &mut F,
    asked: &PlanCommand<'_>,
    sites: Sites,
    planned: Planned,
    output: &mut W,
    errors: &mut E,
) -> u8
    ensures { PlanEnds F.does K.shown K.may K.stored W.contents asked.now.terms.form
        asked.now.folder.now sites planned files.old files.new output.old output.new result }
{
    match planned {
        Planned::Refused(outcome) => {
            let refused = Output {
                sites,
                outcome,
                notes: Notes::Nothing,
            };
            tell_output(alloc, asked.terms.form, files, &refused, output, errors)
        }
        Planned::Batches(plan) => take_plan(alloc, files, asked, &sites, plan, output, errors),
    }
}

/// Has sites take what is planned, one after another, up to a fault, and returns the status to end with.
fn take_plan<K: SiteKeeper, F: Files<K>, W: Write, E: Write>(
    alloc: Global,
    files: &mut F,
    asked: &PlanCommand<'_>,
    sites: &Sites,
    plan: Vec<PlannedBatch>,
    output: &mut W,
    errors: &mut E,
) -> u8
    ensures { TakesPlan F.does K.shown K.may K.stored W.contents asked.now.terms.form
        asked.now.folder.now sites.now plan.items files.old files.new output.old output.new result }
{
    let mut worst = statuses::DONE;
    for part in plan {
        let status = take_part(alloc, files, asked, sites, part, output, errors);
        if status == statuses::FAULT {
            return statuses::FAULT;
        }
        worst = worse(worst, status);
    }
    worst
}

/// The status of what was done and of something more, which isn't a fault.
fn worse(worst: u8, status: u8) -> u8
    ensures { result ≡ (if status == 0 then worst else status) }
{
    if status == 0 { worst } else { status }
}

/// Has a site take what is planned for it, and returns a status.
fn take_part<K: SiteKeeper, F: Files<K>, W: Write, E: Write>(
    alloc: Global,
    files: &mut F,
    asked: &PlanCommand<'_>,
    sites: &Sites,
    part: PlannedBatch,
    output: &mut W,
    errors: &mut E,
) -> u8
    ensures { TellsPart F.does K.shown K.may K.stored W.contents asked.now.terms.form
        asked.now.folder.now sites.now part files.old files.new output.old output.new result }
{
    let form = asked.terms.form;
    let sentences = RefCell::new(InputSentences::new(alloc));
    let taken = take_inputs(alloc, files, asked, sites, part, &sentences, output);
    write_sentences(alloc, form, &sentences.into_inner(), errors);
    match taken {
        Ok(told) => {
            let tells_inside = tells_inside(asked.aim);
            tell_batch(alloc, form, tells_inside, files, told, output, errors)
        }
        Err(cause) => fault(alloc, form, files, cause, errors),
    }
}

/// Whether what lies in recalled items isn't recalled with them.
fn tells_inside(aim: Aim<'_>) -> bool {
    match aim {
        Aim::Contents { site: _, item: _ } => false,
        Aim::EachSite { site: _, item: _ } => true,
        Aim::Gaps { site: _, recall: _ } => true,
        Aim::Packs { site: _ } => true,
    }
}

/// Has a site take what is planned for it, and gathers what refusals mean.
fn take_inputs<K: SiteKeeper, F: Files<K>, W: Write>(
    alloc: Global,
    files: &mut F,
    asked: &PlanCommand<'_>,
    sites: &Sites,
    part: PlannedBatch,
    sentences: &RefCell<InputSentences>,
    output: &mut W,
) -> Result<BatchOutput, Fault>
    ensures { TakesPart F.does K.shown K.may K.stored W.contents asked.now.terms.form
        asked.now.folder.now sites.now part files.old files.new output.old output.new result }
{
    let PlannedBatch { site, task, inputs } = part;
    let lines = InputLines {
        alloc,
        form: asked.terms.form,
        task,
        sentences,
    };
    let name = name_of(sites, site);
    let given = given_inputs(alloc, task, inputs)?;
    take_texts(
        alloc,
        files,
        asked.folder,
        name,
        task,
        given,
        &lines,
        output,
    )
}

/// What was planned, as it is given to the site.
fn given_inputs(
    alloc: Global,
    task: Task,
    inputs: Vec<PlannedInput>,
) -> Result<Vec<Given>, AllocError>
    ensures { IfOk result (λ all. map input_of all.items ≡ map (planned_input task) inputs.items) }
{
    let mut all = Vec::new(alloc);
    for input in inputs {
        let PlannedInput { name, text } = input;
        all.push(Given {
            doing: doing_of(task),
            source: name,
            bytes: text.into_bytes(),
        })?;
    }
    Ok(all)
}

/// What is done with a planned input: an item is given as its key.
fn doing_of(task: Task) -> Doing
    ensures { result ≡ doing_of task }
{
    match task {
        Task::Capture => Doing::Capture,
        Task::Start => Doing::Start(Spelling::Key),
    }
}
