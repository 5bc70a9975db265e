//! `capture` and `start`: a step of one site.

ghost use Rattle.std.specs.Prelude.{◌≡◌, ◌⊎◌, Err, IfErr, IfOk, IsErr, MatchResult, Ok, OnErr, None, Some};
ghost use Rattle.keeper_core.specs.Keeping.{Rises};
ghost use Rattle.site_core.specs.Records.{Record};
ghost use Rattle.site_core.specs.declared.inputs.SiteInput.TheVariants.{Start};
ghost use Rattle.site_folders.specs.Faults.{OpensInVain};
ghost use Rattle.site_folders.specs.FileCalls.{Led};
ghost use Rattle.site_folders.specs.Missing.{CountsOwn};
ghost use Rattle.folder_commands.specs.Steps.{BreaksStep, CaptureFails, CapturesAt, FailsStep, NotesDone, NotesStart, StartFails, StartsAt, Steps, StepsAt, TellsStep};

use crate::untraced::told_of;
use epc_core::Epc;
use event_json::{PlainText, Sequence, SiteNo, Sites, Untraced};
use item_spellings::{Spelled, read_item};
use keeper_core::{KeepFault, SiteKeeper};
use recall_outcomes::{CommandRefusal, Fault, Notes, Outcome, Output, UntracedNotes};
use site_core::{Effects, Refusal, SiteInput};
use site_folders::{
    Files, count_inside, inside_notes, no_site, open_site, refusal, sites_of, unspelled,
};
use std::alloc::{AllocError, Global};

/// Captures the document in a file at a site of a folder. The notes of a captured document say what isn't traced, and
/// name up to five of its destinations that are no traced site: where it has any, it is parsed once more for that. A
/// refused one has no notes.
///
/// # Errors
/// In this order, each without a change: those of the folder's list, `Read` where the document can't be read, those of
/// opening the site's file; and then those of its step: after `NoMemory` nothing changed, and after `Device` or `Store`
/// the document may be captured. A site that isn't listed is refused before the document is read.
pub fn capture<K: SiteKeeper, F: Files<K>>(
    alloc: Global,
    files: &mut F,
    folder: &str,
    site: &str,
    file: &str,
) -> Result<Output, Fault>
    // The folder's list was read, the document at the path that was given, and the site's file was opened; its record
    // took just this step or refused it, and the file was closed, on which a crash leaves the record that is shown. Of
    // a document that was captured it is noted what isn't traced, and its destinations that are no traced site are
    // named: all of them, or five.
    ensures calls { IfOk result (λ output. Led F.does files.old files.new
        (CapturesAt K.shown K.stored folder.now site.now file.now output)) }
    // Nothing was changed; or the site's file was opened, the fault is that of its step, `Device` only where the count
    // of the device's failures rose in it, and the file was closed, to be opened in the record before the step or in
    // the one after it, which a crash leaves there.
    // Not covered: that a fault comes with a cause: out of memory needs none.
    ensures failed { IfErr result (λ fault. Led F.does files.old files.new
        (CaptureFails K.shown K.may K.failed K.stored folder.now site.now file.now fault)) }
{
    let sites = sites_of(alloc, files, folder)?;
    let Some(number) = sites.find(site) else {
        let outcome = no_site(alloc, site)?;
        return Ok(plain(sites, outcome));
    };
    let document = files.read(alloc, file)?;
    let (untraced, places) = told_of(alloc, document.as_slice(), &sites, &Sequence::new(alloc))?;
    let input = SiteInput::Capture(Sequence::from_vec(document));
    let done = step_at(alloc, files, folder, &sites, number, input)?;
    let notes = noted(&done, untraced, places);
    let outcome = told(alloc, done)?;
    Ok(Output {
        sites,
        outcome,
        notes,
    })
}

/// What is noted of a document that was captured, of which this isn't traced, or that was refused.
fn noted(done: &Result<Effects, Refusal>, untraced: Untraced, places: Sequence<PlainText>) -> Notes
    ensures { NotesDone untraced places done.now result }
{
    match done {
        Ok(_) => Notes::Untraced(UntracedNotes {
            counts: untraced,
            places: places.into_vec(),
        }),
        Err(_) => Notes::Nothing,
    }
}

/// The outcome of a step.
///
/// # Errors
/// Where memory runs out for a refusal.
fn told(alloc: Global, done: Result<Effects, Refusal>) -> Result<Outcome, AllocError>
    ensures told { IfOk result (TellsStep done) }
    ensures failed { OnErr result (IsErr done) }
{
    match done {
        Ok(effects) => Ok(Outcome::Stepped(effects)),
        Err(why) => refusal(alloc, CommandRefusal::Step(why)),
    }
}

/// An outcome by itself.
fn plain(sites: Sites, outcome: Outcome) -> Output
    ensures sites { result.sites ≡ sites }
    ensures outcome { result.outcome ≡ outcome }
    ensures notes { result.notes ≡ Notes.Nothing }
{
    Output {
        sites,
        outcome,
        notes: Notes::Nothing,
    }
}

/// Starts a recall of an item at a site of a folder. The notes of one that was started say how many items lie in the item
/// by the packings that the site captured: the recall holds none of them.
///
/// # Errors
/// In this order, each without a change: those of the folder's list, those of opening the site's file; and then those
/// of its step: after `NoMemory` nothing changed, and after `Device` or `Store` the recall may be started. A site that
/// isn't listed and a text that spells no item are refused before the file is opened.
pub fn start<K: SiteKeeper, F: Files<K>>(
    alloc: Global,
    files: &mut F,
    folder: &str,
    site: &str,
    item: &Spelled<'_>,
) -> Result<Output, Fault>
    ensures calls { IfOk result (λ output. Led F.does files.old files.new
        (StartsAt K.shown K.stored folder.now site.now item.now output)) }
    ensures failed { IfErr result (λ fault. Led F.does files.old files.new
        (StartFails K.shown K.may K.failed K.stored folder.now site.now item.now fault)) }
{
    let sites = sites_of(alloc, files, folder)?;
    let Some(number) = sites.find(site) else {
        let outcome = no_site(alloc, site)?;
        return Ok(plain(sites, outcome));
    };
    let read = read_item(alloc, item)?;
    match read {
        Ok(key) => {
            let (done, inside) = start_at(alloc, files, folder, &sites, number, key)?;
            let notes = noted_start(alloc, &done, inside);
            let outcome = told(alloc, done)?;
            Ok(Output {
                sites,
                outcome,
                notes,
            })
        }
        Err(fault) => {
            let outcome = unspelled(alloc, fault)?;
            Ok(plain(sites, outcome))
        }
    }
}

/// What is noted of a recall that was started, of an item in which so many lie, or that was refused.
fn noted_start(alloc: Global, done: &Result<Effects, Refusal>, inside: u64) -> Notes
    ensures { NotesStart inside done.now result }
{
    match done {
        Ok(_) => inside_notes(alloc, inside),
        Err(_) => Notes::Nothing,
    }
}

/// The start of a recall at the site that a file keeps, and how many items lie in its item by that site's packings.
fn start_at<K: SiteKeeper, F: Files<K>>(
    alloc: Global,
    files: &mut F,
    folder: &str,
    sites: &Sites,
    site: SiteNo,
    item: Epc,
) -> Result<(Result<Effects, Refusal>, u64), Fault>
    ensures calls { IfOk result (λ r. Led F.does files.old files.new (λ calls.
        (at : StepsAt K.shown K.stored folder.now sites.now site (Start item) r.0 calls)
        × CountsOwn at.before item r.1)) }
    ensures failed { IfErr result (λ fault. Led F.does files.old files.new (λ calls.
        OpensInVain K.shown folder.now sites.now fault calls
        ⊎ BreaksStep K.shown K.may K.failed K.stored folder.now sites.now site (Start item) fault
        calls)) }
{
    let mut keeper = open_site(alloc, files, folder, sites, site)?;
    let inside = inside_of(alloc, &keeper, &item);
    let done = start_of(&mut keeper, item, inside);
    files.close_site(keeper);
    done
}

/// The start of a recall, where it could be counted what lies in its item.
fn start_of<K: SiteKeeper>(
    keeper: &mut K,
    item: Epc,
    inside: Result<u64, AllocError>,
) -> Result<(Result<Effects, Refusal>, u64), Fault>
    ensures answered { (old : Record) → K.shown keeper.old ≡ Some old
        → MatchResult result (λ r. Steps old (Start item) (K.shown keeper.new) r.0)
        (FailsStep old (Start item) (K.shown keeper.new) (K.may keeper.new)) }
    ensures inside { IfOk result (λ r. inside ≡ Ok r.1) }
    ensures cause { result ≡ Err Fault.Device → Rises (K.failed keeper.old) (K.failed keeper.new) }
    ensures stored { K.stored keeper.old → K.stored keeper.new }
{
    let inside = inside?;
    let done = step(keeper, SiteInput::Start(item))?;
    Ok((done, inside))
}

/// How many items lie in one, by the packings of the record that a keeper shows.
pub(crate) fn inside_of<K: SiteKeeper>(
    alloc: Global,
    keeper: &K,
    item: &Epc,
) -> Result<u64, AllocError>
    ensures { (r : Record) → K.shown keeper.now ≡ Some r → IfOk result (CountsOwn r item.now) }
{
    match keeper.view() {
        Some(state) => count_inside(alloc, state, item),
        None => Ok(0),
    }
}

/// A step of the site that a file keeps.
fn step_at<K: SiteKeeper, F: Files<K>>(
    alloc: Global,
    files: &mut F,
    folder: &str,
    sites: &Sites,
    site: SiteNo,
    input: SiteInput,
) -> Result<Result<Effects, Refusal>, Fault>
    ensures calls { IfOk result (λ done. Led F.does files.old files.new
        (StepsAt K.shown K.stored folder.now sites.now site input done)) }
    ensures failed { IfErr result (λ fault. Led F.does files.old files.new (λ calls.
        OpensInVain K.shown folder.now sites.now fault calls
        ⊎ BreaksStep K.shown K.may K.failed K.stored folder.now sites.now site input fault calls)) }
{
    let mut keeper = open_site(alloc, files, folder, sites, site)?;
    let done = step(&mut keeper, input);
    files.close_site(keeper);
    done
}

/// A step of a site: its effects, or why it is refused.
///
/// # Errors
/// `Device`, which comes only where [`SiteKeeper::failures`] rose, and `Store`, which close it, with the record before
/// the step or the one after it. After `NoMemory` it is open, and nothing changed. An open one has no others.
pub(crate) fn step<K: SiteKeeper>(
    keeper: &mut K,
    input: SiteInput,
) -> Result<Result<Effects, Refusal>, Fault>
    ensures answered { (old : Record) → K.shown keeper.old ≡ Some old
        → MatchResult result (Steps old input (K.shown keeper.new))
        (FailsStep old input (K.shown keeper.new) (K.may keeper.new)) }
    ensures closed { K.shown keeper.old ≡ None → result ≡ Err Fault.Closed }
    ensures cause { result ≡ Err Fault.Device → Rises (K.failed keeper.old) (K.failed keeper.new) }
    ensures stored { K.stored keeper.old → K.stored keeper.new }
{
    match keeper.apply(input) {
        Ok(effects) => Ok(Ok(effects)),
        Err(KeepFault::Refused(why)) => Ok(Err(why)),
        Err(KeepFault::NoMemory) => Err(Fault::NoMemory),
        Err(KeepFault::Device) => Err(Fault::Device),
        Err(KeepFault::Store) => Err(Fault::Store),
        Err(KeepFault::Closed) => Err(Fault::Closed),
    }
}
