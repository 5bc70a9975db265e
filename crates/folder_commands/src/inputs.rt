//! What comes of an input at a site: a document that it captures, or a text that spells an item of which it starts a
//! recall.

ghost use Rattle.std.specs.Prelude.{◌≡◌, Ok, Result, Some, IfErr, IfOk, MatchResult};
ghost use Rattle.event_json.specs.declared.documents.Doc.{Doc};
ghost use Rattle.site_core.specs.Records.{Record};
ghost use Rattle.site_core.specs.Steps.{IsReadAs};
ghost use Rattle.site_core.specs.declared.outcomes.Effects.{Effects};
ghost use Rattle.site_core.specs.declared.outcomes.Refusal.{Refusal};
ghost use Rattle.folder_commands.specs.Inputs.{AreNoted, ComesTo, FailsInput, NotesItem, ReadsAs, TellsInput, came_of, unread};
ghost use Rattle.folder_commands.specs.Steps.{FailsStep, Steps};
ghost use Rattle.folder_commands.specs.Untraced.{TellsUntraced};

use crate::steps::{inside_of, step};
use crate::untraced::{told_of, with_untraced};
use epc_core::Epc;
use event_json::{PlainText, Sequence, Untraced};
use item_spellings::{ScanFault, Spelled, Spelling, SpellingFault, read_item};
use keeper_core::SiteKeeper;
use recall_outcomes::{CommandRefusal, Fault, InputOutcome};
use site_core::{Effects, SiteInput};
use site_folders::refusal_of;
use std::alloc::{AllocError, Global};
use std::str;

/// What is done with an input.
#[derive(Clone, Copy, Debug)]
pub enum Doing {
    /// It is captured, as a document.
    Capture,
    /// A recall is started of the item that it spells in this way.
    Start(Spelling),
}

/// What is noted of inputs that were taken. Each count is at most 2^64 - 1, and stays there.
#[derive(Debug, Drop)]
pub struct InputNotes {
    /// What the documents that were captured say and isn't traced, added up.
    pub untraced: Untraced,
    /// Destinations of those documents that are no traced site: at most five, each once. A document that has any is
    /// parsed once more for them, unless five are named already.
    pub places: Sequence<PlainText>,
    /// How many items lie in those of which recalls were started, by the packings that the site captured, added up: the
    /// recalls hold none of them.
    pub inside: u64,
}

/// An input: what is done with it, and where it comes from.
#[derive(Debug, Drop)]
pub struct Given {
    pub doing: Doing,
    pub source: String,
    pub bytes: Vec<u8>,
}

/// What comes of an input at a site, and what is noted then.
pub(crate) fn done_with<K: SiteKeeper>(
    alloc: Global,
    keeper: &mut K,
    doing: Doing,
    bytes: Vec<u8>,
    noted: InputNotes,
) -> Result<(InputOutcome, InputNotes), Fault>
    ensures came { (old : Record) → K.shown keeper.old ≡ Some old
        → MatchResult result (λ r. (new : Record) × (K.shown keeper.new ≡ Some new)
        × ComesTo doing old bytes.items r.0 new × AreNoted doing old bytes.items r.0 noted r.1)
        (FailsInput doing old bytes.items (K.shown keeper.new) (K.may keeper.new)) }
    ensures stored { K.stored keeper.old → K.stored keeper.new }
{
    match doing {
        Doing::Capture => captured(alloc, keeper, bytes, noted),
        Doing::Start(spelling) => started(alloc, keeper, spelling, bytes.as_slice(), noted),
    }
}

/// What comes of a document at a site, and what is noted then.
fn captured<K: SiteKeeper>(
    alloc: Global,
    keeper: &mut K,
    document: Vec<u8>,
    noted: InputNotes,
) -> Result<(InputOutcome, InputNotes), Fault>
    ensures came { (old : Record) → K.shown keeper.old ≡ Some old
        → MatchResult result (λ r. (new : Record) × (K.shown keeper.new ≡ Some new)
        × ComesTo Doing.Capture old document.items r.0 new
        × AreNoted Doing.Capture old document.items r.0 noted r.1)
        (FailsInput Doing.Capture old document.items (K.shown keeper.new) (K.may keeper.new)) }
    ensures stored { K.stored keeper.old → K.stored keeper.new }
{
    let (untraced, places) = told_at(alloc, keeper, document.as_slice(), &noted.places)?;
    let done = step(keeper, SiteInput::Capture(Sequence::from_vec(document)))?;
    match done {
        Ok(effects) => {
            let notes = InputNotes {
                untraced: with_untraced(noted.untraced, untraced),
                places,
                inside: noted.inside,
            };
            Ok((came_of(effects), notes))
        }
        Err(why) => Ok((InputOutcome::Refused(CommandRefusal::Step(why)), noted)),
    }
}

/// What is told of a document that isn't traced by the sites of the record that a keeper shows, where these
/// destinations were named.
fn told_at<K: SiteKeeper>(
    alloc: Global,
    keeper: &K,
    document: &[u8],
    named: &Sequence<PlainText>,
) -> Result<(Untraced, Sequence<PlainText>), Fault>
    ensures found { (old : Record) → K.shown keeper.now ≡ Some old → (doc : Doc)
        → IsReadAs old.sites document.now (Ok doc)
        → IfOk result (λ told. TellsUntraced old.sites document.now named.now told.0 told.1) }
    ensures failed { (old : Record) → K.shown keeper.now ≡ Some old
        → IfErr result (λ fault. fault ≡ Fault.NoMemory) }
{
    match keeper.view() {
        Some(state) => told_of(alloc, document, state.sites(), named),
        None => Err(Fault::Closed),
    }
}

/// What comes of the start of a recall of the item that a text spells, and what is noted then.
fn started<K: SiteKeeper>(
    alloc: Global,
    keeper: &mut K,
    spelling: Spelling,
    text: &[u8],
    noted: InputNotes,
) -> Result<(InputOutcome, InputNotes), Fault>
    ensures came { (old : Record) → K.shown keeper.old ≡ Some old
        → MatchResult result (λ r. (new : Record) × (K.shown keeper.new ≡ Some new)
        × ComesTo (Doing.Start spelling) old text.now r.0 new
        × AreNoted (Doing.Start spelling) old text.now r.0 noted r.1)
        (FailsInput (Doing.Start spelling) old text.now (K.shown keeper.new) (K.may keeper.new)) }
    ensures stored { K.stored keeper.old → K.stored keeper.new }
{
    let read = item_in(alloc, spelling, text)?;
    match read {
        Ok(item) => started_of(alloc, keeper, item, noted),
        Err(fault) => Ok((InputOutcome::Refused(refusal_of(fault)), noted)),
    }
}

/// What comes of the start of a recall of an item, and what is noted then.
fn started_of<K: SiteKeeper>(
    alloc: Global,
    keeper: &mut K,
    item: Epc,
    noted: InputNotes,
) -> Result<(InputOutcome, InputNotes), Fault>
    ensures came { (old : Record) → K.shown keeper.old ≡ Some old
        → MatchResult result (λ r. (new : Record) × (K.shown keeper.new ≡ Some new)
        × (done : Result Effects Refusal) × Steps old (SiteInput.Start item) (Some new) done
        × TellsInput done r.0 × NotesItem old item r.0 noted r.1)
        (FailsStep old (SiteInput.Start item) (K.shown keeper.new) (K.may keeper.new)) }
    ensures stored { K.stored keeper.old → K.stored keeper.new }
{
    let count = inside_of(alloc, keeper, &item)?;
    let done = step(keeper, SiteInput::Start(item))?;
    match done {
        Ok(effects) => {
            let InputNotes {
                untraced,
                places,
                inside,
            } = noted;
            let notes = InputNotes {
                untraced,
                places,
                inside: inside.saturating_add(count),
            };
            Ok((came_of(effects), notes))
        }
        Err(why) => Ok((InputOutcome::Refused(CommandRefusal::Step(why)), noted)),
    }
}

/// The item that a text spells in this way, or why it spells none.
fn item_in(
    alloc: Global,
    spelling: Spelling,
    text: &[u8],
) -> Result<Result<Epc, SpellingFault>, AllocError>
    ensures { IfOk result (ReadsAs spelling text.now) }
{
    match str::from_utf8(text) {
        Ok(text) => read_item(alloc, &Spelled { text, spelling }),
        Err(_) => Ok(Err(unread(spelling))),
    }
}

/// Why a text that isn't UTF-8 spells no item.
fn unread(spelling: Spelling) -> SpellingFault
    ensures { result ≡ unread spelling }
{
    match spelling {
        Spelling::Epc => SpellingFault::NoEpc,
        Spelling::Key => SpellingFault::NoKey,
        Spelling::Scan => SpellingFault::NoScan(ScanFault::NoElements),
    }
}

/// What the effects of a capture or a start are. They have no others.
fn came_of(effects: Effects) -> InputOutcome
    requires { (came : InputOutcome) × (came_of effects ≡ Some came) }
    ensures { came_of effects ≡ Some result }
{
    match effects {
        Effects::Captured {
            fresh,
            known,
            skipped,
        } => InputOutcome::Captured {
            fresh,
            known,
            skipped,
        },
        Effects::Started {
            recall,
            quarantined,
            numbered,
            ended,
        } => InputOutcome::Started {
            recall,
            quarantined,
            messages: numbered,
            ended,
        },
        _ => unreachable!(),
    }
}
