//! Texts of recalls, messages, effects and refusals.

ghost use Rattle.std.specs.Prelude.{◌≡◌, ◌++◌, ◌∷◌, [], codes, IfOk, OnOk, OnErr, string_bytes, unwrap_or};
ghost use Rattle.std.specs.Fmt.{decimal};
ghost use Rattle.recall_text.specs.Words.{name_at, recall_text, message_text, ended_word, owed_word, captured_text, started_text, received_text, signalled_text, effects_text, doc_fault_text, blocked_text, refusal_text, stopped_text, pair_text, each_pair, quarantined_text};

use epc_core::Epc;
use event_json::{DocFault, SiteNo, Sites};
use frame_core::{MsgId, RecallId};
use site_core::{Effects, Refusal};
use std::alloc::{AllocError, Global};
use trace_core::Pair;

/// The name of a site, empty where there is none of this number.
pub fn name_of(sites: &Sites, site: SiteNo) -> &str
    ensures { result.now ≡ name_at sites.now site }
{
    sites.name(site).unwrap_or("")
}

/// A recall, as `A#1`.
pub fn recall_text(alloc: Global, sites: &Sites, recall: RecallId) -> Result<String, AllocError>
    ensures { IfOk result (λ t. string_bytes t ≡ recall_text sites.now recall) }
{
    let name = name_of(sites, recall.site);
    let number = recall.number;
    format!(in alloc; "{name}#{number}")
}

/// A message, as `A.1`.
pub fn message_text(alloc: Global, sites: &Sites, message: MsgId) -> Result<String, AllocError>
    ensures { IfOk result (λ t. string_bytes t ≡ message_text sites.now message) }
{
    let name = name_of(sites, message.site);
    let number = message.number;
    format!(in alloc; "{name}.{number}")
}

/// Whether a recall has ended, as `ended` or `open`.
pub fn ended_word(ended: bool) -> &'static str
    ensures { result.now ≡ ended_word ended }
{
    if ended { "ended" } else { "open" }
}

/// Whether a message's signal is owed until others come, or is due.
fn owed_word(owed: bool) -> &'static str
    ensures { result.now ≡ owed_word owed }
{
    if owed { "owed" } else { "signal" }
}

/// What a step did; of a frame the message that it is about is reported.
pub fn effects_text(
    alloc: Global,
    sites: &Sites,
    about: &str,
    effects: &Effects,
) -> Result<String, AllocError>
    ensures { IfOk result (λ t. string_bytes t ≡ effects_text sites.now about.now effects.now) }
{
    match effects {
        Effects::Captured {
            fresh,
            known,
            skipped,
        } => captured_text(alloc, *fresh, *known, *skipped),
        Effects::Started {
            recall,
            quarantined,
            numbered,
            ended,
        } => started_text(alloc, sites, *recall, *quarantined, *numbered, *ended),
        Effects::Received {
            quarantined,
            numbered,
            owed,
        } => received_text(alloc, about, *quarantined, *numbered, *owed),
        Effects::Repeat => format!(in alloc; "repeat {about}\n"),
        Effects::Stale => signalled_text(alloc, about, "stale"),
        Effects::Cleared => signalled_text(alloc, about, "cleared"),
        Effects::ParentDue(parent) => due_text(alloc, sites, about, *parent),
        Effects::Ended(recall) => end_text(alloc, sites, about, *recall),
    }
}

fn captured_text(alloc: Global, fresh: u64, known: u64, skipped: u64) -> Result<String, AllocError>
    ensures { IfOk result (λ t. string_bytes t ≡ captured_text fresh known skipped) }
{
    let mut text = format!(in alloc; "captured {fresh} known {known}")?;
    let line = format!(in alloc; " skipped {skipped}\n")?;
    text.push_str(line.as_str())?;
    Ok(text)
}

fn started_text(
    alloc: Global,
    sites: &Sites,
    recall: RecallId,
    new: u64,
    numbered: u64,
    ended: bool,
) -> Result<String, AllocError>
    ensures { IfOk result (λ t. string_bytes t ≡ started_text sites.now recall new numbered ended) }
{
    let recall = recall_text(alloc, sites, recall)?;
    let recall = recall.as_str();
    let mut text = format!(in alloc; "recall {recall} new {new}")?;
    push_messages(alloc, &mut text, numbered, ended_word(ended))?;
    Ok(text)
}

fn received_text(
    alloc: Global,
    about: &str,
    new: u64,
    numbered: u64,
    owed: bool,
) -> Result<String, AllocError>
    ensures { IfOk result (λ t. string_bytes t ≡ received_text about.now new numbered owed) }
{
    let mut text = format!(in alloc; "received {about} new {new}")?;
    push_messages(alloc, &mut text, numbered, owed_word(owed))?;
    Ok(text)
}

/// Adds how many messages were numbered, and what follows, to a text.
fn push_messages(
    alloc: Global,
    text: &mut String,
    numbered: u64,
    word: &str,
) -> Result<(), AllocError>
    ensures { OnOk result (string_bytes text.new
        ≡ string_bytes text.old ++ codes " messages " ++ decimal numbered ++ 32 ∷
        (word.now ++ 10 ∷ [])) }
{
    let line = format!(in alloc; " messages {numbered} {word}\n")?;
    text.push_str(line.as_str())
}

fn signalled_text(alloc: Global, about: &str, what: &str) -> Result<String, AllocError>
    ensures { IfOk result (λ t. string_bytes t ≡ signalled_text about.now what.now) }
{
    format!(in alloc; "signalled {about} {what}\n")
}

fn due_text(alloc: Global, sites: &Sites, about: &str, parent: MsgId) -> Result<String, AllocError>
    ensures { IfOk result (λ t. string_bytes t ≡ signalled_text about.now
        (codes "due " ++ message_text sites.now parent)) }
{
    let parent = message_text(alloc, sites, parent)?;
    let parent = parent.as_str();
    let what = format!(in alloc; "due {parent}")?;
    signalled_text(alloc, about, what.as_str())
}

fn end_text(
    alloc: Global,
    sites: &Sites,
    about: &str,
    recall: RecallId,
) -> Result<String, AllocError>
    ensures { IfOk result (λ t. string_bytes t ≡ signalled_text about.now
        (codes "ended " ++ recall_text sites.now recall)) }
{
    let recall = recall_text(alloc, sites, recall)?;
    let recall = recall.as_str();
    let what = format!(in alloc; "ended {recall}")?;
    signalled_text(alloc, about, what.as_str())
}

/// Why a step was refused.
pub fn refusal_text(alloc: Global, sites: &Sites, why: &Refusal) -> Result<String, AllocError>
    ensures { IfOk result (λ t. string_bytes t ≡ refusal_text sites.now why.now) }
{
    match why {
        Refusal::Blocked {
            recall,
            item,
            event,
        } => blocked_text(alloc, sites, *recall, item, *event),
        Refusal::IdTaken { event } => format!(in alloc; "IdTaken event {event}"),
        Refusal::UnknownItem => format!(in alloc; "UnknownItem"),
        Refusal::NotMine => format!(in alloc; "NotMine"),
        Refusal::NumbersSpent => format!(in alloc; "NumbersSpent"),
        Refusal::Doc(fault) => doc_fault_text(alloc, fault),
        Refusal::NoMemory => format!(in alloc; "NoMemory"),
    }
}

fn blocked_text(
    alloc: Global,
    sites: &Sites,
    recall: RecallId,
    item: &Epc,
    event: u64,
) -> Result<String, AllocError>
    ensures { IfOk result (λ t. string_bytes t ≡ blocked_text sites.now recall item.now event) }
{
    let recall = recall_text(alloc, sites, recall)?;
    let recall = recall.as_str();
    let key = item.key(alloc)?;
    let mut text = format!(in alloc; "Blocked {recall} ")?;
    text.push_str(key.as_str())?;
    let place = format!(in alloc; " event {event}")?;
    text.push_str(place.as_str())?;
    Ok(text)
}

/// What is wrong with a document.
fn doc_fault_text(alloc: Global, fault: &DocFault) -> Result<String, AllocError>
    ensures { IfOk result (λ t. string_bytes t ≡ doc_fault_text fault.now) }
{
    fault_text(alloc, fault.kind.name(), fault.event, fault.field.name())
}

fn fault_text(alloc: Global, kind: &str, event: u64, field: &str) -> Result<String, AllocError>
    ensures { IfOk result (λ t. string_bytes t
        ≡ codes "Doc " ++ kind.now ++ codes " event " ++ decimal event ++ codes " field "
        ++ field.now) }
{
    let mut text = format!(in alloc; "Doc {kind} event {event}")?;
    text.push_str(" field ")?;
    text.push_str(field)?;
    Ok(text)
}

/// That a site stopped within its step.
pub fn stopped_text(alloc: Global, sites: &Sites, site: SiteNo) -> Result<String, AllocError>
    ensures { IfOk result (λ t. string_bytes t ≡ stopped_text sites.now site) }
{
    let name = name_of(sites, site);
    format!(in alloc; "stopped {name}\n")
}

/// How many pairs are quarantined under a recall, and whether it has ended.
pub(crate) fn quarantined_text(
    alloc: Global,
    count: usize,
    ended: bool,
) -> Result<String, AllocError>
    ensures { IfOk result (λ t. string_bytes t ≡ quarantined_text count ended) }
{
    let word = ended_word(ended);
    let text = format!(in alloc; "quarantined {count} {word}\n")?;
    Ok(text)
}

/// Each pair, a line for each.
pub(crate) fn pair_lines(alloc: Global, sites: &Sites, pairs: &[Pair]) -> Result<String, AllocError>
    ensures { IfOk result (λ t. string_bytes t ≡ each_pair sites.now pairs.now) }
{
    let mut text = String::new(alloc);
    for pair in pairs {
        push_pair(alloc, &mut text, sites, pair)?;
    }
    Ok(text)
}

/// Adds the line of a pair to a text. An `Err` leaves the text as it was.
pub fn push_pair(
    alloc: Global,
    text: &mut String,
    sites: &Sites,
    pair: &Pair,
) -> Result<(), AllocError>
    ensures ok { OnOk result (string_bytes text.new
        ≡ string_bytes text.old ++ pair_text sites.now pair.now) }
    ensures err { OnErr result (string_bytes text.new ≡ string_bytes text.old) }
{
    let name = name_of(sites, pair.site);
    let key = pair.item.key(alloc)?;
    let line = format!(in alloc; "pair {name} {key}\n")?;
    text.push_str(line.as_str())
}
