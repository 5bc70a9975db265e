//! What is found, in lines of words.

ghost use Rattle.std.specs.Prelude.{◌≡◌, ◌++◌, IfOk, OnOk, codes, string_bytes};
ghost use Rattle.document_lint.specs.Lines.{finding_text, lint_text, named, named_at, named_in, type_name, what_words};

use crate::findings::{Finding, Lint, SkippedType, What};
use event_json::DocField;
use std::alloc::{AllocError, Global};

impl SkippedType {
    /// The type by its name.
    pub fn name(self) -> &'static str
        ensures { result.now ≡ type_name self }
    {
        match self {
            SkippedType::Transaction => "TransactionEvent",
            SkippedType::Association => "AssociationEvent",
        }
    }
}

impl Lint {
    /// A line for each finding, with the document's source behind it, which is its file's path. Each ends with LF.
    ///
    /// # Errors
    /// Where memory runs out.
    pub fn text(&self, alloc: Global, source: &str) -> Result<String, AllocError>
        ensures { IfOk result (λ t. string_bytes t ≡ lint_text source.now self.now) }
    {
        let mut text = String::new(alloc);
        for finding in self.findings.as_slice() {
            push_finding(alloc, &mut text, source, finding)?;
        }
        Ok(text)
    }
}

/// Adds the line of a finding.
fn push_finding(
    alloc: Global,
    text: &mut String,
    source: &str,
    finding: &Finding,
) -> Result<(), AllocError>
    ensures { OnOk result (string_bytes text.new
        ≡ string_bytes text.old ++ finding_text source.now finding.now) }
{
    let words = what_words(alloc, finding.event, &finding.what)?;
    text.push_str(words.as_str())?;
    text.push_str(" ")?;
    text.push_str(source)?;
    text.push_str("\n")
}

/// The words of a finding, without the source.
fn what_words(alloc: Global, event: u64, what: &What) -> Result<String, AllocError>
    ensures { IfOk result (λ t. string_bytes t ≡ what_words event what.now) }
{
    match what {
        What::Fault { field, kind } => named_at(alloc, "fault", kind.name(), event, *field),
        What::Skipped(skipped) => {
            let words = named(alloc, "warn", "Skipped", event)?;
            with_word(words, skipped.name())
        }
        What::ShipsNowhere => named_at(
            alloc,
            "warn",
            "ShipsNowhere",
            event,
            DocField::DestinationList,
        ),
        What::Outside(place) => {
            let words = named_at(alloc, "warn", "Outside", event, DocField::DestinationList)?;
            with_word(words, place.as_str())
        }
        What::OtherSpelling { site, address } => {
            let words = named_at(
                alloc,
                "warn",
                "OtherSpelling",
                event,
                DocField::DestinationList,
            )?;
            with_word(with_word(words, address.as_str())?, site.as_str())
        }
        What::NotShipped => named_at(
            alloc,
            "warn",
            "NotShipped",
            event,
            DocField::DestinationList,
        ),
        What::NothingPacked => {
            named_at(alloc, "warn", "NothingPacked", event, DocField::ChildEpcs)
        }
        What::NoEventId => named(alloc, "warn", "NoEventID", event),
        What::NearMiss { field, text } => {
            let words = named_at(alloc, "warn", "NearMiss", event, *field)?;
            with_word(words, text.as_str())
        }
        What::OtherPlace { member, address } => {
            let words = named_in(alloc, "warn", "OtherPlace", event, member.name())?;
            with_word(words, address.as_str())
        }
    }
}

/// Words with one more behind them.
fn with_word(words: String, word: &str) -> Result<String, AllocError>
    ensures { IfOk result (λ t. string_bytes t ≡ string_bytes words ++ codes " " ++ word.now) }
{
    let mut words = words;
    words.push_str(" ")?;
    words.push_str(word)?;
    Ok(words)
}

/// What is found, by its name, and the event.
fn named(alloc: Global, level: &str, name: &str, event: u64) -> Result<String, AllocError>
    ensures { IfOk result (λ t. string_bytes t ≡ named level.now name.now event) }
{
    let mut words = format!(in alloc; "{level} {name}")?;
    let place = format!(in alloc; " event {event}")?;
    words.push_str(place.as_str())?;
    Ok(words)
}

/// And the field.
fn named_at(
    alloc: Global,
    level: &str,
    name: &str,
    event: u64,
    field: DocField,
) -> Result<String, AllocError>
    ensures { IfOk result (λ t. string_bytes t ≡ named_at level.now name.now event field) }
{
    named_in(alloc, level, name, event, field.name())
}

/// And a member of this name.
fn named_in(
    alloc: Global,
    level: &str,
    name: &str,
    event: u64,
    member: &str,
) -> Result<String, AllocError>
    ensures { IfOk result (λ t. string_bytes t ≡ named_in level.now name.now event member.now) }
{
    let mut words = named(alloc, level, name, event)?;
    words.push_str(" field ")?;
    words.push_str(member)?;
    Ok(words)
}
