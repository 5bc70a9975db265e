//! The words of a batch, and the inputs that they give.

ghost use Rattle.std.specs.Prelude.{◌≡◌, [], ◌∷◌, List, IfErr, IfOk, map};
ghost use Rattle.site_folders.specs.FileCalls.{Led};
ghost use Rattle.folder_commands.specs.Inputs.{Input, input_of};
ghost use Rattle.folder_commands.specs.Words.{FailsToRead, ReadsWord, is_blank, line_bytes, of_events, of_file, of_lines, of_word, task_of};

use crate::inputs::{Doing, Given};
use document_lint::{Split, split_document};
use item_spellings::Spelling;
use keeper_core::SiteKeeper;
use recall_outcomes::{Fault, Task};
use site_folders::Files;
use std::alloc::{AllocError, Global};

/// What each word of a batch is.
#[derive(Clone, Copy, Debug, PartialEq, Eq)]
pub enum WordKind {
    /// The path of a file that is one document.
    Document,
    /// The path of a file of which each line is a document, but for blank ones.
    DocumentLines,
    /// The path of a file that is one document, of which each event is taken on its own.
    DocumentEvents,
    /// An EPC, in this spelling.
    Epc(Spelling),
    /// The path of a file of which each line is an EPC in this spelling, but for blank ones. Spaces at its end are no
    /// part of it.
    EpcLines(Spelling),
}

/// The inputs of a site: those of these words, in order.
#[derive(Debug, Drop)]
pub struct Batch<'a> {
    pub words: &'a [&'a str],
    /// What each of the words is.
    pub kind: WordKind,
}

/// What is done with the words of this kind.
pub fn task_of(kind: WordKind) -> Task
    ensures { result ≡ task_of kind }
{
    match kind {
        WordKind::Document => Task::Capture,
        WordKind::DocumentLines => Task::Capture,
        WordKind::DocumentEvents => Task::Capture,
        WordKind::Epc(_) => Task::Start,
        WordKind::EpcLines(_) => Task::Start,
    }
}

/// The document that a file is.
pub(crate) fn read_document<K: SiteKeeper, F: Files<K>>(
    alloc: Global,
    files: &mut F,
    path: &str,
) -> Result<Vec<Given>, Fault>
    ensures read { IfOk result (λ all. Led F.does files.old files.new
        (ReadsWord WordKind.Document path.now (map input_of all.items))) }
    ensures failed { IfErr result (λ fault.
        Led F.does files.old files.new (FailsToRead path.now fault)) }
{
    let bytes = files.read(alloc, path)?;
    Ok(one_input(alloc, Doing::Capture, path, bytes)?)
}

/// The documents of the events of the document that a file is; or the file, where it has no list of events.
pub(crate) fn read_events<K: SiteKeeper, F: Files<K>>(
    alloc: Global,
    files: &mut F,
    path: &str,
) -> Result<Vec<Given>, Fault>
    ensures read { IfOk result (λ all. Led F.does files.old files.new
        (ReadsWord WordKind.DocumentEvents path.now (map input_of all.items))) }
    ensures failed { IfErr result (λ fault.
        Led F.does files.old files.new (FailsToRead path.now fault)) }
{
    let bytes = files.read(alloc, path)?;
    let split = split_document(alloc, bytes)?;
    match split {
        Split::Events(documents) => Ok(event_inputs(alloc, path, documents)?),
        Split::Unlisted(bytes) => Ok(one_input(alloc, Doing::Capture, path, bytes)?),
    }
}

/// The input of these bytes alone.
fn one_input(
    alloc: Global,
    doing: Doing,
    source: &str,
    bytes: Vec<u8>,
) -> Result<Vec<Given>, AllocError>
    ensures { IfOk result (λ all. map input_of all.items
        ≡ record { doing = doing; source = source.now; bytes = bytes.items } ∷ []) }
{
    let source = String::from_str(alloc, source)?;
    let mut all = Vec::new(alloc);
    all.push(Given {
        doing,
        source,
        bytes,
    })?;
    Ok(all)
}

/// The documents of a file's events.
fn event_inputs(
    alloc: Global,
    path: &str,
    documents: Vec<Vec<u8>>,
) -> Result<Vec<Given>, AllocError>
    ensures { IfOk result (λ all. map input_of all.items
        ≡ of_events path.now 1 (map (λ d. d.items) documents.items)) }
{
    let mut all = Vec::new(alloc);
    let mut number: usize = 0;
    for bytes in documents {
        number += 1;
        let source = format!(in alloc; "{path} event {number}")?;
        all.push(Given {
            doing: Doing::Capture,
            source,
            bytes,
        })?;
    }
    Ok(all)
}

/// The EPC that a word is.
pub(crate) fn word_input(alloc: Global, doing: Doing, text: &str) -> Result<Vec<Given>, AllocError>
    ensures { IfOk result (λ all. map input_of all.items ≡ of_word doing text.now ∷ []) }
{
    let bytes = String::from_str(alloc, text)?.into_bytes();
    one_input(alloc, doing, text, bytes)
}

/// The input of a line of a file, if it isn't blank.
pub(crate) fn line_input(
    alloc: Global,
    doing: Doing,
    path: &str,
    number: u64,
    line: Vec<u8>,
) -> Result<Vec<Given>, AllocError>
    ensures { IfOk result (λ all. map input_of all.items
        ≡ of_lines doing path.now number (line.items ∷ [])) }
{
    if is_blank(line.as_slice()) {
        return Ok(Vec::new(alloc));
    }
    let source = format!(in alloc; "{path}:{number}")?;
    one_input(alloc, doing, source.as_str(), line_bytes(doing, line))
}

/// Whether a line has no input: spaces, tabs and carriage returns alone.
fn is_blank(line: &[u8]) -> bool
    ensures { result ≡ is_blank line.now }
{
    line.iter()
        .all(|code| *code == b' ' || *code == b'\t' || *code == b'\r')
}

/// What of a line is the input: of an EPC without the spaces at its end.
#[tactic(auto, using(std::proofs::lemmas::Str::Ascii::trim_ascii_end_is))]
fn line_bytes(doing: Doing, line: Vec<u8>) -> Vec<u8>
    ensures { result.items ≡ line_bytes doing line.items }
{
    match doing {
        Doing::Capture => line,
        Doing::Start(_) => {
            let mut line = line;
            let length = line.as_slice().trim_ascii_end().len();
            line.truncate(length);
            line
        }
    }
}
