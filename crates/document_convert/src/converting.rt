//! A text as it is found, turned into lines of documents that are captured.

ghost use Rattle.std.specs.Prelude.{
  ◌≡◌,
  ◌≤◌,
  ℕ,
  List,
  [],
  ◌∷◌,
  ◌++◌,
  Some,
  Ok,
  Err,
  IfOk,
  OnOk,
  map,
  option_map,
  string_bytes,
};
ghost use Rattle.std.specs.List.{enumerate_from};
ghost use Rattle.event_json.specs.Sites.{Site};
ghost use Rattle.serde_json.specs.Data.{Data};
ghost use Rattle.serde_json.specs.View.{view};
ghost use Rattle.document_convert.specs.Accounts.{with_lines};
ghost use Rattle.document_convert.specs.Converted.{
  AreConverted,
  AreLinesOf,
  IsConverted,
  IsLineOf,
};
ghost use Rattle.document_convert.specs.Texts.{
  Piece,
  begins,
  by_lines,
  first_number,
  line_pieces,
  lines_of,
  no_document,
  no_value,
  piece_of,
  pieces_at,
};

use crate::accounts::{
    Account, Counts, errors_of, event_count, links_of, parted_of, places_of, quantities, untied_of,
};
use crate::asked::{kept_if, linked_if, lotted_if, parts_if, placed_if};
use crate::documents::documents_in;
use crate::light_parts::is_light_document;
use crate::placed::Question;
use crate::texts::{is_blank, lines_of, unmarked, value_of};
use event_json::{DocFault, DocFaultKind, DocField, Sites};
use serde_json::Value;
use std::alloc::{AllocError, Global};

/// What is done with documents beside finding them.
#[derive(Clone, Copy, Debug, PartialEq, Eq)]
pub struct Conversion {
    /// Lots stand among the items, as [`document_with_lots`](crate::document_with_lots) has it.
    pub lots: bool,
    /// Units are links, as [`document_with_links`](crate::document_with_links) has it.
    pub links: bool,
    /// Events that were declared to be errors are kept as if they weren't, as
    /// [`document_with_errors_kept`](crate::document_with_errors_kept) has it.
    pub errors: bool,
    /// Destinations are addresses of the sites that are given, as
    /// [`document_with_places`](crate::document_with_places) has it.
    pub places: bool,
}

/// What stands in a text in the place of a document, and is none.
#[derive(Clone, Copy, Debug, PartialEq, Eq)]
pub struct Refused {
    /// The number of its line, from 1, or 0 where the text is one value, or none.
    pub line: u64,
    /// `Syntax` or `NotDocument`, with its number in its array, from 1, or 0.
    pub fault: DocFault,
}

/// What comes of a text.
#[derive(Debug, Drop)]
pub struct Converted {
    /// Its documents, one a line, each with its line feed.
    pub lines: String,
    /// What is no document, in order.
    pub refused: Vec<Refused>,
    pub account: Account,
}

/// Turns a text as it is found into documents that are captured, one a line: each as
/// [`document_in`](crate::document_in) finds it, and where it is asked for with the events that were declared to be
/// errors, as [`document_with_errors_kept`](crate::document_with_errors_kept) has it, then with its units as links, as
/// [`document_with_links`](crate::document_with_links) has it, then with its destinations as addresses of these sites,
/// as [`document_with_places`](crate::document_with_places) has it, and then with its lots, as
/// [`document_with_lots`](crate::document_with_lots) has it; and then in the documents of which a capture takes the
/// lists, as [`in_parts`](crate::in_parts) has it.
///
/// The sites are only looked at where places are asked for; the list may be empty.
///
/// A document of which the parts would repeat much stays as it is: one with an event that has parts, where what stands
/// beside its long lists weighs over 10,000, or where it is a transformation without an identifier that has over 10
/// parts; and one that becomes several, where what stands beside its body weighs over 10,000. A weight is the bytes of
/// the texts and of the members' names, and one for each value.
///
/// The text is one JSON value, or else has one in each line, where its first line that isn't blank is one; a byte order
/// mark may stand before it. A value is a document, or an array of some. What is none of this is refused, and keeps out
/// no other: `Syntax` of a line, or of the text, that is no JSON in UTF-8, `NotDocument` of a value.
///
/// A line is the document's value, with members in the order of their names and without spaces. It is read back as this
/// value where that nests at most 127 deep, as a capture reads it.
///
/// # Errors
/// Where memory runs out.
pub fn convert(
    alloc: Global,
    text: &[u8],
    ways: Conversion,
    sites: &Sites,
) -> Result<Converted, AllocError>
    // The lines are those of the documents of the text, in order, and nothing else: one for each, or one for each 1,000
    // events of one with more, where an event with a list of more than 1,000 items counts as its parts. One whose parts
    // would repeat much is one line as it is: where what stands beside a long list, or beside the body of what becomes
    // several documents, weighs over 10,000, or a transformation without an identifier has over 10 parts. The text is
    // one value, or has one in each line that isn't blank, where the first of them is one. A line is JSON without a
    // space, and is read back as its document's value. What is no document is told, in order, by its line and its place
    // in its array.
    // Where that is asked for, an event that was declared to be an error is there without its declaration, and a
    // destination of an ObjectEvent that names the place of a listed site is there as an address of this site.
    // It is counted how many documents and events were written, of how many events units became links, how many
    // quantities became lots, how many events were derived, how many have too many lots for that, how many became
    // parts, of how many the declaration went, of how many a destination became an address, how many have one that
    // names the GLN of several sites, and how many still have quantities.
    // Not covered: a document that nests more than 127 deep isn't read back; a capture refuses one with long lists that
    // stays as it is; how the account is printed, and added up over several texts.
    ensures { IfOk result (IsConverted ways sites.now text.now) }
{
    let text = unmarked(text);
    match value_of(alloc, text)? {
        Some(value) => {
            let mut converted = Converted::new(alloc);
            converted.push_value(alloc, 0, value, ways, sites)?;
            Ok(converted)
        }
        None => by_lines(alloc, text, ways, sites),
    }
}

/// What comes of a text that isn't one value.
fn by_lines(
    alloc: Global,
    text: &[u8],
    ways: Conversion,
    sites: &Sites,
) -> Result<Converted, AllocError>
    ensures { IfOk result (AreConverted ways sites.now (by_lines (lines_of text.now))) }
{
    let lines = lines_of(alloc, text)?;
    let lines = lines.as_slice();
    let mut converted = Converted::new(alloc);
    if !begins(alloc, lines)? {
        converted.push_refused(no_value(0))?;
        return Ok(converted);
    }
    for (place, line) in lines.iter().enumerate() {
        converted.push_line(alloc, place as u64 + 1, line, ways, sites)?;
    }
    Ok(converted)
}

/// Whether the first line that isn't blank is a value.
fn begins(alloc: Global, lines: &[&[u8]]) -> Result<bool, AllocError>
    ensures { IfOk result (λ yes. yes ≡ begins (map (λ l. l.now) lines.now)) }
{
    for line in lines {
        if !is_blank(line) {
            return Ok(value_of(alloc, line)?.is_some());
        }
    }
    Ok(false)
}

/// What is no value.
fn no_value(line: u64) -> Refused
    ensures { result ≡ no_value line }
{
    let fault = DocFault {
        event: 0,
        field: DocField::Document,
        kind: DocFaultKind::Syntax,
    };
    Refused { line, fault }
}

/// A value that is no document.
fn no_document(line: u64, number: u64) -> Refused
    ensures { result ≡ no_document line number }
{
    let fault = DocFault {
        event: number,
        field: DocField::Document,
        kind: DocFaultKind::NotDocument,
    };
    Refused { line, fault }
}

impl Converted {
    /// Nothing yet.
    fn new(alloc: Global) -> Converted
        ensures { (ways : Conversion) (sites : List Site) → AreConverted ways sites [] result }
    {
        Converted {
            lines: String::new(alloc),
            refused: Vec::new(alloc),
            account: Account::new(),
        }
    }

    /// Adds what stands in a line.
    fn push_line(
        &mut self,
        alloc: Global,
        number: u64,
        line: &[u8],
        ways: Conversion,
        sites: &Sites,
    ) -> Result<(), AllocError>
        ensures { OnOk result ((pieces : List Piece) → AreConverted ways sites.now pieces self.old
            → AreConverted ways sites.now (pieces ++ line_pieces number line.now) self.new) }
    {
        if is_blank(line) {
            return Ok(());
        }
        match value_of(alloc, line)? {
            Some(value) => self.push_value(alloc, number, value, ways, sites),
            None => self.push_refused(no_value(number)),
        }
    }

    /// Adds the documents of the value in a line.
    fn push_value(
        &mut self,
        alloc: Global,
        line: u64,
        value: Value,
        ways: Conversion,
        sites: &Sites,
    ) -> Result<(), AllocError>
        ensures { OnOk result ((pieces : List Piece) → AreConverted ways sites.now pieces self.old
            → AreConverted ways sites.now (pieces ++ pieces_at line (Some (view value)))
            self.new) }
    {
        let first = first_number(&value);
        let documents = documents_in(alloc, value)?;
        self.push_all(alloc, line, first, documents, ways, sites)
    }

    /// Adds the documents of a value, of which the first has this number.
    fn push_all(
        &mut self,
        alloc: Global,
        line: u64,
        first: u64,
        documents: Vec<Option<Value>>,
        ways: Conversion,
        sites: &Sites,
    ) -> Result<(), AllocError>
        requires { first ≤ 1 }
        ensures { OnOk result ((pieces : List Piece) → AreConverted ways sites.now pieces self.old
            → AreConverted ways sites.now (pieces ++ map (piece_of line) (enumerate_from first
            (map (option_map view) documents.items))) self.new) }
    {
        let mut number = first;
        for document in documents {
            self.push(alloc, line, number, document, ways, sites)?;
            number += 1;
        }
        Ok(())
    }

    /// Adds a document, or that there is none at this number of its array.
    fn push(
        &mut self,
        alloc: Global,
        line: u64,
        number: u64,
        document: Option<Value>,
        ways: Conversion,
        sites: &Sites,
    ) -> Result<(), AllocError>
        ensures { OnOk result ((pieces : List Piece) → AreConverted ways sites.now pieces self.old
            → AreConverted ways sites.now
            (pieces ++ piece_of line (number, option_map view document) ∷ []) self.new) }
    {
        match document {
            Some(document) => self.push_document(alloc, document, ways, sites),
            None => self.push_refused(no_document(line, number)),
        }
    }

    /// Adds what is no document.
    fn push_refused(&mut self, refused: Refused) -> Result<(), AllocError>
        ensures { OnOk result ((ways : Conversion) (sites : List Site) (pieces : List Piece)
            → AreConverted ways sites pieces self.old
            → AreConverted ways sites (pieces ++ Err refused ∷ []) self.new) }
    {
        self.refused.push(refused)?;
        Ok(())
    }

    /// Adds a document.
    fn push_document(
        &mut self,
        alloc: Global,
        document: Value,
        ways: Conversion,
        sites: &Sites,
    ) -> Result<(), AllocError>
        ensures { OnOk result ((pieces : List Piece) → AreConverted ways sites.now pieces self.old
            → AreConverted ways sites.now (pieces ++ Ok (view document) ∷ []) self.new) }
    {
        let (had, came) = (quantities(&document), event_count(&document));
        let errors = errors_of(&document, ways.errors);
        let kept = kept_if(alloc, document, ways.errors)?;
        let links = links_of(alloc, &kept, ways.links)?;
        let linked = linked_if(alloc, kept, ways.links)?;
        let places = places_of(alloc, sites, Question::Otherwise, &linked, ways.places)?;
        let places_of_several = places_of(alloc, sites, Question::Several, &linked, ways.places)?;
        let placed = placed_if(alloc, linked, sites, ways.places)?;
        let untied = untied_of(alloc, &placed, ways.lots)?;
        let asked = lotted_if(alloc, placed, ways.lots)?;
        let light = is_light_document(alloc, &asked)?;
        let counts = Counts {
            had,
            came,
            errors,
            links,
            places,
            places_of_several,
            untied,
            parted: parted_of(&asked, light),
        };
        self.account = self.account.with(counts, &asked);
        let documents = parts_if(alloc, asked, light)?;
        self.push_lines(alloc, documents)?;
        Ok(())
    }

    /// Adds a line for each of these documents.
    fn push_lines(&mut self, alloc: Global, documents: Vec<Value>) -> Result<(), AllocError>
        ensures lines { OnOk result ((ds : List Data) → AreLinesOf ds (string_bytes self.old.lines)
            → AreLinesOf (ds ++ map view documents.items) (string_bytes self.new.lines)) }
        ensures refused { OnOk result (self.new.refused ≡ self.old.refused) }
        ensures account { OnOk result
            (self.new.account ≡ with_lines self.old.account (map view documents.items)) }
    {
        for document in documents {
            push_text(alloc, &mut self.lines, &document)?;
            self.account = self.account.with_line(&document);
        }
        Ok(())
    }
}

/// Adds the line of a document.
fn push_text(alloc: Global, lines: &mut String, document: &Value) -> Result<(), AllocError>
    ensures { OnOk result ((line : List ℕ) × IsLineOf (view document.now) line
        × (string_bytes lines.new ≡ string_bytes lines.old ++ line)) }
{
    let text = document.to_string(alloc)?;
    lines.push_str(text.as_str())?;
    lines.push('\n')
}

/// The number of the first document of a value in its array, or 0 where it is none.
fn first_number(value: &Value) -> u64
    ensures small { result ≤ 1 }
    ensures number { result ≡ first_number (view value.now) }
{
    if value.is_array() { 1 } else { 0 }
}
