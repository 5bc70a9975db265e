//! A line of comma-separated fields, with those in quotes that have to be, and those guarded that look like formulas.

ghost use Rattle.std.specs.Prelude.{◌≡◌, ◌++◌, ◌<◌, [], ◌∷◌, OnOk, length, map, string_bytes};
ghost use Rattle.std.specs.List.{list_any};
ghost use Rattle.csv.specs.Writing.{default_writer, escaped, needs_byte, needs_quotes, quoted};
ghost use Rattle.report_forms.specs.Csv.{cell, cell_line, csv_field, is_formula};

use crate::replaced::push_replaced;
use std::alloc::AllocError;

/// Adds a line of a field, others, those of the evidence, and a last one.
#[tactic(auto, unfolding(crate::specs::Csv::cell_line, crate::specs::Csv::csv_line))]
pub(crate) fn push_line(
    text: &mut String,
    first: &str,
    rest: &[&str],
    evidence: &[&str],
    last: &str,
    guard: bool,
) -> Result<(), AllocError>
    ensures { OnOk result (string_bytes text.new ≡ string_bytes text.old ++ cell_line guard
        (first.now ∷ (map (λ f. f.now) rest.now
        ++ (map (λ f. f.now) evidence.now ++ last.now ∷ [])))) }
{
    push_field(text, first, guard)?;
    for field in rest {
        text.push(',')?;
        push_field(text, field, guard)?;
    }
    for field in evidence {
        text.push(',')?;
        push_field(text, field, guard)?;
    }
    text.push(',')?;
    push_field(text, last, guard)?;
    text.push_str("\r\n")
}

/// Adds a field; with `guard` behind an apostrophe, where a spreadsheet might take it for a formula.
fn push_field(text: &mut String, field: &str, guard: bool) -> Result<(), AllocError>
    ensures { OnOk result (string_bytes text.new
        ≡ string_bytes text.old ++ csv_field (cell guard field.now)) }
{
    if is_formula(field) && guard {
        push_guarded(text, field)
    } else {
        push_plain(text, field)
    }
}

/// Adds a field behind an apostrophe, in quotes where it has a quote, a comma or a line's end.
#[tactic(auto, unfolding(crate::specs::Csv::csv_field))]
fn push_guarded(text: &mut String, field: &str) -> Result<(), AllocError>
    ensures { OnOk result (string_bytes text.new
        ≡ string_bytes text.old ++ csv_field (39 ∷ field.now)) }
{
    if needs_quotes(field) {
        text.push_str("\"'")?;
        push_doubled(text, field)?;
        text.push('"')
    } else {
        text.push('\'')?;
        text.push_str(field)
    }
}

/// Adds a field, in quotes where it has a quote, a comma or a line's end.
#[tactic(auto, unfolding(crate::specs::Csv::csv_field))]
fn push_plain(text: &mut String, field: &str) -> Result<(), AllocError>
    ensures { OnOk result (string_bytes text.new ≡ string_bytes text.old ++ csv_field field.now) }
{
    if needs_quotes(field) {
        push_quoted(text, field)
    } else {
        text.push_str(field)
    }
}

/// Whether a spreadsheet might take a field for a formula.
fn is_formula(field: &str) -> bool
    ensures { result ≡ is_formula field.now }
{
    match field.as_bytes().first() {
        Some(byte) => matches!(*byte, b'=' | b'+' | b'-' | b'@' | b'\t' | b'\r'),
        None => false,
    }
}

/// Adds a field in quotes, with each quote in it doubled.
fn push_quoted(text: &mut String, field: &str) -> Result<(), AllocError>
    ensures { OnOk result (string_bytes text.new
        ≡ string_bytes text.old ++ quoted default_writer field.now) }
{
    text.push('"')?;
    push_doubled(text, field)?;
    text.push('"')
}

/// Adds a text with each quote doubled.
#[tactic(auto, using(crate::proofs::Replacing::doubled))]
fn push_doubled(text: &mut String, field: &str) -> Result<(), AllocError>
    ensures { OnOk result (string_bytes text.new
        ≡ string_bytes text.old ++ escaped default_writer field.now) }
{
    push_replaced(text, field, '"', "\"\"")
}

/// Whether a field has to stand in quotes.
fn needs_quotes(field: &str) -> bool
    ensures { result ≡ needs_quotes default_writer field.now }
{
    field.as_bytes().iter().any(|byte| needs_byte(*byte))
}

/// Whether a byte of a field calls for quotes.
fn needs_byte(byte: u8) -> bool
    ensures { result ≡ needs_byte default_writer byte }
{
    byte == b',' || byte == b'"' || byte == b'\r' || byte == b'\n'
}
