//! The lots that an event's instance/lot master data names, with the units that they are the lots of.

ghost use Rattle.std.specs.Prelude.{◌≡◌, ◌*◌, [], ◌∷◌, ◌++◌, filter, length, nat_le, IfOk, OnOk, bytes_eq, codes, map, option_and_then, option_map, string_bytes, unwrap_or};
ghost use Rattle.serde_json.specs.Find.{as_array, as_str};
ghost use Rattle.std.specs.List.{filter_map, flat_map, list_all, list_any};
ghost use Rattle.serde_json.specs.View.{items_view, view};
ghost use Rattle.event_json.specs.Members.{member_named};
ghost use Rattle.epc_core.specs.Reading.{reading};
ghost use Rattle.epc_core.specs.Serials.{is_serial, is_serial_byte};
ghost use Rattle.document_convert.specs.SeenLots.{seen_lots, seen_units};
ghost use Rattle.document_convert.specs.UnitLots.{distinct_from, gtin_of, gtin_of_key, gtin_read, gtins_of, is_untied, lot_with, lots_numbered, named_by, named_in, numbers_named, text_or_texts, texts_in, texts_of, texts_with, unit_in, unit_lots, units_at, units_by, units_of, with_new};

use crate::lots::digits_text;
use crate::types::{member_named, type_text};
use epc_core::{Epc, EpcFault, EpcForm};
use item_spellings::lot_text;
use serde_json::Value;
use std::alloc::{AllocError, Global};

/// The most lot numbers that an event's master data may name, so that few bytes don't bring forth many events.
const MOST_NUMBERS: usize = 10;

/// The most units, each counted once for each lot: as many as a list of a document may have.
const MOST_UNITS: usize = 1000;

/// A unit of an event.
#[derive(Debug, Drop)]
struct Unit<'v> {
    /// The 14 digits of its GTIN.
    gtin: String,
    /// As the event names it.
    text: &'v str,
}

/// A lot of units of an event.
#[derive(Debug, Drop)]
pub(crate) struct UnitLot<'v> {
    /// By its one spelling.
    pub(crate) lot: String,
    /// The texts of its units.
    pub(crate) units: Vec<&'v str>,
}

/// Whether a lot number may have this character.
fn is_lot_byte(b: u8) -> bool
    ensures { result ≡ is_serial_byte b }
{
    b.is_ascii_uppercase()
        || b.is_ascii_lowercase()
        || b == b'_'
        || b == b'!'
        || b == b'"'
        || (b'%'..=b'?').contains(&b)
}

/// Whether a lot number may have each of these characters.
fn are_lot_bytes(bytes: &[u8]) -> bool
    ensures { result ≡ list_all is_serial_byte bytes.now }
{
    bytes.iter().all(|b| is_lot_byte(*b))
}

/// Whether a text is a lot number: 1 to 20 of the 82 characters of a serial number.
fn is_lot(text: &str) -> bool
    ensures { result ≡ is_serial text.now }
{
    text.len() >= 1 && text.len() <= 20 && are_lot_bytes(text.as_bytes())
}

/// Whether a text is one of these.
fn is_among(texts: &[&str], text: &str) -> bool
    ensures { result ≡ list_any (bytes_eq text.now) (map (λ t. t.now) texts.now) }
{
    for one in texts {
        if text == *one {
            return true;
        }
    }
    false
}

/// Adds a text to a list that doesn't have it yet.
fn push_new<'v>(texts: &mut Vec<&'v str>, text: &'v str) -> Result<(), AllocError>
    ensures { OnOk result
        (map (λ t. t.now) texts.new.items ≡ with_new (map (λ t. t.now) texts.old.items) text.now) }
{
    if is_among(texts.as_slice(), text) {
        return Ok(());
    }
    texts.push(text)?;
    Ok(())
}

/// Adds the texts of an array.
fn push_texts<'v>(texts: &mut Vec<&'v str>, list: &'v [Value]) -> Result<(), AllocError>
    ensures { OnOk result (map (λ t. t.now) texts.new.items
        ≡ map (λ t. t.now) texts.old.items ++ texts_in (items_view list.now)) }
{
    for value in list.iter() {
        if let Some(text) = value.as_str() {
            texts.push(text)?;
        }
    }
    Ok(())
}

/// Adds a text, or those of an array.
fn push_text_or_texts<'v>(texts: &mut Vec<&'v str>, value: &'v Value) -> Result<(), AllocError>
    ensures { OnOk result (map (λ t. t.now) texts.new.items
        ≡ map (λ t. t.now) texts.old.items ++ text_or_texts (as_str (view value.now)) (view value.now)) }
{
    if let Some(text) = value.as_str() {
        texts.push(text)?;
        return Ok(());
    }
    match value.as_array() {
        Some(list) => push_texts(texts, list.as_slice()),
        None => Ok(()),
    }
}

/// Adds what a member names.
fn push_member<'v>(texts: &mut Vec<&'v str>, ilmd: &'v Value, name: &str) -> Result<(), AllocError>
    ensures { OnOk result (map (λ t. t.now) texts.new.items
        ≡ map (λ t. t.now) texts.old.items ++ texts_of (member_named name.now (view ilmd.now))) }
{
    match member_named(ilmd, name) {
        Some(value) => push_text_or_texts(texts, value),
        None => Ok(()),
    }
}

/// What the lot numbers of master data name.
fn named_in(alloc: Global, ilmd: &Value) -> Result<Vec<&str>, AllocError>
    ensures { IfOk result (λ texts. map (λ t. t.now) texts.items ≡ named_in (view ilmd.now)) }
{
    let mut texts = Vec::new(alloc);
    push_member(&mut texts, ilmd, "cbvmda:lotNumber")?;
    push_member(&mut texts, ilmd, "lotNumber")?;
    push_member(&mut texts, ilmd, "urn:epcglobal:cbv:mda#lotNumber")?;
    Ok(texts)
}

/// What an event's master data names, where it has some.
fn named_by(alloc: Global, event: &Value) -> Result<Vec<&str>, AllocError>
    ensures { IfOk result (λ texts. map (λ t. t.now) texts.items
        ≡ named_by (member_named (codes "ilmd") (view event.now))) }
{
    match member_named(event, "ilmd") {
        Some(ilmd) => named_in(alloc, ilmd),
        None => Ok(Vec::new(alloc)),
    }
}

/// The lot numbers among these texts, in order.
fn numbers_among<'v>(alloc: Global, texts: &[&'v str]) -> Result<Vec<&'v str>, AllocError>
    ensures { IfOk result (λ numbers. map (λ t. t.now) numbers.items
        ≡ filter is_serial (map (λ t. t.now) texts.now)) }
{
    let mut numbers = Vec::new(alloc);
    for text in texts {
        if is_lot(text) {
            numbers.push(*text)?;
        }
    }
    Ok(numbers)
}

/// The lot numbers that an event's master data names, in order.
#[tactic(auto, unfolding(crate::specs::UnitLots::numbers_named))]
fn numbers_named(alloc: Global, event: &Value) -> Result<Vec<&str>, AllocError>
    ensures { IfOk result
        (λ numbers. map (λ t. t.now) numbers.items ≡ numbers_named (view event.now)) }
{
    let named = named_by(alloc, event)?;
    numbers_among(alloc, named.as_slice())
}

/// These texts, each once, in order.
fn each_once<'v>(alloc: Global, texts: &[&'v str]) -> Result<Vec<&'v str>, AllocError>
    ensures { IfOk result
        (λ lots. map (λ t. t.now) lots.items ≡ distinct_from [] (map (λ t. t.now) texts.now)) }
{
    let mut lots = Vec::new(alloc);
    for text in texts {
        push_new(&mut lots, text)?;
    }
    Ok(lots)
}

/// Whether these are at most so many lot numbers as may be named.
fn are_few(numbers: &[&str]) -> bool
    ensures { result ≡ nat_le (length (map (λ t. t.now) numbers.now)) 10 }
{
    numbers.len() <= MOST_NUMBERS
}

/// Whether so many units, each counted once for each lot, are no more than a list of a document may have.
fn have_few(lots: &[&str], units: &[Unit<'_>]) -> bool
    ensures { result
        ≡ nat_le (length (map (λ t. t.now) lots.now) * length (seen_units units.now)) 1000 }
{
    lots.len().saturating_mul(units.len()) <= MOST_UNITS
}

/// The GTIN of a unit.
fn gtin_of_unit(alloc: Global, unit: &Epc) -> Result<Option<String>, AllocError>
    ensures { IfOk result (λ gtin. option_map string_bytes gtin ≡ gtin_of_key unit.now) }
{
    match unit.form() {
        EpcForm::Item { gtin, .. } => Ok(Some(digits_text(alloc, gtin)?)),
        EpcForm::Sscc(_) => Ok(None),
        EpcForm::Other(_) => Ok(None),
    }
}

/// The GTIN of the unit that a text spells, `None` where it spells none.
#[tactic(auto, unfolding(crate::specs::UnitLots::gtin_of))]
fn gtin_of(alloc: Global, text: &str) -> Result<Option<String>, AllocError>
    ensures { IfOk result (λ gtin. option_map string_bytes gtin ≡ gtin_of text.now) }
{
    match Epc::read(alloc, text) {
        Ok(unit) => gtin_of_unit(alloc, &unit),
        Err(EpcFault::NoMemory) => Err(AllocError),
        Err(EpcFault::Empty | EpcFault::TooLong | EpcFault::BadByte(_)) => Ok(None),
    }
}

/// The texts of the array of a member.
fn texts_at<'v>(alloc: Global, event: &'v Value, name: &str) -> Result<Vec<&'v str>, AllocError>
    ensures { IfOk result (λ texts. map (λ t. t.now) texts.items ≡ unwrap_or (option_map texts_in
        (option_and_then as_array (member_named name.now (view event.now)))) []) }
{
    let mut texts = Vec::new(alloc);
    let Some(value) = member_named(event, name) else {
        return Ok(texts);
    };
    if let Some(list) = value.as_array() {
        push_texts(&mut texts, list.as_slice())?;
    }
    Ok(texts)
}

/// The units among these texts.
fn units_among<'v>(alloc: Global, texts: &[&'v str]) -> Result<Vec<Unit<'v>>, AllocError>
    ensures { IfOk result (λ units. seen_units units.items
        ≡ filter_map unit_in (map (λ t. t.now) texts.now)) }
{
    let mut units = Vec::new(alloc);
    for text in texts {
        if let Some(gtin) = gtin_of(alloc, text)? {
            units.push(Unit { gtin, text })?;
        }
    }
    Ok(units)
}

/// The units in the array of a member.
fn units_at<'v>(alloc: Global, event: &'v Value, name: &str) -> Result<Vec<Unit<'v>>, AllocError>
    ensures { IfOk result (λ units. seen_units units.items
        ≡ units_at name.now (view event.now)) }
{
    let texts = texts_at(alloc, event, name)?;
    units_among(alloc, texts.as_slice())
}

/// The units of which an event tells the lot.
fn units_of(alloc: Global, event: &Value) -> Result<Vec<Unit<'_>>, AllocError>
    ensures { IfOk result (λ units. seen_units units.items
        ≡ units_of (view event.now)) }
{
    match type_text(event) {
        Some("ObjectEvent") => units_at(alloc, event, "epcList"),
        Some("TransformationEvent") => units_at(alloc, event, "outputEPCList"),
        _ => Ok(Vec::new(alloc)),
    }
}

/// The GTINs of units, in the order in which they first come.
fn gtins_of<'u>(alloc: Global, units: &'u [Unit<'_>]) -> Result<Vec<&'u str>, AllocError>
    ensures { IfOk result (λ gtins. map (λ t. t.now) gtins.items
        ≡ gtins_of (seen_units units.now)) }
{
    let mut gtins = Vec::new(alloc);
    for unit in units.iter() {
        push_new(&mut gtins, unit.gtin.as_str())?;
    }
    Ok(gtins)
}

/// The texts of the units with this GTIN.
fn texts_with<'v>(alloc: Global, units: &[Unit<'v>], gtin: &str) -> Result<Vec<&'v str>, AllocError>
    ensures { IfOk result (λ texts. map (λ t. t.now) texts.items
        ≡ texts_with (seen_units units.now) gtin.now) }
{
    let mut texts = Vec::new(alloc);
    for unit in units.iter() {
        if unit.gtin.as_str() == gtin {
            texts.push(unit.text)?;
        }
    }
    Ok(texts)
}

/// Adds the lot of this number and GTIN.
fn push_lot<'v>(
    alloc: Global,
    lots: &mut Vec<UnitLot<'v>>,
    units: &[Unit<'v>],
    number: &str,
    gtin: &str,
) -> Result<(), AllocError>
    ensures { OnOk result (seen_lots lots.new.items ≡ seen_lots lots.old.items
        ++ lot_with (seen_units units.now) number.now gtin.now ∷ []) }
{
    let lot = lot_text(alloc, gtin, number.as_bytes())?;
    let units = texts_with(alloc, units, gtin)?;
    lots.push(UnitLot { lot, units })?;
    Ok(())
}

/// Adds the lots of this number, one for each GTIN.
fn push_numbered<'v>(
    alloc: Global,
    lots: &mut Vec<UnitLot<'v>>,
    units: &[Unit<'v>],
    gtins: &[&str],
    number: &str,
) -> Result<(), AllocError>
    requires { map (λ t. t.now) gtins.now
        ≡ gtins_of (seen_units units.now) }
    ensures { OnOk result (seen_lots lots.new.items ≡ seen_lots lots.old.items
        ++ lots_numbered (seen_units units.now) number.now) }
{
    for gtin in gtins {
        push_lot(alloc, lots, units, number, gtin)?;
    }
    Ok(())
}

/// The lots of units that have these numbers, each for each GTIN.
fn lots_of_units<'v>(
    alloc: Global,
    units: &[Unit<'v>],
    numbers: &[&str],
) -> Result<Vec<UnitLot<'v>>, AllocError>
    ensures { IfOk result (λ lots. seen_lots lots.items
        ≡ flat_map (lots_numbered (seen_units units.now)) (map (λ t. t.now) numbers.now)) }
{
    let mut lots = Vec::new(alloc);
    let gtins = gtins_of(alloc, units)?;
    for number in numbers {
        push_numbered(alloc, &mut lots, units, gtins.as_slice(), number)?;
    }
    Ok(lots)
}

/// The lots of an event's units: each that its master data names, for each GTIN; none where they are more than
/// [`MOST_NUMBERS`], or the units more than [`MOST_UNITS`].
pub(crate) fn unit_lots(alloc: Global, event: &Value) -> Result<Vec<UnitLot<'_>>, AllocError>
    ensures { IfOk result (λ lots. seen_lots lots.items ≡ unit_lots (view event.now)) }
{
    let numbers = numbers_named(alloc, event)?;
    // Most events name none: their units aren't read.
    if numbers.is_empty() || !are_few(numbers.as_slice()) {
        return Ok(Vec::new(alloc));
    }
    let lots = each_once(alloc, numbers.as_slice())?;
    let units = units_of(alloc, event)?;
    if have_few(lots.as_slice(), units.as_slice()) {
        lots_of_units(alloc, units.as_slice(), lots.as_slice())
    } else {
        Ok(Vec::new(alloc))
    }
}

/// Whether an event has units, and more lots of these than are tied to them.
pub(crate) fn is_untied(alloc: Global, event: &Value) -> Result<bool, AllocError>
    ensures { IfOk result (λ untied. untied ≡ is_untied (view event.now)) }
{
    let numbers = numbers_named(alloc, event)?;
    if numbers.is_empty() {
        return Ok(false);
    }
    let units = units_of(alloc, event)?;
    if !are_few(numbers.as_slice()) {
        return Ok(!units.is_empty());
    }
    let lots = each_once(alloc, numbers.as_slice())?;
    Ok(!have_few(lots.as_slice(), units.as_slice()))
}
