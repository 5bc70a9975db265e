//! The numbers of an item: of a trade item, of a logistic unit, of a lot.

ghost use Rattle.std.specs.Prelude.{◌≡◌, [], IfOk, codes, option_map, string_bytes};
ghost use Rattle.std.specs.Option.{option_map_or};
ghost use Rattle.epc_core.specs.Items.{behind, parted};
ghost use Rattle.item_spellings.specs.LotParts.{lot_parts_of};
ghost use Rattle.report_forms.specs.Csv.{gtin_of, lot_of, serial_of, sscc_of, trade_numbers};

use epc_core::Epc;
use item_spellings::{lot_number, lot_parts_of};
use std::alloc::{AllocError, Global};

/// The GTIN of a trade item or of a lot, by the item and its key; empty of any other item.
pub(crate) fn gtin_of<'a>(item: &'a Epc, key: &'a str) -> &'a str
    requires { key.now ≡ item.now }
    ensures { result.now ≡ gtin_of item.now }
{
    match trade_numbers(key) {
        Some((gtin, _)) => gtin,
        None => gtin_of_lot(item),
    }
}

/// The GTIN of a lot; empty of any other item.
fn gtin_of_lot(item: &Epc) -> &str
    ensures { result.now ≡ option_map_or (λ parts. parts.0) (lot_parts_of item.now) [] }
{
    match lot_parts_of(item) {
        Some((gtin, _)) => gtin,
        None => "",
    }
}

/// The serial number of a trade item, by its key; empty of any other item.
pub(crate) fn serial_of(key: &str) -> &str
    ensures { result.now ≡ serial_of key.now }
{
    match trade_numbers(key) {
        Some((_, serial)) => serial,
        None => "",
    }
}

/// The SSCC of a logistic unit, by its key; empty of any other item.
pub(crate) fn sscc_of(key: &str) -> &str
    ensures { result.now ≡ sscc_of key.now }
{
    match key.strip_prefix("sscc ") {
        None => "",
        Some(digits) => digits,
    }
}

/// The number of a lot, with its escapes decoded as `item_spellings::lot_number` has it; empty of any other item.
pub(crate) fn lot_of(alloc: Global, item: &Epc) -> Result<String, AllocError>
    ensures { IfOk result (λ t. string_bytes t ≡ lot_of item.now) }
{
    match lot_parts_of(item) {
        Some((_, number)) => lot_number(alloc, number),
        None => Ok(String::new(alloc)),
    }
}

/// The GTIN and the serial number of a trade item, by its key.
fn trade_numbers(key: &str) -> Option<(&str, &str)>
    ensures { option_map (λ p. (p.0.now, p.1.now)) result ≡ trade_numbers key.now }
{
    parted(behind_kind(key)?)
}

/// What is behind the kind of a trade item's key.
fn behind_kind(key: &str) -> Option<&str>
    ensures { option_map (λ t. t.now) result ≡ behind (codes "sgtin ") key.now }
{
    key.strip_prefix("sgtin ")
}

/// What is before the first space of a text, and what is behind it.
fn parted(numbers: &str) -> Option<(&str, &str)>
    ensures { option_map (λ p. (p.0.now, p.1.now)) result ≡ parted 32 numbers.now }
{
    numbers.split_once(' ')
}
