//! A report and a trace as rows of comma-separated fields, for a spreadsheet.

ghost use Rattle.std.specs.Prelude.{◌≡◌, ◌++◌, [], ◌∷◌, Bool, IfOk, OnOk, codes, map, option_map, string_bytes};
ghost use Rattle.std.specs.List.{flat_map};
ghost use Rattle.csv.specs.Reading.{default_config, records};
ghost use Rattle.report_forms.specs.Accounts.{outside_part_of, part_of};
ghost use Rattle.report_forms.specs.Csv.{account_rows, columns, columns_of, cell_line, cell_lines, item_beside, kind_of, name_beside, origin_row, outside_row, part_row, recall_field, row_of, serial_of, sscc_of, table_rows};

use crate::accounts::{Account, OutsidePart, Part, Title};
use crate::csv_cells::push_line;
use crate::evidence::{carrier_of, event_beside, event_outside, id_of, if_told, time_of};
use crate::item_numbers::{gtin_of, lot_of, serial_of, sscc_of};
use epc_core::Epc;
use event_json::{SiteNo, Sites};
use recall_text::telling::{name_of, recall_text};
use std::alloc::{AllocError, Global};
use trace_core::Pair;

/// A report or a trace as rows, in which a reader of RFC 4180 finds just these: a first one of the columns' names, one
/// for each pair, and one for each shipment out of the traced sites, or for each pair that no pair is related to. The
/// last field is the number of a lot, empty of any other item. Where the events are told, the three before it tell that
/// of the row's step or shipment.
///
/// With `guard` a field that a spreadsheet might take for a formula has an apostrophe before it, and any other is as it
/// was.
pub fn csv_table(
    alloc: Global,
    sites: &Sites,
    account: &Account<'_>,
    guard: bool,
) -> Result<String, AllocError>
    // Not covered: what a spreadsheet makes of a field.
    ensures { IfOk result (λ t. records default_config (string_bytes t)
        ≡ table_rows guard (account_rows sites.now account.now)) }
{
    table_text(alloc, sites, account, guard)
}

/// The text of these rows.
fn table_text(
    alloc: Global,
    sites: &Sites,
    account: &Account<'_>,
    guard: bool,
) -> Result<String, AllocError>
    ensures { IfOk result (λ t. string_bytes t
        ≡ cell_lines guard (account_rows sites.now account.now)) }
{
    let recall = recall_field(alloc, sites, account.title())?;
    let recall = recall.as_str();
    let mut text = String::from_str(alloc, columns(account.title(), account.tells_events()))?;
    push_parts(alloc, &mut text, sites, recall, account, guard)?;
    push_outsides(alloc, &mut text, sites, recall, account, guard)?;
    push_origins(alloc, &mut text, sites, recall, account, guard)?;
    Ok(text)
}

/// The names of the columns, as a line.
fn columns(title: Title, told: bool) -> &'static str
    ensures { (guard : Bool) → result.now ≡ cell_line guard (columns_of title told) }
{
    match title {
        Title::Recall {
            recall: _,
            ended: _,
        } => columns_from(told),
        Title::Forward => columns_from(told),
        Title::Back => columns_to(told),
    }
}

/// Those of a table with the pairs before.
#[tactic(auto, unfolding(crate::specs::Csv::cell_line, crate::specs::Csv::csv_line, crate::specs::Csv::csv_field))]
fn columns_from(told: bool) -> &'static str
    ensures { (guard : Bool) → result.now
        ≡ cell_line guard (columns (codes "from_site") (codes "from_item") told) }
{
    if told {
        "recall,site,item,gtin,serial,sscc,from_site,from_item,kind,destination,event_id,event_time,carrier,lot\r\n"
    } else {
        "recall,site,item,gtin,serial,sscc,from_site,from_item,kind,destination,lot\r\n"
    }
}

/// Those of a table with the pairs behind.
#[tactic(auto, unfolding(crate::specs::Csv::cell_line, crate::specs::Csv::csv_line, crate::specs::Csv::csv_field))]
fn columns_to(told: bool) -> &'static str
    ensures { (guard : Bool) → result.now
        ≡ cell_line guard (columns (codes "to_site") (codes "to_item") told) }
{
    if told {
        "recall,site,item,gtin,serial,sscc,to_site,to_item,kind,destination,event_id,event_time,carrier,lot\r\n"
    } else {
        "recall,site,item,gtin,serial,sscc,to_site,to_item,kind,destination,lot\r\n"
    }
}

/// The recall of a report; empty for a trace.
fn recall_field(alloc: Global, sites: &Sites, title: Title) -> Result<String, AllocError>
    ensures { IfOk result (λ t. string_bytes t ≡ recall_field sites.now title) }
{
    match title {
        Title::Recall { recall, ended: _ } => recall_text(alloc, sites, recall),
        Title::Forward => Ok(String::new(alloc)),
        Title::Back => Ok(String::new(alloc)),
    }
}

/// What the pairs of a report or of a trace are.
fn kind_of(title: Title) -> &'static str
    ensures { result.now ≡ kind_of title }
{
    match title {
        Title::Recall {
            recall: _,
            ended: _,
        } => "held",
        Title::Forward => "found",
        Title::Back => "found",
    }
}

/// Adds a row for each pair.
fn push_parts(
    alloc: Global,
    text: &mut String,
    sites: &Sites,
    recall: &str,
    account: &Account<'_>,
    guard: bool,
) -> Result<(), AllocError>
    ensures { OnOk result (string_bytes text.new ≡ string_bytes text.old ++ cell_lines guard
        (map (part_row sites.now recall.now (kind_of account.now.title) account.now.told)
        account.now.parts)) }
{
    let kind = kind_of(account.title());
    let told = account.tells_events();
    for place in 0..account.len() {
        let Some(part) = account.part(place) else {
            unreachable!()
        };
        push_part(alloc, text, sites, recall, kind, told, &part, guard)?;
    }
    Ok(())
}

/// Adds the row of a pair, with the pair beside it.
fn push_part(
    alloc: Global,
    text: &mut String,
    sites: &Sites,
    recall: &str,
    kind: &str,
    told: bool,
    part: &Part<'_>,
    guard: bool,
) -> Result<(), AllocError>
    ensures { OnOk result (string_bytes text.new ≡ string_bytes text.old ++ cell_line guard
        (part_row sites.now recall.now kind.now told (part_of part.now))) }
{
    let pair = part.pair;
    let event = event_beside(part);
    let evidence = [id_of(event), time_of(event), ""];
    push_row(
        alloc,
        text,
        sites,
        recall,
        pair.site,
        &pair.item,
        part.way.beside(),
        kind,
        "",
        if_told(told, &evidence),
        guard,
    )
}

/// Adds a row for each shipment out of the traced sites.
fn push_outsides(
    alloc: Global,
    text: &mut String,
    sites: &Sites,
    recall: &str,
    account: &Account<'_>,
    guard: bool,
) -> Result<(), AllocError>
    ensures { OnOk result (string_bytes text.new ≡ string_bytes text.old ++ cell_lines guard
        (map (outside_row sites.now recall.now account.now.told) account.now.outside)) }
{
    let told = account.tells_events();
    for place in 0..account.outside_len() {
        let Some(part) = account.outside_part(place) else {
            unreachable!()
        };
        push_outside(alloc, text, sites, recall, told, &part, guard)?;
    }
    Ok(())
}

/// Adds the row of a shipment out of the traced sites.
fn push_outside(
    alloc: Global,
    text: &mut String,
    sites: &Sites,
    recall: &str,
    told: bool,
    part: &OutsidePart<'_>,
    guard: bool,
) -> Result<(), AllocError>
    ensures { OnOk result (string_bytes text.new ≡ string_bytes text.old ++ cell_line guard
        (outside_row sites.now recall.now told (outside_part_of part.now))) }
{
    let shipment = part.shipment;
    let event = event_outside(part);
    let carrier = carrier_of(alloc, &shipment.item, part.event)?;
    let evidence = [id_of(event), time_of(event), carrier.as_str()];
    push_row(
        alloc,
        text,
        sites,
        recall,
        shipment.site,
        &shipment.item,
        None,
        "outside",
        shipment.destination.as_str(),
        if_told(told, &evidence),
        guard,
    )
}

/// Adds a row for each pair that no pair is related to.
fn push_origins(
    alloc: Global,
    text: &mut String,
    sites: &Sites,
    recall: &str,
    account: &Account<'_>,
    guard: bool,
) -> Result<(), AllocError>
    ensures { OnOk result (string_bytes text.new ≡ string_bytes text.old ++ cell_lines guard
        (map (origin_row sites.now recall.now account.now.told) account.now.origins)) }
{
    let told = account.tells_events();
    for origin in account.origins() {
        push_origin(alloc, text, sites, recall, told, origin, guard)?;
    }
    Ok(())
}

/// Adds the row of a pair that no pair is related to.
fn push_origin(
    alloc: Global,
    text: &mut String,
    sites: &Sites,
    recall: &str,
    told: bool,
    origin: &Pair,
    guard: bool,
) -> Result<(), AllocError>
    ensures { OnOk result (string_bytes text.new ≡ string_bytes text.old ++ cell_line guard
        (origin_row sites.now recall.now told origin.now)) }
{
    push_row(
        alloc,
        text,
        sites,
        recall,
        origin.site,
        &origin.item,
        None,
        "origin",
        "",
        if_told(told, &["", "", ""]),
        guard,
    )
}

/// Adds the row of an item at a site, with the pair beside it, where it went, and the evidence.
fn push_row(
    alloc: Global,
    text: &mut String,
    sites: &Sites,
    recall: &str,
    site: SiteNo,
    item: &Epc,
    beside: Option<&Pair>,
    kind: &str,
    destination: &str,
    evidence: &[&str],
    guard: bool,
) -> Result<(), AllocError>
    ensures { OnOk result (string_bytes text.new ≡ string_bytes text.old ++ cell_line guard
        (row_of sites.now recall.now site item.now (option_map (λ p. p.now) beside.entry) kind.now
        destination.now (map (λ f. f.now) evidence.now))) }
{
    let key = item.key(alloc)?;
    let other = item_beside(alloc, beside)?;
    let lot = lot_of(alloc, item)?;
    push_fields(
        text,
        recall,
        name_of(sites, site),
        key.as_str(),
        gtin_of(item, key.as_str()),
        name_beside(sites, beside),
        other.as_str(),
        kind,
        destination,
        evidence,
        lot.as_str(),
        guard,
    )
}

/// Adds the row of these fields, and of the item's other numbers behind its GTIN.
fn push_fields<'a>(
    text: &mut String,
    recall: &str,
    site: &'a str,
    key: &'a str,
    gtin: &'a str,
    other_site: &'a str,
    other_key: &'a str,
    kind: &'a str,
    destination: &'a str,
    evidence: &[&str],
    lot: &str,
    guard: bool,
) -> Result<(), AllocError>
    ensures { OnOk result (string_bytes text.new ≡ string_bytes text.old ++ cell_line guard
        (recall.now ∷ site.now ∷ key.now ∷ gtin.now ∷ serial_of key.now ∷ sscc_of key.now
        ∷ other_site.now ∷ other_key.now ∷ kind.now ∷ destination.now
        ∷ (map (λ f. f.now) evidence.now ++ lot.now ∷ []))) }
{
    let rest = [
        site,
        key,
        gtin,
        serial_of(key),
        sscc_of(key),
        other_site,
        other_key,
        kind,
        destination,
    ];
    push_line(text, recall, &rest, evidence, lot, guard)
}

/// The name of a pair's site, or nothing.
fn name_beside<'a>(sites: &'a Sites, beside: Option<&Pair>) -> &'a str
    ensures { result.now ≡ name_beside sites.now (option_map (λ p. p.now) beside.entry) }
{
    match beside {
        None => "",
        Some(pair) => name_of(sites, pair.site),
    }
}

/// The key of a pair's item, or nothing.
fn item_beside(alloc: Global, beside: Option<&Pair>) -> Result<String, AllocError>
    ensures { IfOk result (λ t. string_bytes t
        ≡ item_beside (option_map (λ p. p.now) beside.entry)) }
{
    match beside {
        None => Ok(String::new(alloc)),
        Some(pair) => pair.item.key(alloc),
    }
}
