//! The captured events, read back from their rows and the rows of their lists.
ghost use Rattle.std.specs.Prelude.{◌≡◌, ◌≤◌, ◌<◌, ◌⊎◌, ◌+◌, ◌^◌, ℕ, None, flat_map, length, map, option_map, pos, All, IfOk, IfErr, IfSome};
ghost use Rattle.std.specs.Int.{int_div_euclid, int_rem_euclid};
ghost use Rattle.std.specs.List.{enumerate_from};
ghost use Rattle.event_json.specs.Events.{IsInstant};
ghost use Rattle.site_rows.specs.BadEvents.{IsBelow, IsEvent, IsEventTable};
ghost use Rattle.site_rows.specs.Laws.{IsEventAmong};
ghost use Rattle.site_rows.specs.PartsInTurn.{ArePacksRead, IsBodyAnswer, IsFaultOfLists, IsReadBy, packed_event};
ghost use Rattle.site_rows.specs.RecordRows.{SECOND, children_of, event_row, packed_rows, packs_of, parts_of};
ghost use Rattle.site_rows.specs.declared.reading.StateFault.TheVariants as fault;
ghost use Rattle.site_rows.specs.Texts.{IsTextOrNone};

use crate::reading::{BadRow, StateFault};
use crate::reading_bodies::{make_at, note_at, ship_at};
use crate::reading_packs::{PacksRead, pack_at};
use crate::reading_texts::plain_text_of;
use crate::rows::{EventRow, PackRow, PackedRow, PartRow};
use crate::tables::Table;
use crate::texts::Text;
use event_json::{Body, Event, PlainText, SiteNo, Sites};
use std::alloc::{AllocError, Global};
use std::hash::RandomState;
use trace_core::Captured;

/// A second has as many nanoseconds.
const NANOS: i128 = 1_000_000_000;

/// Where the tables of the lists of events were read to.
#[derive(Clone, Copy, Debug)]
struct ListsRead {
    /// The next row of `part`, from 0.
    part: usize,
    /// The rows of `pack`.
    pack: PacksRead,
    /// The next row of `packed`, from 0.
    packed: usize,
}

/// The kind of a pack.
const PACK: i64 = 3;

/// The events of the rows, whose lists are these rows, at a site, with the keys of the hash by which items are
/// numbered. All three tables are gone through with the events; a fault of one is told where those before it have none.
///
/// # Errors
/// The first row with which the rows of the first such table are no longer those of these events, or the place behind
/// the last row where one is missing; and out of memory.
pub(crate) fn captured_of(
    alloc: Global,
    keys: RandomState,
    me: SiteNo,
    sites: &Sites,
    events: &[EventRow],
    parts: &[PartRow],
    packs: &[PackRow],
    packed: &[PackedRow],
) -> Result<Captured, StateFault>
    requires table { (kinds : ℕ) × (kinds ≤ 4) × IsEventTable kinds events.now }
    ensures me { IfOk result (λ c. c.me ≡ me) }
    ensures events { IfOk result (λ c. events.now ≡ map event_row (enumerate_from 1 c.events)) }
    ensures parts { IfOk result (λ c. parts.now ≡ flat_map (parts_of sites.now)
        (enumerate_from 1 c.events)) }
    ensures packs { IfOk result (λ c. packs.now ≡ flat_map packs_of (enumerate_from 1 c.events)) }
    ensures packed { IfOk result (λ c.
        packed.now ≡ flat_map children_of (enumerate_from 1 c.events)) }
    ensures among { IfOk result (λ c. All (IsEventAmong (length sites.now)) c.events) }
    ensures bad { IfErr result (λ fault.
        IsFaultOfLists sites.now events.now parts.now packs.now packed.now fault) }
{
    let mut captured = Captured::new(alloc, keys, me);
    let mut read = ListsRead {
        part: 0,
        pack: PacksRead {
            at: 0,
            is_bad: false,
        },
        packed: 0,
    };
    for (place, row) in events.iter().enumerate() {
        match event_at(alloc, sites, parts, packs, packed, &mut read, place, row)? {
            Some(event) => captured.restore_event(event)?,
            None => return Err(bad_row(Table::Part, read.part)),
        }
    }
    if read.part < parts.len() {
        return Err(bad_row(Table::Part, read.part));
    }
    if read.pack.is_bad || read.pack.at < packs.len() {
        return Err(bad_row(Table::Pack, read.pack.at));
    }
    if read.packed < packed.len() {
        return Err(bad_row(Table::Packed, read.packed));
    }
    Ok(captured)
}

/// The fault of a row at a place, from 0.
fn bad_row(table: Table, at: usize) -> StateFault
    requires room { at + 1 < 2 ^ 64 }
    ensures { result ≡ fault.BadRow (record { table = table; row = at + 1 }) }
{
    StateFault::BadRow(BadRow {
        table,
        row: at as u64 + 1,
    })
}

/// The event of a row at a place, with the lists whose rows stand next; `None` where a member is missing.
fn event_at(
    alloc: Global,
    sites: &Sites,
    parts: &[PartRow],
    packs: &[PackRow],
    packed: &[PackedRow],
    read: &mut ListsRead,
    place: usize,
    row: &EventRow,
) -> Result<Option<Event>, AllocError>
    requires part { read.old.part ≤ length parts.now }
    requires pack { read.old.pack.at ≤ length packs.now }
    requires packed { read.old.packed ≤ length packed.now }
    requires room { place + 1 < 2 ^ 64 }
    requires event { (kinds : ℕ) × (kinds ≤ 4) × IsEvent kinds place row.now }
    ensures row { IfOk result (λ event. IfSome event (λ e. row.now ≡ event_row (place + 1, e))) }
    ensures part { IfOk result (λ event.
        IsBodyAnswer sites.now (place + 1) row.now.kind row.now.make_id parts.now read.old.part
        read.new.part (option_map (λ e. e.body) event)) }
    ensures pack { IfOk result (λ event.
        IfSome event (λ e. ArePacksRead (length sites.now) (place + 1) row.now.kind row.now.make_id
        packs.now read.old.pack.at read.new.pack.at read.old.pack.is_bad read.new.pack.is_bad
        e.body)) }
    ensures packed { IfOk result (λ event.
        IfSome event (λ e. IsReadBy packed_event packed_rows (length sites.now)
        (place + 1) row.now.kind row.now.make_id packed.now read.old.packed read.new.packed
        e.body)) }
{
    let id = identifier(alloc, &row.id)?;
    let instant = instant_of(row.seconds, row.nanos);
    let event = place as u64 + 1;
    if row.kind == PACK {
        let body = pack_at(
            alloc,
            sites,
            packs,
            packed,
            &mut read.pack,
            &mut read.packed,
            event,
        )?;
        return Ok(Some(Event::new(id, instant, body)));
    }
    match body_at(alloc, sites, parts, &mut read.part, event, row)? {
        Some(body) => Ok(Some(Event::new(id, instant, body))),
        None => Ok(None),
    }
}

/// What the event of a row that is no pack says of its items, from the rows that stand next; `None` where a member is
/// missing.
fn body_at(
    alloc: Global,
    sites: &Sites,
    parts: &[PartRow],
    at: &mut usize,
    event: u64,
    row: &EventRow,
) -> Result<Option<Body>, AllocError>
    requires within { at.old ≤ length parts.now }
    requires kind { (n : ℕ) × IsBelow 3 row.now.kind n }
    requires make_id { IsTextOrNone row.now.make_id }
    requires of_make { (row.now.kind ≡ pos 2) ⊎ (row.now.make_id ≡ None) }
    ensures { IfOk result (λ body. IsBodyAnswer sites.now event row.now.kind row.now.make_id
        parts.now at.old at.new body) }
{
    match row.kind {
        0 => Ok(Some(note_at(alloc, sites, parts, at, event)?)),
        1 => ship_at(alloc, sites, parts, at, event),
        _ => {
            let id = identifier(alloc, &row.make_id)?;
            make_at(alloc, sites, parts, at, event, id)
        }
    }
}

/// A plain text, where there is one.
fn identifier(alloc: Global, text: &Option<Text>) -> Result<Option<PlainText>, AllocError>
    requires plain { IsTextOrNone text.now }
    ensures { IfOk result (λ id. id ≡ text.now) }
{
    match text {
        Some(text) => plain_text_of(alloc, text),
        None => Ok(None),
    }
}

/// The instant of so many seconds and nanoseconds, in nanoseconds.
fn instant_of(seconds: i64, nanos: i64) -> i128
    requires nanos { (n : ℕ) × IsBelow 1_000_000_000 nanos n }
    ensures seconds { int_div_euclid result SECOND ≡ seconds }
    ensures nanos { int_rem_euclid result SECOND ≡ nanos }
    ensures fits { IsInstant result }
{
    seconds as i128 * NANOS + nanos as i128
}
