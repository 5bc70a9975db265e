//! The record of a site, read back from the rows of its tables.
ghost use Rattle.std.specs.Prelude.{◌≡◌, ◌≤◌, ◌∷◌, [], flat_map, length, map, All, IfOk, IfErr, MatchResult};
ghost use Rattle.std.specs.FinMap.{entries};
ghost use Rattle.std.specs.List.{enumerate_from};
ghost use Rattle.event_json.specs.declared.limits.TheConstants.{MAX_SITES};
ghost use Rattle.frame_core.specs.Unsignalled.{IsNextNumber};
ghost use Rattle.site_core.specs.Records.{IsEngagementAmong, Record};
ghost use Rattle.site_rows.specs.Laws.{HasTexts, HoldsItems, IsEventAmong, IsKept, NamesItems};
ghost use Rattle.site_rows.specs.RecordRows.{HasTables, rows_under, addresses_of, children_of, packs_of, parts_of, address_row, event_row, outbox_row, parent_row, recall_row, seen_row, site_row};
ghost use Rattle.site_rows.specs.ReadRows.{HasNoBadRow, HaveNoBadRow, IsStateFault, IsFaultIn};
ghost use Rattle.site_rows.specs.declared.reading.StateFault.TheVariants.{NoMemory};

use crate::reading_addressed::addressed;
use crate::reading_captured::captured_of;
use crate::reading_entries::TableFault;
use crate::reading_events::check_events;
use crate::reading_held::quarantine_of;
use crate::reading_recalls::{outbox_of, own_of, parents_of, seen_of};
use crate::reading_sites::{StoreNumbers, names_of, store_of};
use crate::rows::Rows;
use crate::tables::Table;
use event_json::{SiteNo, Sites};
use scholten_core::Diffusion;
use site_core::SiteState;
use std::alloc::{AllocError, Global};
use std::hash::RandomState;
use trace_core::Captured;

/// A row that stands in no record's rows.
#[derive(Clone, Copy, Debug, PartialEq, Eq)]
pub struct BadRow {
    /// Its table.
    pub table: Table,
    /// Its place among the table's rows by key, from 1.
    pub row: u64,
}

/// Why no record is read.
#[derive(Clone, Copy, Debug, PartialEq, Eq)]
pub enum StateFault {
    /// Memory ran out.
    NoMemory,
    /// A row stands in no record's rows.
    BadRow(BadRow),
}

impl From<AllocError> for StateFault {
    ghost use Rattle.site_rows.specs.declared.reading.StateFault.TheVariants.{NoMemory};

    ghost from_gives = { λ _ e. e ≡ NoMemory };

    fn from(_error: AllocError) -> StateFault {
        StateFault::NoMemory
    }
}

/// The record whose rows these are under their version, with the keys of the hash by which items are numbered, drawn at
/// random, so that nobody can choose texts that collide.
///
/// # Errors
/// A bad row of the first table that has one, in the order of [`Table`]: the first bad one of that table. A row that is
/// missing is named by the place where it would stand. And out of memory, which alone comes where the rows are those of
/// a record, in tables that their version has.
pub fn state_of(alloc: Global, keys: RandomState, rows: &Rows) -> Result<SiteState, StateFault>
    ensures read { IfOk result (λ state. rows_under rows.now.version state ≡ rows.now) }
    ensures bad { IfErr result (λ fault. IsStateFault rows.now fault) }
    ensures kept { IfOk result (λ state. IsKept state) }
    ensures items { IfOk result (λ state. HoldsItems state) }
    // From the rows of a record, in tables of a version that has room for them, just that record is read, or memory ran
    // out: a record whose sites and numbers are as a site keeps them, whose events are within their limits, and whose
    // texts are items, sites and plain texts. What is read is such a record.
    ensures same { HasTables rows.now → (s : Record) → IsKept s → HoldsItems s
        → rows_under rows.now.version s ≡ rows.now
        → MatchResult result (λ state. state ≡ s) (λ fault. fault ≡ NoMemory) }
{
    read_state(alloc, keys, rows)
}

/// The record whose rows these are, which a site may keep.
fn read_state(alloc: Global, keys: RandomState, rows: &Rows) -> Result<SiteState, StateFault>
    ensures read { IfOk result (λ state. rows_under rows.now.version state ≡ rows.now) }
    ensures kept { IfOk result (λ state. IsKept state) }
    ensures items { IfOk result (λ state. HoldsItems state) }
    ensures bad { IfErr result (λ fault. IsStateFault rows.now fault) }
{
    let numbers = match store_of(rows.version, rows.site.as_slice(), rows.store.as_slice()) {
        Ok(numbers) => numbers,
        Err(fault) => return Err(in_table(Table::Store, fault)),
    };
    let sites = sites_of(alloc, rows)?;
    let captured = events_of(alloc, keys, numbers.me, &sites, rows)?;
    let quarantine = match quarantine_of(alloc, sites.len(), rows.quarantine.as_slice()) {
        Ok(quarantine) => quarantine,
        Err(fault) => return Err(in_table(Table::Quarantine, fault)),
    };
    let diffusion = diffusion_of(alloc, numbers, sites.len(), rows)?;
    Ok(SiteState::restore(alloc, sites, captured, quarantine, diffusion))
}

/// The fault of a table among those of all tables.
fn in_table(table: Table, fault: TableFault) -> StateFault
    ensures { IsFaultIn table fault result }
{
    match fault {
        TableFault::NoMemory => StateFault::NoMemory,
        TableFault::BadRow(row) => StateFault::BadRow(BadRow { table, row }),
    }
}

/// The sites, with their addresses.
fn sites_of(alloc: Global, rows: &Rows) -> Result<Sites, StateFault>
    requires good { HaveNoBadRow rows.now (Table.Store ∷ []) }
    ensures site { IfOk result (λ sites. rows.now.site ≡ map site_row (enumerate_from 0 sites)) }
    ensures address { IfOk result (λ sites. rows.now.address
        ≡ map address_row (entries (addresses_of sites))) }
    ensures texts { IfOk result (λ sites. All HasTexts sites) }
    ensures good { IfOk result (λ _. HasNoBadRow rows.now Table.Site
        × HasNoBadRow rows.now Table.Address) }
    ensures bad { IfErr result (λ fault. IsStateFault rows.now fault) }
{
    let names = match names_of(alloc, rows.site.as_slice()) {
        Ok(names) => names,
        Err(fault) => return Err(in_table(Table::Site, fault)),
    };
    // The count shows the proof that the names are those of sites.
    let _count = names.len();
    match addressed(alloc, &names, rows.address.as_slice()) {
        Ok(sites) => Ok(sites),
        Err(fault) => Err(in_table(Table::Address, fault)),
    }
}

/// The captured events.
fn events_of(
    alloc: Global,
    keys: RandomState,
    me: SiteNo,
    sites: &Sites,
    rows: &Rows,
) -> Result<Captured, StateFault>
    requires read { rows.now.site ≡ map site_row (enumerate_from 0 sites.now) }
    requires good { HaveNoBadRow rows.now (Table.Store ∷ Table.Site ∷ Table.Address ∷ []) }
    ensures me { IfOk result (λ c. c.me ≡ me) }
    ensures event { IfOk result (λ c. rows.now.event ≡ map event_row (enumerate_from 1 c.events)) }
    ensures part { IfOk result (λ c. rows.now.part ≡ flat_map (parts_of sites.now)
        (enumerate_from 1 c.events)) }
    ensures pack { IfOk result (λ c. rows.now.pack
        ≡ flat_map packs_of (enumerate_from 1 c.events)) }
    ensures packed { IfOk result (λ c. rows.now.packed ≡ flat_map children_of
        (enumerate_from 1 c.events)) }
    ensures among { IfOk result (λ c. All (IsEventAmong (length sites.now)) c.events) }
    ensures good { IfOk result (λ _. HaveNoBadRow rows.now
        (Table.Event ∷ Table.Part ∷ Table.Pack ∷ Table.Packed ∷ [])) }
    ensures bad { IfErr result (λ fault. IsStateFault rows.now fault) }
{
    if let Err(fault) = check_events(rows.version.kinds(), rows.event.as_slice()) {
        return Err(in_table(Table::Event, fault));
    }
    match captured_of(
        alloc,
        keys,
        me,
        sites,
        rows.event.as_slice(),
        rows.part.as_slice(),
        rows.pack.as_slice(),
        rows.packed.as_slice(),
    ) {
        Ok(captured) => Ok(captured),
        Err(fault) => Err(fault),
    }
}

/// The site's part in recalls, what is quarantined aside.
fn diffusion_of(
    alloc: Global,
    numbers: StoreNumbers,
    sites: u64,
    rows: &Rows,
) -> Result<Diffusion, StateFault>
    requires few { sites ≤ MAX_SITES }
    requires count { sites ≡ length rows.now.site }
    requires next_message { IsNextNumber numbers.next_message }
    requires next_recall { IsNextNumber numbers.next_recall }
    requires good { HaveNoBadRow rows.now
        (Table.Store ∷ Table.Site ∷ Table.Address ∷ Table.Event ∷ Table.Part ∷ Table.Pack
        ∷ Table.Packed ∷ Table.Quarantine ∷ []) }
    ensures numbers { IfOk result (λ d. (d.me ≡ numbers.me)
        × (d.next_message ≡ numbers.next_message) × (d.next_recall ≡ numbers.next_recall)) }
    ensures outbox { IfOk result (λ d. rows.now.outbox ≡ map outbox_row (entries d.outbox)) }
    ensures seen { IfOk result (λ d. rows.now.seen ≡ map seen_row (entries d.seen)) }
    ensures parent { IfOk result (λ d. rows.now.parent ≡ map parent_row (entries d.parents)) }
    ensures recall { IfOk result (λ d. rows.now.recall ≡ map recall_row (entries d.own)) }
    ensures among { IfOk result (λ d. IsEngagementAmong sites d) }
    ensures items { IfOk result (λ d. NamesItems d) }
    ensures bad { IfErr result (λ fault. IsStateFault rows.now fault) }
{
    let outbox = match outbox_of(alloc, sites, rows.outbox.as_slice()) {
        Ok(outbox) => outbox,
        Err(fault) => return Err(in_table(Table::Outbox, fault)),
    };
    let seen = match seen_of(alloc, sites, rows.seen.as_slice()) {
        Ok(seen) => seen,
        Err(fault) => return Err(in_table(Table::Seen, fault)),
    };
    let parents = match parents_of(alloc, sites, rows.parent.as_slice()) {
        Ok(parents) => parents,
        Err(fault) => return Err(in_table(Table::Parent, fault)),
    };
    let own = match own_of(alloc, rows.recall.as_slice()) {
        Ok(own) => own,
        Err(fault) => return Err(in_table(Table::Recall, fault)),
    };
    let StoreNumbers {
        me,
        next_message,
        next_recall,
    } = numbers;
    let restored = Diffusion::restore(
        alloc,
        me,
        outbox,
        seen,
        parents,
        own,
        next_message,
        next_recall,
    )?;
    Ok(restored)
}
