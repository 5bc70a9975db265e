//! All tables are made and filled, in their order.
ghost use Rattle.std.specs.Prelude.{◌≡◌, ◌++◌, ◌∷◌, [], take};
ghost use Rattle.sqlite.specs.Held.{state};
ghost use Rattle.site_rows.specs.declared.tables.Table.TheVariants.{Store, Site, Address, Event, Part, Pack, Packed, Quarantine, Outbox, Seen, Parent, Recall};
ghost use Rattle.site_tables.specs.Filled.{with_rows};
ghost use Rattle.site_tables.specs.Made.{MakesTables};
ghost use Rattle.site_tables.specs.Stored.{WritesAll, only};
ghost use Rattle.site_tables.specs.Tables.{store, site, address, event, part, pack, packed, quarantine, outbox, seen, parent, recall, earlier, made, no_schema, schema_of, first_schema, site_schema};

use crate::inserting::insert_each;
use crate::table_row::TableRow;
use site_rows::{
    AddressRow, EventRow, OutboxRow, PackRow, PackedRow, ParentRow, PartRow, QuarantineRow,
    RecallRow, Rows, SeenRow, SiteRow, StoreRow,
};
use sqlite::{Alter, Error, Transaction};
use std::alloc::Global;

/// Makes a table, behind those that are made earlier.
fn create<T: TableRow, S: Alter>(tx: &mut Transaction<'_, S>) -> Result<usize, Error>
    ensures same_reference { tx.new.conn.ghost_name ≡ tx.old.conn.ghost_name }
    ensures made { MakesTables (schema_of (earlier T.TableRow.named made))
        (schema_of (earlier T.TableRow.named made ++ T.TableRow.named ∷ []))
        (state S.Store tx.old.conn.now) (state S.Store tx.new.conn.now) result }
{
    tx.execute(T::create_text(), &[])
}

/// Makes the tables of the site itself and of all sites.
fn create_sites<S: Alter>(tx: &mut Transaction<'_, S>) -> Result<usize, Error>
    ensures same_reference { tx.new.conn.ghost_name ≡ tx.old.conn.ghost_name }
    ensures made { MakesTables no_schema (schema_of (take 3 made)) (state S.Store tx.old.conn.now)
        (state S.Store tx.new.conn.now) result }
{
    create::<StoreRow, _>(tx)?;
    create::<SiteRow, _>(tx)?;
    create::<AddressRow, _>(tx)
}

/// Makes the tables of the captured events.
fn create_events<S: Alter>(tx: &mut Transaction<'_, S>) -> Result<usize, Error>
    ensures same_reference { tx.new.conn.ghost_name ≡ tx.old.conn.ghost_name }
    ensures made { MakesTables (schema_of (take 3 made)) (schema_of (take 5 made))
        (state S.Store tx.old.conn.now) (state S.Store tx.new.conn.now) result }
{
    create::<EventRow, _>(tx)?;
    create::<PartRow, _>(tx)
}

/// Makes the tables of what is quarantined and of messages.
fn create_messages<S: Alter>(tx: &mut Transaction<'_, S>) -> Result<usize, Error>
    ensures same_reference { tx.new.conn.ghost_name ≡ tx.old.conn.ghost_name }
    ensures made { MakesTables (schema_of (take 5 made)) (schema_of (take 8 made))
        (state S.Store tx.old.conn.now) (state S.Store tx.new.conn.now) result }
{
    create::<QuarantineRow, _>(tx)?;
    create::<OutboxRow, _>(tx)?;
    create::<SeenRow, _>(tx)
}

/// Makes the tables of recalls.
fn create_recalls<S: Alter>(tx: &mut Transaction<'_, S>) -> Result<usize, Error>
    ensures same_reference { tx.new.conn.ghost_name ≡ tx.old.conn.ghost_name }
    ensures made { MakesTables (schema_of (take 8 made)) first_schema
        (state S.Store tx.old.conn.now) (state S.Store tx.new.conn.now) result }
{
    create::<ParentRow, _>(tx)?;
    create::<RecallRow, _>(tx)
}

/// Makes the tables that the second version has more, behind those of the first.
pub fn create_packs<S: Alter>(tx: &mut Transaction<'_, S>) -> Result<usize, Error>
    ensures same_reference { tx.new.conn.ghost_name ≡ tx.old.conn.ghost_name }
    ensures made { MakesTables first_schema site_schema (state S.Store tx.old.conn.now)
        (state S.Store tx.new.conn.now) result }
{
    create::<PackRow, _>(tx)?;
    create::<PackedRow, _>(tx)
}

/// Makes all tables, with no rows.
pub fn create_tables<S: Alter>(tx: &mut Transaction<'_, S>) -> Result<usize, Error>
    ensures same_reference { tx.new.conn.ghost_name ≡ tx.old.conn.ghost_name }
    ensures made { MakesTables no_schema site_schema (state S.Store tx.old.conn.now)
        (state S.Store tx.new.conn.now) result }
{
    create_sites(tx)?;
    create_events(tx)?;
    create_messages(tx)?;
    create_recalls(tx)?;
    create_packs(tx)
}

/// Inserts the rows of the site itself, of all sites and of their addresses.
fn fill_sites<S: Alter>(
    alloc: Global,
    tx: &mut Transaction<'_, S>,
    rows: &Rows,
    written: &mut u64,
) -> Result<(), Error>
    ensures same_reference { tx.new.conn.ghost_name ≡ tx.old.conn.ghost_name }
    ensures wrote { WritesAll (only (Store ∷ Site ∷ Address ∷ []) (with_rows rows.now))
        (state S.Store tx.old.conn.now) (state S.Store tx.new.conn.now) result }
{
    insert_each(alloc, tx, rows.store.as_slice(), written)?;
    insert_each(alloc, tx, rows.site.as_slice(), written)?;
    insert_each(alloc, tx, rows.address.as_slice(), written)
}

/// Inserts the rows of the captured events and of their lists.
fn fill_events<S: Alter>(
    alloc: Global,
    tx: &mut Transaction<'_, S>,
    rows: &Rows,
    written: &mut u64,
) -> Result<(), Error>
    ensures same_reference { tx.new.conn.ghost_name ≡ tx.old.conn.ghost_name }
    ensures wrote { WritesAll (only (Event ∷ Part ∷ []) (with_rows rows.now))
        (state S.Store tx.old.conn.now) (state S.Store tx.new.conn.now) result }
{
    insert_each(alloc, tx, rows.event.as_slice(), written)?;
    insert_each(alloc, tx, rows.part.as_slice(), written)
}

/// Inserts the rows of what is quarantined and of messages.
fn fill_messages<S: Alter>(
    alloc: Global,
    tx: &mut Transaction<'_, S>,
    rows: &Rows,
    written: &mut u64,
) -> Result<(), Error>
    ensures same_reference { tx.new.conn.ghost_name ≡ tx.old.conn.ghost_name }
    ensures wrote { WritesAll (only (Quarantine ∷ Outbox ∷ Seen ∷ []) (with_rows rows.now))
        (state S.Store tx.old.conn.now) (state S.Store tx.new.conn.now) result }
{
    insert_each(alloc, tx, rows.quarantine.as_slice(), written)?;
    insert_each(alloc, tx, rows.outbox.as_slice(), written)?;
    insert_each(alloc, tx, rows.seen.as_slice(), written)
}

/// Inserts the rows of parents and of own recalls.
fn fill_recalls<S: Alter>(
    alloc: Global,
    tx: &mut Transaction<'_, S>,
    rows: &Rows,
    written: &mut u64,
) -> Result<(), Error>
    ensures same_reference { tx.new.conn.ghost_name ≡ tx.old.conn.ghost_name }
    ensures wrote { WritesAll (only (Parent ∷ Recall ∷ []) (with_rows rows.now))
        (state S.Store tx.old.conn.now) (state S.Store tx.new.conn.now) result }
{
    insert_each(alloc, tx, rows.parent.as_slice(), written)?;
    insert_each(alloc, tx, rows.recall.as_slice(), written)
}

/// Inserts the rows of what was packed.
fn fill_packs<S: Alter>(
    alloc: Global,
    tx: &mut Transaction<'_, S>,
    rows: &Rows,
    written: &mut u64,
) -> Result<(), Error>
    ensures same_reference { tx.new.conn.ghost_name ≡ tx.old.conn.ghost_name }
    ensures wrote { WritesAll (only (Pack ∷ Packed ∷ []) (with_rows rows.now))
        (state S.Store tx.old.conn.now) (state S.Store tx.new.conn.now) result }
{
    insert_each(alloc, tx, rows.pack.as_slice(), written)?;
    insert_each(alloc, tx, rows.packed.as_slice(), written)
}

/// Inserts the rows of all tables.
pub fn fill<S: Alter>(
    alloc: Global,
    tx: &mut Transaction<'_, S>,
    rows: &Rows,
    written: &mut u64,
) -> Result<(), Error>
    ensures same_reference { tx.new.conn.ghost_name ≡ tx.old.conn.ghost_name }
    ensures wrote { WritesAll (with_rows rows.now) (state S.Store tx.old.conn.now)
        (state S.Store tx.new.conn.now) result }
{
    fill_sites(alloc, tx, rows, written)?;
    fill_events(alloc, tx, rows, written)?;
    fill_messages(alloc, tx, rows, written)?;
    fill_recalls(alloc, tx, rows, written)?;
    fill_packs(alloc, tx, rows, written)
}
