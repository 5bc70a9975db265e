//! The rows of all tables are read, in their order.
ghost use Rattle.std.specs.Prelude.{◌≡◌, ◌≢◌, ◌++◌, ◌∷◌, [], map, Err, IfOk, IfErr, IsTrue, OnOk};
ghost use Rattle.sqlite.specs.State.{IsUnchanged, Survives};
ghost use Rattle.sqlite.specs.Held.{state};
ghost use Rattle.site_rows.specs.declared.tables.Table.TheVariants.{Store, Site, Address, Event, Part, Quarantine, Outbox, Seen};
ghost use Rattle.site_rows.specs.declared.tables.Version.{Version as TableVersion};
ghost use Rattle.site_tables.specs.AllReads.{AreListed};
ghost use Rattle.site_tables.specs.HonestDisks.{OnHonestDisk};
ghost use Rattle.site_tables.specs.Reads.{IsListed};
ghost use Rattle.site_tables.specs.Stored.{contents_of};
ghost use Rattle.site_tables.specs.Tables.{store, site, address, event, part, pack, packed, quarantine, outbox, seen, parent, recall, before_messages, schema_under};
ghost use Rattle.site_tables.specs.Unreadable.{AreReadable, IsUnreadable, IsUnreadableUnder};
ghost use Rattle.site_tables.specs.Values.{store_values, site_values, address_values, event_values, part_values, pack_values, packed_values, quarantine_values, outbox_values, seen_values, parent_values, recall_values};

use crate::faults::ReadFault;
use crate::known_tables::version_of;
use crate::reads::read_table;
use event_json::Sequence;
use site_rows::{
    AddressRow, EventRow, OutboxRow, PackRow, PackedRow, ParentRow, PartRow, QuarantineRow,
    RecallRow, Rows, SeenRow, SiteRow, StoreRow, Version,
};
use sqlite::{Alter, Connection};
use std::alloc::Global;

/// The rows of the site itself, of all sites and of their addresses.
#[derive(Debug, Drop)]
struct SiteTables {
    store: Sequence<StoreRow>,
    site: Sequence<SiteRow>,
    address: Sequence<AddressRow>,
}

/// The rows of the captured events and of their lists.
#[derive(Debug, Drop)]
struct EventTables {
    event: Sequence<EventRow>,
    part: Sequence<PartRow>,
}

/// The rows of what was packed.
#[derive(Debug, Drop)]
struct PackTables {
    pack: Sequence<PackRow>,
    packed: Sequence<PackedRow>,
}

/// The rows of what is quarantined and of messages.
#[derive(Debug, Drop)]
struct MessageTables {
    quarantine: Sequence<QuarantineRow>,
    outbox: Sequence<OutboxRow>,
    seen: Sequence<SeenRow>,
}

/// The rows of parents and of own recalls.
#[derive(Debug, Drop)]
struct RecallTables {
    parent: Sequence<ParentRow>,
    recall: Sequence<RecallRow>,
}

/// Reads the rows of the site itself, of all sites and of their addresses.
fn read_sites<S: Alter>(
    alloc: Global,
    conn: &mut Connection<S>,
    version: Version,
) -> Result<SiteTables, ReadFault>
    ensures known { IfOk result (λ _. (state S.Store conn.old).now.schema ≡ schema_under version) }
    ensures store { OnHonestDisk S.Store conn.new
        (IfOk result (λ read. IsListed store ((state S.Store conn.old).now.trees store.tree)
        (map store_values read.store))) }
    ensures site { OnHonestDisk S.Store conn.new
        (IfOk result (λ read. IsListed site ((state S.Store conn.old).now.trees site.tree)
        (map site_values read.site))) }
    ensures address { OnHonestDisk S.Store conn.new
        (IfOk result (λ read. IsListed address ((state S.Store conn.old).now.trees address.tree)
        (map address_values read.address))) }
    ensures same { OnHonestDisk S.Store conn.new
        (OnOk result (IsUnchanged (state S.Store conn.old) (state S.Store conn.new))) }
    ensures other { (state S.Store conn.old).now.schema ≢ schema_under version
        → (result ≡ Err ReadFault.OtherTables) × (conn.new ≡ conn.old) }
    ensures cause { OnHonestDisk S.Store conn.new
        (IfErr result (IsUnreadableUnder version (state S.Store conn.old)
        (state S.Store conn.new))) }
    ensures crash { Survives (state S.Store conn.old) (state S.Store conn.new) (λ _. ⊥) }
{
    let store = read_table(alloc, conn, version)?;
    let site = read_table(alloc, conn, version)?;
    let address = read_table(alloc, conn, version)?;
    Ok(SiteTables {
        store,
        site,
        address,
    })
}

/// Reads the rows of the captured events and of their lists.
fn read_events<S: Alter>(
    alloc: Global,
    conn: &mut Connection<S>,
    version: Version,
) -> Result<EventTables, ReadFault>
    ensures known { IfOk result (λ _. (state S.Store conn.old).now.schema ≡ schema_under version) }
    ensures event { OnHonestDisk S.Store conn.new
        (IfOk result (λ read. IsListed event ((state S.Store conn.old).now.trees event.tree)
        (map event_values read.event))) }
    ensures part { OnHonestDisk S.Store conn.new
        (IfOk result (λ read. IsListed part ((state S.Store conn.old).now.trees part.tree)
        (map part_values read.part))) }
    ensures same { OnHonestDisk S.Store conn.new
        (OnOk result (IsUnchanged (state S.Store conn.old) (state S.Store conn.new))) }
    ensures cause { OnHonestDisk S.Store conn.new (AreReadable (Store ∷ Site ∷ Address ∷ [])
        (state S.Store conn.old).now.trees
        → IfErr result (IsUnreadableUnder version (state S.Store conn.old)
        (state S.Store conn.new))) }
    ensures crash { Survives (state S.Store conn.old) (state S.Store conn.new) (λ _. ⊥) }
{
    let event = read_table(alloc, conn, version)?;
    let part = read_table(alloc, conn, version)?;
    Ok(EventTables { event, part })
}

/// Reads the rows of what was packed, where the version has these tables.
fn read_packs<S: Alter>(
    alloc: Global,
    conn: &mut Connection<S>,
    version: Version,
) -> Result<PackTables, ReadFault>
    ensures none { IfOk result (λ read. version ≡ Version.First → (read.pack ≡ [])
        × (read.packed ≡ [])) }
    ensures pack { OnHonestDisk S.Store conn.new (version ≡ Version.Second
        → IfOk result (λ read. IsListed pack ((state S.Store conn.old).now.trees pack.tree)
        (map pack_values read.pack))) }
    ensures packed { OnHonestDisk S.Store conn.new (version ≡ Version.Second
        → IfOk result (λ read. IsListed packed ((state S.Store conn.old).now.trees packed.tree)
        (map packed_values read.packed))) }
    ensures same { OnHonestDisk S.Store conn.new (IsTrue (state S.Store conn.old).is_open
        → OnOk result (IsUnchanged (state S.Store conn.old) (state S.Store conn.new))) }
    ensures cause { OnHonestDisk S.Store conn.new
        (AreReadable (Store ∷ Site ∷ Address ∷ Event ∷ Part ∷ []) (state S.Store conn.old).now.trees
        → IfErr result (IsUnreadableUnder version (state S.Store conn.old)
        (state S.Store conn.new))) }
    ensures crash { Survives (state S.Store conn.old) (state S.Store conn.new) (λ _. ⊥) }
{
    match version {
        Version::First => Ok(PackTables {
            pack: Sequence::new(alloc),
            packed: Sequence::new(alloc),
        }),
        Version::Second => {
            let pack = read_table(alloc, conn, version)?;
            let packed = read_table(alloc, conn, version)?;
            Ok(PackTables { pack, packed })
        }
    }
}

/// Reads the rows of what is quarantined and of messages.
fn read_messages<S: Alter>(
    alloc: Global,
    conn: &mut Connection<S>,
    version: Version,
) -> Result<MessageTables, ReadFault>
    ensures known { IfOk result (λ _. (state S.Store conn.old).now.schema ≡ schema_under version) }
    ensures quarantine { OnHonestDisk S.Store conn.new
        (IfOk result (λ read. IsListed quarantine
        ((state S.Store conn.old).now.trees quarantine.tree)
        (map quarantine_values read.quarantine))) }
    ensures outbox { OnHonestDisk S.Store conn.new
        (IfOk result (λ read. IsListed outbox ((state S.Store conn.old).now.trees outbox.tree)
        (map outbox_values read.outbox))) }
    ensures seen { OnHonestDisk S.Store conn.new
        (IfOk result (λ read. IsListed seen ((state S.Store conn.old).now.trees seen.tree)
        (map seen_values read.seen))) }
    ensures same { OnHonestDisk S.Store conn.new
        (OnOk result (IsUnchanged (state S.Store conn.old) (state S.Store conn.new))) }
    ensures cause { OnHonestDisk S.Store conn.new
        (AreReadable (before_messages version) (state S.Store conn.old).now.trees
        → IfErr result (IsUnreadableUnder version (state S.Store conn.old)
        (state S.Store conn.new))) }
    ensures crash { Survives (state S.Store conn.old) (state S.Store conn.new) (λ _. ⊥) }
{
    let quarantine = read_table(alloc, conn, version)?;
    let outbox = read_table(alloc, conn, version)?;
    let seen = read_table(alloc, conn, version)?;
    Ok(MessageTables {
        quarantine,
        outbox,
        seen,
    })
}

/// Reads the rows of parents and of own recalls.
fn read_recalls<S: Alter>(
    alloc: Global,
    conn: &mut Connection<S>,
    version: Version,
) -> Result<RecallTables, ReadFault>
    ensures known { IfOk result (λ _. (state S.Store conn.old).now.schema ≡ schema_under version) }
    ensures parent { OnHonestDisk S.Store conn.new
        (IfOk result (λ read. IsListed parent ((state S.Store conn.old).now.trees parent.tree)
        (map parent_values read.parent))) }
    ensures recall { OnHonestDisk S.Store conn.new
        (IfOk result (λ read. IsListed recall ((state S.Store conn.old).now.trees recall.tree)
        (map recall_values read.recall))) }
    ensures same { OnHonestDisk S.Store conn.new
        (OnOk result (IsUnchanged (state S.Store conn.old) (state S.Store conn.new))) }
    ensures cause { OnHonestDisk S.Store conn.new
        (AreReadable (before_messages version ++ (Quarantine ∷ Outbox ∷ Seen ∷ []))
        (state S.Store conn.old).now.trees
        → IfErr result (IsUnreadableUnder version (state S.Store conn.old)
        (state S.Store conn.new))) }
    ensures crash { Survives (state S.Store conn.old) (state S.Store conn.new) (λ _. ⊥) }
{
    let parent = read_table(alloc, conn, version)?;
    let recall = read_table(alloc, conn, version)?;
    Ok(RecallTables { parent, recall })
}

/// The rows of all tables of a version, each by its keys.
fn read_version<S: Alter>(
    alloc: Global,
    conn: &mut Connection<S>,
    version: Version,
) -> Result<Rows, ReadFault>
    ensures known { IfOk result (λ rows. (rows.version ≡ version)
        × ((state S.Store conn.old).now.schema ≡ schema_under version)) }
    ensures rows { OnHonestDisk S.Store conn.new
        (IfOk result (λ rows. AreListed version (contents_of rows)
        (state S.Store conn.old).now.trees)) }
    ensures same { OnHonestDisk S.Store conn.new
        (OnOk result (IsUnchanged (state S.Store conn.old) (state S.Store conn.new))) }
    ensures cause { OnHonestDisk S.Store conn.new
        (IfErr result (IsUnreadableUnder version (state S.Store conn.old)
        (state S.Store conn.new))) }
    ensures crash { Survives (state S.Store conn.old) (state S.Store conn.new) (λ _. ⊥) }
{
    let sites = read_sites(alloc, conn, version)?;
    let events = read_events(alloc, conn, version)?;
    let packs = read_packs(alloc, conn, version)?;
    let messages = read_messages(alloc, conn, version)?;
    let recalls = read_recalls(alloc, conn, version)?;
    Ok(Rows {
        version,
        store: sites.store,
        site: sites.site,
        address: sites.address,
        event: events.event,
        part: events.part,
        pack: packs.pack,
        packed: packs.packed,
        quarantine: messages.quarantine,
        outbox: messages.outbox,
        seen: messages.seen,
        parent: recalls.parent,
        recall: recalls.recall,
    })
}

/// The rows of all tables, each by its keys, where they are those of a version, which the rows name. They are read in
/// the order in which their faults are reported, one row at a time.
///
/// # Errors
/// Of the first table that can't be read, as [`ReadFault`] says. Nothing is written.
pub fn read_rows<S: Alter>(alloc: Global, conn: &mut Connection<S>) -> Result<Rows, ReadFault>
    // All tables are read back, one row at a time: the rows are those that the tables hold, in the order of their keys,
    // and nothing is changed.
    ensures known { IfOk result (λ rows. (state S.Store conn.old).now.schema
        ≡ schema_under rows.version) }
    ensures rows { OnHonestDisk S.Store conn.new
        (IfOk result (λ rows. AreListed rows.version (contents_of rows)
        (state S.Store conn.old).now.trees)) }
    ensures same { OnHonestDisk S.Store conn.new
        (OnOk result (IsUnchanged (state S.Store conn.old) (state S.Store conn.new))) }
    // The faults are exact: other tables, and then nothing was asked; the first row, table by table and by key, for
    // which no value stands, behind tables that were read whole; or out of memory, a failure of the disk, a connection
    // that was shut, or a limit on the steps of a query.
    ensures other { ((v : TableVersion) → (state S.Store conn.old).now.schema ≢ schema_under v)
        → (result ≡ Err ReadFault.OtherTables) × (conn.new ≡ conn.old) }
    ensures cause { OnHonestDisk S.Store conn.new
        (IfErr result (IsUnreadable (state S.Store conn.old) (state S.Store conn.new))) }
    ensures crash { Survives (state S.Store conn.old) (state S.Store conn.new) (λ _. ⊥) }
{
    match version_of(conn.schema()) {
        Some(version) => read_version(alloc, conn, version),
        None => Err(ReadFault::OtherTables),
    }
}
