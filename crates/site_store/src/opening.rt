//! A site opened from the tables of a file.
ghost use Rattle.std.specs.Prelude.{◌≡◌, IfOk, IfErr, OnOk, MatchResult, option_map};
ghost use Rattle.sqlite.specs.State.{Survives};
ghost use Rattle.sqlite.specs.Held.{state};
ghost use Rattle.site_core.specs.Records.{Record};
ghost use Rattle.site_rows.specs.Laws.{IsKept, HoldsItems};
ghost use Rattle.site_rows.specs.BadRows.{Tells};
ghost use Rattle.site_rows.specs.RecordRows.{HasTables, rows_under, version_number};
ghost use Rattle.site_rows.specs.declared.tables.Version.{Version as TableVersion};
ghost use Rattle.site_rows.specs.declared.tables.Version.TheVariants.{First};
ghost use Rattle.site_tables.specs.HonestDisks.{OnHonestDisk};
ghost use Rattle.site_tables.specs.Stored.{IsStoredUnder, contents_of};
ghost use Rattle.site_store.specs.Findable.{MayBeFound};
ghost use Rattle.site_store.specs.Openings.{ListsRecordUnder};
ghost use Rattle.site_store.specs.Opened.{name_at, own_name, IsNamedSo, IsOtherVersion, IsRefused, unread, IsOpenFault, FailsToMigrate, IsOfDatabase, ListsSite, IsOfMachine, HoldsMigrated, IsOpenedAs, IsNotOpened, FindsLeft};
ghost use Rattle.site_store.specs.StepWritten.{Keeps};

use crate::faults::{is_of_device, is_of_memory};
use crate::sites::StoredSite;
use site_core::SiteState;
use site_rows::{BadRow, Rows, SiteRow, StateFault, StoreRow, Table, Version, state_of};
use site_tables::{ReadFault, migrate, read_rows, settled};
use sqlite::{Alter, Connection, FileStore, Options};
use sqlite_disk::Disk;
use std::alloc::Global;
use std::hash::RandomState;

/// Why no site was opened. The database is as it was; but where memory, the device or the store failed as the tables of
/// the first version were made those of the second, a crash may leave the second, with the same record.
#[derive(Debug, Drop)]
pub enum OpenFault {
    /// Memory ran out.
    NoMemory,
    /// The tables aren't a site's, or `store` has no row, or one with the number of another version than the tables
    /// have.
    NotAStore,
    /// The version of the row of `store`, which is neither 1 nor 2.
    Version(i64),
    /// The name of the site, which is another than the one that was asked for.
    OtherSite(String),
    /// A row that stands in no record's rows.
    BadRow(BadRow),
    /// The device failed.
    Device,
    /// The database refused for a cause of its own.
    Store,
}

/// Why no site was opened, and the connection.
#[derive(Drop)]
pub struct Unfound<D: Disk> {
    pub conn: Connection<FileStore<D>>,
    pub fault: OpenFault,
}

/// Why the tables couldn't be read.
fn unread(fault: ReadFault) -> OpenFault
    ensures { result ≡ unread fault }
{
    match fault {
        ReadFault::NoMemory => OpenFault::NoMemory,
        ReadFault::OtherTables => OpenFault::NotAStore,
        ReadFault::BadRow { table, row } => OpenFault::BadRow(BadRow { table, row }),
        ReadFault::Database(error) => {
            if is_of_device(&error) {
                OpenFault::Device
            } else if is_of_memory(&error) {
                OpenFault::NoMemory
            } else {
                OpenFault::Store
            }
        }
    }
}

/// The version of this number.
fn version_of(number: i64) -> Option<Version>
    ensures { Tells result (λ v. number ≡ version_number v) }
{
    match number {
        1 => Some(Version::First),
        2 => Some(Version::Second),
        _ => None,
    }
}

/// Tests that the row of `store` has the number of the version that the tables have.
fn check_version(rows: &Rows, row: &StoreRow) -> Result<(), OpenFault>
    ensures same { OnOk result (row.now.version ≡ version_number rows.now.version) }
    ensures other { IfErr result (IsOtherVersion rows.now.version row.now.version) }
{
    match version_of(row.version) {
        Some(version) if version == rows.version => Ok(()),
        Some(_) => Err(OpenFault::NotAStore),
        None => Err(OpenFault::Version(row.version)),
    }
}

/// The row of `site` whose number the row of `store` has.
fn site_of<'r>(sites: &'r [SiteRow], row: &StoreRow) -> Option<&'r SiteRow>
    ensures { option_map (λ s. s.now.name) result ≡ name_at sites.now row.now.me }
{
    sites.iter().find(|site| site.no == row.me)
}

/// Looks whether the rows are those of a site of this name. A name that isn't UTF-8 is left to the test of all rows,
/// since no site has it.
fn check_name(alloc: Global, rows: &Rows, name: &str) -> Result<(), OpenFault>
    ensures named { OnOk result (IsNamedSo name.now rows.now) }
    ensures refused { IfErr result (IsRefused name.now rows.now) }
{
    let Some(row) = rows.store.as_slice().first() else {
        return Err(OpenFault::NotAStore);
    };
    check_version(rows, row)?;
    let Some(site) = site_of(rows.site.as_slice(), row) else {
        let table = Table::Store;
        return Err(OpenFault::BadRow(BadRow { table, row: 1 }));
    };
    let Some(found) = site.name.as_str() else {
        return Ok(());
    };
    if found == name {
        return Ok(());
    }
    match String::from_str(alloc, found) {
        Ok(found) => Err(OpenFault::OtherSite(found)),
        Err(_) => Err(OpenFault::NoMemory),
    }
}

/// The record of these rows, where it is that of a site of this name. That of rows in tables that their version has is
/// found.
fn record_of(
    alloc: Global,
    keys: RandomState,
    rows: &Rows,
    name: &str,
) -> Result<SiteState, OpenFault>
    ensures read { IfOk result (λ state. rows_under rows.now.version state ≡ rows.now) }
    ensures named { IfOk result (λ state. own_name state ≡ name.now) }
    ensures found { IfOk result MayBeFound }
    ensures refused { IfErr result (IsRefused name.now rows.now) }
    ensures same { HasTables rows.now → (r : Record) → IsKept r → HoldsItems r
        → own_name r ≡ name.now → rows.now ≡ rows_under rows.now.version r
        → MatchResult result (λ state. state ≡ r) (λ fault. fault ≡ OpenFault.NoMemory) }
{
    check_name(alloc, rows, name)?;
    match state_of(alloc, keys, rows) {
        Ok(state) => Ok(state),
        Err(StateFault::NoMemory) => Err(OpenFault::NoMemory),
        Err(StateFault::BadRow(bad)) => Err(OpenFault::BadRow(bad)),
    }
}

/// A record that was read, and the version of the tables that list its rows.
#[derive(Drop)]
struct ReadSite {
    version: Version,
    state: SiteState,
}

/// The record whose rows the tables list, where it is that of a site of this name. Nothing is written.
fn read_site<S: Alter>(
    alloc: Global,
    keys: RandomState,
    conn: &mut Connection<S>,
    name: &str,
) -> Result<ReadSite, OpenFault>
    ensures read { OnHonestDisk S.Store conn.new
        (IfOk result (λ read. ListsRecordUnder read.version read.state (state S.Store conn.old)
        (state S.Store conn.new))) }
    ensures named { IfOk result (λ read. own_name read.state ≡ name.now) }
    ensures found { IfOk result (λ read. MayBeFound read.state) }
    ensures refused { OnHonestDisk S.Store conn.new
        (IfErr result (IsOpenFault (state S.Store conn.old) (state S.Store conn.new) name.now)) }
    ensures finds { OnHonestDisk S.Store conn.new ((v : TableVersion) (r : Record)
        → ListsSite v r name.now (state S.Store conn.old)
        → MatchResult result (λ read. (read.version ≡ v)
        × (read.state ≡ r)) (IsOfMachine (state S.Store conn.old))) }
    ensures crash { Survives (state S.Store conn.old) (state S.Store conn.new) (λ _. ⊥) }
{
    match read_rows(alloc, conn) {
        Ok(rows) => {
            let version = rows.version;
            match record_of(alloc, keys, &rows, name) {
                Ok(state) => Ok(ReadSite { version, state }),
                Err(fault) => Err(fault),
            }
        }
        Err(fault) => Err(unread(fault)),
    }
}

/// Makes the tables of the first version, which were read, those of the second.
///
/// # Errors
/// What prevents it. A crash then leaves the one version or the other.
fn migrate_site<S: Alter>(conn: &mut Connection<S>) -> Result<(), OpenFault>
    ensures done { OnHonestDisk S.Store conn.new ((r : Record)
        → IsStoredUnder First (contents_of (rows_under First r)) (state S.Store conn.old)
        → OnOk result (Keeps r (state S.Store conn.new))) }
    ensures cause { OnHonestDisk S.Store conn.new ((r : Record)
        → IfErr result (FailsToMigrate r (state S.Store conn.old) (state S.Store conn.new))) }
    ensures crash { Survives (state S.Store conn.old) (state S.Store conn.new)
        (HoldsMigrated (state S.Store conn.old)) }
    ensures fault { IfErr result IsOfDatabase }
{
    if !conn.is_autocommit() {
        return Err(OpenFault::Store);
    }
    match migrate(conn) {
        Ok(()) => Ok(()),
        Err(error) => Err(unread(ReadFault::Database(error))),
    }
}

/// Opens the site of this name, whose tables the database has, with the keys of the hash by which items are numbered,
/// drawn at random, so that nobody can choose texts that collide. Tables of the second version are read, and nothing is
/// written; those of the first are tested whole, and then made of the second in one transaction, whose commit is the
/// last call of the database.
///
/// # Errors
/// As [`OpenFault`] says. The connection is given back. Asked are, in this order: whether the tables are a site's and
/// `store` has a row, whether that has a version, which is the tables', whether `site` has a row of its number, whether
/// that has the name, and whether the rows stand in a record's under their version, table by table, a table's rows by
/// key. An error of the database is reported as soon as a call returns it. After a refusal a crash leaves what it would
/// have left before; after an error of a migration perhaps the second version, with the same record.
pub fn open_site<D: Disk + Drop>(
    alloc: Global,
    keys: RandomState,
    conn: Connection<FileStore<D>>,
    options: Options,
    name: &str,
) -> Result<StoredSite<D>, Unfound<D>>
    // The site shows a record whose rows are those that the tables list, of a site of that name, with no failure and no
    // statement counted. Tables of the first version are made those of the second, with the same record, and at each
    // moment a crash leaves the one version or the other.
    // Not covered: that it is opened with memory at hand.
    ensures opened { IfOk result (IsOpenedAs conn name.now) }
    // Each fault says what the tables hold, or why they can't be read.
    // Not covered: in which table the database failed. `NoMemory` may come at any. A table more makes a file
    // `NotAStore`.
    ensures refused { IfErr result (λ left. IsNotOpened conn name.now left.conn left.fault) }
    // Where a crash left the rows of such a record in the tables of a version, and a connection was just made to what
    // it left, the site is opened in just that record, unless memory runs out or the device fails, or, under the first
    // version, the second can't be made.
    ensures left { FindsLeft conn name.now result }
{
    let mut conn = conn;
    // What is known of the connection before anything is read.
    let _schema = conn.schema();
    settled(&conn);
    match read_site(alloc, keys, &mut conn, name) {
        Ok(ReadSite { version, state }) => {
            settled(&conn);
            match version {
                Version::First => match migrate_site(&mut conn) {
                    Ok(()) => Ok(StoredSite::adopt(alloc, conn, options, state)),
                    Err(fault) => Err(Unfound { conn, fault }),
                },
                Version::Second => Ok(StoredSite::adopt(alloc, conn, options, state)),
            }
        }
        Err(fault) => Err(Unfound { conn, fault }),
    }
}
