//! The tables of a site made, with all rows of its record.
ghost use Rattle.std.specs.Prelude.{◌≡◌, ◌↔◌, false, Err, IsTrue, IfErr, OnOk};
ghost use Rattle.sqlite.specs.Held.{state};
ghost use Rattle.keeper_core.specs.Keeping.{HindersOpening};
ghost use Rattle.site_tables.specs.HonestDisks.{OnHonestDisk};
ghost use Rattle.site_tables.specs.Tables.{no_schema};
ghost use Rattle.site_store.specs.Findable.{MayBeFound};
ghost use Rattle.site_store.specs.Openings.{FailsToBegin};
ghost use Rattle.site_store.specs.StepWritten.{Keeps, IsInUse, BeginsAs};

use crate::finding::opening_fault;
use keeper_core::KeepFault;
use site_core::SiteState;
use site_rows::rows_of;
use site_tables::create_site;
use sqlite::{Alter, Connection};
use sqlite_schema::schema::Schema;
use std::alloc::Global;

/// Whether a database has no table, no index and no view.
fn is_empty(schema: &Schema) -> bool
    ensures { IsTrue result ↔ (schema.now ≡ no_schema) }
{
    schema.tables.is_empty() && schema.indexes.is_empty() && schema.views.is_empty()
}

/// Makes the tables with the rows of a record in an empty database, in one transaction.
///
/// # Errors
/// `NoMemory`, `Device` or `Store`, the last also where the database isn't empty, which then is as it was. A crash then
/// leaves what it would have left before, or all tables with these rows.
pub fn begin_tables<S: Alter>(
    alloc: Global,
    conn: &mut Connection<S>,
    site: &SiteState,
) -> Result<(), KeepFault>
    ensures stored { OnHonestDisk S.Store conn.new
        (OnOk result (Keeps site.now (state S.Store conn.new))) }
    ensures found { OnOk result (MayBeFound site.now) }
    ensures kind { IfErr result HindersOpening }
    ensures cause { OnHonestDisk S.Store conn.new ((state S.Store conn.old).in_transaction ≡ false
        → (state S.Store conn.old).now.schema ≡ no_schema
        → IfErr result (FailsToBegin (state S.Store conn.old) (state S.Store conn.new))) }
    ensures crash { BeginsAs site.now (state S.Store conn.old) (state S.Store conn.new) }
    ensures in_use { IsInUse (state S.Store conn.old) → (result ≡ Err KeepFault.Store)
        × (conn.new ≡ conn.old) }
{
    if !conn.is_autocommit() || !is_empty(conn.schema()) {
        return Err(KeepFault::Store);
    }
    let Ok(rows) = rows_of(alloc, site) else {
        return Err(KeepFault::NoMemory);
    };
    match create_site(alloc, conn, &rows) {
        Ok(()) => Ok(()),
        Err(error) => Err(opening_fault(&error)),
    }
}
