//! A site's tables made, with the rows of the site, in one transaction.
ghost use Rattle.std.specs.Prelude.{◌≡◌, false, IfErr, OnOk};
ghost use Rattle.sqlite.specs.State.{Survives};
ghost use Rattle.sqlite.specs.Held.{state};
ghost use Rattle.site_tables.specs.Causes.{HasReason};
ghost use Rattle.site_tables.specs.HonestDisks.{OnHonestDisk};
ghost use Rattle.site_tables.specs.Stored.{Holds, IsStored, contents_of};
ghost use Rattle.site_tables.specs.Tables.{no_schema};

use crate::all_tables::{create_tables, fill};
use site_rows::Rows;
use sqlite::{Alter, Connection, Error};
use std::alloc::Global;

/// Makes the tables with these rows, in one transaction, in an empty database. At any moment a crash leaves none of
/// them, or all with these rows.
///
/// # Errors
/// The database's: its store failed, for a cause that shows, or it refused a statement.
pub fn create_site<S: Alter>(
    alloc: Global,
    conn: &mut Connection<S>,
    rows: &Rows,
) -> Result<(), Error>
    requires outside { conn.old.in_transaction ≡ false }
    ensures mode { conn.new.in_transaction ≡ false }
    // All rows of a record are written in an empty database, in one transaction: once answered, a crash leaves these
    // rows and no others.
    // Not covered: which texts insert the rows, by eights or one by one.
    ensures stored { OnHonestDisk S.Store conn.new ((state S.Store conn.old).now.schema ≡ no_schema
        → OnOk result (IsStored (contents_of rows.now) (state S.Store conn.new))) }
    ensures cause { OnHonestDisk S.Store conn.new ((state S.Store conn.old).now.schema ≡ no_schema
        → IfErr result (HasReason (state S.Store conn.old) (state S.Store conn.new))) }
    // While that runs, and after an error, a crash leaves what it would have left before, or all tables with just these
    // rows, and a database that lists them and nothing else.
    ensures crash { Survives (state S.Store conn.old) (state S.Store conn.new) (λ db.
        (state S.Store conn.old).now.schema ≡ no_schema → Holds (contents_of rows.now) db) }
{
    let mut written: u64 = 0;
    let mut tx = conn.transaction();
    create_tables(&mut tx)?;
    fill(alloc, &mut tx, rows, &mut written)?;
    tx.commit()
}
