//! The tables of the first version made those of the second, in one transaction.
ghost use Rattle.std.specs.Prelude.{◌≡◌, false, IfErr, OnOk};
ghost use Rattle.sqlite.specs.State.{Survives};
ghost use Rattle.sqlite.specs.Held.{state};
ghost use Rattle.site_rows.specs.declared.tables.Version.TheVariants.{First};
ghost use Rattle.site_tables.specs.Causes.{HasReason};
ghost use Rattle.site_tables.specs.HonestDisks.{OnHonestDisk};
ghost use Rattle.site_tables.specs.Migrated.{migrated};
ghost use Rattle.site_tables.specs.Stored.{Contents, Holds, IsStored, IsStoredUnder, after};

use crate::all_tables::create_packs;
use crate::store_table::set_version;
use site_rows::Version;
use sqlite::{Alter, Connection, Error};

/// Makes the tables that the second version has more, and writes its number, in one transaction, whose commit is the
/// last call of the database. At any moment a crash leaves the first version or the second, with the same rows.
///
/// # Errors
/// The database's: its store failed, for a cause that shows, or it refused a statement.
pub fn migrate<S: Alter>(conn: &mut Connection<S>) -> Result<(), Error>
    requires outside { conn.old.in_transaction ≡ false }
    ensures mode { conn.new.in_transaction ≡ false }
    // In one transaction, whose commit is the last call of the database: once answered, a crash leaves the same rows
    // under the second version and no others; at each moment, and after an error, those or what it would have left
    // before.
    ensures done { OnHonestDisk S.Store conn.new ((before : Contents)
        → IsStoredUnder First before (state S.Store conn.old)
        → OnOk result (IsStored (after migrated before) (state S.Store conn.new))) }
    ensures cause { OnHonestDisk S.Store conn.new ((before : Contents)
        → IsStoredUnder First before (state S.Store conn.old)
        → IfErr result (HasReason (state S.Store conn.old) (state S.Store conn.new))) }
    ensures crash { Survives (state S.Store conn.old) (state S.Store conn.new) (λ db.
        (before : Contents) → IsStoredUnder First before (state S.Store conn.old)
        → Holds (after migrated before) db) }
{
    let mut tx = conn.transaction();
    create_packs(&mut tx)?;
    set_version(&mut tx, Version::Second.number())?;
    tx.commit()
}
