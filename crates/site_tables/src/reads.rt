//! The rows of a table, and of all tables.
ghost use Rattle.std.specs.Prelude.{◌≡◌, ◌≢◌, List, map, Err, IfOk, IfErr, OnOk};
ghost use Rattle.sqlite.specs.Order.{Row};
ghost use Rattle.sqlite.specs.State.{IsUnchanged, Survives};
ghost use Rattle.sqlite.specs.Held.{state};
ghost use Rattle.site_tables.specs.HonestDisks.{OnHonestDisk};
ghost use Rattle.site_tables.specs.Reads.{IsReadFault, IsListed, IsStrict};
ghost use Rattle.site_tables.specs.Tables.{Has, declared, schema_under};
ghost use Rattle.site_tables.specs.TableRows.{HasRows};

use crate::faults::ReadFault;
use crate::known_tables::is_of;
use crate::stored::read_each;
use crate::table_row::TableRow;
use event_json::Sequence;
use site_rows::Version;
use sqlite::{Alter, Connection};
use std::alloc::Global;

/// The rows of a table by their keys, read one at a time, where the tables of the database are those of a version,
/// which has the table.
///
/// # Errors
/// As [`ReadFault`] says. Nothing is changed.
pub(crate) fn read_table<T: TableRow + Drop, S: Alter>(
    alloc: Global,
    conn: &mut Connection<S>,
    version: Version,
) -> Result<Sequence<T>, ReadFault>
    requires has { Has version T.TableRow.named }
    ensures known { IfOk result (λ _. (state S.Store conn.old).now.schema ≡ schema_under version) }
    ensures rows { OnHonestDisk S.Store conn.new
        (IfOk result (λ rows. IsListed (declared T.TableRow.named)
        ((state S.Store conn.old).now.trees (declared T.TableRow.named).tree)
        (map T.TableRow.shown rows))) }
    ensures exact { OnHonestDisk S.Store conn.new ((held : List Row)
        → HasRows (declared T.TableRow.named) held
        ((state S.Store conn.old).now.trees (declared T.TableRow.named).tree)
        → IsStrict (declared T.TableRow.named) held
        → IfOk result (λ rows. map T.TableRow.shown rows ≡ held)) }
    ensures same { OnHonestDisk S.Store conn.new
        (OnOk result (IsUnchanged (state S.Store conn.old) (state S.Store conn.new))) }
    ensures other { (state S.Store conn.old).now.schema ≢ schema_under version
        → (result ≡ Err ReadFault.OtherTables) × (conn.new ≡ conn.old) }
    ensures cause { OnHonestDisk S.Store conn.new
        (IfErr result (IsReadFault version T.TableRow.named
        (declared T.TableRow.named) T.TableRow.shown (state S.Store conn.old)
        (state S.Store conn.new))) }
    ensures crash { Survives (state S.Store conn.old) (state S.Store conn.new) (λ _. ⊥) }
{
    if !is_of(conn.schema(), version) {
        return Err(ReadFault::OtherTables);
    }
    Ok(Sequence::from_vec(read_each(alloc, conn, T::table(), T::select_text())?))
}
