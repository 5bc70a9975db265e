//! A step that says, where it fails, whether the connection is open still.
ghost use Rattle.std.specs.Prelude.{◌≡◌, ◌+◌, false, min, IsTrue, IfErr, OnOk};
ghost use Rattle.sqlite.specs.Tree.{Trees};
ghost use Rattle.sqlite.specs.State.{IsUnchanged, Survives};
ghost use Rattle.sqlite.specs.Held.{state};
ghost use Rattle.site_tables.specs.Causes.{HasReason};
ghost use Rattle.site_tables.specs.Trying.{error_in};
ghost use Rattle.site_tables.specs.Changed.{changed, rows_written};
ghost use Rattle.site_tables.specs.HonestDisks.{OnHonestDisk};
ghost use Rattle.site_tables.specs.Stored.{Contents, Holds, IsStored, after};

use crate::step::store_changes;
use site_rows::RowChanges;
use sqlite::{Alter, Connection, Error};
use std::alloc::Global;

/// What a step that failed leaves of the connection.
#[derive(Debug, Drop)]
pub enum Left {
    /// It is open, with the rows of before.
    Kept(Error),
    /// It is perhaps shut: a crash leaves the rows of before or the changed ones.
    Shut(Error),
}

/// Whether the connection can still be used. It compiles a text and runs nothing.
fn is_still_open<S: Alter>(conn: &mut Connection<S>) -> bool
    ensures same { OnHonestDisk S.Store conn.new (IsTrue result
        → IsUnchanged (state S.Store conn.old) (state S.Store conn.new)) }
    ensures crash { Survives (state S.Store conn.old) (state S.Store conn.new) (λ _. ⊥) }
{
    conn.prepare("BEGIN").is_ok()
}

/// While the connection is open, a crash leaves its last commit and nothing else. It does nothing: its clause is a
/// law of the store.
pub fn settled<S: Alter>(conn: &Connection<S>)
    ensures { (db : Trees) → IsTrue (state S.Store conn.now).is_open
        → (state S.Store conn.now).may_leave db → db ≡ (state S.Store conn.now).committed.trees }
{}

/// Makes these changes, in one transaction, and counts the rows that it writes, as [`store_changes`].
///
/// # Errors
/// The database's, as [`store_changes`], with what it leaves: the connection open, with the rows of before and no
/// others, or perhaps shut.
pub fn try_changes<S: Alter>(
    alloc: Global,
    conn: &mut Connection<S>,
    changes: &RowChanges,
    written: &mut u64,
) -> Result<(), Left>
    requires outside { conn.old.in_transaction ≡ false }
    // The rows that the step changes are written in one transaction: once answered, a crash leaves the rows of the new
    // record and no others.
    ensures done { OnHonestDisk S.Store conn.new ((before : Contents)
        → IsStored before (state S.Store conn.old)
        → OnOk result (IsStored (after (changed changes.now) before) (state S.Store conn.new))) }
    // After an error a crash leaves those of the old record or of the new one and no third, and of the old one alone
    // while the connection is open; either way the database lists the site's tables with their indexes, and nothing
    // else.
    ensures kept { OnHonestDisk S.Store conn.new ((before : Contents)
        → IsStored before (state S.Store conn.old)
        → IfErr result (λ left. (e : _) → left ≡ Left.Kept e
        → IsStored before (state S.Store conn.new))) }
    // Writing fails only where the store did, for a cause that shows, or where a database refuses a command that writes
    // with that error, which is one of a list of refusals and none of the disk's or the memory's.
    // Not covered: that a site's own step is never refused.
    ensures cause { OnHonestDisk S.Store conn.new ((before : Contents)
        → IsStored before (state S.Store conn.old)
        → IfErr result (λ left. HasReason (state S.Store conn.old) (state S.Store conn.new)
        (error_in left))) }
    ensures crash { Survives (state S.Store conn.old) (state S.Store conn.new) (λ db.
        (before : Contents) → IsStored before (state S.Store conn.old)
        → Holds (after (changed changes.now) before) db) }
    // How many rows were written is counted.
    ensures counted { OnOk result (written.new ≡ min 18_446_744_073_709_551_615
        (written.old + rows_written changes.now)) }
{
    match store_changes(alloc, conn, changes, written) {
        Ok(()) => Ok(()),
        Err(error) => {
            if is_still_open(conn) {
                settled(conn);
                Err(Left::Kept(error))
            } else {
                Err(Left::Shut(error))
            }
        }
    }
}
