//! The rows that a step changes, written in one transaction.
ghost use Rattle.std.specs.Prelude.{◌≡◌, ◌+◌, [], ◌∷◌, false, length, min, IfErr, OnOk, OnErr};
ghost use Rattle.sqlite.specs.State.{Survives};
ghost use Rattle.sqlite.specs.Held.{state};
ghost use Rattle.site_rows.specs.declared.tables.Table.TheVariants.{Store, Event, Part, Pack, Packed, Quarantine, Outbox, Seen, Parent, Recall};
ghost use Rattle.site_tables.specs.Causes.{HasReason};
ghost use Rattle.site_tables.specs.Changed.{put, dropped, changed, rows_written, numbers_written};
ghost use Rattle.site_tables.specs.HonestDisks.{OnHonestDisk};
ghost use Rattle.site_tables.specs.Stored.{Contents, Holds, IsStored, IsStopped, WritesAll, after, only};

use crate::in_turn::write_each;
use crate::inserting::insert_each;
use crate::outbox_table::{DropsOutbox, PutsOutbox};
use crate::parent_table::DropsParent;
use crate::recall_table::PutsRecall;
use crate::store_table::update_store;
use site_rows::RowChanges;
use sqlite::{Alter, Connection, Error, Transaction};
use std::alloc::Global;

/// Writes the events, the members of their lists, and the packs with their children.
fn write_captured<S: Alter>(
    alloc: Global,
    tx: &mut Transaction<'_, S>,
    changes: &RowChanges,
    written: &mut u64,
) -> Result<(), Error>
    ensures same_reference { tx.new.conn.ghost_name ≡ tx.old.conn.ghost_name }
    ensures wrote { WritesAll (only (Event ∷ Part ∷ Pack ∷ Packed ∷ []) (put changes.now))
        (state S.Store tx.old.conn.now) (state S.Store tx.new.conn.now) result }
    ensures counted { OnOk result (written.new ≡ min 18_446_744_073_709_551_615
        (written.old + (length changes.now.event + length changes.now.part + length
        changes.now.pack + length changes.now.packed))) }
{
    insert_each(alloc, tx, changes.event.as_slice(), written)?;
    insert_each(alloc, tx, changes.part.as_slice(), written)?;
    insert_each(alloc, tx, changes.pack.as_slice(), written)?;
    insert_each(alloc, tx, changes.packed.as_slice(), written)
}

/// Writes what came under recalls, and the messages and parents that came with it.
fn write_recalled<S: Alter>(
    alloc: Global,
    tx: &mut Transaction<'_, S>,
    changes: &RowChanges,
    written: &mut u64,
) -> Result<(), Error>
    ensures same_reference { tx.new.conn.ghost_name ≡ tx.old.conn.ghost_name }
    ensures wrote { WritesAll (only (Quarantine ∷ Outbox ∷ Seen ∷ Parent ∷ []) (put changes.now))
        (state S.Store tx.old.conn.now) (state S.Store tx.new.conn.now) result }
    ensures counted { OnOk result (written.new ≡ min 18_446_744_073_709_551_615
        (written.old + (length changes.now.quarantine + length changes.now.outbox + length
        changes.now.seen + length changes.now.parent))) }
{
    insert_each(alloc, tx, changes.quarantine.as_slice(), written)?;
    write_each::<PutsOutbox, _>(tx, changes.outbox.as_slice(), written)?;
    insert_each(alloc, tx, changes.seen.as_slice(), written)?;
    insert_each(alloc, tx, changes.parent.as_slice(), written)
}

/// Takes out what was signalled, and writes the own recalls.
fn write_signalled<S: Alter>(
    tx: &mut Transaction<'_, S>,
    changes: &RowChanges,
    written: &mut u64,
) -> Result<(), Error>
    ensures same_reference { tx.new.conn.ghost_name ≡ tx.old.conn.ghost_name }
    ensures wrote { WritesAll (λ t rows. only (Recall ∷ []) (put changes.now) t
        (dropped changes.now t rows)) (state S.Store tx.old.conn.now)
        (state S.Store tx.new.conn.now) result }
    ensures counted { OnOk result (written.new ≡ min 18_446_744_073_709_551_615
        (written.old + (length changes.now.signalled + length changes.now.left + length
        changes.now.recall))) }
{
    write_each::<DropsOutbox, _>(tx, changes.signalled.as_slice(), written)?;
    write_each::<DropsParent, _>(tx, changes.left.as_slice(), written)?;
    write_each::<PutsRecall, _>(tx, changes.recall.as_slice(), written)
}

/// Writes the next numbers, where they changed.
fn write_numbers<S: Alter>(
    tx: &mut Transaction<'_, S>,
    changes: &RowChanges,
    written: &mut u64,
) -> Result<(), Error>
    ensures same_reference { tx.new.conn.ghost_name ≡ tx.old.conn.ghost_name }
    ensures wrote { WritesAll (only (Store ∷ []) (put changes.now)) (state S.Store tx.old.conn.now)
        (state S.Store tx.new.conn.now) result }
    ensures counted { OnOk result (written.new ≡ min 18_446_744_073_709_551_615
        (written.old + numbers_written changes.now.numbers)) }
{
    // The count fits its type.
    let _written = *written;
    let Some(numbers) = &changes.numbers else {
        return Ok(());
    };
    update_store(tx, numbers, written)?;
    Ok(())
}

/// Writes the changed rows, and no others.
fn write_changes<S: Alter>(
    alloc: Global,
    tx: &mut Transaction<'_, S>,
    changes: &RowChanges,
    written: &mut u64,
) -> Result<(), Error>
    ensures same_reference { tx.new.conn.ghost_name ≡ tx.old.conn.ghost_name }
    ensures wrote { WritesAll (changed changes.now) (state S.Store tx.old.conn.now)
        (state S.Store tx.new.conn.now) result }
    ensures counted { OnOk result (written.new ≡ min 18_446_744_073_709_551_615
        (written.old + rows_written changes.now)) }
{
    write_captured(alloc, tx, changes, written)?;
    write_recalled(alloc, tx, changes, written)?;
    write_signalled(tx, changes, written)?;
    write_numbers(tx, changes, written)
}

/// Makes these changes, in one transaction, and counts the rows that it writes. The commit is the last call of the
/// database.
///
/// # Errors
/// The database's: its store failed, for a cause that shows, or it refused a statement. While the connection is open a
/// crash then leaves the rows of before; once it is shut, those or the changed ones, and no others.
pub fn store_changes<S: Alter>(
    alloc: Global,
    conn: &mut Connection<S>,
    changes: &RowChanges,
    written: &mut u64,
) -> Result<(), Error>
    requires outside { conn.old.in_transaction ≡ false }
    ensures mode { conn.new.in_transaction ≡ false }
    ensures done { OnHonestDisk S.Store conn.new ((before : Contents)
        → IsStored before (state S.Store conn.old)
        → OnOk result (IsStored (after (changed changes.now) before) (state S.Store conn.new))) }
    ensures stopped { OnHonestDisk S.Store conn.new ((before : Contents)
        → IsStored before (state S.Store conn.old)
        → OnErr result (IsStopped before (after (changed changes.now) before)
        (state S.Store conn.new))) }
    ensures crash { Survives (state S.Store conn.old) (state S.Store conn.new) (λ db.
        (before : Contents) → IsStored before (state S.Store conn.old)
        → Holds (after (changed changes.now) before) db) }
    ensures cause { OnHonestDisk S.Store conn.new ((before : Contents)
        → IsStored before (state S.Store conn.old)
        → IfErr result (HasReason (state S.Store conn.old) (state S.Store conn.new))) }
    ensures counted { OnOk result (written.new ≡ min 18_446_744_073_709_551_615
        (written.old + rows_written changes.now)) }
{
    let mut tx = conn.transaction();
    write_changes(alloc, &mut tx, changes, written)?;
    tx.commit()
}
