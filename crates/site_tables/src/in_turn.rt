//! Tables that are changed by one text for each element in turn.
ghost use Rattle.std.specs.Prelude.{◌≡◌, ◌+◌, length, min, OnOk};
ghost use Rattle.sqlite.specs.Held.{state};
ghost use Rattle.site_tables.specs.TableRows.{Writes, changes_each};
ghost use Rattle.site_tables.specs.Tables.{declared};

use sqlite::{Alter, Error, Transaction};

/// A change of one table by one text, of the row that an element names.
pub trait TableChange {
    ghost use Rattle.std.specs.Prelude.{List};
    ghost use Rattle.sqlite.specs.Order.{Row as SqlRow};
    ghost use Rattle.site_rows.specs.declared.tables.Table.{«Table» as SiteTable};

    /// What the text takes its values from.
    type Element;

    // The table, and what an element makes of its rows.
    ghost named: { SiteTable };

    ghost change: { Self.Element → List SqlRow → List SqlRow };

    /// Changes the table by the element, and counts the row that it writes.
    fn write<S: Alter>(
        tx: &mut Transaction<'_, S>,
        element: &Self::Element,
        written: &mut u64,
    ) -> Result<usize, Error>
        ensures same_reference { tx.new.conn.ghost_name ≡ tx.old.conn.ghost_name }
        ensures wrote { Writes (declared named) (change element.now) (state S.Store tx.old.conn.now)
            (state S.Store tx.new.conn.now) result }
        ensures counted { written.new ≡ min 18_446_744_073_709_551_615 (written.old + 1) };
}

/// Changes the table by the elements, in their order.
pub fn write_each<C: TableChange, S: Alter>(
    tx: &mut Transaction<'_, S>,
    elements: &[C::Element],
    written: &mut u64,
) -> Result<(), Error>
    ensures same_reference { tx.new.conn.ghost_name ≡ tx.old.conn.ghost_name }
    ensures wrote { Writes (declared C.named) (changes_each C.change elements.now)
        (state S.Store tx.old.conn.now) (state S.Store tx.new.conn.now) result }
    ensures counted { OnOk result (written.new ≡ min 18_446_744_073_709_551_615
        (written.old + length elements.now)) }
{
    // The count fits its type.
    let _written = *written;
    for element in elements {
        C::write(tx, element, written)?;
    }
    Ok(())
}
