//! Tests of the parts of a table.
ghost use Rattle.std.specs.Prelude.{◌≡◌, ◌↔◌, [], ◌∷◌, map, true, false, IsTrue};
ghost use Rattle.sqlite_schema.specs.declared.schema.Action.TheVariants as actions;
ghost use Rattle.site_tables.specs.Known.{IsNamed, HasUniques, uniques_as, references_as, column_as, index_as};
ghost use Rattle.site_tables.specs.Tables.{column_of, to};

use crate::declarations::{self, Declaration, Parent};
use sqlite_items::Items;
use sqlite_schema::schema::{Action, Column, Index, Kind, Reference, Table};
use sqlite_value::keys::{Collation, Order};
use sqlite_value::value::{Bytes, Value};

/// Whether the column has this name and type, no default, and the collation by bytes.
fn is_column(column: &Column, name: &str, kind: Kind, required: bool) -> bool
    ensures { IsTrue result ↔ (column.now ≡ column_of name.now kind required) }
{
    column.name.as_slice() == name.as_bytes()
        && column.kind == kind
        && column.is_strict
        && column.not_null == required
        && matches!(column.default, Value::Null)
        && column.collation == Collation::Binary
}

/// Whether the column is this one.
fn is_declared(column: &Column, declared: &declarations::Column) -> bool
    ensures { IsTrue result ↔ (column.now ≡ column_as declared.now) }
{
    match declared {
        declarations::Column::Key(name) => is_column(column, name, Kind::Integer, false),
        declarations::Column::Number(name) => is_column(column, name, Kind::Integer, true),
        declarations::Column::Text(name) => is_column(column, name, Kind::Text, true),
        declarations::Column::MaybeText(name) => is_column(column, name, Kind::Text, false),
    }
}

/// Whether the columns are these.
pub fn are_columns(columns: &[Column], declared: &[declarations::Column]) -> bool
    ensures { IsTrue result ↔ (columns.now ≡ map column_as declared.now) }
{
    if columns.len() != declared.len() {
        return false;
    }
    for at in 0..columns.len() {
        if !is_declared(&columns[at], &declared[at]) {
            return false;
        }
    }
    true
}

/// Whether no default is computed.
fn has_no_stamp(table: &Table) -> bool
    ensures { IsTrue result ↔ (table.now.stamps ≡ record {
      places = [];
      terms = [];
      formats = [];
    }) }
{
    table.stamps.places.is_empty()
        && table.stamps.terms.roots.is_empty()
        && table.stamps.formats.is_empty()
}

/// Whether the table has this name, tree and primary key, no computed default, and no AUTOINCREMENT.
pub fn is_named(table: &Table, declared: &Declaration) -> bool
    ensures { IsTrue result ↔ IsNamed declared.now table.now }
{
    table.name.as_slice() == declared.name.as_bytes()
        && table.tree == declared.tree
        && table.key == declared.key
        && table.primary.as_slice() == declared.primary
        && table.computed.is_empty()
        && has_no_stamp(table)
        && !table.is_counted
}

/// Whether the list has these places.
fn has_places(list: &Items<usize>, places: &[usize]) -> bool
    ensures { IsTrue result ↔ (list.now ≡ places.now) }
{
    list.as_slice() == places
}

/// Whether the lists are this one, or none where it has no place.
fn are_lists(lists: &[Items<usize>], places: &[usize]) -> bool
    ensures { IsTrue result ↔ (lists.now ≡ uniques_as places.now) }
{
    match lists {
        [] => places.is_empty(),
        [list] => !places.is_empty() && has_places(list, places),
        _ => false,
    }
}

/// Whether there are as many orders, by bytes, ascending.
fn are_plain(orders: &[Order], places: &[usize]) -> bool
    ensures { IsTrue result ↔ (orders.now ≡ map (λ _. record { digits = 0 })
        (uniques_as places.now)) }
{
    match orders {
        [] => places.is_empty(),
        [order] => !places.is_empty() && order.digits == 0,
        _ => false,
    }
}

/// Whether the table has this UNIQUE alone, or none where it has no place.
pub fn has_unique(table: &Table, places: &[usize]) -> bool
    ensures { IsTrue result ↔ HasUniques (uniques_as places.now) table.now }
{
    are_lists(table.uniques.as_slice(), places) && are_plain(table.orders.as_slice(), places)
}

/// Whether there is one place, and it is this one.
fn is_one_place(places: &[usize], place: usize) -> bool
    ensures { IsTrue result ↔ (places.now ≡ place ∷ []) }
{
    match places {
        [found] => *found == place,
        _ => false,
    }
}

/// Whether the bytes are those of a text.
fn has_text(bytes: &Bytes, text: &str) -> bool
    ensures { IsTrue result ↔ (bytes.now ≡ text.now) }
{
    bytes.as_slice() == text.as_bytes()
}

/// Whether there is one name, and it is this one.
fn is_one_name(names: &[Bytes], name: &str) -> bool
    ensures { IsTrue result ↔ (names.now ≡ name.now ∷ []) }
{
    match names {
        [found] => has_text(found, name),
        _ => false,
    }
}

/// Whether nothing is done where the parent of a row goes or changes.
fn has_no_action(reference: &Reference) -> bool
    ensures { IsTrue result ↔ ((reference.now.on_delete ≡ actions.NoAction)
        × (reference.now.on_update ≡ actions.NoAction) × (reference.now.is_deferred ≡ false)) }
{
    reference.on_delete == Action::NoAction
        && reference.on_update == Action::NoAction
        && !reference.is_deferred
}

/// Whether the reference is this one.
fn is_reference(reference: &Reference, parent: &Parent) -> bool
    ensures { IsTrue result ↔ (reference.now
        ≡ to (parent.now.place ∷ []) parent.now.table.now parent.now.column.now) }
{
    is_one_place(reference.columns.as_slice(), parent.place)
        && has_text(&reference.parent, parent.table)
        && is_one_name(reference.parent_columns.as_slice(), parent.column)
        && has_no_action(reference)
}

/// Whether the references are this one, or none.
pub fn refers(references: &[Reference], parent: &Option<Parent>) -> bool
    ensures { IsTrue result ↔ (references.now ≡ references_as parent.now) }
{
    match (references, parent) {
        ([], None) => true,
        ([reference], Some(parent)) => is_reference(reference, parent),
        _ => false,
    }
}

/// Whether the index is the one that this UNIQUE makes.
pub fn is_index(index: &Index, declared: &declarations::Index) -> bool
    ensures { IsTrue result ↔ (index.now ≡ index_as declared.now) }
{
    index.name.as_slice() == declared.name.as_bytes()
        && index.tree == declared.tree
        && index.table == declared.table
        && index.columns.as_slice() == declared.columns
        && index.order.digits == 0
        && index.is_unique
}
