//! The declarations of a site's tables, as a test of a database asks for them.

/// A column, by its name.
#[derive(Clone, Copy)]
pub enum Column {
    /// INTEGER PRIMARY KEY
    Key(&'static str),
    /// INTEGER NOT NULL
    Number(&'static str),
    /// TEXT NOT NULL
    Text(&'static str),
    /// TEXT
    MaybeText(&'static str),
}

/// What is asked of each row.
#[derive(Clone, Copy)]
pub enum Check {
    /// Nothing.
    Nothing,
    /// That the column at this place is 1.
    IsOne(usize),
    /// That the column at this place is 0 or 1.
    IsZeroOrOne(usize),
}

/// The column of another table that the column at a place refers to.
#[derive(Clone, Copy)]
pub struct Parent {
    /// The place of the column that refers.
    pub place: usize,
    /// The other table.
    pub table: &'static str,
    /// Its column.
    pub column: &'static str,
}

/// A table.
#[derive(Clone, Copy)]
pub struct Declaration {
    /// Its name.
    pub name: &'static str,
    /// The number of its tree.
    pub tree: u32,
    /// Its columns.
    pub columns: &'static [Column],
    /// The column that is the rowid.
    pub key: Option<usize>,
    /// The places of the primary key.
    pub primary: &'static [usize],
    /// The places of the one UNIQUE, or none.
    pub unique: &'static [usize],
    /// The one REFERENCES, if there is one.
    pub parent: Option<Parent>,
    /// The one CHECK, or none.
    pub check: Check,
}

/// The index that a UNIQUE makes.
#[derive(Clone, Copy)]
pub struct Index {
    /// Its name.
    pub name: &'static str,
    /// The number of its tree.
    pub tree: u32,
    /// The number of its table's.
    pub table: u32,
    /// The places of the UNIQUE.
    pub columns: &'static [usize],
}
