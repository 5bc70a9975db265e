//! What is known of the cause of a fault, and of the file that the fault is about.

/// What is known of the cause of a fault.
#[derive(Debug)]
pub enum Cause {
    /// Another program has the file open.
    InUse,
    /// This user may not do that with the file.
    NoPermission,
    /// The disk, or the user's share of it, is full.
    NoSpace,
    /// There is no such file, or no folder for it.
    Missing,
    /// There is such a file already.
    Exists,
    /// Something else stands there: a folder, a link, a device.
    NotAFile,
    /// The file has another name, under which another program may change it.
    HardLink,
    /// sqlite stopped within a change of the file, and left a journal.
    Journal,
    /// The file's bytes aren't those that were written.
    Damaged,
    /// The file doesn't begin as a database.
    NoDatabase,
    /// The database refuses its rows or the declarations of its tables.
    Unsound,
    /// A site's file lacks the table of this name.
    TableMissing(&'static str),
    /// A site's file has the table, index, view or trigger of this name, which no site's file has.
    Foreign(String),
    /// The file has all tables of a site, and not all are declared as a site declares them.
    OtherTables,
    /// The table `store` has no row.
    NoStoreRow,
    /// A row stands in no record's rows.
    Row {
        /// The name of its table.
        table: &'static str,
        /// Its place in the table, from 1, or the place where it is missing.
        row: u64,
    },
    /// The tables are of this version.
    Version(i64),
    /// The file is that of the site of this name.
    Site(String),
    /// Another one, in the words of the system or of the database.
    Other(String),
}

// It is written out, so that a caller does not prove again how each part is dropped.
impl Drop for Cause {
    fn drop(self) {
        match self {
            Cause::InUse
            | Cause::NoPermission
            | Cause::NoSpace
            | Cause::Missing
            | Cause::Exists
            | Cause::NotAFile
            | Cause::HardLink
            | Cause::Journal
            | Cause::Damaged
            | Cause::NoDatabase
            | Cause::Unsound
            | Cause::OtherTables
            | Cause::NoStoreRow => {}
            Cause::TableMissing(_) => {}
            Cause::Foreign(_) => {}
            Cause::Row { table: _, row: _ } => {}
            Cause::Version(_) => {}
            Cause::Site(_) => {}
            Cause::Other(_) => {}
        }
    }
}

/// A file that a fault is about, and what is known of the cause.
#[derive(Debug)]
pub struct Failure {
    /// The file's path.
    pub file: String,
    /// What is known of the cause, where anything is beside the fault.
    pub cause: Option<Cause>,
}

// It is written out, so that a caller does not prove again how each part is dropped.
impl Drop for Failure {
    fn drop(self) {
        let Failure { file: _, cause: _ } = self;
    }
}
