//! Why a call of a file failed, and what is known of the cause.

use recall_outcomes::{Cause, Failure, Fault};
use site_rows::Table;
use sqlite::Error as DatabaseError;
use std::alloc::{AllocError, Global};
use std::io::{Error, ErrorKind};

/// What an error of the system says of a file, where there is memory to keep it.
pub(crate) fn cause_of_error(alloc: Global, error: &Error) -> Option<Cause> {
    match error.kind() {
        ErrorKind::NotFound => Some(Cause::Missing),
        ErrorKind::PermissionDenied => Some(Cause::NoPermission),
        ErrorKind::StorageFull | ErrorKind::QuotaExceeded => Some(Cause::NoSpace),
        ErrorKind::IsADirectory => Some(Cause::NotAFile),
        ErrorKind::AlreadyExists => Some(Cause::Exists),
        ErrorKind::OutOfMemory => None,
        _ => other_cause(format!(in alloc; "{error}")),
    }
}

/// What an error of the database says, where there is memory to keep it.
pub(crate) fn cause_of_database(alloc: Global, error: &DatabaseError) -> Option<Cause> {
    other_cause(format!(in alloc; "{error}"))
}

fn other_cause(text: Result<String, AllocError>) -> Option<Cause> {
    match text {
        Ok(text) => Some(Cause::Other(text)),
        Err(_) => None,
    }
}

/// The name of a table.
pub(crate) fn name_of(table: Table) -> &'static str {
    match table {
        Table::Store => "store",
        Table::Site => "site",
        Table::Address => "address",
        Table::Event => "event",
        Table::Part => "part",
        Table::Pack => "pack",
        Table::Packed => "packed",
        Table::Quarantine => "quarantine",
        Table::Outbox => "outbox",
        Table::Seen => "seen",
        Table::Parent => "parent",
        Table::Recall => "recall",
    }
}

/// Why a call of a file failed.
#[derive(Debug)]
pub(crate) struct Trouble {
    /// The fault that is reported.
    pub(crate) fault: Fault,
    /// What is known of the cause, where anything is beside the fault.
    pub(crate) cause: Option<Cause>,
    /// Whether it lies with the log of a database, whose path is the database's and `-wal` behind it.
    pub(crate) of_log: bool,
}

// It is written out, so that a caller does not prove again how each part is dropped.
impl Drop for Trouble {
    fn drop(self) {
        let Trouble {
            fault: _,
            cause: _,
            of_log: _,
        } = self;
    }
}

impl Trouble {
    /// Whether another program has the file open.
    pub(crate) fn is_in_use(&self) -> bool {
        match &self.cause {
            Some(Cause::InUse) => true,
            _ => false,
        }
    }

    /// A fault of a file itself, of this cause.
    pub(crate) fn new(fault: Fault, cause: Cause) -> Trouble {
        Trouble::perhaps(fault, Some(cause))
    }

    /// A fault of a file itself, of which no more is known.
    pub(crate) fn bare(fault: Fault) -> Trouble {
        Trouble::perhaps(fault, None)
    }

    /// A fault of a file itself, and what is known of it.
    pub(crate) fn perhaps(fault: Fault, cause: Option<Cause>) -> Trouble {
        Trouble {
            fault,
            cause,
            of_log: false,
        }
    }

    /// The fault, what is known of it, and whether it lies with the log.
    pub(crate) fn parts(self) -> (Fault, Option<Cause>, bool) {
        let Trouble {
            fault,
            cause,
            of_log,
        } = self;
        (fault, cause, of_log)
    }

    /// Out of memory, or else this fault, for this error of the system.
    pub(crate) fn of_error(alloc: Global, error: &Error, fault: Fault) -> Trouble {
        if error.kind() == ErrorKind::OutOfMemory {
            Trouble::bare(Fault::NoMemory)
        } else {
            Trouble::perhaps(fault, cause_of_error(alloc, error))
        }
    }
}

/// A file of this path that a fault or a stop of a site is about, or its log, and what is known of it.
pub(crate) fn failure_of(
    alloc: Global,
    path: &str,
    of_log: bool,
    cause: Option<Cause>,
) -> Result<Failure, AllocError> {
    let mut file = String::from_str(alloc, path)?;
    if of_log {
        file.push_str("-wal")?;
    }
    Ok(Failure { file, cause })
}
