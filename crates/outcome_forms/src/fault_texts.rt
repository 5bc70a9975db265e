//! Faults and what is known of their causes, in words: one line a kind.

use crate::forms::Form;
use crate::shown_texts::shown;
use recall_outcomes::{Cause, Failure, Fault};
use std::alloc::{AllocError, Global};

/// The name of a fault.
pub(crate) fn fault_name(fault: Fault) -> &'static str {
    match fault {
        Fault::NoMemory => "NoMemory",
        Fault::Read => "Read",
        Fault::Write => "Write",
        Fault::BadSites => "BadSites",
        Fault::OtherSites => "OtherSites",
        Fault::NotAStore => "NotAStore",
        Fault::Version => "Version",
        Fault::OtherSite => "OtherSite",
        Fault::BadRow => "BadRow",
        Fault::Device => "Device",
        Fault::Store => "Store",
        Fault::Closed => "Closed",
        Fault::SiteLost => "SiteLost",
        Fault::GaveUp => "GaveUp",
    }
}

/// The line of a fault by its name alone, as `fault Read`, with its LF.
pub fn fault_line(fault: Fault) -> &'static str {
    match fault {
        Fault::NoMemory => "fault NoMemory\n",
        Fault::Read => "fault Read\n",
        Fault::Write => "fault Write\n",
        Fault::BadSites => "fault BadSites\n",
        Fault::OtherSites => "fault OtherSites\n",
        Fault::NotAStore => "fault NotAStore\n",
        Fault::Version => "fault Version\n",
        Fault::OtherSite => "fault OtherSite\n",
        Fault::BadRow => "fault BadRow\n",
        Fault::Device => "fault Device\n",
        Fault::Store => "fault Store\n",
        Fault::Closed => "fault Closed\n",
        Fault::SiteLost => "fault SiteLost\n",
        Fault::GaveUp => "fault GaveUp\n",
    }
}

/// The same in this form.
pub(crate) fn bare_line(form: Form, fault: Fault) -> &'static str {
    match form {
        Form::Text | Form::Csv | Form::GuardedCsv | Form::Dot => fault_line(fault),
        Form::Json => json_line(fault),
    }
}

fn json_line(fault: Fault) -> &'static str {
    match fault {
        Fault::NoMemory => "{\"fault\":\"NoMemory\"}\n",
        Fault::Read => "{\"fault\":\"Read\"}\n",
        Fault::Write => "{\"fault\":\"Write\"}\n",
        Fault::BadSites => "{\"fault\":\"BadSites\"}\n",
        Fault::OtherSites => "{\"fault\":\"OtherSites\"}\n",
        Fault::NotAStore => "{\"fault\":\"NotAStore\"}\n",
        Fault::Version => "{\"fault\":\"Version\"}\n",
        Fault::OtherSite => "{\"fault\":\"OtherSite\"}\n",
        Fault::BadRow => "{\"fault\":\"BadRow\"}\n",
        Fault::Device => "{\"fault\":\"Device\"}\n",
        Fault::Store => "{\"fault\":\"Store\"}\n",
        Fault::Closed => "{\"fault\":\"Closed\"}\n",
        Fault::SiteLost => "{\"fault\":\"SiteLost\"}\n",
        Fault::GaveUp => "{\"fault\":\"GaveUp\"}\n",
    }
}

/// What a fault means and what to do: a sentence without a full stop.
fn fault_sentence(fault: Fault) -> &'static str {
    match fault {
        Fault::NoMemory => {
            "memory ran out: of a capture or a start the step may be kept all the same, which `recall audit` or the same capture again shows"
        }
        Fault::Read => "a file is missing or wasn't read: look at its path",
        Fault::Write => {
            "a file or the standard output wasn't written, and what was asked for may have been done: make room, and look with `recall audit`"
        }
        Fault::BadSites => {
            "the folder's list of sites isn't the one that `recall init` wrote: put it back"
        }
        Fault::OtherSites => {
            "a site's file has another list of sites than the folder: put the list back as `recall init` wrote it"
        }
        Fault::NotAStore => "a site's file is none that this program made: put back a backup",
        Fault::Version => "a site's file is of another version: use the program that made it",
        Fault::OtherSite => "a site's file is another site's: put the right file there",
        Fault::BadRow => "a site's file was changed by another program: put back a backup",
        Fault::Device => {
            "the disk failed or is full, or a file can't be opened: each file has the record before its last step or after it, so see to the cause and run the command again"
        }
        Fault::Store => {
            "the database refused a step, whose record is the one before it or after it: run the command again, and report it if it stays"
        }
        Fault::Closed => "a site is closed, which no command brings about: report it",
        Fault::SiteLost => {
            "a site's disk failed in the run, and its file wasn't opened again: see to the disk, and run again"
        }
        Fault::GaveUp => {
            "the limit of a site's turns gave up, which this program's never does: report it"
        }
    }
}

/// What the cause of a fault says beside that, or the fault itself where it says no more.
fn sentence_of(fault: Fault, failure: Option<&Failure>) -> &'static str {
    match failure.and_then(|failure| failure.cause.as_ref()) {
        Some(Cause::InUse) => {
            "another program has the file open: run the command again once that has ended, or with `--wait 60`"
        }
        Some(Cause::Damaged) => {
            "the file's bytes aren't those that were written: put back the last backup of all sites' files, and capture again what came since"
        }
        Some(Cause::NoSpace) => {
            "there is no room on the disk: each file has the record before its last step or after it, so make room and run the command again"
        }
        Some(Cause::NoPermission) => {
            "this user may not open the file as the program needs it: let the user that runs it read and write the folder and its files"
        }
        _ => fault_sentence(fault),
    }
}

/// The name of the kind of a cause, as `NoSpace`.
pub(crate) fn cause_kind(cause: &Cause) -> &'static str {
    match cause {
        Cause::InUse => "InUse",
        Cause::NoPermission => "NoPermission",
        Cause::NoSpace => "NoSpace",
        Cause::Missing => "Missing",
        Cause::Exists => "Exists",
        Cause::NotAFile => "NotAFile",
        Cause::HardLink => "HardLink",
        Cause::Journal => "Journal",
        Cause::Damaged => "Damaged",
        Cause::NoDatabase => "NoDatabase",
        Cause::Unsound => "Unsound",
        Cause::TableMissing(_) => "TableMissing",
        Cause::Foreign(_) => "Foreign",
        Cause::OtherTables => "OtherTables",
        Cause::NoStoreRow => "NoStoreRow",
        Cause::Row { table: _, row: _ } => "Row",
        Cause::Version(_) => "Version",
        Cause::Site(_) => "Site",
        Cause::Other(_) => "Other",
    }
}

/// A cause in words, as `no space left`: what is told behind the file's path.
pub(crate) fn cause_words(alloc: Global, cause: &Cause) -> Result<String, AllocError> {
    match cause {
        Cause::InUse => String::from_str(alloc, "in use by another program"),
        Cause::NoPermission => String::from_str(alloc, "no permission"),
        Cause::NoSpace => String::from_str(alloc, "no space left"),
        Cause::Missing => String::from_str(alloc, "no such file or folder"),
        Cause::Exists => String::from_str(alloc, "there already"),
        Cause::NotAFile => String::from_str(alloc, "not a regular file"),
        Cause::HardLink => String::from_str(alloc, "a hard link"),
        Cause::Journal => {
            String::from_str(
                alloc,
                "sqlite left a journal of it, which sqlite3 plays back",
            )
        }
        Cause::Damaged => String::from_str(alloc, "damaged"),
        Cause::NoDatabase => String::from_str(alloc, "no sqlite database"),
        Cause::Unsound => String::from_str(
            alloc,
            "a row breaks a rule of its table, or a declaration isn't read",
        ),
        Cause::TableMissing(table) => format!(in alloc; "the table {table} is missing"),
        Cause::Foreign(name) => format!(in alloc; "{name} isn't of a site"),
        Cause::OtherTables => String::from_str(alloc, "a table is declared otherwise"),
        Cause::NoStoreRow => {
            String::from_str(
                alloc,
                "the table store has no row of the version of the tables",
            )
        }
        Cause::Row { table, row } => format!(in alloc; "row {row} of the table {table}"),
        Cause::Version(version) => format!(in alloc; "version {version}"),
        Cause::Site(name) => format!(in alloc; "the file of {name}"),
        Cause::Other(text) => String::from_str(alloc, text.as_str()),
    }
}

/// The file that a fault is about and what is known of that, as `file f/north.db: no space left`, with its LF. It is one
/// line of plain characters, whatever the file's name is and the cause names.
pub fn failure_line(alloc: Global, failure: &Failure) -> Result<String, AllocError> {
    let file = shown(alloc, failure.file.as_str())?;
    match &failure.cause {
        Some(cause) => {
            let words = shown(alloc, cause_words(alloc, cause)?.as_str())?;
            format!(in alloc; "file {file}: {words}\n")
        }
        None => format!(in alloc; "file {file}\n"),
    }
}

/// A fault in lines of words: its name, the file that it is about, and what it means.
pub(crate) fn fault_text(
    alloc: Global,
    fault: Fault,
    failure: Option<&Failure>,
) -> Result<String, AllocError> {
    let mut text = String::from_str(alloc, fault_line(fault))?;
    if let Some(failure) = failure {
        text.push_str(failure_line(alloc, failure)?.as_str())?;
    }
    text.push_str(sentence_of(fault, failure))?;
    text.push_str("\n")?;
    Ok(text)
}
