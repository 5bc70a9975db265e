//! What is told on the error stream, as JSON: a fault and what is known of its cause, and notes.

use crate::fault_texts::{cause_kind, cause_words, fault_name};
use recall_outcomes::{Cause, Failure, Fault};
use serde_json::{Map, Value, json};
use std::alloc::{AllocError, Global};

/// A fault, and the file that it is about.
pub(crate) fn fault_json(
    alloc: Global,
    fault: Fault,
    failure: Option<&Failure>,
) -> Result<Value, AllocError> {
    let mut value = json!(in alloc; {"fault": fault_name(fault)})?;
    if let Some(failure) = failure {
        if let Some(members) = value.as_object_mut() {
            put_failure(alloc, members, failure)?;
        }
    }
    Ok(value)
}

/// Puts a file and what is known of the cause into an object.
fn put_failure(
    alloc: Global,
    members: &mut Map<String, Value>,
    failure: &Failure,
) -> Result<(), AllocError> {
    put_text(alloc, members, "file", failure.file.as_str())?;
    match &failure.cause {
        None => Ok(()),
        Some(cause) => {
            let words = cause_words(alloc, cause)?;
            put_text(alloc, members, "cause", words.as_str())?;
            put_text(alloc, members, "kind", cause_kind(cause))?;
            put_named(alloc, members, cause)
        }
    }
}

/// Puts what a cause names into an object.
fn put_named(
    alloc: Global,
    members: &mut Map<String, Value>,
    cause: &Cause,
) -> Result<(), AllocError> {
    match cause {
        Cause::TableMissing(table) => put_text(alloc, members, "table", table),
        Cause::Foreign(name) => put_text(alloc, members, "name", name.as_str()),
        Cause::Row { table, row } => {
            put_text(alloc, members, "table", table)?;
            put(alloc, members, "row", Value::from(*row))
        }
        Cause::Version(version) => put(alloc, members, "version", Value::from(*version)),
        Cause::Site(site) => put_text(alloc, members, "site", site.as_str()),
        _ => Ok(()),
    }
}

fn put_text(
    alloc: Global,
    members: &mut Map<String, Value>,
    name: &str,
    text: &str,
) -> Result<(), AllocError> {
    put(alloc, members, name, Value::try_from_str(alloc, text)?)
}

fn put(
    alloc: Global,
    members: &mut Map<String, Value>,
    name: &str,
    value: Value,
) -> Result<(), AllocError> {
    serde_json::put(members, alloc, name, value)?;
    Ok(())
}

/// A value for each line of a text, a line for each.
pub(crate) fn note_lines(alloc: Global, text: &str) -> Result<String, AllocError> {
    let mut notes = String::new(alloc);
    for line in text.lines() {
        let note = line.strip_prefix("note: ").unwrap_or(line);
        let note = json!(in alloc; {"note": note})?;
        notes.push_str(note.to_string(alloc)?.as_str())?;
        notes.push_str("\n")?;
    }
    Ok(notes)
}
