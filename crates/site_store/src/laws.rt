//! Laws of a site's tables, for proofs of the crates above. A law of all records is a function with an empty body whose
//! contract is the law; one of a site, whose type says it, takes the site.

ghost use Rattle.site_core.specs.Records.{Record};
ghost use Rattle.site_store.specs.Crashes.{StandsFor, IsAfterCrash, AreNamed, OpensAfter, CallsLeaveOwn, CallsKeepToOldOrNew};
ghost use Rattle.site_store.specs.Laws.{RowsOfARecordRise};
ghost use Rattle.site_store.specs.Leavings.{LeavesOwn};
ghost use Rattle.site_store.specs.Findable.{MayBeFound};

use crate::opening::{Unfound, open_site};
use crate::sites::StoredSite;
use sqlite::{Connection, FileStore, Options};
use sqlite_disk::Disk;
use std::alloc::Global;
use std::hash::RandomState;

/// In each table the rows of a record rise by the table's key, so that no two have one key.
pub fn rows_of_a_record_rise()
    ensures { RowsOfARecordRise }
{}

/// The record that a site shows, and each in which it may be opened while it is closed, is found where tables list its
/// rows, whose texts are UTF-8.
pub fn records_of_sites_may_be_found<D: Disk + Drop>(site: &StoredSite<D>)
    ensures { (r : Record) → StandsFor site.now r → MayBeFound r }
{
    site.show_records();
}

/// From call to call a crash leaves what is the site's own: the record that it shows, or one in which it may be opened.
/// These are the record that it showed before a step or a stop, and the one after the input.
pub fn calls_leave_what_is_the_sites_own<D: Disk>()
    // Not covered: a reopening that gets no connection.
    ensures leaves { CallsLeaveOwn D.Disk }
    ensures records { CallsKeepToOldOrNew D.Disk }
{}

/// A site that was lost in a crash is opened by its name in the record that it showed, or in one in which it might have
/// been opened, and in no third. The site stands for the one that was lost, and the connection is one to what that
/// left.
///
/// # Errors
/// On a disk that doesn't fail `NoMemory` alone.
pub fn a_crash_leaves_the_old_or_the_new<D: Disk + Drop>(
    alloc: Global,
    keys: RandomState,
    lost: &StoredSite<D>,
    conn: Connection<FileStore<D>>,
    options: Options,
    name: &str,
) -> Result<StoredSite<D>, Unfound<D>>
    // Not covered: that the connection is made, which the database says of its own; that both records have the name is
    // asked of the caller.
    ensures { LeavesOwn lost.now → AreNamed lost.now name.now → IsAfterCrash lost.now conn
        → OpensAfter lost.now result }
{
    lost.show_records();
    open_site(alloc, keys, conn, options, name)
}
