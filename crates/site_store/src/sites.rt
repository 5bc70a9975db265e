//! A site kept in the tables of a file.
ghost use Rattle.std.specs.Prelude.{◌≡◌, ◌⊎◌, ◌≤◌, false, Some, None, Ok, Err, IfOk, IfErr, IsTrue, MatchResult, is_ok};
ghost use Rattle.sqlite.specs.Files.{file_state};
ghost use Rattle.sqlite.specs.State.{HasCleanDisk};
ghost use Rattle.site_core.specs.Records.{Record};
ghost use Rattle.site_core.specs.Steps.{CopiesRecord};
ghost use Rattle.keeper_core.specs.Keeping.{Applies, Stops, StaysClosed, HindersOpening, Rises};
ghost use Rattle.site_store.specs.Sites.{shown_by, MayBy, StoreFailed, may_be_opened_by, failed_by, statements_by, link_of, IsKeptOver, IsKeptBy, StoresListed, OpensIn, StaysShut, NoneListed, AppliesBy, StopsBy, ReopensBy};
ghost use Rattle.site_store.specs.Closed.{ClosesAs};
ghost use Rattle.site_store.specs.Leavings.{StillLeaves, KeepsOwn};
ghost use Rattle.site_store.specs.Opened.{MayBeFound};
ghost use Rattle.site_store.specs.Reopened.{FailsOver, IsOfDevice, IsOnlyRead, IsReopened};
ghost use Rattle.site_store.specs.Openings.{FailsToBegin};
ghost use Rattle.site_store.specs.StepWritten.{IsInUse, BeginsAs};
ghost use Rattle.site_tables.specs.Tables.{no_schema};

use crate::beginning::begin_tables;
use crate::kept::Kept;
use crate::linking::{close_copied, connect, files_behind};
use keeper_core::{Keep, KeepFault, SiteKeeper, Unopened};
use site_core::{Effects, SiteInput, SiteState};
use site_tables::settled;
use sqlite::{Connection, FileStore, Files, Options};
use sqlite_disk::Disk;
use std::alloc::{AllocError, Global};

/// What leads to the tables.
#[derive(Drop)]
pub enum Link<D: Disk> {
    /// A connection.
    Connected(Connection<FileStore<D>>),
    /// The files, where no connection could be made to them.
    Unconnected(Files<D>),
}

/// Why no site was made, and the connection, whose tables are as [`StoredSite::create`] says.
#[derive(Drop)]
pub struct Unmade<D: Disk> {
    pub conn: Connection<FileStore<D>>,
    pub fault: KeepFault,
}

/// A site kept in the tables of a file, on any disk.
pub struct StoredSite<D: Disk> {
    kept: Kept,
    link: Link<D>,
    options: Options,
}

// It is written out, so that a caller does not prove again how a connection is dropped.
impl<D: Disk + Drop> Drop for StoredSite<D> {
    fn drop(self) {
        let StoredSite {
            kept: _,
            link: _,
            options: _,
        } = self;
    }
}

impl<D: Disk + Drop> StoredSite<D> {
    /// An open site whose rows the tables hold already; its record is found where tables list them. Does not allocate.
    pub(crate) fn adopt(
        alloc: Global,
        conn: Connection<FileStore<D>>,
        options: Options,
        state: SiteState,
    ) -> StoredSite<D>
        requires { MayBeFound state }
        ensures shown { shown_by result ≡ Some state }
        ensures fresh { (failed_by result ≡ 0) × (statements_by result ≡ 0) }
        ensures over { link_of result ≡ Link.Connected conn }
        ensures stored { IsKeptOver conn state → IsKeptBy result state }
    {
        StoredSite {
            kept: Kept::new(alloc, state),
            link: Link::Connected(conn),
            options,
        }
    }

    /// A site that is kept from now on, in an empty database, whose tables are made with all rows of the record, in one
    /// transaction.
    ///
    /// # Errors
    /// `NoMemory`, `Device` or `Store`, as the store of the database failed, for a cause that shows, or it refused a
    /// statement; the last also where the database isn't empty or in a transaction, which then is as it was. The
    /// connection is given back: while the tables are made, and after an error, a crash leaves what it would have left
    /// before, or all tables with the rows of the record and no others.
    pub fn create(
        alloc: Global,
        conn: Connection<FileStore<D>>,
        options: Options,
        state: SiteState,
    ) -> Result<StoredSite<D>, Unmade<D>>
        // A site is made with the rows of its record in an empty database: once answered, a crash leaves these rows and
        // no others.
        ensures shown { IfOk result (λ site. shown_by site ≡ Some state) }
        ensures fresh { IfOk result (λ site. (failed_by site ≡ 0) × (statements_by site ≡ 0)) }
        ensures stored { IfOk result (λ site. IsKeptBy site state) }
        // From call to call a site keeps what is its own: its tables hold the record that it shows, now and after a
        // crash; and while it is closed, a crash leaves one of the records in which it may be opened, or did before the
        // reopenings that failed since.
        // Not covered: behind a reopening that got no connection it says little by itself; which files there were, each
        // reopening says of its own (`kind`).
        ensures own { IfOk result KeepsOwn }
        ensures kind { IfErr result (λ left. HindersOpening left.fault) }
        // Making the tables and writing a step fail only for a reason.
        // Not covered: that the reason is one of the site's own or of the step's.
        ensures cause { (file_state conn).in_transaction ≡ false
            → (file_state conn).now.schema ≡ no_schema
            → IfErr result (λ left. HasCleanDisk (file_state left.conn)
            → FailsToBegin (file_state conn) (file_state left.conn) left.fault) }
        // A database with tables, or in a transaction, is refused with `Store` and given back as it was. With any other
        // fault the connection comes back, too, and a crash leaves what it would have left before, or all tables with
        // just these rows.
        ensures crash { IfErr result (λ left.
            BeginsAs state (file_state conn) (file_state left.conn)) }
        ensures in_use { IsInUse (file_state conn)
            → result ≡ Err (record { conn = conn; fault = KeepFault.Store }) }
    {
        let mut conn = conn;
        match begin_tables(alloc, &mut conn, &state) {
            Ok(()) => Ok(StoredSite::adopt(alloc, conn, options, state)),
            Err(fault) => Err(Unmade { conn, fault }),
        }
    }

    /// The connection, or the files where there is none. What the site showed isn't kept.
    pub fn release(self) -> Link<D>
        ensures { result ≡ link_of self }
    {
        let StoredSite {
            kept: _,
            link,
            options: _,
        } = self;
        link
    }

    /// Closes the site. Of one that is open what isn't committed is rolled back, and the log is copied into the database
    /// file; the log of one that a failure closed stays as it is. Where the disk is honest, a crash leaves of the files the
    /// record that the site showed, or one of those in which it might have been opened.
    ///
    /// # Errors
    /// The files, where the log couldn't be copied: it is there, whole or copied in part, and the database says that a crash
    /// leaves nothing new.
    pub fn close(self) -> Result<Files<D>, Files<D>>
        // Where a crash left just the site's own before, it leaves of the files the record that the site showed, or one
        // in which it might have been opened, and no third; or the log couldn't be copied, and the database says that a
        // crash has no new outcome.
        // Not covered: that the log is copied; and where it couldn't be copied, which rows a crash leaves of the files.
        ensures { ClosesAs self result }
    {
        let StoredSite {
            kept,
            link,
            options: _,
        } = self;
        match link {
            Link::Connected(conn) => {
                if kept.is_open {
                    close_copied(conn)
                } else {
                    Ok(files_behind(Link::Connected(conn)))
                }
            }
            Link::Unconnected(files) => Ok(files),
        }
    }

    /// How many rows the last step wrote that had effects, and the two statements that begin and commit. 0 for a step
    /// that changed nothing, and before the first.
    pub fn statements(&self) -> u64
        // `statements` counts the rows that a step wrote, with the two statements that begin and commit.
        ensures { result ≡ statements_by self.now }
    {
        self.kept.statements
    }

    /// Each record in which it may be opened while it is closed is found where tables list its rows. It exposes the
    /// invariant to proofs, and has no effect at run time.
    pub(crate) fn show_records(&self)
        ensures { (r : Record) → MayBy self.now r → MayBeFound r }
    {
        self.kept.standing.show_records();
    }

    /// A step.
    fn take(&mut self, input: SiteInput) -> Result<Effects, KeepFault>
        ensures { AppliesBy self.old input result self.new }
    {
        match &mut self.link {
            Link::Connected(conn) => self.kept.apply(conn, input),
            Link::Unconnected(_) => Err(KeepFault::Closed),
        }
    }

    /// A stop.
    fn stop_in(&mut self, input: SiteInput, keep: Keep) -> Result<(), AllocError>
        ensures { StopsBy self.old input keep (is_ok result) self.new }
    {
        match &mut self.link {
            Link::Connected(conn) => self.kept.stop(conn, input, keep),
            Link::Unconnected(_) => Ok(()),
        }
    }

    /// A closed site opened again, over its files.
    ///
    /// # Errors
    /// Why it is closed still, in the records of before.
    fn open_again(self) -> Result<StoredSite<D>, Unopened<StoredSite<D>>>
        ensures opened { IfOk result (OpensIn self.kept) }
        ensures kind { IfErr result (λ left. HindersOpening left.fault) }
        ensures unopened { IfErr result (StaysShut self.kept) }
        ensures unfound { IfErr result (λ left. NoneListed self.kept left.fault left.keeper.link) }
        ensures reopened { IfErr result (λ left. IsReopened self.link left.keeper.link) }
        ensures failed { IfErr result (λ left. left.fault ≡ KeepFault.Device
            → IsOfDevice self.link left.keeper.link) }
    {
        let StoredSite {
            mut kept,
            link,
            options,
        } = self;
        kept.is_open = false;
        match connect(kept.alloc, link, options) {
            Ok(conn) => find_over(kept, conn, options),
            Err((error, files)) => {
                let fault = kept.hindered(&error);
                let keeper = StoredSite {
                    kept,
                    link: Link::Unconnected(files),
                    options,
                };
                Err(Unopened { keeper, fault })
            }
        }
    }
}

impl<D: Disk + Drop> SiteKeeper for StoredSite<D> {
    ghost shown = { shown_by };

    ghost may = { MayBy };

    ghost may_be_opened = { may_be_opened_by };

    ghost failed = { failed_by };

    ghost store_failed = { StoreFailed };

    ghost stored = { KeepsOwn };

    ghost applies = { AppliesBy };

    ghost stops = { StopsBy };

    ghost reopens = { ReopensBy };

    fn view(&self) -> Option<&SiteState> {
        match &self.link {
            Link::Connected(_) if self.kept.is_open => Some(self.kept.standing.state()),
            _ => None,
        }
    }

    fn failures(&self) -> u64 {
        self.kept.failures
    }

    #[tactic(auto, using(crate::proofs::SiteSteps::open_by, crate::proofs::SiteSteps::memory_by, crate::proofs::SiteSteps::closed_by, crate::proofs::SiteSteps::cause_by, crate::proofs::SiteSteps::store_by, crate::proofs::SiteSteps::count_by, crate::proofs::OwnSteps::applied))]
    fn apply(&mut self, input: SiteInput) -> Result<Effects, KeepFault>
        ensures open { (old : Record) → shown_by self.old ≡ Some old
            → Applies old input result (shown_by self.new) (MayBy self.new) }
        ensures memory { (old : Record) → shown_by self.old ≡ Some old
            → result ≡ Err KeepFault.NoMemory → CopiesRecord old input }
        ensures closed { shown_by self.old ≡ None → (result ≡ Err KeepFault.Closed)
            × (self.new ≡ self.old) }
        ensures cause { result ≡ Err KeepFault.Device
            → Rises (failed_by self.old) (failed_by self.new) }
        ensures store { result ≡ Err KeepFault.Store → StoreFailed self.new }
        ensures count { failed_by self.old ≤ failed_by self.new }
        // Where the tables held the rows of its record, a step fails on an honest disk for a cause: with `Device` only
        // where the disk's own count of its failures rose in the call, and with `Store` only where a database refuses a
        // command that writes with the error, a row was too large, or memory ran out and nobody could tell whether the
        // connection is open still.
        // Not covered: that a step of the site is never refused. A stop has no answer, and so no cause.
        //
        // Where the tables held the rows of its record, an honest disk holds after each answer those of the record that
        // it shows, now and after a crash; or, while it is closed, a crash leaves those of one of the records in which
        // it may be opened, and no others.
        //
        // What changes nothing makes no call of the database.
        ensures kind { AppliesBy self.old input result self.new }
        ensures stored { KeepsOwn self.old → KeepsOwn self.new }
    {
        self.take(input)
    }

    #[tactic(auto, using(crate::proofs::SiteSteps::stop_open_by, crate::proofs::SiteSteps::stop_closed_by, crate::proofs::SiteSteps::stop_count_by, crate::proofs::OwnSteps::stopped))]
    fn stop(&mut self, input: SiteInput, keep: Keep) -> Result<(), AllocError>
        ensures open { (old : Record) → shown_by self.old ≡ Some old
            → Stops old input keep (Rises (failed_by self.old) (failed_by self.new)
            ⊎ StoreFailed self.new) (is_ok result) (shown_by self.new) (MayBy self.new) }
        ensures closed { shown_by self.old ≡ None → self.new ≡ self.old }
        ensures count { failed_by self.old ≤ failed_by self.new }
        ensures kind { StopsBy self.old input keep (is_ok result) self.new }
        ensures stored { KeepsOwn self.old → KeepsOwn self.new }
    {
        self.stop_in(input, keep)
    }

    #[tactic(auto, using(crate::proofs::SiteSteps::stays_closed, crate::proofs::SiteSteps::left_cause, crate::proofs::SiteSteps::left_count))]
    fn reopen(self) -> Result<Self, Unopened<Self>>
        ensures open { (r : Record) → shown_by self ≡ Some r → result ≡ Ok self }
        ensures opened { shown_by self ≡ None → IfOk result (λ keeper. (r : Record) × MayBy self r
            × (shown_by keeper ≡ Some r)) }
        ensures unopened { IfErr result (λ u. HindersOpening u.fault
            × StaysClosed (MayBy self) (shown_by u.keeper) (MayBy u.keeper)) }
        ensures cause { IfErr result (λ u. u.fault ≡ KeepFault.Device
            → Rises (failed_by self) (failed_by u.keeper)) }
        ensures count { MatchResult result (λ keeper. failed_by self ≤ failed_by keeper) (λ u.
            failed_by self ≤ failed_by u.keeper) }
        // `reopen` opens in the record whose rows the tables list, of those in which it may be opened.
        //
        // Where it isn't opened it stays closed, in the same records. `Device` comes only where a failure was counted;
        // and `Store`, once the files have a connection, only where the tables list the rows of none of these records.
        // Not covered: `Store` where the files got no connection.
        //
        // The device is blamed for a reopening only where it failed: over the connection that was made to the files the
        // disk's own count of its failures rose; or no connection was made, since a sync of one of the files had failed
        // before, or with an error of the device that the database explains in its own words.
        //
        // A reopening that fails leaves of the files what closing and opening them leaves. Where they have a
        // connection, an honest disk leaves after a crash one of the records that it might leave before, and no other.
        // Not covered: where they have no connection: the database doesn't say of an opening that failed that the disk
        // was honest before it.
        ensures kind { ReopensBy self result }
        ensures leaves { IfErr result (λ u. StillLeaves (MayBy self) (link_of self)
            (link_of u.keeper)) }
        ensures stored { KeepsOwn self → MatchResult result KeepsOwn (λ u. KeepsOwn u.keeper) }
    {
        if self.view().is_some() {
            return Ok(self);
        }
        self.open_again()
    }
}

/// A closed record opened over a connection just made, in that of its records whose rows the tables list.
///
/// # Errors
/// Why it is closed still, in the records of before.
fn find_over<D: Disk + Drop>(
    kept: Kept,
    conn: Connection<FileStore<D>>,
    options: Options,
) -> Result<StoredSite<D>, Unopened<StoredSite<D>>>
    requires closed { kept.is_open ≡ false }
    requires stores { StoresListed conn }
    requires unlimited { conn.step_limit ≡ None }
    requires is_open { HasCleanDisk (file_state conn) → IsTrue (file_state conn).is_open }
    ensures opened { IfOk result (OpensIn kept) }
    ensures kind { IfErr result (λ left. HindersOpening left.fault) }
    ensures unopened { IfErr result (StaysShut kept) }
    ensures unfound { IfErr result (λ left. NoneListed kept left.fault left.keeper.link) }
    ensures read { IfErr result (λ left. IsOnlyRead conn left.keeper.link) }
    ensures failed { IfErr result (λ left. left.fault ≡ KeepFault.Device
        → FailsOver conn left.keeper.link) }
{
    let mut kept = kept;
    let mut conn = conn;
    let found = kept.find(&mut conn);
    settled(&conn);
    let keeper = StoredSite {
        kept,
        link: Link::Connected(conn),
        options,
    };
    match found {
        Ok(()) => Ok(keeper),
        Err(fault) => Err(Unopened { keeper, fault }),
    }
}
