//! A closed record opened in that of its records whose rows the tables list.
ghost use Rattle.std.specs.Prelude.{◌≡◌, ◌⊎◌, ◌↔◌, true, Some, None, Err, IsTrue, IsSome, IfOk, IfErr, OnOk, OnErr};
ghost use Rattle.sqlite.specs.State.{Survives};
ghost use Rattle.sqlite.specs.Held.{state};
ghost use Rattle.site_core.specs.Records.{Record};
ghost use Rattle.keeper_core.specs.Keeping.{HindersOpening};
ghost use Rattle.site_rows.specs.RecordRows.{rows_of};
ghost use Rattle.site_tables.specs.HonestDisks.{OnHonestDisk};
ghost use Rattle.site_store.specs.Faults.{IsFailedIn};
ghost use Rattle.site_store.specs.Kept.{MayIn, failures_after};
ghost use Rattle.site_store.specs.Findable.{MayBeFound};
ghost use Rattle.site_store.specs.Openings.{ListsRecord, ListsRows, opening_fault};
ghost use Rattle.site_store.specs.Standing.{alone};

use crate::faults::{is_of_device, is_of_memory, one_more};
use crate::kept::Kept;
use crate::standing::Standing;
use keeper_core::KeepFault;
use site_core::SiteState;
use site_rows::{Rows, rows_of};
use site_tables::{ReadFault, read_rows};
use sqlite::{Alter, Connection, Error};
use std::alloc::{AllocError, Global};

/// What an error of the database is to a keeper that isn't open.
pub fn opening_fault(error: &Error) -> KeepFault
    ensures is { result ≡ opening_fault error.now }
    ensures kind { HindersOpening result }
{
    if is_of_device(error) {
        KeepFault::Device
    } else if is_of_memory(error) {
        KeepFault::NoMemory
    } else {
        KeepFault::Store
    }
}

/// Whether these are the rows of a record, which is found where tables list them.
fn has_rows(alloc: Global, state: &SiteState, rows: &Rows) -> Result<bool, AllocError>
    ensures same { IfOk result (λ same. IsTrue same ↔ (rows.now ≡ rows_of state.now)) }
    ensures found { IfOk result (λ _. MayBeFound state.now) }
{
    Ok(rows_of(alloc, state)? == *rows)
}

impl Kept {
    /// An open record that its tables hold already. Does not allocate.
    pub fn new(alloc: Global, state: SiteState) -> Kept
        requires { MayBeFound state }
        ensures standing { result.standing ≡ alone state }
        ensures is_open { result.is_open ≡ true }
        ensures fresh { (result.failures ≡ 0) × (result.statements ≡ 0) }
    {
        Kept {
            standing: Standing::new(state),
            is_open: true,
            failures: 0,
            statements: 0,
            alloc,
        }
    }

    /// What prevented an opening, counted where the device failed.
    pub fn hindered(&mut self, error: &Error) -> KeepFault
        ensures is { result ≡ opening_fault error.now }
        ensures kind { HindersOpening result }
        ensures counted { self.new ≡ record self.old {
          failures = failures_after result
              self.old.failures;
        } }
    {
        let fault = opening_fault(error);
        if is_of_device(error) {
            self.failures = one_more(self.failures);
        }
        fault
    }

    /// The record of these rows, of those in which a closed one may be opened, is the record from now on. The one after
    /// the step that failed is made only where the one before it has other rows.
    ///
    /// # Errors
    /// `NoMemory`, and `Store` where none of them has these rows. Nothing changes.
    fn recognise(&mut self, rows: &Rows) -> Result<(), KeepFault>
        ensures opened { OnOk result ((self.new.is_open ≡ true)
            × MayIn self.old self.new.standing.state
            × (rows.now ≡ rows_of self.new.standing.state)) }
        ensures count { OnOk result (self.new.failures ≡ self.old.failures) }
        ensures kind { IfErr result (λ fault. (fault ≡ KeepFault.NoMemory)
            ⊎ (fault ≡ KeepFault.Store)) }
        ensures other { result ≡ Err KeepFault.Store → (r : Record) → MayIn self.old r
            → rows.now ≡ rows_of r → ⊥ }
        ensures unchanged { OnErr result (self.new ≡ self.old) }
    {
        match has_rows(self.alloc, self.standing.state(), rows) {
            Ok(true) => {
                self.standing.settle();
                self.is_open = true;
                return Ok(());
            }
            Ok(false) => {}
            Err(_) => return Err(KeepFault::NoMemory),
        }
        match self.standing.after(self.alloc) {
            Ok(Some(next)) => self.recognise_next(next, rows),
            Ok(None) => Err(KeepFault::Store),
            Err(_) => Err(KeepFault::NoMemory),
        }
    }

    /// The record after the step that failed is the record from now on, where these are its rows.
    fn recognise_next(&mut self, next: SiteState, rows: &Rows) -> Result<(), KeepFault>
        ensures opened { OnOk result ((self.new.is_open ≡ true) × (self.new.standing.state ≡ next)
            × (rows.now ≡ rows_of next)) }
        ensures count { OnOk result (self.new.failures ≡ self.old.failures) }
        ensures kind { IfErr result (λ fault. (fault ≡ KeepFault.NoMemory)
            ⊎ (fault ≡ KeepFault.Store)) }
        ensures other { result ≡ Err KeepFault.Store → rows.now ≡ rows_of next → ⊥ }
        ensures unchanged { OnErr result (self.new ≡ self.old) }
    {
        match has_rows(self.alloc, &next, rows) {
            Ok(true) => {
                self.standing = Standing::new(next);
                self.is_open = true;
                Ok(())
            }
            Ok(false) => Err(KeepFault::Store),
            Err(_) => Err(KeepFault::NoMemory),
        }
    }

    /// The record whose rows the tables list, of those in which a closed one may be opened, is the record from now on.
    ///
    /// # Errors
    /// Why it is closed still, in the records of before.
    pub fn find<S: Alter>(&mut self, conn: &mut Connection<S>) -> Result<(), KeepFault>
        ensures opened { OnOk result ((self.new.is_open ≡ true)
            × MayIn self.old self.new.standing.state) }
        ensures count { OnOk result (self.new.failures ≡ self.old.failures) }
        ensures listed { OnHonestDisk S.Store conn.new
            (OnOk result (ListsRecord self.new.standing.state (state S.Store conn.old)
            (state S.Store conn.new))) }
        ensures finds { OnHonestDisk S.Store conn.new (result ≡ Err KeepFault.Store → (r : Record)
            → MayIn self.old r → ListsRows r (state S.Store conn.new)
            → IsSome (state S.Store conn.new).step_limit) }
        ensures kind { IfErr result HindersOpening }
        ensures cause { OnHonestDisk S.Store conn.new (result ≡ Err KeepFault.Device
            → IsFailedIn (state S.Store conn.old) (state S.Store conn.new)) }
        ensures unchanged { IfErr result (λ fault.
            self.new ≡ record self.old { failures = failures_after fault self.old.failures }) }
        ensures crash { Survives (state S.Store conn.old) (state S.Store conn.new) (λ _. ⊥) }
    {
        match read_rows(self.alloc, conn) {
            Ok(rows) => self.recognise(&rows),
            Err(ReadFault::NoMemory) => Err(KeepFault::NoMemory),
            Err(ReadFault::Database(error)) => Err(self.hindered(&error)),
            Err(ReadFault::OtherTables) => Err(KeepFault::Store),
            Err(ReadFault::BadRow { .. }) => Err(KeepFault::Store),
        }
    }
}
