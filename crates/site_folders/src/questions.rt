//! What is asked of the records that the sites' files keep. A question leaves them as they are.

ghost use Rattle.std.specs.Prelude.{◌≡◌, List, Some, IfErr, IfOk};
ghost use Rattle.site_core.specs.Records.{Record};
ghost use Rattle.site_recovery.specs.FittingAt.{AreAllSites};
ghost use Rattle.site_folders.specs.Faults.{EndsInVain};
ghost use Rattle.site_folders.specs.FileCalls.{Led};
ghost use Rattle.site_folders.specs.Keepers.{AreShown};
ghost use Rattle.site_folders.specs.Questions.{AsksAll, AsksSite};

use crate::folders::{Files, close_all, open_all, open_records, open_site, sites_of};
use event_json::{SiteNo, Sites};
use keeper_core::SiteKeeper;
use recall_outcomes::Fault;
use site_core::SiteState;
use std::alloc::{AllocError, Global};

/// A question to the records of all sites of a folder.
pub trait Question {
    ghost use Rattle.std.specs.Prelude.{List, IfErr, IfOk};
    ghost use Rattle.event_json.specs.Sites.{Site};
    ghost use Rattle.site_core.specs.Records.{Record};
    ghost use Rattle.site_recovery.specs.Checking.{records_at};
    ghost use Rattle.site_recovery.specs.FittingAt.{AreAllSites};

    /// What is asked of the records, once the sites are known.
    type Asked: Drop;

    /// What is answered.
    type Answer: Drop;

    /// By these sites alone the question is answered so: it is refused.
    ghost refuses: { Self → List Site → Self.Answer → Type 0 };

    /// By these sites it asks this of their records.
    ghost asks: { Self → List Site → Self.Asked → Type 0 };

    /// What is asked is answered so by these records.
    ghost answers: { Self → Self.Asked → List Record → Self.Answer → Type 0 };

    /// What it asks of the records of these sites, or the answer that refuses it.
    fn read(
        &self,
        alloc: Global,
        sites: &Sites,
    ) -> Result<Result<Self::Asked, Self::Answer>, AllocError>
        ensures asked { IfOk result (λ read. IfOk read (asks self.now sites.now)) }
        ensures refused { IfOk result (λ read. IfErr read (refuses self.now sites.now)) };

    /// The answer of the records of all sites, in the order of their numbers.
    fn answer(
        &self,
        alloc: Global,
        asked: Self::Asked,
        records: &[&SiteState],
    ) -> Result<Self::Answer, AllocError>
        requires all { AreAllSites (records_at records.now) }
        ensures answered { IfOk result (answers self.now asked (records_at records.now)) };
}

/// Asks a question of a folder: its list is read, and where the question isn't refused by that, the files of all its
/// sites are opened and closed. Returns the sites that it lists, and the answer.
///
/// # Errors
/// In this order: those of the folder's list, and those of opening the sites' files; once these are open `NoMemory`
/// alone. The sites' records are as they were.
pub fn ask<K: SiteKeeper, F: Files<K>, Q: Question>(
    alloc: Global,
    files: &mut F,
    folder: &str,
    question: &Q,
) -> Result<(Sites, Q::Answer), Fault>
    // The question is refused by the list alone; or the files of all sites were opened, the answer is what the records
    // say, and each was closed as it was.
    ensures answered { IfOk result (λ told. Led F.does files.old files.new
        (AsksAll K.shown K.stored folder.now (Q.refuses question.now) (Q.asks question.now)
        (Q.answers question.now) told.0 told.1)) }
    // A call failed with the fault, or the list is a bad one, or a file isn't that of its site, or memory ran out; and
    // no site was changed.
    ensures failed { IfErr result (λ fault.
        Led F.does files.old files.new (EndsInVain K.shown folder.now fault)) }
{
    let sites = sites_of(alloc, files, folder)?;
    match question.read(alloc, &sites)? {
        Ok(asked) => {
            let keepers = open_all(alloc, files, folder, &sites)?;
            let answer = ask_keepers(alloc, keepers.as_slice(), question, asked);
            close_all(files, keepers);
            Ok((sites, answer?))
        }
        Err(answer) => Ok((sites, answer)),
    }
}

/// Asks the records that keepers show.
fn ask_keepers<K: SiteKeeper, Q: Question>(
    alloc: Global,
    keepers: &[K],
    question: &Q,
    asked: Q::Asked,
) -> Result<Q::Answer, AllocError>
    requires { (rs : List Record) × AreShown K.shown keepers.now rs × AreAllSites rs }
    ensures answered { (rs : List Record) → AreShown K.shown keepers.now rs
        → IfOk result (Q.answers question.now asked rs) }
{
    let records = open_records(alloc, keepers)?;
    question.answer(alloc, asked, records.as_slice())
}

/// A question to the record of one site of a folder.
pub trait SiteQuestion {
    ghost use Rattle.std.specs.Prelude.{ℕ, List, IfErr, IfOk};
    ghost use Rattle.event_json.specs.Sites.{Site};
    ghost use Rattle.site_core.specs.Records.{Record};

    /// What is asked of the record, once the sites are known.
    type Asked: Drop;

    /// What is answered.
    type Answer: Drop;

    /// By these sites alone the question is answered so: it is refused.
    ghost refuses: { Self → List Site → Self.Answer → Type 0 };

    /// By these sites it asks this of the record of the site of this number.
    ghost asks: { Self → List Site → ℕ → Self.Asked → Type 0 };

    /// What is asked is answered so by this record.
    ghost answers: { Self → Self.Asked → Record → Self.Answer → Type 0 };

    /// The site that it asks and what, or the answer that refuses it.
    fn read(
        &self,
        alloc: Global,
        sites: &Sites,
    ) -> Result<Result<(SiteNo, Self::Asked), Self::Answer>, AllocError>
        ensures asked { IfOk result (λ read.
            IfOk read (λ of. asks self.now sites.now of.0 of.1)) }
        ensures refused { IfOk result (λ read. IfErr read (refuses self.now sites.now)) };

    /// The answer of the site's record.
    fn answer(
        &self,
        alloc: Global,
        asked: Self::Asked,
        state: &SiteState,
    ) -> Result<Self::Answer, AllocError>
        ensures answered { IfOk result (answers self.now asked state.now) };
}

/// Asks a question of one site of a folder: the folder's list is read, and where the question isn't refused by that,
/// the site's file is opened and closed. Returns the sites that the folder lists, and the answer.
///
/// # Errors
/// In this order: those of the folder's list, and those of opening the site's file; once it is open `NoMemory` alone.
/// The site's record is as it was.
pub fn ask_site<K: SiteKeeper, F: Files<K>, Q: SiteQuestion>(
    alloc: Global,
    files: &mut F,
    folder: &str,
    question: &Q,
) -> Result<(Sites, Q::Answer), Fault>
    ensures answered { IfOk result (λ told. Led F.does files.old files.new
        (AsksSite K.shown K.stored folder.now (Q.refuses question.now) (Q.asks question.now)
        (Q.answers question.now) told.0 told.1)) }
    ensures failed { IfErr result (λ fault.
        Led F.does files.old files.new (EndsInVain K.shown folder.now fault)) }
{
    let sites = sites_of(alloc, files, folder)?;
    match question.read(alloc, &sites)? {
        Ok(of) => {
            let keeper = open_site(alloc, files, folder, &sites, of.0)?;
            let answer = ask_keeper(alloc, &keeper, question, of.1);
            files.close_site(keeper);
            Ok((sites, answer?))
        }
        Err(answer) => Ok((sites, answer)),
    }
}

/// Asks the record that a keeper shows.
fn ask_keeper<K: SiteKeeper, Q: SiteQuestion>(
    alloc: Global,
    keeper: &K,
    question: &Q,
    asked: Q::Asked,
) -> Result<Q::Answer, AllocError>
    requires { (r : Record) × (K.shown keeper.now ≡ Some r) }
    ensures answered { (r : Record) → K.shown keeper.now ≡ Some r
        → IfOk result (Q.answers question.now asked r) }
{
    let Some(state) = keeper.view() else {
        unreachable!()
    };
    question.answer(alloc, asked, state)
}
