//! `copy`: the records of all sites of a folder, as they stand at one moment, in another folder.

ghost use Rattle.std.specs.Prelude.{◌≡◌, ◌⊎◌, ◌≤◌, ◌↔◌, List, IfErr, IfOk, IsTrue, OnOk, length};
ghost use Rattle.site_core.specs.Records.{Record};
ghost use Rattle.site_recovery.specs.Checking.{records_at};
ghost use Rattle.site_folders.specs.Faults.{EndsInVain, OpensInVain};
ghost use Rattle.site_folders.specs.FileCalls.{Calls, Led, ReadFile};
ghost use Rattle.site_folders.specs.Keepers.{AreShown};
ghost use Rattle.site_folders.specs.Lists.{Lists};
ghost use Rattle.site_folders.specs.Paths.{list_path};
ghost use Rattle.folder_commands.specs.Copying.{CopiesAt, CopiesFirst, CopiesListed, CopiesSites, CopiesSome, CopyFails, ListedFails, makes_copies};

use crate::making::{push_existing, push_list};
use event_json::Sites;
use keeper_core::SiteKeeper;
use recall_outcomes::{Fault, Notes, Outcome, Output};
use recall_text::{SiteList, read_sites};
use site_core::SiteState;
use site_folders::{Files, close_all, file_path, list_path, open_all, open_records};
use std::alloc::Global;

/// Copies the records of all sites of a folder to another folder, which has to be there: a file for each site is made
/// in the record that its file keeps, and last the list, by which that folder is one. The files of all sites are open
/// together meanwhile, so the copy is of one moment, and each is read and checked as any command does. Nothing of the
/// folder changes.
///
/// It is refused, and nothing is made, for each site that has a file in the other folder, and where none has one and
/// that folder has a list.
///
/// # Errors
/// In this order: those of the folder's list, that of the first look for a file that fails, and those of opening the
/// sites' files: nothing was made. Then that of the first file that can't be made, behind those of the sites before it,
/// and that of the list, behind the files of all sites. `NoMemory` at any time, with the files of the first sites made,
/// or none.
pub fn copy<K: SiteKeeper, F: Files<K>>(
    alloc: Global,
    files: &mut F,
    folder: &str,
    to: &str,
) -> Result<Output, Fault>
    // The folder's list was read, and what is there already of the copy is reported, in order, and nothing was made. Or
    // nothing is there; the files of all sites were opened, and while all were open, the file of each was made, in
    // order, in the very record that its keeper shows; they were closed, and last the list was written with the text
    // that was read.
    ensures calls { IfOk result (λ output. Led F.does files.old files.new
        (CopiesAt K.shown K.stored folder.now to.now output)) }
    // A call failed with the fault, or the list is a bad one, or a file isn't that of its site, or memory ran out.
    // Nothing was made; or the files of the first sites were, in order, each in the very record that its keeper shows,
    // those that were opened were closed, and the list wasn't written.
    // Not covered: what a call that failed left.
    ensures failed { IfErr result (λ fault. Led F.does files.old files.new
        (CopyFails K.shown K.stored folder.now to.now fault)) }
{
    let (text, sites) = read_list(alloc, files, folder)?;
    let outcome = copy_listed(alloc, files, folder, to, text.as_slice(), &sites)?;
    Ok(Output {
        sites,
        outcome,
        notes: Notes::Nothing,
    })
}

/// The text of a folder's list, and the sites that it lists.
fn read_list<K: SiteKeeper, F: Files<K>>(
    alloc: Global,
    files: &mut F,
    folder: &str,
) -> Result<(Vec<u8>, Sites), Fault>
    ensures read { IfOk result (λ r.
        F.does files.old (ReadFile (list_path folder.now) r.0.items) files.new) }
    ensures lists { IfOk result (λ r. Lists r.0.items r.1) }
    ensures failed { IfErr result (λ fault.
        Led F.does files.old files.new (EndsInVain K.shown folder.now fault)) }
{
    let path = list_path(alloc, folder)?;
    let text = files.read(alloc, path.as_str())?;
    let list = read_sites(alloc, text.as_slice())?;
    if is_good(&list) {
        Ok((text, list.sites))
    } else {
        files.blame(path.as_str());
        Err(Fault::BadSites)
    }
}

/// Whether no line of a list is refused, and it has at least two sites.
fn is_good(list: &SiteList) -> bool
    ensures { IsTrue result ↔ ((length list.now.refused.items ≡ 0) × (2 ≤ length list.now.sites)) }
{
    list.refused.as_slice().is_empty() && list.sites.ready()
}

/// Copies the records of the sites that a text lists, where nothing is refused.
fn copy_listed<K: SiteKeeper, F: Files<K>>(
    alloc: Global,
    files: &mut F,
    folder: &str,
    to: &str,
    text: &[u8],
    sites: &Sites,
) -> Result<Outcome, Fault>
    ensures calls { IfOk result (λ outcome. Led F.does files.old files.new
        (CopiesListed K.shown K.stored folder.now to.now sites.now text.now outcome)) }
    ensures failed { IfErr result (λ fault. Led F.does files.old files.new
        (ListedFails K.shown K.stored folder.now to.now sites.now fault)) }
{
    let mut refusals = Vec::new(alloc);
    push_existing(alloc, files, to, sites, &mut refusals)?;
    push_list(alloc, files, to, &mut refusals)?;
    if refusals.is_empty() {
        copy_folder(alloc, files, folder, to, text, sites)?;
        Ok(Outcome::Created)
    } else {
        Ok(Outcome::Refused(refusals))
    }
}

/// Copies the records of all sites, and then the list.
fn copy_folder<K: SiteKeeper, F: Files<K>>(
    alloc: Global,
    files: &mut F,
    folder: &str,
    to: &str,
    text: &[u8],
    sites: &Sites,
) -> Result<(), Fault>
    ensures copied { OnOk result (Led F.does files.old files.new
        (CopiesSites K.shown K.stored folder.now to.now sites.now text.now)) }
    ensures failed { IfErr result (λ fault. Led F.does files.old files.new
        (λ calls. OpensInVain K.shown folder.now sites.now fault calls
        ⊎ CopiesSome K.shown K.stored folder.now to.now sites.now fault calls)) }
{
    let keepers = open_all(alloc, files, folder, sites)?;
    let made = copy_keepers(alloc, files, to, keepers.as_slice());
    close_all(files, keepers);
    made?;
    let path = list_path(alloc, to)?;
    files.write_new(path.as_str(), text)
}

/// Makes in a folder the files of the records that keepers show.
fn copy_keepers<K: SiteKeeper, F: Files<K>>(
    alloc: Global,
    files: &mut F,
    to: &str,
    keepers: &[K],
) -> Result<(), Fault>
    requires { (rs : List Record) × AreShown K.shown keepers.now rs }
    ensures made { (rs : List Record) → AreShown K.shown keepers.now rs
        → OnOk result (Calls F.does files.old (makes_copies to.now rs) files.new) }
    ensures failed { (rs : List Record) → AreShown K.shown keepers.now rs
        → IfErr result (λ fault. Led F.does files.old files.new (CopiesFirst to.now rs fault)) }
{
    let records = open_records(alloc, keepers)?;
    make_copies(alloc, files, to, records.as_slice())
}

/// Makes in a folder the files of these records, one after another.
fn make_copies<K: SiteKeeper, F: Files<K>>(
    alloc: Global,
    files: &mut F,
    to: &str,
    records: &[&SiteState],
) -> Result<(), Fault>
    ensures made { OnOk result
        (Calls F.does files.old (makes_copies to.now (records_at records.now)) files.new) }
    ensures failed { IfErr result (λ fault. Led F.does files.old files.new
        (CopiesFirst to.now (records_at records.now) fault)) }
{
    for state in records {
        let path = file_path(alloc, to, state.sites(), state.me())?;
        let copied = state.copy(alloc)?;
        files.create_site(alloc, path.as_str(), copied)?;
    }
    Ok(())
}
