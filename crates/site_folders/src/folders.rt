//! The folder of the sites' files: its list of sites, and opening the sites.

ghost use Rattle.std.specs.Prelude.{◌≡◌, ◌≤◌, ◌↔◌, ℕ, All, List, Some, IfErr, IfOk, IsSome, IsTrue, length, string_bytes};
ghost use Rattle.recall_text.specs.Words.{name_at};
ghost use Rattle.site_core.specs.Records.{Record, IsSound};
ghost use Rattle.site_recovery.specs.Checking.{records_at};
ghost use Rattle.world_core.specs.Keepers.{AllShow};
ghost use Rattle.site_folders.specs.Faults.{EndsInVain, OpensInVain};
ghost use Rattle.site_folders.specs.FileCalls.{Calls, Led};
ghost use Rattle.site_folders.specs.Keepers.{KeepFrom, KeepsSite, ShowsSite, closes_all, opens_from, opens_site};
ghost use Rattle.site_folders.specs.Lists.{ListsSites};
ghost use Rattle.site_folders.specs.Paths.{file_path, list_path};

use event_json::laws::equal_is_same;
use event_json::{SiteNo, Sites};
use keeper_core::SiteKeeper;
use recall_outcomes::{Failure, Fault};
use recall_text::telling::name_of;
use recall_text::{SiteList, read_sites};
use site_core::SiteState;
use std::alloc::{AllocError, Global};

/// The files that the commands read, make and change. What stands behind a path no contract says: each call is stated
/// by one relation of the kind of files, so that contracts say which calls led to an outcome, or to a fault.
pub trait Files<K: SiteKeeper> {
    ghost use Rattle.std.specs.Prelude.{List, ℕ, Option, IfOk, IfErr, OnOk, option_map};
    ghost use Rattle.site_folders.specs.FileCalls.{FileCall, Blamed, ClosedSite, Failed, LookedFor, MadeSite, OpenedSite, ReadFile, ReadLine, WroteFile};

    /// From these files, this call led to those files.
    ghost does: { Self → FileCall K → Self → Type 0 };

    /// Of the file of a site at this path, which is closed, these files know this: whole lines, or nothing.
    ghost knows: { Self → List ℕ → List ℕ → Type 0 };

    /// From these files, being told to wait for so many seconds led to those files.
    ghost waits: { Self → ℕ → Self → Type 0 };

    /// Sets for how many seconds to wait for a file that another program has open. Before the first call it is none.
    fn wait_for(&mut self, seconds: u64)
        ensures { waits self.old seconds self.new };

    /// The bytes of a file. `Read` where it is missing or can't be read.
    fn read(&mut self, alloc: Global, path: &str) -> Result<Vec<u8>, Fault>
        ensures read { IfOk result (λ bytes.
            does self.old (ReadFile path.now bytes.items) self.new) }
        ensures failed { IfErr result (λ fault. does self.old (Failed path.now fault) self.new) };

    /// The next line of a file, from its first one on, without its LF; `None` at its end. A last line needs no LF.
    /// `Read` where the file is missing or can't be read.
    fn read_line(&mut self, alloc: Global, path: &str) -> Result<Option<Vec<u8>>, Fault>
        ensures read { IfOk result (λ line.
            does self.old (ReadLine path.now (option_map (λ l. l.items) line)) self.new) }
        ensures failed { IfErr result (λ fault. does self.old (Failed path.now fault) self.new) };

    /// Whether there is a file of this path.
    fn exists(&mut self, path: &str) -> Result<bool, Fault>
        ensures looked { IfOk result (λ found. does self.old (LookedFor path.now found) self.new) }
        ensures failed { IfErr result (λ fault. does self.old (Failed path.now fault) self.new) };

    /// Makes the file of a site in its first record.
    fn create_site(&mut self, alloc: Global, path: &str, state: SiteState) -> Result<(), Fault>
        ensures made { OnOk result (does self.old (MadeSite path.now state) self.new) }
        ensures failed { IfErr result (λ fault. does self.old (Failed path.now fault) self.new) };

    /// Opens the file of the site of a name, on which a crash leaves the record that is shown.
    fn open_site(&mut self, alloc: Global, path: &str, name: &str) -> Result<K, Fault>
        // The site's file was opened at its path under its name; it shows the sound record of that site of those sites,
        // and a crash leaves that there.
        ensures opened { IfOk result (λ keeper.
            does self.old (OpenedSite path.now name.now keeper) self.new) }
        ensures stored { IfOk result K.stored }
        ensures failed { IfErr result (λ fault. does self.old (Failed path.now fault) self.new) };

    /// Closes the file of a site that was opened.
    fn close_site(&mut self, keeper: K)
        ensures { does self.old (ClosedSite keeper) self.new };

    /// Makes a file of these bytes. `Write` where one of this path exists, or it can't be made.
    fn write_new(&mut self, path: &str, bytes: &[u8]) -> Result<(), Fault>
        ensures written { OnOk result (does self.old (WroteFile path.now bytes.now) self.new) }
        ensures failed { IfErr result (λ fault. does self.old (Failed path.now fault) self.new) };

    /// What is known of the failures that the file of a site met while it was open, also where it was opened again
    /// after them: a line, or nothing.
    fn known_of(&self, alloc: Global, path: &str) -> Result<String, AllocError>
        ensures { IfOk result (λ known. knows self.now path.now (string_bytes known)) };

    /// Records the file that the next fault is about, where no call of the files returned that fault.
    fn blame(&mut self, path: &str)
        ensures { does self.old (Blamed path.now) self.new };

    /// The last failure that the files know of: which file a call failed on or a fault is about, and what is known of
    /// the cause.
    fn failure(&self) -> Option<&Failure>;
}

/// The path of a folder's list of sites.
pub fn list_path(alloc: Global, folder: &str) -> Result<String, AllocError>
    ensures { IfOk result (λ t. string_bytes t ≡ list_path folder.now) }
{
    format!(in alloc; "{folder}/sites")
}

/// The path of the file of a site.
pub fn file_path(
    alloc: Global,
    folder: &str,
    sites: &Sites,
    site: SiteNo,
) -> Result<String, AllocError>
    ensures { IfOk result (λ t. string_bytes t ≡ file_path folder.now (name_at sites.now site)) }
{
    let name = name_of(sites, site);
    format!(in alloc; "{folder}/{name}.db")
}

/// The sites that a folder lists.
pub fn sites_of<K: SiteKeeper, F: Files<K>>(
    alloc: Global,
    files: &mut F,
    folder: &str,
) -> Result<Sites, Fault>
    // The folder's list was read, no line of it is refused, and it lists at least two sites.
    ensures read { IfOk result (λ sites.
        Led F.does files.old files.new (ListsSites folder.now sites)) }
    ensures failed { IfErr result (λ fault.
        Led F.does files.old files.new (EndsInVain K.shown folder.now fault)) }
{
    let path = list_path(alloc, folder)?;
    let text = files.read(alloc, path.as_str())?;
    let list = read_sites(alloc, text.as_slice())?;
    if is_good(&list) {
        Ok(list.sites)
    } else {
        files.blame(path.as_str());
        Err(Fault::BadSites)
    }
}

/// Whether no line of a list is refused, and it has at least two sites.
fn is_good(list: &SiteList) -> bool
    ensures { IsTrue result ↔ ((length list.now.refused.items ≡ 0) × (2 ≤ length list.now.sites)) }
{
    list.refused.as_slice().is_empty() && list.sites.ready()
}

/// Opens the file of a site, which has to have the folder's list of sites.
pub fn open_site<K: SiteKeeper, F: Files<K>>(
    alloc: Global,
    files: &mut F,
    folder: &str,
    sites: &Sites,
    site: SiteNo,
) -> Result<K, Fault>
    ensures opened { IfOk result (λ keeper.
        F.does files.old (opens_site folder.now sites.now site keeper) files.new) }
    ensures keeps { IfOk result (λ keeper. (r : Record)
        × KeepsSite K.shown K.stored sites.now site keeper r) }
    ensures failed { IfErr result (λ fault.
        Led F.does files.old files.new (OpensInVain K.shown folder.now sites.now fault)) }
{
    let path = file_path(alloc, folder, sites, site)?;
    let keeper = files.open_site(alloc, path.as_str(), name_of(sites, site))?;
    if keeps_site(&keeper, sites, site) {
        Ok(keeper)
    } else {
        files.blame(path.as_str());
        Err(Fault::OtherSites)
    }
}

/// Whether the keeper is open and keeps the record of this site of these sites.
fn keeps_site<K: SiteKeeper>(keeper: &K, sites: &Sites, site: SiteNo) -> bool
    ensures keeps { IsTrue result ↔ ((r : Record) × ShowsSite K.shown sites.now site keeper.now r) }
    ensures sound { IsTrue result → (r : Record) → K.shown keeper.now ≡ Some r → IsSound r }
{
    // Lists of sites that are compared as equal are the same.
    equal_is_same();
    match keeper.view() {
        Some(state) => state.sites() == sites && state.me() == site,
        None => false,
    }
}

/// Opens the files of all sites, in the order of their numbers.
pub fn open_all<K: SiteKeeper, F: Files<K>>(
    alloc: Global,
    files: &mut F,
    folder: &str,
    sites: &Sites,
) -> Result<Vec<K>, Fault>
    ensures opened { IfOk result (λ keepers.
        Calls F.does files.old (opens_from folder.now sites.now 0 keepers.items) files.new) }
    ensures keep { IfOk result (λ keepers. (rs : List Record)
        × KeepFrom K.shown K.stored sites.now 0 keepers.items rs) }
    ensures number { IfOk result (λ keepers. length keepers.items ≡ length sites.now) }
    ensures few { length sites.now ≤ 16 }
    ensures failed { IfErr result (λ fault.
        Led F.does files.old files.new (OpensInVain K.shown folder.now sites.now fault)) }
{
    let mut keepers = Vec::new(alloc);
    for number in 0..sites.len() {
        let Some(site) = SiteNo::of(number) else {
            unreachable!()
        };
        keepers.push(open_site(alloc, files, folder, sites, site)?)?;
    }
    Ok(keepers)
}

/// The records of keepers that are open.
pub fn open_records<K: SiteKeeper>(
    alloc: Global,
    keepers: &[K],
) -> Result<Vec<&SiteState>, AllocError>
    requires { All (λ k. IsSome (K.shown k)) keepers.now }
    ensures { IfOk result (λ records. AllShow K.shown keepers.now (records_at records.items)) }
{
    let mut records = Vec::with_capacity(alloc, keepers.len())?;
    for keeper in keepers {
        let Some(state) = keeper.view() else {
            unreachable!()
        };
        records.push(state)?;
    }
    Ok(records)
}

/// Closes the files of all sites.
pub fn close_all<K: SiteKeeper, F: Files<K>>(files: &mut F, keepers: Vec<K>)
    ensures { Calls F.does files.old (closes_all keepers.items) files.new }
{
    for keeper in keepers {
        files.close_site(keeper);
    }
}
