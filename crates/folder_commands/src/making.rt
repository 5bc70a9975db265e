//! `init`: a file for each site of a list.

ghost use Rattle.std.specs.Prelude.{◌≡◌, ◌⊎◌, ◌++◌, ℕ, Bool, List, IfErr, IfOk, OnOk, length, map};
ghost use Rattle.std.specs.List.{AllZip};
ghost use Rattle.recall_outcomes.specs.declared.outcomes.CommandRefusal.{CommandRefusal};
ghost use Rattle.recall_outcomes.specs.declared.outcomes.CommandRefusal.TheVariants.{Line};
ghost use Rattle.site_folders.specs.Faults.{EndsInVain};
ghost use Rattle.site_folders.specs.FileCalls.{Calls, Led, LookedFor};
ghost use Rattle.site_folders.specs.Refusals.{IsExists};
ghost use Rattle.folder_commands.specs.Making.{InitFails, InitsAt, LooksForList, MakesListed, MakesSome, MakesThen, existing, looks_from, makes_all, makes_from, name_where, too_few};

use event_json::{SiteNo, Sites};
use keeper_core::SiteKeeper;
use recall_outcomes::{CommandRefusal, Fault, Notes, Outcome, Output};
use recall_text::telling::name_of;
use recall_text::{RefusedLine, SiteList, read_sites};
use site_core::SiteState;
use site_folders::{Files, file_path, list_path};
use std::alloc::{AllocError, Global};
use std::hash::RandomState;

/// Makes a file for each site of a list, and last the folder's own list.
///
/// It is refused, and nothing is made, where a line of the list is refused, where it lists fewer than two sites, for
/// each site that has a file already, and where none has one and the folder has a list.
///
/// # Errors
/// `Read` where the list can't be read, then the fault of the first look for a file that fails: nothing was made. Then
/// that of the first file that can't be made, behind those of the sites before it. `NoMemory` at any time, with the
/// files of the first sites made, or none.
pub fn init<K: SiteKeeper, F: Files<K>>(
    alloc: Global,
    keys: RandomState,
    files: &mut F,
    folder: &str,
    list: &str,
) -> Result<Output, Fault>
    // All that is refused is reported, in order, and nothing was made; or nothing is refused, and the file of each site
    // was made, in order, in the record of a site at which nothing happened yet, and last the folder's list with the
    // text that was read.
    ensures calls { IfOk result (λ output.
        Led F.does files.old files.new (InitsAt folder.now list.now output)) }
    ensures failed { IfErr result (λ fault.
        Led F.does files.old files.new (InitFails folder.now K.shown list.now fault)) }
{
    let text = files.read(alloc, list)?;
    let list = read_sites(alloc, text.as_slice())?;
    let outcome = make_listed(alloc, keys, files, folder, text.as_slice(), &list)?;
    Ok(Output {
        sites: list.sites,
        outcome,
        notes: Notes::Nothing,
    })
}

/// Makes the files of the sites that a text lists, where nothing is refused.
fn make_listed<K: SiteKeeper, F: Files<K>>(
    alloc: Global,
    keys: RandomState,
    files: &mut F,
    folder: &str,
    text: &[u8],
    list: &SiteList,
) -> Result<Outcome, Fault>
    ensures calls { IfOk result (λ outcome.
        Led F.does files.old files.new (MakesListed folder.now list.now text.now outcome)) }
    ensures failed { IfErr result (λ fault.
        Led F.does files.old files.new (λ calls. EndsInVain K.shown folder.now fault calls
        ⊎ MakesThen folder.now list.now fault calls)) }
{
    let sites = &list.sites;
    let mut refusals = Vec::new(alloc);
    push_lines(list.refused.as_slice(), &mut refusals)?;
    push_few(sites, &mut refusals)?;
    push_existing(alloc, files, folder, sites, &mut refusals)?;
    push_list(alloc, files, folder, &mut refusals)?;
    if refusals.is_empty() {
        make_folder(alloc, keys, files, folder, text, sites)?;
        Ok(Outcome::Created)
    } else {
        Ok(Outcome::Refused(refusals))
    }
}

/// Adds the lines that are refused.
pub(crate) fn push_lines(
    lines: &[RefusedLine],
    refusals: &mut Vec<CommandRefusal>,
) -> Result<(), AllocError>
    ensures { OnOk result (refusals.new.items ≡ refusals.old.items ++ map Line lines.now) }
{
    for line in lines {
        refusals.push(CommandRefusal::Line(*line))?;
    }
    Ok(())
}

/// Adds the refusal of too few sites.
pub(crate) fn push_few(sites: &Sites, refusals: &mut Vec<CommandRefusal>) -> Result<(), AllocError>
    ensures { OnOk result (refusals.new.items ≡ refusals.old.items ++ too_few sites.now) }
{
    if !sites.ready() {
        refusals.push(CommandRefusal::NoWorld)?;
    }
    Ok(())
}

/// Adds a refusal for each site that has a file in the folder.
pub(crate) fn push_existing<K: SiteKeeper, F: Files<K>>(
    alloc: Global,
    files: &mut F,
    folder: &str,
    sites: &Sites,
    refusals: &mut Vec<CommandRefusal>,
) -> Result<(), Fault>
    ensures looked { OnOk result ((found : List Bool)
        × Calls F.does files.old (looks_from folder.now sites.now 0 found) files.new
        × (length found ≡ length sites.now) × (more : List CommandRefusal)
        × AllZip IsExists (existing sites.now 0 found) more
        × (refusals.new.items ≡ refusals.old.items ++ more)) }
    ensures failed { (of : List ℕ) → IfErr result (λ fault.
        Led F.does files.old files.new (EndsInVain K.shown of fault)) }
{
    for number in 0..sites.len() {
        let Some(site) = SiteNo::of(number) else {
            unreachable!()
        };
        let path = file_path(alloc, folder, sites, site)?;
        push_where(alloc, files, path.as_str(), name_of(sites, site), refusals)?;
    }
    Ok(())
}

/// Where nothing is refused, adds the refusal of a list of sites that stands in the folder.
pub(crate) fn push_list<K: SiteKeeper, F: Files<K>>(
    alloc: Global,
    files: &mut F,
    folder: &str,
    refusals: &mut Vec<CommandRefusal>,
) -> Result<(), Fault>
    ensures looked { OnOk result (Led F.does files.old files.new
        (LooksForList folder.now refusals.old.items refusals.new.items)) }
    ensures failed { (of : List ℕ) → IfErr result (λ fault.
        Led F.does files.old files.new (EndsInVain K.shown of fault)) }
{
    if refusals.is_empty() {
        let path = list_path(alloc, folder)?;
        push_where(alloc, files, path.as_str(), "sites", refusals)?;
    }
    Ok(())
}

/// Adds a refusal where there is a file of a path.
fn push_where<K: SiteKeeper, F: Files<K>>(
    alloc: Global,
    files: &mut F,
    path: &str,
    name: &str,
    refusals: &mut Vec<CommandRefusal>,
) -> Result<(), Fault>
    ensures looked { OnOk result ((found : Bool)
        × F.does files.old (LookedFor path.now found) files.new × (more : List CommandRefusal)
        × AllZip IsExists (name_where found name.now) more
        × (refusals.new.items ≡ refusals.old.items ++ more)) }
    ensures failed { (of : List ℕ) → IfErr result (λ fault.
        Led F.does files.old files.new (EndsInVain K.shown of fault)) }
{
    if files.exists(path)? {
        let name = String::from_str(alloc, name)?;
        refusals.push(CommandRefusal::Exists(name))?;
    }
    Ok(())
}

/// Makes the files of all sites, and then the folder's list.
fn make_folder<K: SiteKeeper, F: Files<K>>(
    alloc: Global,
    keys: RandomState,
    files: &mut F,
    folder: &str,
    text: &[u8],
    sites: &Sites,
) -> Result<(), Fault>
    ensures made { OnOk result (Calls F.does files.old (makes_all folder.now sites.now text.now)
        files.new) }
    ensures failed { IfErr result (λ fault.
        Led F.does files.old files.new (MakesSome folder.now sites.now fault)) }
{
    make_all(alloc, keys, files, folder, sites)?;
    let path = list_path(alloc, folder)?;
    files.write_new(path.as_str(), text)
}

/// Makes the files of all sites.
fn make_all<K: SiteKeeper, F: Files<K>>(
    alloc: Global,
    keys: RandomState,
    files: &mut F,
    folder: &str,
    sites: &Sites,
) -> Result<(), Fault>
    ensures made { OnOk result (Calls F.does files.old
        (makes_from folder.now sites.now 0 (length sites.now)) files.new) }
    ensures failed { IfErr result (λ fault.
        Led F.does files.old files.new (MakesSome folder.now sites.now fault)) }
{
    for number in 0..sites.len() {
        let Some(site) = SiteNo::of(number) else {
            unreachable!()
        };
        let path = file_path(alloc, folder, sites, site)?;
        let state = SiteState::new(alloc, keys, sites.copy(alloc)?, site);
        files.create_site(alloc, path.as_str(), state)?;
    }
    Ok(())
}
