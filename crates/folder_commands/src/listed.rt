//! A list of sites that is read on its own, without a folder of these sites' files.

ghost use Rattle.std.specs.Prelude.{◌≡◌, ◌++◌, IfErr, IfOk};
ghost use Rattle.site_folders.specs.FileCalls.{Led};
ghost use Rattle.folder_commands.specs.Listed.{ReadsNone, ReadsSites};
ghost use Rattle.folder_commands.specs.Making.{refused_lines, too_few};

use crate::making::{push_few, push_lines};
use event_json::Sites;
use keeper_core::SiteKeeper;
use recall_outcomes::{CommandRefusal, Fault, Notes, Outcome, Output};
use recall_text::{SiteList, read_sites};
use site_folders::Files;
use std::alloc::{AllocError, Global};

/// What comes of a list of sites.
#[derive(Debug, Drop)]
pub enum SitesCame {
    /// A line of it is refused, or it has fewer than two sites.
    Refused(Output),
    /// The sites that it has.
    Listed(Sites),
}

/// Reads a list of sites, and no other file. Where a line of it is refused or it has fewer than two sites, that is
/// the outcome, as [`lint_documents`](crate::lint_documents) has it where no site is named.
///
/// # Errors
/// `Read` where the list can't be read. `NoMemory` at any time.
pub fn listed_sites<K: SiteKeeper, F: Files<K>>(
    alloc: Global,
    files: &mut F,
    list: &str,
) -> Result<SitesCame, Fault>
    // The list was read, and is refused for its lines and for too few sites; or these are its sites. No other file was
    // asked for.
    ensures all { IfOk result (λ came. Led F.does files.old files.new (ReadsSites list.now came)) }
    ensures failed { IfErr result (λ fault. Led F.does files.old files.new (ReadsNone list.now fault)) }
{
    let text = files.read(alloc, list)?;
    let list = read_sites(alloc, text.as_slice())?;
    let refusals = list_refusals(alloc, &list)?;
    if refusals.is_empty() {
        return Ok(SitesCame::Listed(list.sites));
    }
    Ok(SitesCame::Refused(Output {
        sites: list.sites,
        outcome: Outcome::Refused(refusals),
        notes: Notes::Nothing,
    }))
}

/// Why a list of sites is refused.
pub(crate) fn list_refusals(
    alloc: Global,
    list: &SiteList,
) -> Result<Vec<CommandRefusal>, AllocError>
    ensures { IfOk result
        (λ whys. whys.items ≡ refused_lines list.now ++ too_few list.now.sites) }
{
    let mut refusals = Vec::new(alloc);
    push_lines(list.refused.as_slice(), &mut refusals)?;
    push_few(&list.sites, &mut refusals)?;
    Ok(refusals)
}
