//! `lint`: what is wrong and what is strange in documents, by a list of sites, before they are captured. It changes
//! nothing.

ghost use Rattle.std.specs.Prelude.{◌≡◌, ◌++◌, List, IfErr, IfOk, OnOk, map, option_map};
ghost use Rattle.document_lint.specs.Lines.{none_yet};
ghost use Rattle.recall_outcomes.specs.declared.outcomes.CommandRefusal.{CommandRefusal};
ghost use Rattle.site_folders.specs.FileCalls.{Led};
ghost use Rattle.folder_commands.specs.Lints.{AreReasons, IsUnlisted, LintFails, Lints, LintsEach, LintsOne, here_of, looking};

use crate::listed::list_refusals;
use document_lint::{Lint, LintTotals, Listing, lint_document};
use event_json::{SiteNo, Sites};
use keeper_core::SiteKeeper;
use recall_outcomes::{CommandRefusal, Fault, Outcome};
use recall_text::{SiteList, read_sites};
use site_folders::Files;
use std::alloc::{AllocError, Global};

/// Writes to an output what is found in each document, one after another.
pub trait LintSink<W> {
    ghost use Rattle.std.specs.Prelude.{◌≡◌, ◌⊎◌, List, ℕ, IfErr, OnOk};
    ghost use Rattle.document_lint.specs.declared.findings.Lint.{Lint};

    /// From this output, telling it what is found in the document of this path led to that output.
    ghost takes: { Self → W → List ℕ → Lint → W → Type 0 };

    /// Takes what is found in the document of a path. `Write` where it can't be written.
    fn take(&self, output: &mut W, path: &str, found: &Lint) -> Result<(), Fault>
        ensures taken { OnOk result (takes self.now output.old path.now found.now output.new) }
        ensures failed { IfErr result (λ fault. (fault ≡ Fault.Write) ⊎ (fault ≡ Fault.NoMemory)) };
}

/// What a lint of documents came to.
#[derive(Debug, Drop)]
pub struct LintOutput {
    /// The sites that the list has.
    pub sites: Sites,
    pub came: LintCame,
}

/// What a lint of documents came to, or why none was read.
#[derive(Debug, Drop)]
pub enum LintCame {
    /// The list is refused, or the site that is named isn't listed.
    Refused(Outcome),
    /// The documents were looked at.
    Looked(LintTotals),
}

/// Looks for what is wrong and what is strange in documents, by the sites of a list: the sink gets what is found in
/// each document before the next one is read. Where the site that is to capture them is named, that includes events
/// that happened at another one. Where a line of the list is refused, it has fewer than two sites or it doesn't list
/// that site, that is the outcome, and no document is read. No other file is asked for.
///
/// # Errors
/// `Read` where the list or a document can't be read, and those of the sink. `NoMemory` at any time.
pub fn lint_documents<K: SiteKeeper, F: Files<K>, W, S: LintSink<W>>(
    alloc: Global,
    files: &mut F,
    list: &str,
    site: Option<&str>,
    paths: &[&str],
    sink: &S,
    output: &mut W,
) -> Result<LintOutput, Fault>
    // The list of sites was read, and refused as `init` refuses it; or each file was read, in order, and what is found
    // in it told to the sink, by the sites of the list. No site's file is opened.
    ensures all { IfOk result (λ told. Led F.does files.old files.new
        (Lints (S.takes sink.now) list.now (option_map (λ t. t.now) site.entry)
        (map (λ p. p.now) paths.now) output.old output.new told)) }
    ensures failed { IfErr result (λ fault. Led F.does files.old files.new (LintFails fault)) }
{
    let text = files.read(alloc, list)?;
    let list = read_sites(alloc, text.as_slice())?;
    let refusals = refusals_of(alloc, &list, site)?;
    if refusals.is_empty() {
        let here = here_of(&list.sites, site);
        let listing = Listing {
            sites: &list.sites,
            here,
        };
        let totals = lint_files(alloc, files, &listing, paths, sink, output)?;
        Ok(LintOutput {
            sites: list.sites,
            came: LintCame::Looked(totals),
        })
    } else {
        Ok(LintOutput {
            sites: list.sites,
            came: LintCame::Refused(Outcome::Refused(refusals)),
        })
    }
}

/// The site of a name, where one is given and listed.
fn here_of(sites: &Sites, site: Option<&str>) -> Option<SiteNo>
    ensures { result ≡ here_of sites.now (option_map (λ t. t.now) site.entry) }
{
    match site {
        Some(name) => sites.find(name),
        None => None,
    }
}

/// Why a list of sites is refused, or a site that it doesn't list.
fn refusals_of(
    alloc: Global,
    list: &SiteList,
    site: Option<&str>,
) -> Result<Vec<CommandRefusal>, AllocError>
    ensures { IfOk result (λ whys. AreReasons list.now (option_map (λ t. t.now) site.entry)
        whys.items) }
{
    let mut refusals = list_refusals(alloc, list)?;
    push_unlisted(alloc, &list.sites, site, &mut refusals)?;
    Ok(refusals)
}

/// Adds the reason that a site isn't listed, if one is named and it isn't.
fn push_unlisted(
    alloc: Global,
    sites: &Sites,
    site: Option<&str>,
    refusals: &mut Vec<CommandRefusal>,
) -> Result<(), AllocError>
    ensures { OnOk result ((whys : List CommandRefusal)
        × IsUnlisted sites.now (option_map (λ t. t.now) site.entry) whys
        × (refusals.new.items ≡ refusals.old.items ++ whys)) }
{
    let Some(name) = site else {
        return Ok(());
    };
    match sites.find(name) {
        Some(_) => Ok(()),
        None => {
            let name = String::from_str(alloc, name)?;
            refusals.push(CommandRefusal::NoSite(name))?;
            Ok(())
        }
    }
}

/// Lints the documents of all files.
fn lint_files<K: SiteKeeper, F: Files<K>, W, S: LintSink<W>>(
    alloc: Global,
    files: &mut F,
    listing: &Listing<'_>,
    paths: &[&str],
    sink: &S,
    output: &mut W,
) -> Result<LintTotals, Fault>
    ensures all { IfOk result (λ totals. Led F.does files.old files.new
        (LintsEach (S.takes sink.now) listing.now.sites.now listing.now.here (map (λ p. p.now) paths.now)
        (looking output.old none_yet) (looking output.new totals))) }
    ensures failed { IfErr result (λ fault. Led F.does files.old files.new (LintFails fault)) }
{
    let mut totals = LintTotals::new();
    for path in paths {
        totals = lint_file(alloc, files, listing, path, totals, sink, output)?;
    }
    Ok(totals)
}

/// Lints the document of a file.
fn lint_file<K: SiteKeeper, F: Files<K>, W, S: LintSink<W>>(
    alloc: Global,
    files: &mut F,
    listing: &Listing<'_>,
    path: &str,
    totals: LintTotals,
    sink: &S,
    output: &mut W,
) -> Result<LintTotals, Fault>
    ensures all { IfOk result (λ after. Led F.does files.old files.new
        (LintsOne (S.takes sink.now) listing.now.sites.now listing.now.here path.now
        (looking output.old totals) (looking output.new after))) }
    ensures failed { IfErr result (λ fault. Led F.does files.old files.new (LintFails fault)) }
{
    let bytes = files.read(alloc, path)?;
    let found = lint_document(alloc, bytes.as_slice(), listing)?;
    sink.take(output, path, &found)?;
    Ok(totals.with(&found))
}
