//! The sites that a text lists, a `site` line for each.

ghost use Rattle.std.specs.Prelude.{◌≡◌, [], IfOk, OnOk};
ghost use Rattle.event_json.specs.Sites.{sites_fault};
ghost use Rattle.recall_text.specs.Fields.{fields};
ghost use Rattle.recall_text.specs.SiteLists.{AddsLine, AddsSite, IsSiteList, ListsLine};

use crate::fields::fields;
use crate::line_ends::{content_len, line_end};
use crate::lines::Line;
use crate::outcomes::site_or_fault;
use event_json::{Sites, SitesFault};
use std::alloc::{AllocError, Global};

/// Why a line of a list of sites is refused.
#[derive(Clone, Copy, Debug, PartialEq, Eq)]
pub enum LineRefusal {
    /// It is no `site` line, no comment, and not empty.
    BadLine,
    /// Its site can't be added.
    BadSite(SitesFault),
}

/// A line of a list of sites that is refused.
#[derive(Clone, Copy, Debug, PartialEq, Eq)]
pub struct RefusedLine {
    /// The line's number, from 1.
    pub line: u64,
    pub why: LineRefusal,
}

/// The sites that a text lists, and what of the text is refused.
#[derive(Debug, Drop)]
pub struct SiteList {
    /// The sites, in the order of their lines.
    pub sites: Sites,
    /// The lines that are refused, in order. Empty exactly where nothing is refused.
    pub refused: Vec<RefusedLine>,
}

/// Reads a list of sites: lines as those of a script, ended by LF or CR LF, of which the last may lack it.
///
/// A `site` line adds a site. Empty lines, lines of spaces and comments are passed over. Any other line is
/// refused with BadLine, and a `site` line whose site can't be added with BadSite and why; the other lines are read
/// all the same.
///
/// # Errors
/// Where memory runs out.
pub fn read_sites(alloc: Global, text: &[u8]) -> Result<SiteList, AllocError>
    ensures { IfOk result (IsSiteList text.now) }
{
    let mut list = SiteList::new(alloc);
    let mut rest = text;
    let mut number: u64 = 1;
    while let Some(end) = line_end(rest) {
        let line = &rest[..end];
        list.take_line(alloc, number, &line[..content_len(line)])?;
        rest = &rest[end + 1..];
        number += 1;
    }
    if !rest.is_empty() {
        list.take_line(alloc, number, rest)?;
    }
    Ok(list)
}

impl SiteList {
    /// No sites, and nothing refused.
    fn new(alloc: Global) -> SiteList
        ensures sites { result.sites ≡ [] }
        ensures refused { result.refused.items ≡ [] }
    {
        SiteList {
            sites: Sites::new(alloc),
            refused: Vec::new(alloc),
        }
    }

    /// Takes the line of a number, without its line ending.
    fn take_line(&mut self, alloc: Global, number: u64, line: &[u8]) -> Result<(), AllocError>
        ensures { OnOk result (AddsLine self.old number line.now self.new) }
    {
        if let Some(why) = list_line(alloc, &mut self.sites, line)? {
            self.refused.push(RefusedLine { line: number, why })?;
        }
        Ok(())
    }
}

/// Adds the site of a line to the sites, or returns why the line is refused.
fn list_line(
    alloc: Global,
    sites: &mut Sites,
    line: &[u8],
) -> Result<Option<LineRefusal>, AllocError>
    ensures { IfOk result (λ why. ListsLine sites.old line.now why sites.new) }
{
    match Line::read(line) {
        Line::Silent => Ok(None),
        Line::Site { name, addresses } => list_site(alloc, sites, name, addresses),
        Line::Unreadable | Line::Task(_) => Ok(Some(LineRefusal::BadLine)),
    }
}

/// Adds a site, or returns why not. The addresses are the fields of a text.
fn list_site(
    alloc: Global,
    sites: &mut Sites,
    name: &str,
    addresses: &str,
) -> Result<Option<LineRefusal>, AllocError>
    ensures { IfOk result (λ why. AddsSite sites.old name.now (fields addresses.now)
        (sites_fault sites.old name.now (fields addresses.now)) why sites.new) }
{
    let addresses = fields(alloc, addresses)?;
    match site_or_fault(sites.add(name, addresses.as_slice()))? {
        Ok(_) => Ok(None),
        Err(fault) => Ok(Some(LineRefusal::BadSite(fault))),
    }
}
