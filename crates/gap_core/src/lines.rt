//! Gaps by container.
ghost use Rattle.std.specs.Prelude.{◌≡◌, ◌<◌, ◌++◌, ◌∷◌, [], IfOk, OnOk, IsTrue, ◌↔◌, Contains, length, get_or};
ghost use Rattle.std.specs.List.Sorted.{IsStrictlySortedBy};
ghost use Rattle.trace_core.specs.Chains.{sites_at};
ghost use Rattle.gap_core.specs.GapItems.{gap_item_cmp};
ghost use Rattle.gap_core.specs.Lines.{AreGapLines, AreLinesOf, AreUsedLines, HaveOneKey, IsEnd, items_in};

use crate::gap_items::{GapItem, items_in_gaps};
use crate::used::used_items;
use epc_core::Epc;
use event_json::{Sequence, SiteNo};
use std::alloc::{AllocError, Global};
use trace_core::Captured;

/// A container in which items stand in gaps. In packed ones: a site shipped it, and of these items, which another site
/// put there, the first one's own packings tell neither that nor that they went there. In used ones: a site took it into
/// a transformation, and these items, which lie in it, not.
#[derive(Debug, Drop)]
pub struct GapLine {
    /// The site that shipped the container, or took it into a transformation.
    pub site: SiteNo,
    /// The container.
    pub container: Epc,
    /// The least of the sites that packed these items and from which the container came; of a used gap the site itself.
    pub by: SiteNo,
    /// How many items, 1 at least.
    pub items: usize,
}

/// The packed gaps of several sites.
#[derive(Debug, Drop)]
pub struct Gaps {
    /// By site, then by container, then by who packed.
    pub lines: Sequence<GapLine>,
    /// How many items all lines have.
    pub items: usize,
}

/// Finds the packed gaps of several sites. Where two of them have one number, their gaps are reported together.
///
/// # Errors
/// Out of memory.
pub fn packed_gaps(alloc: Global, sites: &[&Captured]) -> Result<Gaps, AllocError>
    ensures lines { IfOk result (λ gaps. AreGapLines (sites_at sites.now) gaps.lines) }
    ensures items { IfOk result (λ gaps. gaps.items ≡ items_in gaps.lines) }
{
    let items = items_in_gaps(alloc, sites)?;
    let lines = lines_of(alloc, items.as_slice())?;
    Ok(Gaps {
        lines: Sequence::from_vec(lines),
        items: items.len(),
    })
}

/// Finds the containers that several sites took into transformations without what lies in them, by what is known of
/// packings. Where two of the sites have one number, their gaps are reported together.
///
/// # Errors
/// Out of memory.
pub fn used_gaps(alloc: Global, sites: &[&Captured]) -> Result<Vec<GapLine>, AllocError>
    // All containers that a site took into a transformation, by one of its parts, and in which items are known to lie
    // that no part takes in, with how many such items each has; in order, each once.
    ensures { IfOk result (λ lines. AreUsedLines (sites_at sites.now) lines.items) }
{
    let items = used_items(alloc, sites)?;
    lines_of(alloc, items.as_slice())
}

/// The lines of items in order.
pub fn lines_of(alloc: Global, items: &[GapItem]) -> Result<Vec<GapLine>, AllocError>
    requires { IsStrictlySortedBy gap_item_cmp items.now }
    ensures lines { IfOk result (λ lines. AreLinesOf (Contains items.now) lines.items) }
    ensures items { IfOk result (λ lines. length items.now ≡ items_in lines.items) }
{
    let mut lines = Vec::new(alloc);
    let mut start = 0;
    while start < items.len() {
        let end = end_of_run(items, start);
        push_line(alloc, &items[start], end - start, &mut lines)?;
        start = end;
    }
    Ok(lines)
}

/// The place behind the items of one line, the first of which stands at a place.
fn end_of_run(items: &[GapItem], start: usize) -> usize
    requires { start < length items.now }
    ensures { IsEnd items.now start result }
{
    for end in start + 1..items.len() {
        if !have_one_key(&items[start], &items[end]) {
            return end;
        }
    }
    items.len()
}

/// Whether two items are of one line.
fn have_one_key(a: &GapItem, b: &GapItem) -> bool
    ensures { IsTrue result ↔ HaveOneKey a.now b.now }
{
    a.site == b.site && a.container == b.container && a.by == b.by
}

/// Adds the line of an item, with so many items.
fn push_line(
    alloc: Global,
    first: &GapItem,
    count: usize,
    lines: &mut Vec<GapLine>,
) -> Result<(), AllocError>
    ensures { OnOk result (lines.new.items ≡ lines.old.items ++ record {
      site = first.now.site;
      container = first.now.container;
      by = first.now.by;
      items = count;
    } ∷ []) }
{
    lines.push(GapLine {
        site: first.site,
        container: first.container.copy(alloc)?,
        by: first.by,
        items: count,
    })?;
    Ok(())
}
