//! The recalls that the sites began, and their roots.

ghost use Rattle.std.specs.Prelude.{◌≡◌, ◌++◌, IfOk, OnOk};
ghost use Rattle.site_recovery.specs.Checking.{records_at};
ghost use Rattle.site_folders.specs.Begun.{begun, begun_by, root_of, roots, roots_by};

use event_json::SiteNo;
use frame_core::RecallId;
use recall_outcomes::StartedRecall;
use scholten_core::Own;
use site_core::SiteState;
use std::alloc::{AllocError, Global};
use trace_core::Pair;

/// The recalls that the sites of these records began, by site, then by number.
pub fn begun(alloc: Global, records: &[&SiteState]) -> Result<Vec<StartedRecall>, AllocError>
    ensures { IfOk result (λ rs. rs.items ≡ begun (records_at records.now)) }
{
    let mut all = Vec::new(alloc);
    for record in records {
        push_begun(&mut all, record)?;
    }
    Ok(all)
}

/// Adds the recalls that a site began, by number.
fn push_begun(all: &mut Vec<StartedRecall>, state: &SiteState) -> Result<(), AllocError>
    ensures { OnOk result (all.new.items ≡ all.old.items ++ begun_by state.now) }
{
    let site = state.me();
    for (number, own) in state.own_recalls() {
        all.push(StartedRecall {
            recall: RecallId {
                site,
                number: *number,
            },
            ended: own.ended,
        })?;
    }
    Ok(())
}

/// The roots of the recalls that the sites of these records began, of each or only of those that are open, by site, then
/// by number.
pub fn roots(alloc: Global, records: &[&SiteState], each: bool) -> Result<Vec<Pair>, AllocError>
    ensures { IfOk result (λ found. found.items ≡ roots each (records_at records.now)) }
{
    let mut found = Vec::new(alloc);
    for record in records {
        push_roots(alloc, &mut found, record, each)?;
    }
    Ok(found)
}

/// Adds the roots of the recalls that a site began, by number.
fn push_roots(
    alloc: Global,
    found: &mut Vec<Pair>,
    state: &SiteState,
    each: bool,
) -> Result<(), AllocError>
    ensures { OnOk result (found.new.items ≡ found.old.items ++ roots_by each state.now) }
{
    let site = state.me();
    for (_, own) in state.own_recalls() {
        push_root(alloc, found, site, own, each)?;
    }
    Ok(())
}

/// Adds the root of a recall that a site began, if it is to be told.
fn push_root(
    alloc: Global,
    found: &mut Vec<Pair>,
    site: SiteNo,
    own: &Own,
    each: bool,
) -> Result<(), AllocError>
    ensures { OnOk result (found.new.items ≡ found.old.items ++ root_of each site own.now) }
{
    if own.ended && !each {
        return Ok(());
    }
    found.push(Pair {
        site,
        item: own.root.copy(alloc)?,
    })?;
    Ok(())
}
