//! That a site kept in files answers as a site in memory does, also where it stops, and shows what that shows.
use crate::disks::NONE;
use crate::sites::{Keeping, Site, begun, files_of, fresh, opened};
use crate::steps::{Outcome, Step, happens, input, shown, sizes};
use crate::stops::keeping;
use Step::{Opens, Stops, Takes};
use keeper_core::{Keep, SiteKeeper};
use site_core::SiteState;
use std::alloc::Global;
use std::test::Fail;

/// Whether the site takes an input as the one in memory does, with the same effects, and then shows the same.
fn takes_alike(alloc: Global, site: &mut Site, state: &mut SiteState, number: u64) -> bool {
    let (Some(one), Some(other)) = (input(alloc, number), input(alloc, number)) else {
        return false;
    };
    match (site.apply(one), state.apply(&other)) {
        (Ok(effects), Ok(wanted)) => effects == wanted && shown(site) == Some(sizes(state)),
        _ => false,
    }
}

/// The site after a stop, or an opening, which is done as it should be: in memory only what is kept of a stop is done.
fn stops_alike(alloc: Global, site: Site, state: &mut SiteState, step: Step) -> (Site, bool) {
    let is_kept = match step {
        Stops(number, Keep::New) => match input(alloc, number) {
            Some(input) => state.apply(&input).is_ok(),
            None => false,
        },
        _ => true,
    };
    let (site, outcome) = happens(alloc, site, step);
    let is_open = matches!(step, Opens);
    let shows = if is_open { Some(sizes(state)) } else { None };
    let is_right = is_kept && outcome == Outcome::Done && shown(&site) == shows;
    (site, is_right)
}

/// The site after these steps, and whether each was as in memory.
fn plays_alike(alloc: Global, site: Site, state: &mut SiteState, steps: &[Step]) -> (Site, bool) {
    let mut site = site;
    let mut is_alike = true;
    for step in steps {
        if let Takes(number) = step {
            is_alike = is_alike && takes_alike(alloc, &mut site, state, *number);
        } else {
            let (next, is_right) = stops_alike(alloc, site, state, *step);
            site = next;
            is_alike = is_alike && is_right;
        }
    }
    (site, is_alike)
}

/// Whether these are files of a site that shows what the one in memory does.
fn is_kept(keeping: &Keeping, site: Site, state: &SiteState) -> bool {
    match opened(keeping, files_of(site)) {
        Ok(site) => shown(&site) == Some(sizes(state)),
        _ => false,
    }
}

/// Whether the site does the steps as one in memory, the last step ran so many statements, and the tables hold what it
/// shows.
fn answers(keeping: &Keeping, steps: &[Step], statements: u64) -> bool {
    let (Some(mut state), Ok(site)) = (fresh(keeping), begun(keeping, NONE)) else {
        return false;
    };
    let (site, is_alike) = plays_alike(keeping.alloc, site, &mut state, steps);
    is_alike && site.statements() == statements && is_kept(keeping, site, &state)
}

/// The last signal of a recall writes two rows, and a repeat none. Where the site stopped before it took a message,
/// that writes six: of x and y in quarantine, of itself seen and as a parent, of the message that it brings forth,
/// and of the next number. Where the site had taken it, it writes none.
#[test]
fn a_recall_ends_over_files(rt: HostRuntime) -> Result<(), Fail> {
    let keeping = keeping(&rt, 1000)?;
    let repeated = [Takes(0), Takes(1), Takes(2), Takes(2), Takes(3), Takes(3)];
    let old = [Takes(0), Takes(1), Stops(2, Keep::Old), Opens, Takes(2)];
    let new = [Takes(0), Takes(1), Stops(2, Keep::New), Opens, Takes(2)];
    assert!(rt; answers(&keeping, &[Takes(0), Takes(1), Takes(3)], 4));
    assert!(rt; answers(&keeping, &repeated, 0));
    assert!(rt; answers(&keeping, &old, 8));
    assert!(rt; answers(&keeping, &new, 0));
    Ok(())
}
