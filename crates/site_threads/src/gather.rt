//! Sites taken apart, and their seats joined again.
ghost use Rattle.std.specs.Prelude.{◌≡◌, [], All, flat_map, length};
ghost use Rattle.std.specs.List.{AllZip};
ghost use Rattle.wire_core.specs.Seats.{IsSeatOf};
ghost use Rattle.site_threads.specs.Parting.{HasKeeper, LeavesList, IsRoomFor, cause_of, first_cause};
ghost use Rattle.site_threads.specs.Sites.{IsSite};

use crate::gates::Gate;
use crate::lists::RunLog;
use crate::room::add;
use crate::sites::RunningSite;
use crate::turns::TurnCause;
use event_json::SiteNo;
use keeper_core::SiteKeeper;
use thiserror::Error;
use wire_core::{Seat, Wire};
use world_core::WorldFault;

/// Why a run of all sites has no answer.
#[derive(Clone, Copy, Debug, PartialEq, Eq, Error)]
pub enum GatherCause {
    /// The keepers make no world, or memory ran out while that was tried. Nothing was done.
    #[error("{0}")]
    NotAWorld(WorldFault),
    /// Memory ran out, before the first turn or where a keeper was opened at the end.
    #[error("memory ran out")]
    NoMemory,
    /// This site is closed, and couldn't be opened again.
    #[error("a site is lost")]
    SiteLost(SiteNo),
    /// The gate of this site gave up.
    #[error("the gate of a site gave up")]
    GaveUp(SiteNo),
}

/// What is left of a run.
#[derive(Drop)]
pub struct Ended<K: SiteKeeper> {
    /// In the order of their sites.
    pub keepers: Vec<K>,
    /// Likewise.
    pub lists: Vec<RunLog>,
    /// Why the least site that ended its run did so.
    pub cause: Option<GatherCause>,
}

/// Why a run has no answer, where the site ended it.
fn cause_of(site: SiteNo, fault: &Option<TurnCause>) -> Option<GatherCause>
    ensures { result ≡ cause_of site fault.now }
{
    match fault {
        None => None,
        Some(TurnCause::NoMemory) => Some(GatherCause::NoMemory),
        Some(TurnCause::GaveUp) => Some(GatherCause::GaveUp(site)),
        Some(TurnCause::Lost(_)) => Some(GatherCause::SiteLost(site)),
    }
}

/// Takes the sites apart, and their seats together, in order. There is room for the keepers and the lists.
pub fn part<K: SiteKeeper, G: Gate>(
    wire: &Wire,
    root: Seat,
    runs: Vec<RunningSite<'_, K, G>>,
    room: Ended<K>,
) -> (Seat, Ended<K>)
    requires root { IsSeatOf wire.now root × (root.logs ≡ []) }
    requires wire { All (λ r. r.wire ≡ wire.now) runs.items }
    requires room { IsRoomFor (length runs.items) room }
    ensures sites { All (IsSite K.shown K.may) runs.entry.items }
    ensures seat { IsSeatOf wire.now result.0 }
    ensures logs { result.0.logs ≡ flat_map (λ r. r.seat.logs) runs.entry.items }
    ensures keepers { AllZip HasKeeper runs.entry.items result.1.keepers.items }
    ensures lists { AllZip LeavesList runs.entry.items result.1.lists.items }
    ensures cause { result.1.cause ≡ first_cause runs.entry.items }
{
    let Ended {
        mut keepers,
        mut lists,
        mut cause,
    } = room;
    let mut seat = root;
    for run in runs {
        let me = run.me;
        let (keeper, mine, list) = run.finish();
        seat = wire.join(seat, mine);
        cause = cause.or(cause_of(me, &list.fault));
        add(&mut keepers, keeper);
        add(&mut lists, list);
    }
    (
        seat,
        Ended {
            keepers,
            lists,
            cause,
        },
    )
}
