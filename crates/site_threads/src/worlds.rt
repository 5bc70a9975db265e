//! A run of all sites, each in a thread of its own.
ghost use Rattle.std.specs.Prelude.{◌≡◌, ◌<◌, ◌≤◌, List, [], Some, None, All, IfOk, IfErr, IfSome, IsSome, length, map, vec_capacity};
ghost use Rattle.std.specs.List.{AllZip};
ghost use Rattle.event_json.specs.declared.limits.TheConstants.{MAX_SITES};
ghost use Rattle.site_core.specs.Records.{Record};
ghost use Rattle.world_core.specs.Faults.{MakeAWorld};
ghost use Rattle.world_core.specs.Keepers.{AllShow};
ghost use Rattle.wire_core.specs.Rule.{logs_from};
ghost use Rattle.wire_core.specs.Seats.{IsSeatOf};
ghost use Rattle.site_threads.specs.Ends.{IsUnused};
ghost use Rattle.site_threads.specs.Gathering.{AreInOrder, Began, Explains, FitAfter, HasEnd, HasTurned, HaveRun, HindersRun, IsFirstCause, IsKept, IsLeft, KeepersFit, RanAsAWorld, WereHindered, keepers_of};
ghost use Rattle.site_threads.specs.Parting.{IsRoomFor};
ghost use Rattle.site_threads.specs.Runs.{IsReady, Ran};

use crate::counts::RunCounts;
use crate::desks::DeskOut;
use crate::gates::Gate;
use crate::gather::{Ended, GatherCause, part};
use crate::gathered::{GatherFault, Gathered};
use crate::runs::run_all;
use crate::sites::RunningSite;
use crate::starts::begin_all;
use event_json::SiteNo;
use keeper_core::SiteKeeper;
use site_core::SiteState;
use std::alloc::{AllocError, Global};
use std::sync::Wait;
use std::thread::Threads;
use std::time::Clock;
use wire_core::{Seat, Wire};
use world_core::{NotAWorld, World};

/// The record of each keeper.
fn records_of<K: SiteKeeper>(alloc: Global, keepers: &[K]) -> Result<Vec<&SiteState>, AllocError>
    requires { All (λ k. IsSome (K.shown k)) keepers.now }
    ensures { IfOk result (λ states. AllShow K.shown keepers.now (map (λ s. s.now) states.items)) }
{
    let mut states = Vec::with_capacity(alloc, keepers.len())?;
    for keeper in keepers {
        let Some(state) = keeper.view() else {
            unreachable!()
        };
        states.push(state)?;
    }
    Ok(states)
}

/// The wire between the sites of these keepers, and a seat that holds all of them.
fn wire_between<K: SiteKeeper>(alloc: Global, keepers: &[K]) -> Result<(Wire, Seat), AllocError>
    requires world { (rs : List Record) × AllShow K.shown keepers.now rs × MakeAWorld rs }
    requires count { (2 ≤ length keepers.now) × (length keepers.now ≤ MAX_SITES) }
    ensures wire { IfOk result (λ r. IsSeatOf r.0 r.1 × (r.0.sites ≡ length keepers.now)) }
    ensures seat { (rs : List Record) → AllShow K.shown keepers.now rs
        → IfOk result (λ r. r.1.logs ≡ logs_from 0 rs) }
    ensures start { (rs : List Record) → AllShow K.shown keepers.now rs
        → IfOk result (λ r. r.0.start ≡ rs) }
{
    let states = records_of(alloc, keepers)?;
    Ok(Wire::new(alloc, &states)?)
}

/// What a run needs memory for, but the sites' own steps.
struct Room<'w, K: SiteKeeper, G: Gate> {
    wire: Wire,
    seat: Seat,
    runs: Vec<RunningSite<'w, K, G>>,
    ended: Ended<K>,
}

/// The room for a run of the sites of these keepers.
fn room_for<'w, K: SiteKeeper, G: Gate>(
    alloc: Global,
    keepers: &[K],
) -> Result<Room<'w, K, G>, AllocError>
    requires world { (rs : List Record) × AllShow K.shown keepers.now rs × MakeAWorld rs }
    requires count { (2 ≤ length keepers.now) × (length keepers.now ≤ MAX_SITES) }
    ensures wire { IfOk result (λ r. IsSeatOf r.wire r.seat × (r.wire.sites ≡ length keepers.now)) }
    ensures seat { (rs : List Record) → AllShow K.shown keepers.now rs
        → IfOk result (λ r. r.seat.logs ≡ logs_from 0 rs) }
    ensures start { (rs : List Record) → AllShow K.shown keepers.now rs
        → IfOk result (λ r. r.wire.start ≡ rs) }
    ensures runs { IfOk result (λ r. (r.runs.items ≡ [])
        × (length keepers.now ≤ vec_capacity r.runs)) }
    ensures ended { IfOk result (λ r. IsRoomFor (length keepers.now) r.ended) }
{
    let (wire, seat) = wire_between(alloc, keepers)?;
    let count = keepers.len();
    Ok(Room {
        wire,
        seat,
        runs: Vec::with_capacity(alloc, count)?,
        ended: Ended {
            keepers: Vec::with_capacity(alloc, count)?,
            lists: Vec::with_capacity(alloc, count)?,
            cause: None,
        },
    })
}

/// The turns of all sites.
fn run_each<K: SiteKeeper + Send, G: Gate + Send, R: Threads + Wait + Clock + Sync>(
    rt: &R,
    counts: &RunCounts,
    runs: &mut Vec<RunningSite<'_, K, G>>,
    turns: u64,
)
    requires count { 0 < length runs.old.items }
    requires ready { All IsReady runs.old.items }
    requires turns { turns ≤ 1000000 }
    ensures { AllZip (Ran K.shown K.reopens G.gives_up K.stored turns) runs.old.items
        runs.new.items }
{
    run_all(rt, counts, runs.as_mut_slice(), turns);
}

/// Runs the sites from the first opening to the last joining, for which there is room.
fn run_in<K: SiteKeeper + Send, G: Gate + Send, R: Threads + Wait + Clock + Sync>(
    rt: &R,
    alloc: Global,
    counts: &RunCounts,
    room: Room<'_, K, G>,
    keepers: Vec<K>,
    desks: Vec<DeskOut>,
    gates: Vec<G>,
    turns: u64,
) -> Ended<K>
    requires world { (rs : List Record) × AllShow K.shown keepers.items rs × MakeAWorld rs
        × (room.seat.logs ≡ logs_from 0 rs) × (room.wire.start ≡ rs) }
    requires count { (2 ≤ length keepers.items) × (length keepers.items ≤ MAX_SITES) }
    requires wire { IsSeatOf room.wire room.seat × (room.wire.sites ≡ length keepers.items) }
    requires runs { (room.runs.items ≡ []) × (length keepers.items ≤ vec_capacity room.runs) }
    requires ended { IsRoomFor (length keepers.items) room.ended }
    requires desks { (length desks.items ≡ length keepers.items) × All IsUnused desks.items }
    requires gates { length gates.items ≡ length keepers.items }
    requires turns { turns ≤ 1000000 }
    ensures kept { result.cause ≡ None → AllZip (IsKept K.shown) result.keepers.items
        result.lists.items }
    ensures left { All (IsLeft turns) result.lists.items }
    ensures began { AllZip (Began K.shown) keepers.items result.lists.items }
    ensures ends { AllZip HasEnd desks.items result.lists.items }
    ensures turns { result.cause ≡ None → AllZip (HasTurned K.shown turns) result.keepers.items
        result.lists.items }
    ensures order { AreInOrder result.lists.items }
    ensures fit { KeepersFit K.shown K.may result.keepers.items }
    ensures run { RanAsAWorld K.shown K.may keepers.items result.keepers.items result.lists.items }
    ensures stored { All K.stored keepers.items → All K.stored result.keepers.items }
    ensures back { length result.keepers.items ≡ length keepers.items }
    ensures cause { IfSome result.cause (λ cause. HindersRun K.shown result.keepers.items cause
        × FitAfter K.shown K.may keepers.items cause result.keepers.items) }
    ensures why { IfSome result.cause (Explains K.shown K.reopens G.gives_up turns
        result.keepers.items) }
    ensures first { IfSome result.cause (IsFirstCause result.lists.items) }
    ensures none { result.cause ≡ None → All (λ l. l.fault ≡ None) result.lists.items }
{
    let Room {
        wire,
        seat,
        runs,
        ended,
    } = room;
    let Some(first) = SiteNo::of(0) else {
        unreachable!()
    };
    let (root, all) = wire.split(seat, first);
    let mut runs = begin_all(alloc, &wire, all, keepers, desks, gates, runs);
    run_each(rt, counts, &mut runs, turns);
    let (seat, ended) = part(&wire, root, runs, ended);
    wire.close(seat);
    ended
}

/// What is reported of a run that has ended, in which sites shared threads or not.
fn told<K: SiteKeeper>(ended: Ended<K>, shared: bool) -> Result<Gathered<K>, GatherFault<K>>
    ensures ok { IfOk result (λ g. (ended.cause ≡ None) × (g.keepers ≡ ended.keepers)
        × (g.lists ≡ ended.lists)) }
    ensures err { IfErr result (λ e. (ended.cause ≡ Some e.cause) × (e.keepers ≡ ended.keepers)
        × (e.lists ≡ ended.lists)) }
    ensures back { keepers_of result ≡ ended.keepers.items }
{
    let Ended {
        keepers,
        lists,
        cause,
    } = ended;
    match cause {
        None => Ok(Gathered {
            keepers,
            lists,
            shared,
        }),
        Some(cause) => Err(GatherFault {
            keepers,
            lists,
            cause,
        }),
    }
}

/// Runs all sites of keepers whose records are consistent.
fn run_sites<K: SiteKeeper + Send, G: Gate + Send, R: Threads + Wait + Clock + Sync>(
    rt: &R,
    alloc: Global,
    keepers: Vec<K>,
    desks: Vec<DeskOut>,
    gates: Vec<G>,
    turns: u64,
) -> Result<Gathered<K>, GatherFault<K>>
    requires world { (rs : List Record) × AllShow K.shown keepers.items rs × MakeAWorld rs }
    requires count { (2 ≤ length keepers.items) × (length keepers.items ≤ MAX_SITES) }
    requires desks { (length desks.items ≡ length keepers.items) × All IsUnused desks.items }
    requires gates { length gates.items ≡ length keepers.items }
    requires turns { turns ≤ 1000000 }
    ensures ran { IfOk result (HaveRun K.shown K.may turns keepers.items desks.items) }
    ensures fault { IfErr result (WereHindered K.shown K.may K.reopens G.gives_up turns
        keepers.items desks.items) }
    ensures stored { All K.stored keepers.items → All K.stored (keepers_of result) }
    ensures back { length (keepers_of result) ≡ length keepers.items }
{
    let Ok(room) = room_for::<K, G>(alloc, &keepers) else {
        return Err(GatherFault {
            keepers,
            lists: Vec::new(alloc),
            cause: GatherCause::NoMemory,
        });
    };
    let counts = RunCounts::new(keepers.len() as u64);
    let ended = run_in(rt, alloc, &counts, room, keepers, desks, gates, turns);
    told(ended, counts.are_shared())
}

/// Runs all sites, each in a thread of its own, where one can be made: `turns` turns, each asked for at the site's
/// gate, with at most one job a turn from the site's end of its desk; and at the end each keeper that is closed is
/// opened once more. Where the system gives fewer threads than sites, sites that share one take turns, so that recalls
/// still end.
///
/// After a turn in which a site did no job and its record didn't change it sleeps, 100 microseconds longer each time
/// and at most 1,000, so that a run lasts while other sites begin or write; where sites share threads, it leaves its
/// thread to others instead. A run ends before its turns are made once nothing is left to do: each desk counts as gone,
/// and each recall that a site began has ended. So a gate that waits for other sites needs a thread for each site, and
/// a desk that is kept and would take one job more.
///
/// The keepers are of one list of sites, in the order of their numbers, open, and their records are consistent; no job
/// was taken from the desks.
///
/// # Errors
/// All with the keepers. `NotAWorld`, with the keepers as they were. `NoMemory`: before the first turn, when nothing
/// has changed, or where a keeper couldn't be opened at the end. `SiteLost` where a keeper is closed and an opening of
/// it was refused, and `GaveUp` where a gate, asked for one of these turns, gave up: the other sites went on. Of
/// several sites that ended their runs the least is named.
///
/// Once a turn was begun, a fault has the list of each site, too, so that receipts are confirmed there as well. Of each
/// site that ended its run the list says why.
pub fn run_world<K: SiteKeeper + Send, G: Gate + Send, R: Threads + Wait + Clock + Sync>(
    rt: &R,
    alloc: Global,
    keepers: Vec<K>,
    desks: Vec<DeskOut>,
    gates: Vec<G>,
    turns: u64,
) -> Result<Gathered<K>, GatherFault<K>>
    requires count { (2 ≤ length keepers.items) × (length keepers.items ≤ MAX_SITES) }
    requires desks { (length desks.items ≡ length keepers.items) × All IsUnused desks.items }
    requires gates { length gates.items ≡ length keepers.items }
    requires turns { turns ≤ 1000000 }
    // Each keeper is open afterwards, in the record to which its site's list leads, step by step, from the one that it
    // began with.
    // Not covered: which frames: of a frame's step the list has the input for proofs alone, so that it is said that
    // there are frames by which the record comes about.
    //
    // What the sites did together is a run of the world: steps that were done, and frames that were sent, lead from the
    // records that the keepers showed, with no frame sent, to those that they show. What the run hands to a site are
    // the inputs of the steps of its list in which its record changed, in order. It comes out as the headline says.
    // Not covered: in which order steps of different sites came.
    //
    // The lists come in the order of the sites. The jobs of a list, with one at the end that was taken and not done,
    // are those that were taken from the desk, in order; and the list has the end of that desk.
    //
    // The list says how many turns the site's gate was asked for: as many as the run was to make; or fewer where the
    // site is done, which is that its end counts the desk as gone, no job is in hand, no message waits for a signal,
    // and each recall that it began has ended.
    // Not covered: a body that sets the count and asks no gate meets the clause.
    ensures ran { IfOk result (HaveRun K.shown K.may turns keepers.items desks.items) }
    // Keepers that make no world come back as they were (`NotAWorld`).
    //
    // Where a site is lost (`SiteLost`), a gate gave up (`GaveUp`) or memory ran out, all keepers come back. A lost
    // site is the least that is closed; before the site of a gate that gave up all keepers are open.
    //
    // The cause is that of the least site that ended its run, by the lists.
    //
    // A fault comes with no list and with the keepers as they were; or with the list of each site that began so, with
    // its end of the desk, so that its receipts are confirmed there, and with how many turns its gate was asked for.
    //
    // In every case but `NotAWorld`, in whichever records the keepers are open, or may be opened, these make a world
    // again, and what is quarantined under each recall that has ended is just what its root reaches.
    ensures fault { IfErr result (WereHindered K.shown K.may K.reopens G.gives_up turns
        keepers.items desks.items) }
    // In every case, where a crash leaves on each device what the keeper shows, or may be opened in, it does so
    // afterwards.
    ensures stored { All K.stored keepers.items → All K.stored (keepers_of result) }
    ensures back { length (keepers_of result) ≡ length keepers.items }
{
    match World::new(alloc, keepers) {
        Ok(world) => run_sites(rt, alloc, world.into_keepers(), desks, gates, turns),
        Err(NotAWorld { keepers, fault }) => Err(GatherFault {
            keepers,
            lists: Vec::new(alloc),
            cause: GatherCause::NotAWorld(fault),
        }),
    }
}
