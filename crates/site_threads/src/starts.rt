//! The sites of a run before their first turns.
ghost use Rattle.std.specs.Prelude.{◌≡◌, ◌+◌, ◌≤◌, List, [], ◌∷◌, Some, All, map, length, vec_capacity};
ghost use Rattle.std.specs.List.{range_with_len, AllZip};
ghost use Rattle.event_json.specs.declared.limits.TheConstants.{MAX_SITES};
ghost use Rattle.site_core.specs.Records.{Record};
ghost use Rattle.site_recovery.specs.Laws.{AreInPlace};
ghost use Rattle.world_core.specs.Keepers.{AllShow};
ghost use Rattle.wire_core.specs.Rule.{logs_from, opening_log};
ghost use Rattle.wire_core.specs.Seats.{IsSeatOf};
ghost use Rattle.site_threads.specs.Beginning.{BeganIn, TookEnd};
ghost use Rattle.site_threads.specs.Ends.{IsUnused};
ghost use Rattle.site_threads.specs.Runs.{IsReady};

use crate::desks::DeskOut;
use crate::gates::Gate;
use crate::room::add;
use crate::sites::RunningSite;
use event_json::SiteNo;
use keeper_core::SiteKeeper;
use std::alloc::Global;
use wire_core::{Seat, Wire};

/// A site whose run has not begun.
fn begin<'w, K: SiteKeeper, G: Gate>(
    alloc: Global,
    wire: &'w Wire,
    keeper: K,
    gate: G,
    out: DeskOut,
    seat: Seat,
    me: SiteNo,
) -> RunningSite<'w, K, G>
    requires seat { IsSeatOf wire.now seat }
    requires start { (r : Record) × (K.shown keeper ≡ Some r) × (seat.logs ≡ opening_log me r ∷ [])
        × (r.engagement.me ≡ me) }
    requires desk { IsUnused out }
    ensures ready { IsReady result }
    ensures place { (result.wire ≡ wire.now) × (result.me ≡ me) }
    ensures start { BeganIn K.shown keeper result }
    ensures desk { TookEnd out result }
{
    RunningSite::new(alloc, wire, keeper, gate, out, seat, me)
}

/// The first of the sites that a seat holds, in order, and the others.
fn first_apart(wire: &Wire, seat: Seat, me: SiteNo) -> (Seat, Seat)
    requires { IsSeatOf wire.now seat }
    ensures seats { IsSeatOf wire.now result.0 × IsSeatOf wire.now result.1 }
    ensures parts { (r : Record) (rs : List Record) → seat.logs ≡ logs_from me (r ∷ rs)
        → me + length (r ∷ rs) ≤ MAX_SITES → (result.0.logs ≡ opening_log me r ∷ [])
        × (result.1.logs ≡ logs_from (me + 1) rs) }
{
    match SiteNo::of(me.number() + 1) {
        Some(next) => wire.split(seat, next),
        // It is the last one.
        None => {
            let (none, last) = wire.split(seat, me);
            (last, none)
        }
    }
}

/// The sites, each with a seat of its own. There is room for them.
pub fn begin_all<'w, K: SiteKeeper, G: Gate>(
    alloc: Global,
    wire: &'w Wire,
    seat: Seat,
    keepers: Vec<K>,
    desks: Vec<DeskOut>,
    gates: Vec<G>,
    room: Vec<RunningSite<'w, K, G>>,
) -> Vec<RunningSite<'w, K, G>>
    requires seat { IsSeatOf wire.now seat }
    requires sites { (rs : List Record) × (seat.logs ≡ logs_from 0 rs)
        × AllShow K.shown keepers.items rs × AreInPlace rs }
    requires count { (length keepers.items ≤ MAX_SITES)
        × (length desks.items ≡ length keepers.items)
        × (length gates.items ≡ length keepers.items) }
    requires desks { All IsUnused desks.items }
    requires room { (room.items ≡ []) × (length keepers.items ≤ vec_capacity room) }
    ensures ready { All IsReady result.items }
    ensures wire { All (λ r. r.wire ≡ wire.now) result.items }
    ensures order { map (λ r. r.me) result.items ≡ range_with_len 0 (length keepers.items) }
    ensures start { AllZip (BeganIn K.shown) keepers.items result.items }
    ensures desks { AllZip TookEnd desks.items result.items }
{
    let mut runs = room;
    let mut rest = seat;
    let mut ends = desks.into_iter();
    let mut asked = gates.into_iter();
    for keeper in keepers {
        let Some(out) = ends.next() else {
            unreachable!()
        };
        let Some(gate) = asked.next() else {
            unreachable!()
        };
        let Some(me) = SiteNo::of(runs.len() as u64) else {
            unreachable!()
        };
        let (mine, others) = first_apart(wire, rest, me);
        rest = others;
        add(&mut runs, begin(alloc, wire, keeper, gate, out, mine, me));
    }
    runs
}
