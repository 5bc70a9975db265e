//! Marking a step on the wire.
ghost use Rattle.std.specs.Prelude.{◌≡◌, ◌↔◌, IsTrue, IfSome, MatchOption, option_map};
ghost use Rattle.wire_core.specs.Seats.{IsSeatOf};
ghost use Rattle.site_threads.specs.Keepers.{shown_if};
ghost use Rattle.site_threads.specs.Running.{MarksChange, MayFollow, Follows};
ghost use Rattle.site_threads.specs.Stamps.{stamp};

use crate::stamps::{Stamp, stamp_of};
use keeper_core::SiteKeeper;
use site_core::{SiteInput, SiteState};
use std::snapshot::Snapshot;
use wire_core::{Seat, Wire};

/// Marks the step that led to the record, where that is another than the one last marked. Gives the record's stamp.
pub fn follow(
    wire: &Wire,
    seat: &mut Seat,
    kept: Stamp,
    input: &Snapshot<SiteInput>,
    state: &SiteState,
) -> Stamp
    requires seat { IsSeatOf wire.now seat.old }
    requires may { MayFollow seat.old.logs kept input.now.value state.now }
    ensures seat { IsSeatOf wire.now seat.new }
    ensures stamped { result ≡ stamp state.now }
    ensures follows { Follows seat.old.logs state.now seat.new.logs }
    ensures marks { MarksChange seat.old.logs input.now.value state.now seat.new.logs }
{
    let now = stamp_of(state);
    if !are_same(now, kept) {
        wire.mark(seat, input, state);
    }
    now
}

/// Marks the step that led to the record that is shown, if one is.
pub fn follow_shown<K: SiteKeeper>(
    keeper: &Option<K>,
    wire: &Wire,
    seat: &mut Seat,
    kept: Stamp,
    input: &Snapshot<SiteInput>,
) -> Stamp
    requires seat { IsSeatOf wire.now seat.old }
    requires may { IfSome (shown_if K.shown keeper.now)
        (MayFollow seat.old.logs kept input.now.value) }
    ensures seat { IsSeatOf wire.now seat.new }
    ensures follows { MatchOption (shown_if K.shown keeper.now)
        ((result ≡ kept) × (seat.new.logs ≡ seat.old.logs))
        (λ r. (result ≡ stamp r) × Follows seat.old.logs r seat.new.logs) }
    ensures marks { IfSome (shown_if K.shown keeper.now)
        (λ r. MarksChange seat.old.logs input.now.value r seat.new.logs) }
{
    match view_of(keeper) {
        None => kept,
        Some(state) => follow(wire, seat, kept, input, state),
    }
}

/// The record that a keeper shows.
pub fn view_of<K: SiteKeeper>(keeper: &Option<K>) -> Option<&SiteState>
    ensures { option_map (λ r. r.now) result ≡ shown_if K.shown keeper.now }
{
    match keeper {
        None => None,
        Some(keeper) => keeper.view(),
    }
}

/// Whether no count differs.
pub fn are_same(one: Stamp, other: Stamp) -> bool
    ensures { IsTrue result ↔ (one ≡ other) }
{
    one.events == other.events
        && one.next_recall == other.next_recall
        && one.seen == other.seen
        && one.waiting == other.waiting
}
