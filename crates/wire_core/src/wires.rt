//! The wire between sites, and the seats that use it.

use crate::rules::{Joined, Opening, Token};
use crate::views::View;
use atomic_table::Table;
use frame_core::Frame;
use std::alloc::Global;
use std::marker::Model;

/// The words and slots of all mailboxes.
pub type Mailboxes = Table<Option<Frame>, View, Opening, Joined, Global>;

/// A mailbox of one frame for each ordered pair of sites, and a count of marked steps for each site.
///
/// Threads share it, and none waits for another. Between any two of their steps what they did so far is a run of the
/// world, from the records that the sites had when the wire was made to those last marked. So these, with all frames
/// sent, are consistent.
#[derive(Drop)]
pub struct Wire {
    pub(crate) table: Mailboxes,
}

impl Model for Wire {
    ghost use Rattle.std.specs.Prelude.{length, map};
    ghost use Rattle.wire_core.specs.Seats.{Line, IsLaidOut, coded_line};

    ghost Value = { Line };

    ghost coded = { coded_line };

    ghost view = { λ w. record {
      table = w.table.shared.table_id;
      sites = length w.table.shared.key.items;
      start = map (λ s. s.value) w.table.shared.key.items;
    } };

    ghost invariant = { λ w. IsLaidOut w.table.shared.table_id (length w.table.shared.key.items) };
}

/// What a thread holds of a wire: some of its sites. Each site stands in one seat.
#[derive(Drop)]
pub struct Seat {
    pub(crate) token: Token,
}

impl Model for Seat {
    ghost use Rattle.wire_core.specs.Seats.{SeatView, IsIdle, coded_seat};

    ghost Value = { SeatView };

    ghost coded = { coded_seat };

    ghost view = { λ s. record { table = s.token.table_id; logs = s.token.me.0.sites } };

    ghost invariant = { λ s. IsIdle s.token.table_id s.token.me };
}
