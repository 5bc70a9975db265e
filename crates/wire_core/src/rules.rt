//! The rule that holds between any two steps.

use crate::views::View;
use atomic_table::{Seat, Shared, TableRule};
use frame_core::Frame;
use site_core::SiteState;
use std::snapshot::Snapshot;

/// The records at the start, one for each site, for proofs alone.
pub type Opening = Vec<Snapshot<SiteState>>;

/// The rule of all sites that a wire joins.
pub struct Joined;

impl TableRule<Option<Frame>, View, Opening> for Joined {
    ghost use Rattle.std.specs.Prelude.{map};
    ghost use Rattle.wire_core.specs.Rule.{Ruled, first_view};

    ghost holds = { λ opening. Ruled (map (λ s. s.value) opening.items) };

    ghost first = { λ opening. first_view (map (λ s. s.value) opening.items) };
}

/// A part of what is known, and the slots that are out with it.
pub type Token = Seat<Option<Frame>, View>;

/// The words and slots as all threads see them.
pub type Hub = Shared<Option<Frame>, View, Opening, Joined>;
