//! What records say of a recall.

ghost use Rattle.std.specs.Prelude.{◌≡◌};
ghost use Rattle.world_core.specs.Recalls.{ended_in};

use frame_core::{RecallId, tables};
use site_core::SiteState;

/// Whether the recall that a site began has ended, None where it began no such one.
pub fn ended_at(state: &SiteState, recall: RecallId) -> Option<bool>
    ensures { result ≡ ended_in recall state.now }
{
    Some(tables::get(state.own_recalls(), recall.number)?.ended)
}
