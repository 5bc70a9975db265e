//! What a site shipped.
ghost use Rattle.std.specs.Prelude.{◌↔◌, IsTrue};
ghost use Rattle.site_core.specs.Ways.{ShipsTo};

use epc_core::Epc;
use event_json::SiteNo;
use site_core::SiteState;

/// Whether the site shipped the item to the other site. Does not allocate.
pub(crate) fn ships(state: &SiteState, item: &Epc, to: SiteNo) -> bool
    ensures { IsTrue result ↔ ShipsTo state.now item.now to }
{
    let captured = state.captured();
    captured.me() != to && captured.sent_to(item, to)
}
