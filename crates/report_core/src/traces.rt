//! What a trace of an item says.

use crate::back_trails::BackTrails;
use crate::outside::OutsideShipment;
use event_json::Sequence;
use trace_core::{AllTrails, Pair};

/// What an item at a site, alone or with what lies in it, reaches through the events that all sites captured, and
/// what of it left the traced sites.
#[derive(Debug, Drop)]
pub struct Trace {
    /// The item at the site.
    pub root: Pair,
    /// What chains of made and shipped items reach from it, or also from what lies in it, itself among them, by site,
    /// then by item, and each once.
    pub pairs: Sequence<Pair>,
    /// For each of these pairs, in their order, a chain of related pairs from the root to it, without repeats and
    /// with as few pairs as any. The root's next one may be what lies in it, in a trace with that.
    pub trails: AllTrails,
    /// What of these pairs was shipped to places outside the traced sites, by site, item and destination, and each
    /// once.
    pub outside: Sequence<OutsideShipment>,
}

/// What reaches an item at a site through the events that all sites captured, and where that began.
#[derive(Debug, Drop)]
pub struct BackTrace {
    /// The item at the site.
    pub root: Pair,
    /// What reaches it by chains of made and shipped items, itself among them, by site, then by item, and each once.
    pub pairs: Sequence<Pair>,
    /// For each of these pairs, in their order, a chain of related pairs from it to the root, without repeats and with
    /// as few pairs as any.
    pub trails: BackTrails,
    /// Those of these pairs that no pair is related to: by no event of the given sites were they made there or shipped
    /// there. By site, then by item, and each once.
    pub origins: Sequence<Pair>,
}
