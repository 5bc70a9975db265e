//! What capturing has to mean, each law named by a function.
ghost use Rattle.site_core.specs.CapturingLaws.{BlocksNameTheLeast, EventsHaveOneOutcome, ShipmentsNameTheLesser};

/// The events of a document are captured in one way, or first refused at one place for one reason, and
/// not both.
pub fn events_have_one_outcome()
    ensures { EventsHaveOneOutcome }
{}

/// Where an event would lead several items out of quarantine, or one item out of several recalls, the refusal
/// names the least item, in the order of bytes, and of its recalls the least, by site and then by number. So of
/// two quarantined items of a shipment it never names the one above.
pub fn blocks_name_the_least()
    ensures least { BlocksNameTheLeast }
    ensures shipments { ShipmentsNameTheLesser }
{}
