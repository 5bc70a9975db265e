//! Laws of the definitions, each of which a call ensures.
ghost use Rattle.std.specs.Prelude.{◌≡◌, length};
ghost use Rattle.event_json.specs.Laws.{EventsAreRead, FirstFaultIsTold, AllPass, DocumentsAreLists, DestinationsAreDealt, DocumentsShipToSites, EqualIsSame, OffsetsAreThese, FaultsComeInOrder, TypesComeFirst, ListsAreLimited, name_characters, SiteNamesAreThese, SitesAreLimited};
ghost use Rattle.event_json.specs.UntracedLaws.{SkippedAreCounted, AimlessAreSeen};

/// What is read of a list are its events, each at its place.
pub fn events_are_read()
    ensures { EventsAreRead }
{}

/// The fault of a list is that of its first event that doesn't pass.
pub fn first_fault_is_told()
    ensures { FirstFaultIsTold }
{}

/// A list is read exactly where each of its events passes.
pub fn all_pass()
    ensures { AllPass }
{}

/// A document is read, or refused, as its list of events is, and each of them is kept or skipped.
pub fn documents_are_lists()
    ensures { DocumentsAreLists }
{}

/// Each destination of a shipment is a traced site or an outside text, in order.
pub fn destinations_are_dealt()
    ensures { DestinationsAreDealt }
{}

/// What the events of a document ship goes to sites of the list, or outside.
pub fn documents_ship_to_sites()
    ensures { DocumentsShipToSites }
{}

/// Bodies, events and lists of sites that are compared as equal are the same, and only those.
pub fn equal_is_same()
    ensures { EqualIsSame }
{}

/// The texts that pass as offsets of a clock, by their six bytes.
pub fn offsets()
    ensures { OffsetsAreThese }
{}

/// The fault of an event is that of its type, or else of the first of its members, in their order, that has one.
pub fn faults_come_in_order()
    ensures first { TypesComeFirst }
    ensures order { FaultsComeInOrder }
{}

/// Lists of 1,000 items or destinations pass, and longer ones are refused.
pub fn lists_are_limited()
    ensures { ListsAreLimited }
{}

/// A site's name is 1 to 16 of 64 characters, and 16 sites of 16 addresses can be listed.
pub fn sites_are_limited()
    ensures counted { length name_characters ≡ 64 }
    ensures names { SiteNamesAreThese }
    ensures sites { SitesAreLimited }
{}

/// The events of a document that is read are those of a skipped type, which are counted, and those that are kept.
pub fn skipped_are_counted()
    ensures { SkippedAreCounted }
{}

/// An event that ships without a destination is kept as an observation.
pub fn aimless_are_seen()
    ensures { AimlessAreSeen }
{}
