//! Laws of a value's document, each named by a function with an empty body whose contract is the law.

ghost use Rattle.document_convert.specs.ErrorLaws.{DeclarationsGo, DocumentsAreKept, OthersStay, ReadAsSaid};
ghost use Rattle.document_convert.specs.LinkLaws.{DocumentsAreLinked, EventsAreLinked, LinksAreUnits, TextsAreLinked, UnitsBecomeLinks, UnitsStayApart};
ghost use Rattle.document_convert.specs.LotLaws.{EventsAreRespelled, LotsAreMoved, LotsAreNamed, LotsStayApart, NothingGetsLost, ReadStaysWithLots, SpelledAreLots, SpellingsBecomeOne, TextsAreRespelled, WithoutStays};
ghost use Rattle.document_convert.specs.PlaceLaws.{AddressesStay, DestinationsArePlaced, DocumentsArePlaced, EventsArePlaced, OthersHaveNone, PlacedStay, PlacesAreFound, PlacesAreListed, SecondPlacesNothing, ShipmentsAreTraced};
ghost use Rattle.document_convert.specs.UnitLaws.{LotsAreMade, LotsAreNumbered, NothingIsInvented, UnitsAreLed, WithoutLotsAsBefore};
ghost use Rattle.document_convert.specs.Laws.{EventsAreKept, HoldersAreDocuments, HoldersAreThese, MembersAreKept, ReadIsUnchanged, SecondChangesNothing, SurroundingsAreKept, TypesAreKept, TypesAreThese, TypesAreTold};

/// The type of a value is its `type`, else its `@type`, else its `isA`.
pub fn types_are_these()
    ensures { TypesAreThese }
{}

/// What holds events, and which.
pub fn holders_are_these()
    ensures { HoldersAreThese }
{}

/// No event is lost, and none is added: a capture finds in the document each event of the value, in order.
pub fn events_are_kept()
    ensures { EventsAreKept }
{}

/// A value that holds no events is no document, and any other is one.
pub fn holders_are_documents()
    ensures { HoldersAreDocuments }
{}

/// An event has each member that it had, but `type`; and that stays, too, where it is there.
pub fn members_are_kept()
    ensures members { MembersAreKept }
    ensures types { TypesAreKept }
{}

/// The type of an event is what it says of it.
pub fn types_are_told()
    ensures { TypesAreTold }
{}

/// What stands in a document beside its type and its body stays.
pub fn surroundings_are_kept()
    ensures { SurroundingsAreKept }
{}

/// What a capture reads stays as it is.
pub fn read_is_unchanged()
    ensures { ReadIsUnchanged }
{}

/// What comes of a value is the document of itself.
pub fn second_changes_nothing()
    ensures { SecondChangesNothing }
{}

/// Two spellings of one lot become one item, and two lots never one.
pub fn lots_have_one_spelling()
    ensures one { SpellingsBecomeOne }
    ensures lots { SpelledAreLots }
    ensures apart { LotsStayApart }
{}

/// The lots of a list of quantities stand behind the items of a list, which all stay, and nothing else changes.
pub fn lots_are_moved()
    ensures { LotsAreMoved }
{}

/// Each lot of an event's quantities stands in the list of the same role, or the event stays as it is.
pub fn lots_are_named()
    ensures { LotsAreNamed }
{}

/// A lot that an event names becomes its one spelling, in its place, and all else stays.
pub fn lots_are_respelled()
    ensures texts { TextsAreRespelled }
    ensures events { EventsAreRespelled }
{}

/// A document that a capture reads has no quantities, and stays as it is where no event of it spells a lot otherwise, or
/// tells the lot of units.
pub fn read_stays_with_lots()
    ensures events { WithoutStays }
    ensures documents { ReadStaysWithLots }
{}

/// Nothing gets lost: each text that an event names as an item is named by its conversion in the list of the same role,
/// and so is each lot of its quantities, or the event keeps these.
pub fn nothing_gets_lost()
    ensures { NothingGetsLost }
{}

/// Each unit of a lot that an event's `ilmd` names has an event in the converted document that leads from the lot's
/// spelling to it.
pub fn units_are_led()
    ensures { UnitsAreLed }
{}

/// The converted document has each event, in order, and right behind it only events that were derived of it: each leads
/// from one lot that the event's `ilmd` names to units of the event that have the lot's GTIN.
pub fn nothing_is_invented()
    ensures { NothingIsInvented }
{}

/// An event is written as its lots of quantities have it, but that a transformation makes the lots of its units, too.
pub fn lots_are_made()
    ensures { LotsAreMade }
{}

/// An event whose `ilmd` names no lot, or that has no units, is written as before, and nothing behind it.
pub fn without_lots_as_before()
    ensures { WithoutLotsAsBefore }
{}

/// The events of an event's lots have its identifier with their number behind it, where it has one.
pub fn lots_are_numbered()
    ensures { LotsAreNumbered }
{}

/// A text that names a unit becomes the text that spells this very unit, so that two spellings of one become one, no
/// other text does, and two units never become one.
pub fn units_have_one_link()
    ensures one { UnitsBecomeLinks }
    ensures units { LinksAreUnits }
    ensures apart { UnitsStayApart }
{}

/// A unit that an event names becomes its link, in its place, and all else stays: each event of a document is there, in
/// order, and no other.
pub fn units_are_linked()
    ensures texts { TextsAreLinked }
    ensures events { EventsAreLinked }
    ensures documents { DocumentsAreLinked }
{}

/// An event that was declared to be an error has all its members but the declaration, so that a capture reads it as the
/// event that says the same and wasn't declared; any other stays as it is. Each event of a document is there, in order,
/// and no other.
pub fn errors_are_kept()
    ensures others { OthersStay }
    ensures events { DeclarationsGo }
    ensures read { ReadAsSaid }
    ensures documents { DocumentsAreKept }
{}

/// What the text of a destination becomes is an address of a listed site that names the same place: of the one site
/// that has this place, else of the one that has its GLN. An address of one stays, and so does a text that names the
/// place of none, or the GLN of several.
pub fn places_are_listed()
    ensures listed { PlacesAreListed }
    ensures found { PlacesAreFound }
    ensures addresses { AddressesStay }
    ensures others { OthersHaveNone }
{}

/// A destination of an ObjectEvent becomes the address of its place, where it stands, so that a capture reads this
/// address, which is a traced site's. All else stays: each event of a document is there, in order, and no other.
pub fn destinations_are_placed()
    ensures texts { DestinationsArePlaced }
    ensures events { EventsArePlaced }
    ensures read { ShipmentsAreTraced }
    ensures documents { DocumentsArePlaced }
{}

/// A document stays whose destinations are addresses of listed sites or name the place of none, and so does what was
/// converted.
pub fn placed_stay()
    ensures documents { PlacedStay }
    ensures second { SecondPlacesNothing }
{}
