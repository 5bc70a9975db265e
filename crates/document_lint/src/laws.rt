//! Laws of linting, each named by a function with an empty body whose contract is the law.

ghost use Rattle.document_lint.specs.Laws.{AloneIsRead, EventsMakeTheDocument, FaultsStandAlone, FirstFaultRefuses, LacksAreTold, LocationsAreSpelled, MembersAreTold, NearMissesSpellNone, SpellingsBeginSo};

/// A document is refused for the first fault that is found in it, and read where none is found.
pub fn first_fault_refuses()
    ensures { FirstFaultRefuses }
{}

/// A fault of an event refuses it as long as its member stays, and what would refuse it once others are mended is told.
pub fn faults_stand_alone()
    ensures { FaultsStandAlone }
{}

/// The faults of an event are of its members, of each at most one, in the order of a capture's checks.
pub fn members_are_told()
    ensures { MembersAreTold }
{}

/// A half or a parent is told to be missing exactly where it is known to be.
pub fn lacks_are_told()
    ensures { LacksAreTold }
{}

/// The item of a text is a near miss where the text begins as one of an SGTIN or an SSCC and spells none.
pub fn near_misses_spell_none()
    ensures { NearMissesSpellNone }
{}

/// Each text that spells an SGTIN or an SSCC begins so.
pub fn spellings_begin_so()
    ensures { SpellingsBeginSo }
{}

/// An EPC URI, a GLN and a Digital Link of it name the location of that GLN.
pub fn locations_are_spelled()
    ensures { LocationsAreSpelled }
{}

/// A document of an event alone is read as the event is, or refused for its fault.
pub fn alone_is_read()
    ensures { AloneIsRead }
{}

/// A document that is read says what the documents of its single events say, put together.
pub fn events_make_the_document()
    ensures { EventsMakeTheDocument }
{}
