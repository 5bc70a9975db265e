//! Laws of long lists in parts, each named by a function with an empty body whose contract is the law.

ghost use Rattle.document_convert.specs.PartLaws.{DocumentsAreParted, ListsAreParted, MakesStayWhole, OthersAreKept, PartsAreNumbered, WithinStays};

/// Nothing gets lost, and nothing is added: the lists of an event's parts, one after another, are those of the event,
/// each with at most 1,000 members, and every other member is the event's, but the identifiers.
pub fn parts_have_all()
    ensures lists { ListsAreParted }
    ensures others { OthersAreKept }
{}

/// Each input of a transformation still leads to each output: its parts are one transformation by their identifier, or
/// each input stands with each output in a part.
pub fn makes_stay_whole()
    ensures { MakesStayWhole }
{}

/// The identifiers of an event's parts are made of its own, and no two are one; where it has none, they have none.
pub fn parts_are_numbered()
    ensures { PartsAreNumbered }
{}

/// The events of a document's documents, one after another, are the parts of its events, in order; each has at most
/// 1,000, and what stands beside the body.
pub fn documents_are_parted()
    ensures { DocumentsAreParted }
{}

/// Within the limits all stays as it was, and so does what a capture reads.
pub fn within_stays()
    ensures { WithinStays }
{}
