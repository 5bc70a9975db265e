//! What a linter finds in a document.

use event_json::{DocFaultKind, DocField, PlainText, Sequence, SiteNo, Sites};

/// An event type of the standard that isn't traced.
#[derive(Clone, Copy, Debug, PartialEq, Eq)]
pub enum SkippedType {
    /// TransactionEvent
    Transaction,
    /// AssociationEvent
    Association,
}

/// A member of an event that names a place where it happened.
#[derive(Clone, Copy, Debug, PartialEq, Eq)]
pub enum PlaceMember {
    /// readPoint
    ReadPoint,
    /// bizLocation
    BizLocation,
}

/// What is wrong with an event or a document, or strange about an event.
#[derive(Debug, Drop)]
pub enum What {
    /// It can't be read: a fault of a member of the event, or of the document itself.
    Fault {
        field: DocField,
        kind: DocFaultKind,
    },
    /// The event is skipped, being of a type that isn't traced.
    Skipped(SkippedType),
    /// An ObjectEvent of a business step with which goods leave, `shipping`, `departing` or `consigning`, has no
    /// destination, so that nothing is traced past it.
    ShipsNowhere,
    /// Goods were shipped to this place, which is no traced site, and at the location of none by its GLN.
    Outside(PlainText),
    /// Goods were shipped to this text, which is no address of a traced site, but names by its GLN the location of an
    /// address of this one, so that it may be another spelling of that. It is found in place of `Outside`.
    OtherSpelling {
        site: PlainText,
        address: PlainText,
    },
    /// An AggregationEvent or a TransformationEvent has destinations. Only an ObjectEvent ships, so that its goods are
    /// traced to none of them.
    NotShipped,
    /// An AggregationEvent with the action ADD has no children, so that nothing is traced into its parent.
    NothingPacked,
    /// The event has no eventID, so that it counts again where it is captured again.
    NoEventId,
    /// The text of an item begins as that of an SGTIN or an SSCC does and breaks a rule of these, so that it is taken
    /// as any other text.
    NearMiss {
        field: DocField,
        text: PlainText,
    },
    /// The event happened at this address of another traced site than the one that is to capture it.
    OtherPlace {
        member: PlaceMember,
        address: PlainText,
    },
}

/// Something that is found at an event.
#[derive(Debug, Drop)]
pub struct Finding {
    /// The event's number in the document, from 1; 0 of the document itself.
    pub event: u64,
    pub what: What,
}

/// What is found in a document.
#[derive(Debug, Drop)]
pub struct Lint {
    /// How many events its list has.
    pub events: u64,
    /// What is found, of the document itself first and then event by event.
    pub findings: Sequence<Finding>,
}

/// By what documents are looked through.
#[derive(Debug, Drop)]
pub struct Listing<'a> {
    /// The traced sites.
    pub sites: &'a Sites,
    /// The one that is to capture the documents, if that is named.
    pub here: Option<SiteNo>,
}
