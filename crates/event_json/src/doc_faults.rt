//! Why a document is refused.

ghost use Rattle.std.specs.Prelude.{◌≡◌};
ghost use Rattle.event_json.specs.Names.{kind_name, field_name};

use std::alloc::{AllocError, AllocFailed};
use std::error::Error;
use std::fmt;

/// The kinds of fault, numbered from 1.
#[derive(Clone, Copy, Debug, PartialEq, Eq)]
pub enum DocFaultKind {
    /// The bytes are no JSON text in UTF-8, or it nests more than 127 deep.
    Syntax = 1,
    /// The value is no EPCISDocument with a list of events, and no event of the standard.
    NotDocument = 2,
    /// The list has more than 1,000 events.
    TooManyEvents = 3,
    /// The event's type is missing or is none of the standard's five.
    NoType = 4,
    /// A member that has to be there is absent or null.
    Missing = 5,
    /// A member is of another JSON type than it has to be, or its text isn't plain.
    WrongShape = 6,
    /// The event time is no instant.
    Time = 7,
    /// The event's time zone offset isn't written as a sign, hours to 14, a colon and minutes.
    Offset = 8,
    /// The action is none of ADD, OBSERVE and DELETE.
    Action = 9,
    /// A member of a list is no EPC text.
    BadEpc = 10,
    /// A list of items or destinations has more than 1,000 members.
    TooManyEpcs = 11,
    /// The event has quantities, which aren't traced.
    Quantities = 12,
    /// The event is declared to be in error, or retracts another.
    ErrorDeclared = 13,
    /// A transformation without an id lacks its inputs or its outputs.
    HalfTransformation = 14,
}

impl DocFaultKind {
    /// The kind by its name.
    pub fn name(self) -> &'static str
        // Not covered: that the names are the right words.
        ensures { result.now ≡ kind_name self }
    {
        match self {
            DocFaultKind::Syntax => "Syntax",
            DocFaultKind::NotDocument => "NotDocument",
            DocFaultKind::TooManyEvents => "TooManyEvents",
            DocFaultKind::NoType => "NoType",
            DocFaultKind::Missing => "Missing",
            DocFaultKind::WrongShape => "WrongShape",
            DocFaultKind::Time => "Time",
            DocFaultKind::Offset => "Offset",
            DocFaultKind::Action => "Action",
            DocFaultKind::BadEpc => "BadEpc",
            DocFaultKind::TooManyEpcs => "TooManyEpcs",
            DocFaultKind::Quantities => "Quantities",
            DocFaultKind::ErrorDeclared => "ErrorDeclared",
            DocFaultKind::HalfTransformation => "HalfTransformation",
        }
    }
}

impl fmt::Display for DocFaultKind {
    ghost use Rattle.std.specs.Prelude.{Some};
    ghost use Rattle.event_json.specs.Names.{kind_name};

    ghost output = { λ kind. Some (kind_name kind) };

    fn fmt<W: fmt::Write>(&self, f: &mut fmt::Formatter<W>) -> fmt::Result {
        f.write_str(self.name())
    }
}

impl Error for DocFaultKind {}

/// The member at which a document is refused, or the document or event itself.
#[derive(Clone, Copy, Debug, PartialEq, Eq)]
pub enum DocField {
    /// The document as a whole.
    Document,
    /// `eventList`
    EventList,
    /// An event as a whole.
    Event,
    /// `type`
    Type,
    /// `errorDeclaration`
    ErrorDeclaration,
    /// `quantityList`
    QuantityList,
    /// `inputQuantityList`
    InputQuantityList,
    /// `outputQuantityList`
    OutputQuantityList,
    /// `eventID`
    EventId,
    /// `eventTime`
    EventTime,
    /// `eventTimeZoneOffset`
    EventTimeZoneOffset,
    /// `action`
    Action,
    /// `epcList`
    EpcList,
    /// `destinationList`
    DestinationList,
    /// `inputEPCList`
    InputEpcList,
    /// `outputEPCList`
    OutputEpcList,
    /// `transformationID`
    TransformationId,
    /// `parentID`
    ParentId,
    /// `childEPCs`
    ChildEpcs,
    /// `childQuantityList`
    ChildQuantityList,
}

impl DocField {
    /// The field as its member is spelled.
    pub fn name(self) -> &'static str
        ensures { result.now ≡ field_name self }
    {
        match self {
            DocField::Document => "document",
            DocField::EventList => "eventList",
            DocField::Event => "event",
            DocField::Type => "type",
            DocField::ErrorDeclaration => "errorDeclaration",
            DocField::QuantityList => "quantityList",
            DocField::InputQuantityList => "inputQuantityList",
            DocField::OutputQuantityList => "outputQuantityList",
            DocField::EventId => "eventID",
            DocField::EventTime => "eventTime",
            DocField::EventTimeZoneOffset => "eventTimeZoneOffset",
            DocField::Action => "action",
            DocField::EpcList => "epcList",
            DocField::DestinationList => "destinationList",
            DocField::InputEpcList => "inputEPCList",
            DocField::OutputEpcList => "outputEPCList",
            DocField::TransformationId => "transformationID",
            DocField::ParentId => "parentID",
            DocField::ChildEpcs => "childEPCs",
            DocField::ChildQuantityList => "childQuantityList",
        }
    }
}

impl fmt::Display for DocField {
    ghost use Rattle.std.specs.Prelude.{Some};
    ghost use Rattle.event_json.specs.Names.{field_name};

    ghost output = { λ field. Some (field_name field) };

    fn fmt<W: fmt::Write>(&self, f: &mut fmt::Formatter<W>) -> fmt::Result {
        f.write_str(self.name())
    }
}

/// The first fault of a document.
#[derive(Clone, Copy, Debug, PartialEq, Eq, thiserror::Error)]
#[error("{kind} event {event} field {field}")]
pub struct DocFault {
    /// The event's place in the list, from 1 and with the skipped ones counted; 0 for the document.
    pub event: u64,
    /// The member.
    pub field: DocField,
    /// What is wrong with it.
    pub kind: DocFaultKind,
}

/// Why no document was read.
#[derive(Clone, Copy, Debug, PartialEq, Eq, thiserror::Error)]
pub enum ReadFault {
    /// Memory ran out.
    #[error("memory ran out")]
    NoMemory,
    /// The document has this fault.
    #[error("{0}")]
    Doc(DocFault),
}

/// What is wrong with an event, wherever it stands.
#[derive(Clone, Copy, Debug, PartialEq, Eq)]
pub struct Flaw {
    pub field: DocField,
    pub kind: DocFaultKind,
}

impl From<AllocError> for ReadFault {
    ghost use Rattle.event_json.specs.declared.doc_faults.ReadFault.TheVariants as reads;

    ghost from_gives = { λ _ e. e ≡ reads.NoMemory };

    fn from(_error: AllocError) -> ReadFault {
        ReadFault::NoMemory
    }
}

impl<T: Drop> From<AllocFailed<T>> for ReadFault {
    ghost use Rattle.event_json.specs.declared.doc_faults.ReadFault.TheVariants as reads;

    ghost from_gives = { λ _ e. e ≡ reads.NoMemory };

    fn from(_error: AllocFailed<T>) -> ReadFault {
        ReadFault::NoMemory
    }
}

impl From<DocFault> for ReadFault {
    ghost use Rattle.event_json.specs.declared.doc_faults.ReadFault.TheVariants as reads;

    ghost from_gives = { λ fault e. e ≡ reads.Doc fault };

    fn from(fault: DocFault) -> ReadFault {
        ReadFault::Doc(fault)
    }
}
