//! The event types of the standard.
ghost use Rattle.std.specs.Prelude.{◌≡◌};
ghost use Rattle.event_json.specs.Checks.{type_named};

/// The event types of the standard.
#[derive(Clone, Copy, Debug, PartialEq, Eq)]
pub enum EventType {
    Object,
    Aggregation,
    Transaction,
    Transformation,
    Association,
}

impl EventType {
    /// The type that is written so in the member `type`.
    #[tactic(auto, unfolding(crate::specs::Checks::type_named))]
    pub fn named(text: &str) -> Option<EventType>
        ensures { result ≡ type_named text.now }
    {
        if text == "ObjectEvent" {
            Some(EventType::Object)
        } else if text == "AggregationEvent" {
            Some(EventType::Aggregation)
        } else if text == "TransactionEvent" {
            Some(EventType::Transaction)
        } else if text == "TransformationEvent" {
            Some(EventType::Transformation)
        } else if text == "AssociationEvent" {
            Some(EventType::Association)
        } else {
            None
        }
    }
}
