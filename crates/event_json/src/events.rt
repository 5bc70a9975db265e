//! An event of a site: its eventID, its instant and what it says.
ghost use Rattle.std.specs.Prelude.{◌≡◌, IfOk, option_map};
ghost use Rattle.event_json.specs.Events.{IsIdentifier, IsInstant, IsBody};

use crate::bodies::Body;
use crate::copies::copy_id;
use crate::texts::PlainText;
use std::alloc::{AllocError, Global};
use std::marker::Model;

/// An event of a site.
#[derive(Debug, Drop)]
pub struct Event {
    id: Option<PlainText>,
    instant: i128,
    body: Body,
}

impl Model for Event {
    ghost use Rattle.event_json.specs.Events.{Content, IsIdentifier, IsInstant, IsBody};

    ghost Value = { Content };

    ghost view = { λ e. record { id = e.id; instant = e.instant; body = e.body } };

    ghost invariant = { λ e. IsIdentifier e.id × IsInstant e.instant × IsBody e.body };
}

impl Event {
    /// An event of these parts: the instant in nanoseconds from 1970 in UTC, its seconds by the
    /// floor within an `i64`; at most 1,000 items of a list, at most 1,000 destinations and at least
    /// one of a shipment, and of a transformation without an id an input and an output.
    pub fn new(id: Option<PlainText>, instant: i128, body: Body) -> Event
        requires identifier { IsIdentifier id }
        requires instant { IsInstant instant }
        requires body { IsBody body }
        ensures { result ≡ record { id = id; instant = instant; body = body } }
    {
        Event { id, instant, body }
    }

    /// The eventID, where it has one.
    pub fn id(&self) -> Option<&PlainText>
        ensures value { option_map (λ t. t.now) result ≡ self.now.id }
        ensures plain { IsIdentifier self.now.id }
    {
        self.id.as_ref()
    }

    /// The instant, in nanoseconds from 1970 in UTC.
    pub fn instant(&self) -> i128
        ensures value { result ≡ self.now.instant }
        ensures fits { IsInstant self.now.instant }
    {
        self.instant
    }

    /// What it says of its items.
    pub fn body(&self) -> &Body
        ensures value { result.now ≡ self.now.body }
        ensures within_limits { IsBody self.now.body }
    {
        &self.body
    }

    /// An equal event.
    pub fn copy(&self, alloc: Global) -> Result<Event, AllocError>
        ensures { IfOk result (λ e. e ≡ self.now) }
    {
        let id = copy_id(alloc, &self.id)?;
        let body = self.body.copy(alloc)?;
        Ok(Event {
            id,
            instant: self.instant,
            body,
        })
    }
}

/// Two events are equal where they have the same eventID, instant and body, with the lists in the
/// same order.
impl PartialEq for Event {
    ghost use Rattle.std.specs.Cmp as Cmp;
    ghost use Rattle.event_json.specs.Contents.{same_content, content_equiv};

    ghost eq = { same_content };

    ghost laws = { Cmp.partial_equiv_from_equiv content_equiv };

    #[tactic(auto, unfolding(crate::specs::Contents::same_content))]
    fn eq(&self, other: &Event) -> bool {
        self.id == other.id && self.instant == other.instant && self.body == other.body
    }
}

impl Eq for Event {
    ghost use Rattle.event_json.specs.Contents.{content_equiv};

    ghost laws = { content_equiv };
}
