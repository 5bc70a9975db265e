//! How the events of a document are judged, and added whole or not at all.
ghost use Rattle.std.specs.Prelude.{◌≡◌, Ok, IfOk, IfErr, OnErr, length, take};
ghost use Rattle.trace_core.specs.Adding.{standing_among, with_fresh, adding, FaultOf};

use crate::books::Book;
use event_json::Event;
use std::alloc::AllocError;
use thiserror::Error;

/// What became of the events of a document.
#[derive(Clone, Copy, Debug, PartialEq, Eq)]
pub struct Added {
    /// How many were kept.
    pub fresh: u64,
    /// How many were there already, with equal content.
    pub known: u64,
}

/// Why a document's events weren't added. Nothing was changed then.
#[derive(Debug, Drop, PartialEq, Eq, Error)]
pub enum AddFault {
    /// Memory ran out.
    #[error("memory ran out")]
    NoMemory,
    /// The event has the eventID of an event with other content.
    #[error("the eventID of event {event} is taken")]
    IdTaken {
        /// The event's place in the list that was given, from 1.
        event: u64,
    },
}

/// How an event stands among other events.
#[derive(Clone, Copy, Debug, PartialEq, Eq)]
pub enum Standing {
    /// It has no eventID, or one that none of them has.
    Fresh,
    /// It is one of them, by its eventID and its content.
    Known,
    /// One of them has its eventID, and none is equal to it.
    Taken,
}

/// Adds the fresh ones among the given events. After a fault some of them may be there.
pub fn append_fresh(events: &mut Book, given: Vec<Event>) -> Result<Added, AddFault>
    ensures front { take (length events.old) events.new ≡ events.old }
    ensures ok { IfOk result (λ added. adding events.old given.items
        ≡ Ok (record { events = events.new; fresh = added.fresh; known = added.known })) }
    ensures fault { IfErr result (λ fault. FaultOf (adding events.old given.items) fault) }
{
    let mut added = Added { fresh: 0, known: 0 };
    for event in given {
        match add_if_fresh(events, event) {
            Ok(Standing::Fresh) => added.fresh += 1,
            Ok(Standing::Known) => added.known += 1,
            Ok(Standing::Taken) => {
                return Err(AddFault::IdTaken {
                    event: added.fresh + added.known + 1,
                });
            }
            Err(_) => return Err(AddFault::NoMemory),
        }
    }
    Ok(added)
}

/// Adds an event if it is fresh, and returns how it stood.
pub fn add_if_fresh(events: &mut Book, event: Event) -> Result<Standing, AllocError>
    ensures standing { IfOk result (λ standing. standing ≡ standing_among events.old event) }
    ensures ok { IfOk result (λ standing. events.new ≡ with_fresh events.old event standing) }
    ensures err { OnErr result (events.new ≡ events.old) }
{
    let standing = events.standing(&event);
    match standing {
        Standing::Fresh => events.push(event)?,
        Standing::Known | Standing::Taken => {}
    }
    Ok(standing)
}
