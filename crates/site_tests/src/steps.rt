//! Steps of a site, and their answers, row by row.
mod orders;
mod parts;
mod refusals;
mod refused;
mod restored;

use crate::sites::{Given, input, recall};
use site_core::{Effects, Refusal, SiteState};
use std::alloc::Global;
use std::test::Fail;

/// The answer to an input.
#[derive(Clone, Copy)]
enum Want {
    Done(Effects),
    NotMine,
    NumbersSpent,
}

use Want::{Done, NotMine, NumbersSpent};

/// Whether this is the answer that is expected.
fn is_answer(answer: &Result<Effects, Refusal>, want: Want) -> bool {
    match (answer, want) {
        (Ok(effects), Done(wanted)) => *effects == wanted,
        (Err(Refusal::NotMine), NotMine) => true,
        (Err(Refusal::NumbersSpent), NumbersSpent) => true,
        _ => false,
    }
}

/// An input, and its answer.
type Row = (Given, Want);

/// Whether the site gives this answer to a copy of the input.
fn gives(alloc: Global, state: &mut SiteState, row: Row) -> Result<bool, Fail> {
    let input = input(alloc, row.0)?.copy(alloc)?;
    Ok(is_answer(&state.apply(&input), row.1))
}

/// Whether the site gives these answers, one after another.
fn give(alloc: Global, state: &mut SiteState, rows: &[Row]) -> Result<bool, Fail> {
    for row in rows {
        if !gives(alloc, state, *row)? {
            return Ok(false);
        }
    }
    Ok(true)
}

/// That the capture of one event was fresh.
const FRESH: Want = Done(Effects::Captured {
    fresh: 1,
    known: 0,
    skipped: 0,
});

/// That the recall A#1 was begun, of so many items and with so many messages.
fn started(quarantined: u64, numbered: u64) -> Want {
    Done(Effects::Started {
        recall: recall(),
        quarantined,
        numbered,
        ended: false,
    })
}

/// That so many items came under a recall by a message, with so many messages, for which the signal is owed or not.
fn taken(quarantined: u64, numbered: u64, owed: bool) -> Want {
    Done(Effects::Received {
        quarantined,
        numbered,
        owed,
    })
}
