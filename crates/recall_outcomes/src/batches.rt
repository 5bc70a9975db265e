//! What comes of several inputs that a site takes one after another, documents or EPCs, and of all of them in numbers.

ghost use Rattle.std.specs.Prelude.{◌≡◌};
ghost use Rattle.recall_outcomes.specs.Batches.{none_yet, totals_status, with_one};

use crate::outcomes::CommandRefusal;
use frame_core::RecallId;

/// What a site does with each input.
#[derive(Clone, Copy, Debug, PartialEq, Eq)]
pub enum Task {
    /// It captures it, which is a document.
    Capture,
    /// It starts a recall of the item of which it is the EPC.
    Start,
}

/// What came of an input.
#[derive(Debug, Drop)]
pub enum InputOutcome {
    /// A document was captured: how many of its events are new, were captured before, and are of a type that isn't
    /// traced.
    Captured {
        fresh: u64,
        known: u64,
        skipped: u64,
    },
    /// A recall was started: how many items came under it there, how many messages were numbered, and whether it has
    /// ended.
    Started {
        recall: RecallId,
        quarantined: u64,
        messages: u64,
        ended: bool,
    },
    /// It was refused, and nothing changed.
    Refused(CommandRefusal),
}

/// What several inputs came to. Each count is at most 2^64 - 1, and stays there.
#[derive(Clone, Copy, Debug, PartialEq, Eq)]
pub struct Totals {
    /// What was done with them.
    pub task: Task,
    /// The inputs that were taken or refused.
    pub inputs: u64,
    /// The events that are new.
    pub captured: u64,
    /// The events that were captured before.
    pub known: u64,
    /// The events of a type that isn't traced.
    pub skipped: u64,
    /// The recalls that were started.
    pub started: u64,
    /// The inputs that were refused.
    pub refused: u64,
}

impl Totals {
    /// Before the first input.
    pub fn new(task: Task) -> Totals
        ensures { result ≡ none_yet task }
    {
        Totals {
            task,
            inputs: 0,
            captured: 0,
            known: 0,
            skipped: 0,
            started: 0,
            refused: 0,
        }
    }

    /// With one input more.
    pub fn with(self, came: &InputOutcome) -> Totals
        ensures { result ≡ with_one self came.now }
    {
        let inputs = self.inputs.saturating_add(1);
        match came {
            InputOutcome::Captured {
                fresh,
                known,
                skipped,
            } => Totals {
                inputs,
                captured: self.captured.saturating_add(*fresh),
                known: self.known.saturating_add(*known),
                skipped: self.skipped.saturating_add(*skipped),
                ..self
            },
            InputOutcome::Started {
                recall: _,
                quarantined: _,
                messages: _,
                ended: _,
            } => Totals {
                inputs,
                started: self.started.saturating_add(1),
                ..self
            },
            InputOutcome::Refused(_) => Totals {
                inputs,
                refused: self.refused.saturating_add(1),
                ..self
            },
        }
    }

    /// The status of a program that ends with them: 1 where an input was refused, else 0.
    pub fn status(self) -> u8
        ensures { result ≡ totals_status self }
    {
        if self.refused == 0 { 0 } else { 1 }
    }
}
