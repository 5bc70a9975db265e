//! What a line asks of the world, by its fields.

ghost use Rattle.std.specs.Prelude.{◌≡◌, option_map};
ghost use Rattle.recall_text.specs.Steps.{keep_found, one_found, rounds_found, task_of, three_found, two_found, worded};

use crate::fields::Words;
use crate::numbers::{number_of, recall_of};
use keeper_core::Keep;

/// The most rounds of a `pump`.
const MOST_ROUNDS: u64 = 1_000;

/// What a line asks of the world.
#[derive(Clone, Copy, Debug)]
pub enum Task<'a> {
    /// A document is captured at a site.
    Capture {
        name: &'a str,
        document: &'a str,
    },
    /// The pairs that an item at a site reaches.
    Reach {
        name: &'a str,
        item: &'a str,
    },
    /// A recall of an item is started at a site.
    Recall {
        name: &'a str,
        item: &'a str,
    },
    /// A site sends the message of this number.
    Send {
        name: &'a str,
        number: u64,
    },
    /// A site signals the message that the sender gave this number.
    Signal {
        name: &'a str,
        sender: &'a str,
        number: u64,
    },
    /// The frame that was sent at this place, from 1, comes to its site.
    Deliver {
        place: u64,
    },
    /// The next step of a site is a stop.
    Stop {
        name: &'a str,
        keep: Keep,
    },
    /// A closed site is opened.
    Reopen {
        name: &'a str,
    },
    /// So many rounds in which all that stands is sent and answered.
    Pump {
        rounds: u64,
    },
    /// What is quarantined under the recall that a site gave this number.
    Quarantine {
        name: &'a str,
        number: u64,
    },
}

impl<'a> Task<'a> {
    /// The task of a line that begins with this word, and has these fields behind it.
    pub(crate) fn of_words(word: &str, words: Words<'a>) -> Option<Task<'a>>
        ensures { option_map task_of result ≡ worded word.now words.entry }
    {
        match words {
            Words::One(a) => Task::of_one(word, a),
            Words::Two(a, b) => Task::of_two(word, a, b),
            Words::Three(a, b, c) => Task::of_three(word, a, b, c),
            Words::None | Words::More => None,
        }
    }

    #[tactic(auto, unfolding(crate::specs::Steps::one_found))]
    fn of_one(word: &str, a: &'a str) -> Option<Task<'a>>
        ensures { option_map task_of result ≡ one_found word.now a.now }
    {
        if word == "deliver" {
            Some(Task::Deliver {
                place: number_of(a)?,
            })
        } else if word == "reopen" {
            Some(Task::Reopen { name: a })
        } else if word == "pump" {
            rounds_of(number_of(a)?)
        } else if word == "quarantine" {
            let (name, number) = recall_of(a)?;
            Some(Task::Quarantine { name, number })
        } else {
            None
        }
    }

    #[tactic(auto, unfolding(crate::specs::Steps::two_found))]
    fn of_two(word: &str, a: &'a str, b: &'a str) -> Option<Task<'a>>
        ensures { option_map task_of result ≡ two_found word.now a.now b.now }
    {
        if word == "reach" {
            Some(Task::Reach { name: a, item: b })
        } else if word == "recall" {
            Some(Task::Recall { name: a, item: b })
        } else if word == "send" {
            Some(Task::Send {
                name: a,
                number: number_of(b)?,
            })
        } else if word == "stop" {
            Some(Task::Stop {
                name: a,
                keep: keep_of(b)?,
            })
        } else {
            None
        }
    }

    #[tactic(auto, unfolding(crate::specs::Steps::three_found))]
    fn of_three(word: &str, a: &'a str, b: &'a str, c: &'a str) -> Option<Task<'a>>
        ensures { option_map task_of result ≡ three_found word.now a.now b.now c.now }
    {
        if word == "signal" {
            Some(Task::Signal {
                name: a,
                sender: b,
                number: number_of(c)?,
            })
        } else {
            None
        }
    }
}

/// Rounds of `pump`, where they aren't too many.
fn rounds_of(rounds: u64) -> Option<Task<'static>>
    ensures { option_map task_of result ≡ rounds_found rounds }
{
    if rounds <= MOST_ROUNDS {
        Some(Task::Pump { rounds })
    } else {
        None
    }
}

/// The record that a stop keeps, by its word.
fn keep_of(word: &str) -> Option<Keep>
    ensures { result ≡ keep_found word.now }
{
    if word == "old" {
        Some(Keep::Old)
    } else if word == "new" {
        Some(Keep::New)
    } else {
        None
    }
}
