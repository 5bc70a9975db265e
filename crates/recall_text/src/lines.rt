//! Reading what a line asks for. It does not allocate: the parts of a line are borrowed.

ghost use Rattle.std.specs.Prelude.{◌≡◌, true, false, MatchOption};
ghost use Rattle.std.specs.Str.{is_utf8};
ghost use Rattle.recall_text.specs.Comments.{is_comment};
ghost use Rattle.recall_text.specs.Fields.{fields};
ghost use Rattle.recall_text.specs.Steps.{past_spaces, first_field, after_field};

use crate::fields::{past_spaces, split_field, words_of};
use crate::tasks::Task;

/// What a line asks for.
#[derive(Clone, Copy, Debug)]
pub enum Line<'a> {
    /// Nothing: an empty line, a line of spaces, or a comment.
    Silent,
    /// None of the others.
    Unreadable,
    /// A site is added. Its addresses are the fields of the rest of the line.
    Site { name: &'a str, addresses: &'a str },
    /// Something of the world.
    Task(Task<'a>),
}

impl<'a> Line<'a> {
    ghost use Rattle.std.specs.Prelude.{◌≡◌, option_map};
    ghost use Rattle.recall_text.specs.Requests.{task, Asks};
    ghost use Rattle.recall_text.specs.Steps.{past_spaces, first_field, after_field, found, capture_found, site_found, task_found, request};

    /// Reads a line, without its line ending.
    pub fn read(line: &'a [u8]) -> Line<'a>
        ensures { Asks line.now (request result) }
    {
        if is_comment(line) {
            return Line::Silent;
        }
        let Some(text) = text_of(line) else {
            return Line::Unreadable;
        };
        let (word, rest) = split_field(text);
        Line::of_fields(word, rest)
    }

    #[tactic(auto, unfolding(crate::specs::Steps::found))]
    fn of_fields(word: &str, rest: &'a str) -> Line<'a>
        ensures { request result ≡ found word.now rest.now }
    {
        if word.is_empty() {
            Line::Silent
        } else if word == "capture" {
            Line::of_capture(rest)
        } else if word == "site" {
            Line::of_site(rest)
        } else {
            Line::of_task(word, rest)
        }
    }

    fn of_capture(rest: &'a str) -> Line<'a>
        ensures { request result ≡ capture_found (first_field rest.now)
            (past_spaces (after_field rest.now)) }
    {
        let (name, rest) = split_field(rest);
        let document = past_spaces(rest);
        if name.is_empty() || document.is_empty() {
            return Line::Unreadable;
        }
        Line::Task(Task::Capture { name, document })
    }

    fn of_site(rest: &'a str) -> Line<'a>
        ensures { request result ≡ site_found (first_field rest.now) (after_field rest.now) }
    {
        let (name, addresses) = split_field(rest);
        if name.is_empty() {
            return Line::Unreadable;
        }
        Line::Site { name, addresses }
    }

    fn of_task(word: &str, rest: &'a str) -> Line<'a>
        ensures { request result ≡ option_map task (task_found word.now (fields rest.now)) }
    {
        match Task::of_words(word, words_of(rest)) {
            Some(task) => Line::Task(task),
            None => Line::Unreadable,
        }
    }
}

/// Whether a line is a comment, whatever its other bytes are.
fn is_comment(line: &[u8]) -> bool
    ensures { result ≡ is_comment line.now }
{
    matches!(line, [b'#', ..])
}

/// The line as a text, where it is UTF-8.
fn text_of(line: &[u8]) -> Option<&str>
    ensures { MatchOption result (is_utf8 line.now ≡ false) (λ text. (is_utf8 line.now ≡ true)
        × (text.now ≡ line.now)) }
{
    match str::from_utf8(line) {
        Ok(text) => Some(text),
        Err(_) => None,
    }
}
