//! The fields of a line.
ghost use Rattle.std.specs.Prelude.{◌≡◌, IfOk, map};
ghost use Rattle.recall_text.specs.Fields.{fields};
ghost use Rattle.recall_text.specs.Steps.{past_spaces, first_field, after_field, AreFields};

use std::alloc::{AllocError, Global};

/// The fields of a text where there are at most three.
#[derive(Clone, Copy, Debug)]
pub(crate) enum Words<'a> {
    None,
    One(&'a str),
    Two(&'a str, &'a str),
    Three(&'a str, &'a str, &'a str),
    /// More than three.
    More,
}

/// What follows the spaces at the front.
pub(crate) fn past_spaces(text: &str) -> &str
    ensures { result.now ≡ past_spaces text.now }
{
    let mut rest = text;
    while let Some(behind) = rest.strip_prefix(' ') {
        rest = behind;
    }
    rest
}

/// The first field, empty where there is none, and what follows it and one space.
pub(crate) fn split_field(text: &str) -> (&str, &str)
    ensures field { result.0.now ≡ first_field text.now }
    ensures rest { result.1.now ≡ after_field text.now }
{
    let text = past_spaces(text);
    match text.split_once(' ') {
        Some((field, rest)) => (field, rest),
        None => (text, ""),
    }
}

/// The fields of a text, counted. It does not allocate.
pub(crate) fn words_of(text: &str) -> Words<'_>
    ensures { AreFields (fields text.now) result }
{
    let (one, rest) = split_field(text);
    if one.is_empty() {
        return Words::None;
    }
    let (two, rest) = split_field(rest);
    if two.is_empty() {
        return Words::One(one);
    }
    let (three, rest) = split_field(rest);
    if three.is_empty() {
        return Words::Two(one, two);
    }
    if past_spaces(rest).is_empty() {
        Words::Three(one, two, three)
    } else {
        Words::More
    }
}

/// All fields in order.
pub(crate) fn fields(alloc: Global, text: &str) -> Result<Vec<&str>, AllocError>
    ensures { IfOk result (λ v. map (λ f. f.now) v.items ≡ fields text.now) }
{
    text.split(' ')
        .filter(|field| !field.is_empty())
        .collect(alloc)
}
