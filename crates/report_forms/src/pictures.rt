//! A picture that is being drawn: a text of others stands in it in quotes alone.

ghost use Rattle.std.specs.Prelude.{◌≡◌, ◌++◌, IfOk, OnOk, string_bytes};
ghost use Rattle.report_forms.specs.Dot.{HasNoQuote, IsPicture, dot_text, escaped};

use crate::replaced::push_replaced;
use std::alloc::{AllocError, Global};

/// A picture that is being drawn, in the language DOT.
#[derive(Drop)]
pub(crate) struct Picture {
    pub(crate) text: String,
    ghost drawn: { IsPicture (string_bytes text) },
}

impl Picture {
    /// An empty one.
    #[tactic(auto, using(crate::proofs::Drawing::nothing_drawn))]
    pub(crate) fn new(alloc: Global) -> Picture {
        Picture {
            text: String::new(alloc),
        }
    }

    /// Adds words of the language.
    #[tactic(auto, using(crate::proofs::Drawing::words_drawn))]
    pub(crate) fn draw(&mut self, words: &str) -> Result<(), AllocError>
        requires { HasNoQuote words.now }
    {
        self.text.push_str(words)
    }

    /// Adds a text in quotes, so that Graphviz reads it as it is.
    #[tactic(auto, using(crate::proofs::Drawing::text_drawn))]
    pub(crate) fn quote(&mut self, alloc: Global, text: &str) -> Result<(), AllocError> {
        let quoted = dot_text(alloc, text)?;
        self.text.push_str(quoted.as_str())
    }
}

/// A text in quotes.
#[tactic(auto, unfolding(crate::specs::Dot::dot_text, crate::specs::Dot::with_entities))]
fn dot_text(alloc: Global, part: &str) -> Result<String, AllocError>
    ensures { IfOk result (λ t. string_bytes t ≡ dot_text part.now) }
{
    let mut entities = String::new(alloc);
    push_replaced(&mut entities, part, '&', "&amp;")?;
    let mut text = String::new(alloc);
    text.push('"')?;
    push_escaped(alloc, &mut text, entities.as_str())?;
    text.push('"')?;
    Ok(text)
}

/// Adds a text, a backslash before each quote and each backslash.
#[tactic(auto, using(crate::proofs::Replacing::escaped_twice))]
fn push_escaped(alloc: Global, text: &mut String, part: &str) -> Result<(), AllocError>
    ensures { OnOk result (string_bytes text.new ≡ string_bytes text.old ++ escaped part.now) }
{
    let mut backslashes = String::new(alloc);
    push_replaced(&mut backslashes, part, '\\', "\\\\")?;
    push_replaced(text, backslashes.as_str(), '"', "\\\"")
}
