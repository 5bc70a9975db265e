//! What the refusals of several inputs mean, each kind once.

use crate::sentences::why_sentence;
use recall_outcomes::InputOutcome;
use std::alloc::{AllocError, Global};

/// The sentences of the refusals of several inputs, each once, in the order in which their first ones came.
#[derive(Drop)]
pub struct InputSentences {
    sentences: Vec<&'static str>,
}

impl InputSentences {
    /// Of no inputs.
    pub fn new(alloc: Global) -> InputSentences {
        InputSentences {
            sentences: Vec::new(alloc),
        }
    }

    /// Adds the sentence of what came of an input, if it was refused, and none before it for this reason. Where memory
    /// runs out the sentence is left out.
    pub fn add(&mut self, came: &InputOutcome) {
        if let InputOutcome::Refused(why) = came {
            self.add_one(why_sentence(why));
        }
    }

    fn add_one(&mut self, sentence: &'static str) {
        if !self.sentences.iter().any(|told| *told == sentence) {
            let _ = self.sentences.push(sentence);
        }
    }

    /// A line for each.
    pub(crate) fn text(&self, alloc: Global) -> Result<String, AllocError> {
        let mut text = String::new(alloc);
        for sentence in &self.sentences {
            text.push_str(sentence)?;
            text.push_str("\n")?;
        }
        Ok(text)
    }
}
