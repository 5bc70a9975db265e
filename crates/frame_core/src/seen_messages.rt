//! The messages that a site has handled.
ghost use Rattle.std.specs.Prelude.{◌≡◌, ◌≢◌, ◌↔◌, Ok, IfOk, IsSome};
ghost use Rattle.std.specs.FinMap as map;
ghost use Rattle.frame_core.specs.Identifiers.{message_cmp};
ghost use Rattle.frame_core.specs.Tables.{as_map};

use crate::identifiers::{MsgId, RecallId};
use crate::tables;
use std::alloc::{AllocError, Global};
use std::collections::BTreeMap;
use std::marker::Model;

/// Whether a message was seen before.
#[derive(Clone, Copy, Debug, PartialEq, Eq)]
pub enum Noted {
    /// It was not, and is from now on.
    Fresh,
    /// It was, and nothing changed.
    Repeat,
}

/// The messages of other sites that a site has ever handled, each under the recall that it was seen
/// under. What is noted is kept for good.
#[derive(Debug, Drop)]
pub struct Seen {
    messages: BTreeMap<MsgId, RecallId>,
}

impl Model for Seen {
    ghost use Rattle.std.specs.FinMap as map;
    ghost use Rattle.frame_core.specs.Identifiers.{message_cmp};
    ghost use Rattle.frame_core.specs.Numbers.{Recall, coded_message, coded_recall};
    ghost use Rattle.frame_core.specs.Tables.{as_map};

    ghost Value = { map.FinMap message_cmp Recall };

    ghost coded = { map.code coded_message coded_recall };

    ghost view = { λ s. as_map message_cmp s.messages };
}

impl Seen {
    /// No messages. Does not allocate.
    pub fn new(alloc: Global) -> Seen
        ensures { result ≡ map.empty }
    {
        Seen {
            messages: BTreeMap::new(alloc),
        }
    }

    /// These messages, each with the recall that it was seen under. Does not allocate.
    pub fn restore(messages: BTreeMap<MsgId, RecallId>) -> Seen
        ensures { result ≡ as_map message_cmp messages }
    {
        Seen { messages }
    }

    /// Notes a message under a recall, unless it was seen before, under whichever recall. That it was
    /// is found without memory.
    pub fn note(&mut self, message: MsgId, recall: RecallId) -> Result<Noted, AllocError>
        ensures repeat { (result ≡ Ok Noted.Repeat) ↔ IsSome (map.get self.old message) }
        ensures fresh { result ≡ Ok Noted.Fresh → self.new ≡ map.insert self.old message recall }
        ensures kept { result ≢ Ok Noted.Fresh → self.new ≡ self.old }
    {
        if self.recall_of(message).is_some() {
            return Ok(Noted::Repeat);
        }
        tables::put(&mut self.messages, message, recall)?;
        Ok(Noted::Fresh)
    }

    /// Forgets a message that was noted just now, where the call that noted it finds no memory for the
    /// rest of what it does. Does not allocate.
    pub fn forget(&mut self, message: MsgId)
        ensures { self.new ≡ map.remove self.old message }
    {
        tables::take(&mut self.messages, message);
    }

    /// The recall that a message was seen under, `None` where it was not seen.
    pub fn recall_of(&self, message: MsgId) -> Option<RecallId>
        ensures { result ≡ map.get self.now message }
    {
        tables::get(&self.messages, message).copied()
    }

    /// The messages with their recalls.
    pub fn messages(&self) -> &BTreeMap<MsgId, RecallId>
        ensures messages { as_map message_cmp result.now ≡ self.now }
        ensures entries { result.now.entries ≡ map.entries self.now }
    {
        // Brings into scope that the messages ascend.
        let _length = self.messages.len();
        &self.messages
    }

    /// Equal seen messages.
    pub fn copy(&self, alloc: Global) -> Result<Seen, AllocError>
        ensures { IfOk result (λ seen. seen ≡ self.now) }
    {
        let messages = tables::copy(alloc, &self.messages)?;
        Ok(Seen { messages })
    }
}
