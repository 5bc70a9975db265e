//! What one site keeps of the recalls that pass it, and how a start, a message and a signal change it.
ghost use Rattle.std.specs.Prelude.{◌≡◌, ℕ, List, IsTrue, ◌+◌, ◌<◌, ◌≤◌, ◌^◌, ◌↔◌, ◌⊎◌, length, option_map, Ok, Err, None, IfOk, OnOk, OnErr, IsSome, IsNone, is_none, ◌&&◌};
ghost use Rattle.std.specs.Ordering.{nat_cmp};
ghost use Rattle.std.specs.FinMap as map;
ghost use Rattle.frame_core.specs.Identifiers.{recall_cmp, message_cmp};
ghost use Rattle.frame_core.specs.Numbers.{Recall};
ghost use Rattle.frame_core.specs.Outboxes.{numbered, rows_of, has_rows};
ghost use Rattle.frame_core.specs.Tables.{as_map};
ghost use Rattle.frame_core.specs.Unsignalled.{IsNextNumber};
ghost use Rattle.scholten_core.specs.Engagement.{Engagement, live_own};
ghost use Rattle.scholten_core.specs.FreeNumbers.{HasFreeNumbers};
ghost use Rattle.scholten_core.specs.Changes.{began, begun, noted, with_parent, received, signalled};

mod readers;

use crate::outcomes::{Began, Received, Signalled};
use crate::own_recalls::{Own, record_end};
use epc_core::Epc;
use event_json::SiteNo;
use frame_core::{LAST_NUMBER, MsgId, NumberFault, Outbox, RecallId, Row, Seen, tables};
use std::alloc::{AllocError, Global};
use std::collections::BTreeMap;
use std::marker::Model;

/// What one site keeps of the diffusing computations that pass it: its outbox, the messages that it has
/// seen, its parents and its own recalls.
///
/// Recalls are numbered one after another from 1 to [`LAST_NUMBER`], and no number comes twice.
#[derive(Debug)]
pub struct Diffusion {
    me: SiteNo,
    outbox: Outbox,
    seen: Seen,
    parents: BTreeMap<RecallId, MsgId>,
    own: BTreeMap<u64, Own>,
    next_recall: u64,
    alloc: Global,
}

// It is written out, so that a caller does not prove again how its maps are dropped.
impl Drop for Diffusion {
    fn drop(self) {
        let Diffusion {
            me: _,
            outbox: _,
            seen: _,
            parents: _,
            own: _,
            next_recall: _,
            alloc: _,
        } = self;
    }
}

impl Model for Diffusion {
    ghost use Rattle.std.specs.Ordering.{nat_cmp};
    ghost use Rattle.frame_core.specs.Identifiers.{recall_cmp};
    ghost use Rattle.frame_core.specs.Tables.{as_map};
    ghost use Rattle.frame_core.specs.Unsignalled.{IsNextNumber};
    ghost use Rattle.scholten_core.specs.Engagement.{Engagement, coded_engagement};

    ghost Value = { Engagement };

    ghost coded = { coded_engagement };

    ghost view = { λ d. record {
      me = d.me;
      outbox = d.outbox.rows;
      seen = d.seen;
      parents = as_map recall_cmp d.parents;
      own = as_map nat_cmp d.own;
      next_message = d.outbox.next;
      next_recall = d.next_recall;
    } };

    ghost invariant = { λ d. IsNextNumber d.next_recall };
}

impl Diffusion {
    /// The site `me` with no recalls. The next numbers are 1. Does not allocate.
    pub fn new(alloc: Global, me: SiteNo) -> Diffusion
        ensures { result ≡ record {
          me = me;
          outbox = map.empty;
          seen = map.empty;
          parents = map.empty;
          own = map.empty;
          next_message = 1;
          next_recall = 1;
        } }
    {
        Diffusion {
            me,
            outbox: Outbox::new(alloc),
            seen: Seen::new(alloc),
            parents: BTreeMap::new(alloc),
            own: BTreeMap::new(alloc),
            next_recall: 1,
            alloc,
        }
    }

    /// The site `me` with just these maps and these next numbers. The maps are taken as they are; memory
    /// is allocated for the deficits of the outbox's recalls.
    pub fn restore(
        alloc: Global,
        me: SiteNo,
        outbox: BTreeMap<u64, Row>,
        seen: BTreeMap<MsgId, RecallId>,
        parents: BTreeMap<RecallId, MsgId>,
        own: BTreeMap<u64, Own>,
        next_message: u64,
        next_recall: u64,
    ) -> Result<Diffusion, AllocError>
        requires next_message_in_range { IsNextNumber next_message }
        requires next_recall_in_range { IsNextNumber next_recall }
        ensures { IfOk result (λ d. d ≡ record {
          me = me;
          outbox = as_map nat_cmp outbox;
          seen = as_map message_cmp seen;
          parents = as_map recall_cmp parents;
          own = as_map nat_cmp own;
          next_message = next_message;
          next_recall = next_recall;
        }) }
    {
        let outbox = Outbox::restore(alloc, outbox, next_message)?;
        Ok(Diffusion {
            me,
            outbox,
            seen: Seen::restore(seen),
            parents,
            own,
            next_recall,
            alloc,
        })
    }

    /// Begins a recall of an item, and numbers a message for each destination and item, in order. With no
    /// message the recall has ended. A fault changes nothing.
    pub fn begin(&mut self, root: Epc, out: &[(SiteNo, Epc)]) -> Result<Began, NumberFault>
        // To begin a recall is one stated change of the site's maps (outbox, seen messages, parents, own recalls, next
        // numbers) with its answer, for every record.
        ensures answer { IfOk result (λ answer. answer ≡ began self.old out.now) }
        // Where a row or an own recall stands at a next number, as a restored record may have it, it is written over.
        ensures ok { OnOk result (self.new ≡ begun self.old root out.now) }
        // The next recall has no number, or more messages are needed than numbers are left.
        ensures spent { (result ≡ Err NumberFault.NumbersSpent)
            ↔ ((2 ^ 62 < self.old.next_recall)
            ⊎ (2 ^ 62 + 1 < self.old.next_message + length out.now)) }
        // Not covered: what a call costs.
        ensures err { OnErr result (self.new ≡ self.old) }
    {
        if self.next_recall > LAST_NUMBER || out.len() as u64 > self.outbox.numbers_left() {
            return Err(NumberFault::NumbersSpent);
        }
        let number = self.next_recall;
        let recall = RecallId {
            site: self.me,
            number,
        };
        let ended = out.is_empty();
        let before = tables::put(&mut self.own, number, Own { root, ended })?;
        if let Err(fault) = self.outbox.number_all(self.alloc, recall, out) {
            tables::undo(&mut self.own, number, before);
            return Err(fault);
        }
        self.next_recall = number + 1;
        Ok(Began {
            recall,
            numbered: out.len() as u64,
            ended,
        })
    }

    /// Receives a message of a recall, and numbers a message for each destination and item, in order,
    /// unless it was seen before. A fault changes nothing.
    pub fn receive(
        &mut self,
        message: MsgId,
        recall: RecallId,
        out: &[(SiteNo, Epc)],
    ) -> Result<Received, NumberFault>
        // To receive a message is one stated change of the maps with its answer, for every record. A repeat is found
        // without memory and without numbers.
        ensures answer { IfOk result (λ answer.
            answer ≡ (received self.old message recall out.now).1) }
        ensures ok { OnOk result (self.new ≡ (received self.old message recall out.now).0) }
        // That a message was seen before is found without memory and without numbers.
        ensures repeat { (result ≡ Ok Received.Repeat) ↔ IsSome (map.get self.old.seen message) }
        // More messages are needed than numbers are left.
        ensures spent { (result ≡ Err NumberFault.NumbersSpent)
            ↔ (IsNone (map.get self.old.seen message)
            × (2 ^ 62 + 1 < self.old.next_message + length out.now)) }
        ensures err { OnErr result (self.new ≡ self.old) }
    {
        if self.seen.recall_of(message).is_some() {
            return Ok(Received::Repeat);
        }
        let numbered = out.len() as u64;
        if numbered > self.outbox.numbers_left() {
            return Err(NumberFault::NumbersSpent);
        }
        if self.is_engaged_by(recall, out) {
            self.engage(message, recall, out)?;
            Ok(Received::Owe { numbered })
        } else {
            self.note(message, recall, out)?;
            Ok(Received::SignalNow { numbered })
        }
    }

    /// Takes the beginning of a recall back, which was the last change: the recall and its messages go, and their
    /// numbers come next again. Does not allocate.
    pub fn take_back_begin(&mut self, first: u64)
        requires began { 1 < self.old.next_recall }
        requires low { 1 ≤ first }
        requires no_higher { first ≤ self.old.next_message }
        // Where the recall began with free numbers, and this was the next message's, it is what it was before.
        ensures { (old : Engagement) (root : List ℕ) (out : List (ℕ × List ℕ)) → HasFreeNumbers old
            → old.next_message ≡ first → self.old ≡ begun old root out → self.new ≡ old }
    {
        self.next_recall -= 1;
        tables::take(&mut self.own, self.next_recall);
        self.outbox.take_back(first);
    }

    /// Takes the receiving of a message back, which was the last change, by what it answered: the message is unseen,
    /// the messages that it gave rise to go, and their numbers come next again. Does not allocate.
    pub fn take_back_receive(
        &mut self,
        message: MsgId,
        recall: RecallId,
        answer: Received,
        first: u64,
    )
        requires low { 1 ≤ first }
        requires no_higher { first ≤ self.old.next_message }
        // Where the message came at free numbers, and this was the next message's, it is what it was before.
        ensures { (old : Engagement) (out : List (ℕ × List ℕ)) → HasFreeNumbers old
            → old.next_message ≡ first → received old message recall out ≡ (self.old, answer)
            → self.new ≡ old }
    {
        match answer {
            Received::Repeat => {}
            Received::Owe { .. } => {
                tables::take(&mut self.parents, recall);
                self.take_back_note(message, first);
            }
            Received::SignalNow { .. } => self.take_back_note(message, first),
        }
    }

    /// Takes back that a message was noted, and that those were numbered that it gave rise to.
    fn take_back_note(&mut self, message: MsgId, first: u64)
        requires low { 1 ≤ first }
        requires no_higher { first ≤ self.old.next_message }
        ensures { (old : Engagement) (r : Recall) (out : List (ℕ × List ℕ)) → HasFreeNumbers old
            → old.next_message ≡ first → map.get old.seen message ≡ None
            → self.old ≡ noted old message r out → self.new ≡ old }
    {
        self.seen.forget(message);
        self.outbox.take_back(first);
    }

    /// Whether no message and no own recall stands at a number that comes next, nor past it. Does not allocate.
    pub fn has_free_numbers(&self) -> bool
        ensures { IsTrue result ↔ HasFreeNumbers self.now }
    {
        self.outbox.has_free_numbers() && tables::are_below(&self.own, self.next_recall)
    }

    /// Notes a message that wasn't seen, numbers the messages that it gives rise to, and takes it as the
    /// parent for its recall, which has none. A fault changes nothing.
    fn engage(
        &mut self,
        message: MsgId,
        recall: RecallId,
        out: &[(SiteNo, Epc)],
    ) -> Result<(), AllocError>
        requires unseen { map.get self.old.seen message ≡ None }
        requires no_parent { map.get self.old.parents recall ≡ None }
        requires numbers { self.old.next_message + length out.now ≤ 2 ^ 62 + 1 }
        ensures ok { OnOk result (self.new
            ≡ with_parent (noted self.old message recall out.now) recall message) }
        ensures err { OnErr result (self.new ≡ self.old) }
    {
        tables::put(&mut self.parents, recall, message)?;
        match self.note(message, recall, out) {
            Ok(()) => Ok(()),
            Err(error) => {
                tables::take(&mut self.parents, recall);
                Err(error)
            }
        }
    }

    /// Notes a message that wasn't seen, and numbers the messages that it gives rise to. A fault changes
    /// nothing.
    fn note(
        &mut self,
        message: MsgId,
        recall: RecallId,
        out: &[(SiteNo, Epc)],
    ) -> Result<(), AllocError>
        requires unseen { map.get self.old.seen message ≡ None }
        requires numbers { self.old.next_message + length out.now ≤ 2 ^ 62 + 1 }
        ensures ok { OnOk result (self.new ≡ noted self.old message recall out.now) }
        ensures err { OnErr result (self.new ≡ self.old) }
    {
        self.seen.note(message, recall)?;
        match self.outbox.number_all(self.alloc, recall, out) {
            Ok(()) => Ok(()),
            Err(_) => {
                self.seen.forget(message);
                Err(AllocError)
            }
        }
    }

    /// Takes the signal for a message of this site. Does not allocate.
    pub fn signalled(&mut self, number: u64) -> Signalled
        // To take a signal is one stated change of the maps with its answer, for every record.
        ensures answer { result ≡ (signalled self.old number).1 }
        ensures state { self.new ≡ (signalled self.old number).0 }
    {
        let recall = match self.outbox.row(number) {
            Some(row) => row.recall,
            None => return Signalled::Stale,
        };
        self.outbox.clear(number);
        if self.outbox.has_rows(recall) {
            return Signalled::Cleared;
        }
        if let Some(parent) = self.parent(recall) {
            tables::take(&mut self.parents, recall);
            return Signalled::ParentDue(parent);
        }
        if self.live_own(recall).is_some() {
            record_end(&mut self.own, recall.number);
            return Signalled::Ended(recall);
        }
        Signalled::Cleared
    }

    /// What the signal for a message of this site answers, found before it. Does not allocate.
    pub fn foresee(&self, number: u64) -> Signalled
        ensures { result ≡ (signalled self.now number).1 }
    {
        let recall = match self.outbox.row(number) {
            Some(row) => row.recall,
            None => return Signalled::Stale,
        };
        if self.outbox.has_rows_beside(number, recall) {
            return Signalled::Cleared;
        }
        if let Some(parent) = self.parent(recall) {
            return Signalled::ParentDue(parent);
        }
        if self.live_own(recall).is_some() {
            return Signalled::Ended(recall);
        }
        Signalled::Cleared
    }

    /// How many messages of a recall this site has sent that are not signalled. Does not allocate.
    pub fn deficit(&self, recall: RecallId) -> u64
        ensures { result ≡ rows_of self.now.outbox recall }
    {
        self.outbox.rows_of(recall)
    }

    /// Whether a message of a recall engages this site, where it gives rise to these messages: it then has
    /// messages that are not signalled, has no parent, and isn't the live initiator.
    fn is_engaged_by(&self, recall: RecallId, out: &[(SiteNo, Epc)]) -> bool
        ensures { result ≡ (has_rows (numbered self.now.outbox self.now.next_message recall out.now)
            recall && (is_none (map.get self.now.parents recall) && is_none
            (live_own self.now recall))) }
    {
        self.has_rows_after(recall, out)
            && self.parent(recall).is_none()
            && self.live_own(recall).is_none()
    }

    /// Whether a message of the recall is unsignalled once these are numbered.
    fn has_rows_after(&self, recall: RecallId, out: &[(SiteNo, Epc)]) -> bool
        ensures { result ≡ has_rows (numbered self.now.outbox self.now.next_message recall out.now)
            recall }
    {
        match out {
            [] => self.outbox.has_rows(recall),
            _ => true,
        }
    }

    /// The site's own recall that this names, where its end isn't recorded.
    pub fn live_own(&self, recall: RecallId) -> Option<&Own>
        ensures { option_map (λ own. own.now) result ≡ live_own self.now recall }
    {
        if self.me != recall.site {
            return None;
        }
        match self.own_recall(recall.number) {
            Some(own) if !own.ended => Some(own),
            _ => None,
        }
    }

    /// An equal diffusion.
    pub fn copy(&self, alloc: Global) -> Result<Diffusion, AllocError>
        ensures { IfOk result (λ diffusion. diffusion ≡ self.now) }
    {
        Ok(Diffusion {
            me: self.me,
            outbox: self.outbox.copy(alloc)?,
            seen: self.seen.copy(alloc)?,
            parents: tables::copy(alloc, &self.parents)?,
            own: tables::copy(alloc, &self.own)?,
            next_recall: self.next_recall,
            alloc,
        })
    }
}
