//! What is read of a diffusion, part by part.
ghost use Rattle.std.specs.Prelude.{◌≡◌, option_map};
ghost use Rattle.std.specs.Ordering.{nat_cmp};
ghost use Rattle.std.specs.FinMap as map;
ghost use Rattle.frame_core.specs.Identifiers.{recall_cmp, message_cmp};
ghost use Rattle.frame_core.specs.Outboxes.{IsNextTo};
ghost use Rattle.frame_core.specs.Rows.{row_of};
ghost use Rattle.frame_core.specs.Tables.{as_map};
ghost use Rattle.frame_core.specs.Unsignalled.{IsNextNumber};

use crate::diffusions::Diffusion;
use crate::own_recalls::Own;
use event_json::SiteNo;
use frame_core::{MsgId, RecallId, Row, RowView, tables};
use std::collections::BTreeMap;

impl Diffusion {
    /// The site's own number.
    pub fn me(&self) -> SiteNo
        ensures { result ≡ self.now.me }
    {
        self.me
    }

    /// The messages that are not signalled, by number.
    pub fn outbox(&self) -> &BTreeMap<u64, Row>
        ensures outbox { as_map nat_cmp result.now ≡ self.now.outbox }
        ensures entries { result.now.entries ≡ map.entries self.now.outbox }
    {
        self.outbox.rows()
    }

    /// The message of this number, where it is not signalled.
    pub fn row(&self, number: u64) -> Option<RowView<'_>>
        ensures { option_map row_of result ≡ map.get self.now.outbox number }
    {
        self.outbox.row(number)
    }

    /// The number of the first message for a site that it has not signalled, from a number on. Does not allocate.
    pub fn first_to(&self, dest: SiteNo, from: u64) -> Option<u64>
        ensures { IsNextTo self.now.outbox dest from result }
    {
        self.outbox.first_to(dest, from)
    }

    /// The messages seen, each with the recall that it was seen under.
    pub fn seen(&self) -> &BTreeMap<MsgId, RecallId>
        ensures seen { as_map message_cmp result.now ≡ self.now.seen }
        ensures entries { result.now.entries ≡ map.entries self.now.seen }
    {
        self.seen.messages()
    }

    /// The recall that a message was seen under.
    pub fn seen_under(&self, message: MsgId) -> Option<RecallId>
        ensures { result ≡ map.get self.now.seen message }
    {
        self.seen.recall_of(message)
    }

    /// The recalls that the site is engaged for, each with its parent.
    pub fn parents(&self) -> &BTreeMap<RecallId, MsgId>
        ensures parents { as_map recall_cmp result.now ≡ self.now.parents }
        ensures entries { result.now.entries ≡ map.entries self.now.parents }
    {
        // Brings into scope that the recalls ascend.
        let _length = self.parents.len();
        &self.parents
    }

    /// The parent for a recall.
    pub fn parent(&self, recall: RecallId) -> Option<MsgId>
        ensures { result ≡ map.get self.now.parents recall }
    {
        tables::get(&self.parents, recall).copied()
    }

    /// The recalls that the site began, by number.
    pub fn own_recalls(&self) -> &BTreeMap<u64, Own>
        ensures own { as_map nat_cmp result.now ≡ self.now.own }
        ensures entries { result.now.entries ≡ map.entries self.now.own }
    {
        // Brings into scope that the numbers ascend.
        let _length = self.own.len();
        &self.own
    }

    /// The recall that the site began with this number.
    pub fn own_recall(&self, number: u64) -> Option<&Own>
        ensures { option_map (λ own. own.now) result ≡ map.get self.now.own number }
    {
        tables::get(&self.own, number)
    }

    /// The number that the next message gets, or [`LAST_NUMBER`](frame_core::LAST_NUMBER) + 1 where the numbers are
    /// spent.
    pub fn next_message(&self) -> u64
        ensures next { result ≡ self.now.next_message }
        ensures in_range { IsNextNumber result }
    {
        self.outbox.next_number()
    }

    /// The number that the next recall gets, or [`LAST_NUMBER`](frame_core::LAST_NUMBER) + 1 where the numbers are
    /// spent.
    pub fn next_recall(&self) -> u64
        ensures next { result ≡ self.now.next_recall }
        ensures in_range { IsNextNumber result }
    {
        // The invariant keeps it from 1 to 2^62 + 1.
        self.next_recall
    }
}
