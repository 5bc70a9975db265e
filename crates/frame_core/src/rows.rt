//! What a numbered message says.
ghost use Rattle.std.specs.Prelude.{◌≡◌, IfOk};
ghost use Rattle.frame_core.specs.Rows.{row_of};

use crate::identifiers::RecallId;
use epc_core::Epc;
use event_json::SiteNo;
use std::alloc::{AllocError, Global};

/// What a numbered message says: that an item is recalled, to the site that it was shipped to.
#[derive(Debug, Drop, PartialEq, Eq)]
pub struct Row {
    /// The site that the message is for.
    pub dest: SiteNo,
    /// The recall that it belongs to.
    pub recall: RecallId,
    /// The item that is recalled.
    pub item: Epc,
}

/// A [`Row`] that is borrowed.
#[derive(Clone, Copy, Debug, PartialEq, Eq)]
pub struct RowView<'a> {
    /// The site that the message is for.
    pub dest: SiteNo,
    /// The recall that it belongs to.
    pub recall: RecallId,
    /// The item that is recalled.
    pub item: &'a Epc,
}

impl Row {
    /// The row, borrowed.
    pub fn view(&self) -> RowView<'_>
        ensures { row_of result ≡ self.now }
    {
        let Row { dest, recall, item } = self;
        RowView {
            dest: *dest,
            recall: *recall,
            item,
        }
    }

    /// An equal row.
    pub fn copy(&self, alloc: Global) -> Result<Row, AllocError>
        ensures { IfOk result (λ r. r ≡ self.now) }
    {
        self.view().to_row(alloc)
    }
}

impl RowView<'_> {
    /// A row of its own that says the same.
    pub fn to_row(self, alloc: Global) -> Result<Row, AllocError>
        ensures { IfOk result (λ r. r ≡ row_of self.entry) }
    {
        Ok(Row {
            dest: self.dest,
            recall: self.recall,
            item: self.item.copy(alloc)?,
        })
    }
}
