//! What one site sends to another: messages of recalls, and signals.
ghost use Rattle.std.specs.Prelude.{◌≡◌, IfOk};
ghost use Rattle.frame_core.specs.Rows.{frame_of};

use crate::identifiers::{MsgId, RecallId};
use epc_core::Epc;
use event_json::SiteNo;
use std::alloc::{AllocError, Global};

/// What one site sends to another: a message of a recall, or the signal that answers one.
///
/// The two kinds of message of a diffusing computation, after Dijkstra and Scholten, "Termination
/// detection for diffusing computations", Information Processing Letters 11 (1980), section 2.
#[derive(Debug, PartialEq, Eq)]
pub enum Frame {
    /// A message: the item is recalled at `dest`.
    Recall {
        id: MsgId,
        dest: SiteNo,
        recall: RecallId,
        item: Epc,
    },
    /// The signal of the site `by` that the message `id` is done with.
    Signal {
        id: MsgId,
        by: SiteNo,
    },
}

// It is written out, so that a caller does not prove again how each kind is dropped.
impl Drop for Frame {
    fn drop(self) {
        match self {
            Frame::Recall {
                id: _,
                dest: _,
                recall: _,
                item: _,
            } => {}
            Frame::Signal { id: _, by: _ } => {}
        }
    }
}

/// A [`Frame`] that is borrowed.
#[derive(Clone, Copy, Debug, PartialEq, Eq)]
pub enum FrameView<'a> {
    /// A message: the item is recalled at `dest`.
    Recall {
        id: MsgId,
        dest: SiteNo,
        recall: RecallId,
        item: &'a Epc,
    },
    /// The signal of the site `by` that the message `id` is done with.
    Signal {
        id: MsgId,
        by: SiteNo,
    },
}

impl Frame {
    /// The frame, borrowed.
    pub fn view(&self) -> FrameView<'_>
        ensures { frame_of result ≡ self.now }
    {
        match self {
            Frame::Recall {
                id,
                dest,
                recall,
                item,
            } => FrameView::Recall {
                id: *id,
                dest: *dest,
                recall: *recall,
                item,
            },
            Frame::Signal { id, by } => FrameView::Signal { id: *id, by: *by },
        }
    }

    /// An equal frame.
    pub fn copy(&self, alloc: Global) -> Result<Frame, AllocError>
        ensures { IfOk result (λ f. f ≡ self.now) }
    {
        self.view().to_frame(alloc)
    }
}

impl FrameView<'_> {
    /// A frame of its own that says the same.
    pub fn to_frame(self, alloc: Global) -> Result<Frame, AllocError>
        ensures { IfOk result (λ f. f ≡ frame_of self.entry) }
    {
        match self {
            FrameView::Recall {
                id,
                dest,
                recall,
                item,
            } => Ok(Frame::Recall {
                id,
                dest,
                recall,
                item: item.copy(alloc)?,
            }),
            FrameView::Signal { id, by } => Ok(Frame::Signal { id, by }),
        }
    }
}
