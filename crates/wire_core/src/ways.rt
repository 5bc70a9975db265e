//! Where a frame goes, and where its mailbox stands.

ghost use Rattle.std.specs.Prelude.{◌≡◌};
ghost use Rattle.wire_core.specs.Frames.{sender};
ghost use Rattle.wire_core.specs.Mailboxes.{slot_of, word_of};

use event_json::{MAX_SITES, SiteNo};
use frame_core::Frame;

/// The site that sends a frame.
pub fn sender(frame: &Frame) -> SiteNo
    ensures { result ≡ sender frame.now }
{
    match frame {
        Frame::Recall { id, .. } => id.site,
        Frame::Signal { by, .. } => *by,
    }
}

/// The slot of the mailbox from one site to another.
pub fn slot_index(from: SiteNo, to: SiteNo) -> usize
    ensures { result ≡ slot_of from to }
{
    MAX_SITES * (from.number() as usize) + to.number() as usize
}

/// Its word, behind the words of progress.
pub fn word_index(from: SiteNo, to: SiteNo) -> usize
    ensures { result ≡ word_of from to }
{
    MAX_SITES + slot_index(from, to)
}
