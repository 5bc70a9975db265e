//! What a site is given: documents, starts of recalls, and frames.
ghost use Rattle.std.specs.Prelude.{◌≡◌, IfOk};

use epc_core::Epc;
use event_json::Sequence;
use frame_core::Frame;
use std::alloc::{AllocError, Global};

/// What a site is asked to do.
#[derive(Debug)]
pub enum SiteInput {
    /// To capture the events of a document, which has these bytes.
    Capture(Sequence<u8>),
    /// To start a recall of an item.
    Start(Epc),
    /// To take a frame that came for it.
    Deliver(Frame),
}

// It is written out, so that a caller does not prove again how each kind is dropped.
impl Drop for SiteInput {
    fn drop(self) {
        match self {
            SiteInput::Capture(_) => {}
            SiteInput::Start(_) => {}
            SiteInput::Deliver(_) => {}
        }
    }
}

impl SiteInput {
    /// An equal input.
    pub fn copy(&self, alloc: Global) -> Result<SiteInput, AllocError>
        ensures { IfOk result (λ input. input ≡ self.now) }
    {
        match self {
            SiteInput::Capture(bytes) => {
                let bytes = bytes.as_slice().to_vec(alloc)?;
                Ok(SiteInput::Capture(Sequence::from_vec(bytes)))
            }
            SiteInput::Start(item) => Ok(SiteInput::Start(item.copy(alloc)?)),
            SiteInput::Deliver(frame) => Ok(SiteInput::Deliver(frame.copy(alloc)?)),
        }
    }
}
