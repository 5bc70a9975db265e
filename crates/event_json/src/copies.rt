//! Copies of the parts of an event.

ghost use Rattle.std.specs.Prelude.{◌≡◌, IfOk};

use crate::events::Event;
use crate::site_numbers::SiteNo;
use crate::texts::PlainText;
use epc_core::Epc;
use std::alloc::{AllocError, Global};

/// A value of which an equal one can be made.
pub trait Copyable: Drop {
    /// An equal value.
    fn copied(&self, alloc: Global) -> Result<Self, AllocError>
        ensures { IfOk result (λ value. value ≡ self.now) };
}

impl Copyable for Epc {
    fn copied(&self, alloc: Global) -> Result<Epc, AllocError> {
        self.copy(alloc)
    }
}

impl Copyable for SiteNo {
    fn copied(&self, _alloc: Global) -> Result<SiteNo, AllocError> {
        Ok(*self)
    }
}

impl Copyable for PlainText {
    fn copied(&self, alloc: Global) -> Result<PlainText, AllocError> {
        self.copy(alloc)
    }
}

impl Copyable for Event {
    fn copied(&self, alloc: Global) -> Result<Event, AllocError> {
        self.copy(alloc)
    }
}

/// Equal text, where there is one.
pub fn copy_id(alloc: Global, id: &Option<PlainText>) -> Result<Option<PlainText>, AllocError>
    ensures { IfOk result (λ o. o ≡ id.now) }
{
    match id {
        Some(text) => Ok(Some(text.copy(alloc)?)),
        None => Ok(None),
    }
}
