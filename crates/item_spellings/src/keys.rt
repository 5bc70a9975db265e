//! Items from the keys that are printed of them.
ghost use Rattle.std.specs.Prelude.{◌≡◌, IfOk};
ghost use Rattle.item_spellings.specs.Keys.{key_reading};

use epc_core::Epc;
use std::alloc::{AllocError, Global};

/// The item whose key is printed so, as `sgtin 09521321000117 tank-7`, or `None` where no item's is.
///
/// Reading a key is the inverse of printing it. It fails only where memory runs out.
pub fn read_key(alloc: Global, text: &str) -> Result<Option<Epc>, AllocError>
    ensures { IfOk result (λ item. item ≡ key_reading text.now) }
{
    Epc::from_key(alloc, text)
}
