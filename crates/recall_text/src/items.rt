//! Reading the item of an EPC text.

ghost use Rattle.std.specs.Prelude.{◌≡◌, IfOk, IfErr, MatchOption};
ghost use Rattle.epc_core.specs.Reading.{reading};
ghost use Rattle.epc_core.specs.Spellings.{IsPlain};
ghost use Rattle.epc_core.specs.declared.items.EpcFault.{EpcFault};

use crate::outcomes::item_or_fault;
use epc_core::Epc;
use std::alloc::{AllocError, Global};

/// The item that an EPC text names, `None` where it is no EPC text. Only plain texts allocate.
pub fn item_of(alloc: Global, text: &str) -> Result<Option<Epc>, AllocError>
    ensures ok { IfOk result (λ item. MatchOption item ((fault : EpcFault)
        × (reading text.now ≡ Err fault)) (λ e. (reading text.now ≡ Ok e) × IsPlain text.now)) }
    ensures err { IfErr result (λ _. IsPlain text.now) }
{
    match item_or_fault(Epc::read(alloc, text)) {
        Ok(Ok(item)) => Ok(Some(item)),
        Ok(Err(_)) => Ok(None),
        Err(no_memory) => Err(no_memory),
    }
}
