//! Faults of the calls below, apart from out of memory, which is answered exactly where they do.

ghost use Rattle.std.specs.Prelude.{◌≡◌};
ghost use Rattle.recall_text.specs.Outcomes.{unless_memory, epc_fault, site_fault};

use epc_core::{Epc, EpcFault};
use event_json::{SiteNo, SitesFault};
use std::alloc::AllocError;

/// The item of an EPC text, or why there is none.
pub(crate) fn item_or_fault(
    read: Result<Epc, EpcFault>,
) -> Result<Result<Epc, EpcFault>, AllocError>
    ensures { result ≡ unless_memory epc_fault read }
{
    match read {
        Ok(item) => Ok(Ok(item)),
        Err(EpcFault::NoMemory) => Err(AllocError),
        Err(fault) => Ok(Err(fault)),
    }
}

/// The number of a site that was added, or why none was.
pub(crate) fn site_or_fault(
    added: Result<SiteNo, SitesFault>,
) -> Result<Result<SiteNo, SitesFault>, AllocError>
    ensures { result ≡ unless_memory site_fault added }
{
    match added {
        Ok(site) => Ok(Ok(site)),
        Err(SitesFault::NoMemory) => Err(AllocError),
        Err(fault) => Ok(Err(fault)),
    }
}
