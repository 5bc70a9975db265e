//! The recalls that a site began.
ghost use Rattle.std.specs.Prelude.{◌≡◌, Some, IfOk};
ghost use Rattle.std.specs.Ordering.{nat_cmp};
ghost use Rattle.std.specs.FinMap as map;
ghost use Rattle.frame_core.specs.Tables.{as_map};
ghost use Rattle.scholten_core.specs.OwnRecalls.{with_end};
ghost use Rattle.scholten_core.specs.declared.own_recalls.Own.{Own};

use epc_core::Epc;
use event_json::Copyable;
use std::alloc::{AllocError, Global};
use std::collections::BTreeMap;

/// A recall that a site began.
#[derive(Debug, Drop, PartialEq, Eq)]
pub struct Own {
    /// The item that it was begun with.
    pub root: Epc,
    /// Whether its end was recorded.
    pub ended: bool,
}

impl Own {
    /// An equal recall.
    pub fn copy(&self, alloc: Global) -> Result<Own, AllocError>
        ensures { IfOk result (λ own. own ≡ self.now) }
    {
        Ok(Own {
            root: self.root.copy(alloc)?,
            ended: self.ended,
        })
    }
}

impl Copyable for Own {
    fn copied(&self, alloc: Global) -> Result<Own, AllocError> {
        self.copy(alloc)
    }
}

/// Records the end of a recall. Does not allocate.
pub(crate) fn record_end(recalls: &mut BTreeMap<u64, Own>, number: u64)
    ensures { (own : Own) → map.get (as_map nat_cmp recalls.old) number ≡ Some own
        → as_map nat_cmp recalls.new ≡ map.insert (as_map nat_cmp recalls.old) number
        (with_end own) }
{
    if let Some(own) = recalls.get_mut(&number) {
        own.ended = true;
    }
}
