//! What is known of a site's quarantine beside it, so that a message's search may stop at what is held.
ghost use Rattle.std.specs.Prelude.{◌≡◌, true};
ghost use Rattle.std.specs.FinMap as finite;
ghost use Rattle.trace_core.specs.Sites.{SiteEvents};
ghost use Rattle.site_core.specs.Quarantines.{Quarantine as Held};
ghost use Rattle.site_core.specs.Shortcuts.{AreShortcuts, IsClosedInside, TakeHeld};

use crate::closing::is_found_closed;
use crate::quarantines::Quarantine;
use frame_core::{RecallId, tables};
use std::alloc::Global;
use std::collections::BTreeMap;
use trace_core::{Captured, Seen};

/// Whether what is quarantined is known to be closed inside its site: what is made there of a quarantined
/// item is quarantined under the same recall. And by recall the transformations that its messages went
/// through: an item that is quarantined under it goes into each of them, so that all that they give out is
/// quarantined under it, too, and a part that is captured later and gave out more would be refused.
///
/// A record that begins empty is closed, and each step keeps it so. Of one that was read back it is found out.
/// A capture keeps all that is known.
#[derive(Debug, Drop)]
pub struct Shortcuts {
    is_closed: bool,
    seen: BTreeMap<RecallId, Seen>,
}

impl Shortcuts {
    /// What is known where this is quarantined: that it is closed, if it is nothing. Does not allocate.
    pub fn new(alloc: Global, quarantine: &Quarantine) -> Shortcuts
        ensures { (s : SiteEvents) → AreShortcuts s quarantine.now result }
    {
        Shortcuts {
            is_closed: quarantine.is_empty(),
            seen: BTreeMap::new(alloc),
        }
    }

    /// What is known where this is quarantined at a site: whether it is closed, by a search for each recall. Where
    /// memory runs out, that isn't known. No transformation is.
    pub fn found(alloc: Global, captured: &Captured, quarantine: &Quarantine) -> Shortcuts
        ensures { AreShortcuts captured.now quarantine.now result }
    {
        Shortcuts {
            is_closed: is_found_closed(alloc, captured, quarantine),
            seen: BTreeMap::new(alloc),
        }
    }

    /// What is known where it is the same whether what is quarantined is closed, but no transformation is
    /// known. Does not allocate.
    pub fn begun(alloc: Global, other: &Shortcuts) -> Shortcuts
        ensures { (s : SiteEvents) (q : Held) → (other.now.is_closed ≡ true → IsClosedInside s q)
            → AreShortcuts s q result }
    {
        Shortcuts {
            is_closed: other.is_closed,
            seen: BTreeMap::new(alloc),
        }
    }

    /// Whether what is quarantined is known to be closed.
    pub fn is_closed(&self) -> bool
        ensures { result ≡ self.now.is_closed }
    {
        self.is_closed
    }

    /// Takes out the transformations that a recall's messages went through. Does not allocate.
    pub fn take_seen(&mut self, alloc: Global, recall: RecallId) -> Seen
        ensures { (s : SiteEvents) (q : Held) → AreShortcuts s q self.old
            → AreShortcuts s q self.new × TakeHeld s q recall result }
    {
        match tables::take(&mut self.seen, recall) {
            Some(seen) => seen,
            None => Seen::new(alloc),
        }
    }

    /// Keeps the transformations that a recall's messages went through, unless memory runs out: then they
    /// are gone through again.
    pub fn keep_seen(&mut self, recall: RecallId, seen: Seen)
        ensures { (s : SiteEvents) (q : Held) → AreShortcuts s q self.old
            → TakeHeld s q recall seen → AreShortcuts s q self.new }
    {
        let _ = tables::put(&mut self.seen, recall, seen);
    }
}
