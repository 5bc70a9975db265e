//! Trails of which the steps are shown, each one or a single one.
ghost use Rattle.std.specs.Prelude.{◌≡◌, List, IfOk, if◌then◌else◌, length, slice_get};
ghost use Rattle.trace_core.specs.declared.pairs.Pair.{Pair};
ghost use Rattle.report_core.specs.TrailEvents.{or_no_pairs, pairs_shown};
ghost use Rattle.report_core.specs.declared.trail_events.ShownSteps.{ShownSteps};
ghost use Rattle.report_core.specs.declared.trail_events.ShownSteps.TheVariants.{Each};

use crate::back_trails::BackTrails;
use std::alloc::{AllocError, Global};
use trace_core::{AllTrails, Pair, Trails};

/// Trails of which the pairs are shown, all or those of one step.
pub(crate) trait ShownTrails {
    /// The pairs of each, none where it isn't there.
    ghost trails: { Self → List (List Pair) };

    /// Which step is shown in brief.
    ghost step: { Self → ShownSteps };

    /// How many trails there are.
    fn count(&self) -> usize
        ensures { result ≡ length (trails self.now) };

    /// The pairs that are shown of the trail at a place.
    fn pairs_at(&self, alloc: Global, place: usize, brief: bool) -> Result<Vec<Pair>, AllocError>
        ensures { IfOk result (λ pairs. pairs.items ≡ pairs_shown
            (if brief then step self.now else Each) (or_no_pairs (slice_get (trails self.now) place))) };
}

impl ShownTrails for Trails {
    ghost use Rattle.std.specs.Prelude.{map};
    ghost use Rattle.report_core.specs.TrailEvents.{or_no_pairs};
    ghost use Rattle.report_core.specs.declared.trail_events.ShownSteps.TheVariants.{Last};

    ghost trails = { λ t. map or_no_pairs t };

    ghost step = { λ _. Last };

    fn count(&self) -> usize {
        self.len()
    }

    fn pairs_at(&self, alloc: Global, place: usize, brief: bool) -> Result<Vec<Pair>, AllocError> {
        match self.get(place) {
            Some(Some(trail)) => {
                if brief {
                    trail.ending(alloc)
                } else {
                    trail.pairs(alloc)
                }
            }
            Some(None) => Ok(Vec::new(alloc)),
            None => Ok(Vec::new(alloc)),
        }
    }
}

impl ShownTrails for AllTrails {
    ghost use Rattle.report_core.specs.declared.trail_events.ShownSteps.TheVariants.{Last};

    ghost trails = { λ t. t };

    ghost step = { λ _. Last };

    fn count(&self) -> usize {
        self.len()
    }

    fn pairs_at(&self, alloc: Global, place: usize, brief: bool) -> Result<Vec<Pair>, AllocError> {
        match self.get(place) {
            Some(trail) => {
                if brief {
                    trail.ending(alloc)
                } else {
                    trail.pairs(alloc)
                }
            }
            None => Ok(Vec::new(alloc)),
        }
    }
}

impl ShownTrails for BackTrails {
    ghost use Rattle.report_core.specs.declared.trail_events.ShownSteps.TheVariants.{First};

    ghost trails = { λ t. t };

    ghost step = { λ _. First };

    fn count(&self) -> usize {
        self.len()
    }

    fn pairs_at(&self, alloc: Global, place: usize, brief: bool) -> Result<Vec<Pair>, AllocError> {
        match self.get(place) {
            Some(trail) => {
                if brief {
                    trail.beginning(alloc)
                } else {
                    trail.pairs(alloc)
                }
            }
            None => Ok(Vec::new(alloc)),
        }
    }
}
