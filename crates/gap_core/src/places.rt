//! Places of events.
ghost use Rattle.std.specs.Prelude.{◌≡◌, ◌++◌, ◌∷◌, [], IfOk, OnOk, Some, refl, nat_eq};
ghost use Rattle.std.specs.Cmp as Cmp;
ghost use Rattle.std.specs.Cmp.Lexicographic.{slice_cmp, pointwise, nat_list_cmp_total, nat_list_eq_equiv, texts_ties, texts_po};
ghost use Rattle.std.specs.Ordering.{nat_cmp};

use std::alloc::{AllocError, Global};
use std::cmp::Ordering;
use std::marker::Model;

/// Places of events among those of a site, in the order in which they were added.
#[derive(Debug, Drop)]
pub struct Places {
    places: Vec<usize>,
}

impl Model for Places {
    ghost use Rattle.std.specs.Prelude.{List, ℕ};

    ghost Value = { List ℕ };

    ghost view = { λ p. p.places.items };
}

impl Places {
    /// No place. Does not allocate.
    pub fn new(alloc: Global) -> Places
        ensures { result ≡ [] }
    {
        Places {
            places: Vec::new(alloc),
        }
    }

    /// One place.
    pub fn one(alloc: Global, place: usize) -> Result<Places, AllocError>
        ensures { IfOk result (λ p. p ≡ place ∷ []) }
    {
        let mut places = Vec::new(alloc);
        places.push(place)?;
        Ok(Places { places })
    }

    /// Adds a place at the end.
    pub fn push(&mut self, place: usize) -> Result<(), AllocError>
        ensures { OnOk result (self.new ≡ self.old ++ place ∷ []) }
    {
        self.places.push(place)?;
        Ok(())
    }

    /// The places in order.
    pub fn as_slice(&self) -> &[usize]
        ensures { result.now ≡ self.now }
    {
        self.places.as_slice()
    }

    /// Equal places.
    pub fn copy(&self, alloc: Global) -> Result<Places, AllocError>
        ensures { IfOk result (λ p. p ≡ self.now) }
    {
        let places = self.places.as_slice().to_vec(alloc)?;
        Ok(Places { places })
    }
}

impl PartialEq for Places {
    ghost eq = { pointwise nat_eq };

    ghost laws = { Cmp.partial_equiv_from_equiv nat_list_eq_equiv };

    fn eq(&self, other: &Places) -> bool {
        self.places == other.places
    }
}

impl Eq for Places {
    ghost laws = { nat_list_eq_equiv };
}

impl PartialOrd for Places {
    ghost partial_cmp = { λ x y. Some (slice_cmp nat_cmp x y) };

    ghost laws = { texts_po };

    fn partial_cmp(&self, other: &Places) -> Option<Ordering> {
        Some(self.cmp(other))
    }
}

impl Ord for Places {
    ghost cmp = { slice_cmp nat_cmp };

    ghost total = { nat_list_cmp_total };

    ghost matches_partial_cmp = { λ x y. refl };

    ghost matches_eq = { texts_ties };

    fn cmp(&self, other: &Places) -> Ordering {
        self.places.as_slice().cmp(other.places.as_slice())
    }
}
