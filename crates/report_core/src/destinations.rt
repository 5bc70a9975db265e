//! A place outside the traced sites.
ghost use Rattle.std.specs.Prelude.{◌≡◌, Some, refl};
ghost use Rattle.std.specs.Cmp as Cmp;
ghost use Rattle.std.specs.Cmp.Lexicographic.{slice_cmp, pointwise, nat_list_cmp_total, nat_list_eq_equiv, texts_ties, texts_po};
ghost use Rattle.std.specs.Ordering.{nat_cmp};
ghost use Rattle.std.specs.Prelude.{nat_eq};

use event_json::PlainText;
use std::cmp::Ordering;
use std::marker::Model;

/// A place outside the traced sites, as a shipment names it: a plain text that is no address of a site. Contracts
/// see it as its bytes, and it is ordered by them.
#[derive(Debug, Drop)]
pub struct Destination {
    text: PlainText,
}

impl Model for Destination {
    ghost use Rattle.std.specs.Prelude.{List, ℕ};

    ghost Value = { List ℕ };

    ghost view = { λ d. d.text };
}

impl Destination {
    /// The place of this text. Does not allocate.
    pub(crate) fn of(text: PlainText) -> Destination
        ensures { result ≡ text }
    {
        Destination { text }
    }

    /// The text that names it.
    pub(crate) fn text(&self) -> &PlainText
        ensures { result.now ≡ self.now }
    {
        &self.text
    }

    /// The text that names it, as a string.
    pub fn as_str(&self) -> &str
        ensures { result.now ≡ self.now }
    {
        self.text.as_str()
    }
}

impl PartialEq for Destination {
    ghost eq = { pointwise nat_eq };

    ghost laws = { Cmp.partial_equiv_from_equiv nat_list_eq_equiv };

    fn eq(&self, other: &Destination) -> bool {
        self.text == other.text
    }
}

impl Eq for Destination {
    ghost laws = { nat_list_eq_equiv };
}

impl PartialOrd for Destination {
    ghost partial_cmp = { λ x y. Some (slice_cmp nat_cmp x y) };

    ghost laws = { texts_po };

    fn partial_cmp(&self, other: &Destination) -> Option<Ordering> {
        Some(self.cmp(other))
    }
}

impl Ord for Destination {
    ghost cmp = { slice_cmp nat_cmp };

    ghost total = { nat_list_cmp_total };

    ghost matches_partial_cmp = { λ x y. refl };

    ghost matches_eq = { texts_ties };

    fn cmp(&self, other: &Destination) -> Ordering {
        self.text.as_str().cmp(other.text.as_str())
    }
}
