//! The tables of a site's file, and their versions.
ghost use Rattle.std.specs.Prelude.{◌≡◌};
ghost use Rattle.site_rows.specs.RecordRows.{kinds_under, version_number};

/// A table of a site's file, in the order in which faults of their rows are reported.
#[derive(Clone, Copy, Debug, PartialEq, Eq)]
pub enum Table {
    /// The site itself.
    Store,
    /// All sites.
    Site,
    /// The addresses of the sites.
    Address,
    /// The captured events.
    Event,
    /// The members of their lists.
    Part,
    /// What was put into containers, seen in them or taken out of them.
    Pack,
    /// The items that were.
    Packed,
    /// What is quarantined.
    Quarantine,
    /// The messages that aren't signalled.
    Outbox,
    /// The messages that were handled.
    Seen,
    /// The messages that engaged the site.
    Parent,
    /// The own recalls.
    Recall,
}

/// A version of the tables.
#[derive(Clone, Copy, Debug, PartialEq, Eq)]
pub enum Version {
    /// Without [`Table::Pack`] and [`Table::Packed`].
    First,
    /// All of them.
    Second,
}

impl Version {
    /// The number that the row of `store` has under it.
    pub fn number(self) -> i64
        ensures { result ≡ version_number self }
    {
        match self {
            Version::First => 1,
            Version::Second => 2,
        }
    }

    /// How many kinds of events it has: the first one has no packs.
    pub(crate) fn kinds(self) -> u64
        ensures { result ≡ kinds_under self }
    {
        match self {
            Version::First => 3,
            Version::Second => 4,
        }
    }
}
