//! A law of what the database refuses, for proofs of the crates above.
ghost use Rattle.site_tables.specs.Causes.{RefusalsAreNamed};

/// A command that writes is refused by an error of the list of refusals, none of which is the disk's or the memory's.
pub fn refusals_are_named()
    ensures { RefusalsAreNamed }
{}
