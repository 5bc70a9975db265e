//! The limits of a list of sites and of a document.

/// The most sites of a list.
pub const MAX_SITES: usize = 16;

/// The most addresses of a site.
pub const MAX_ADDRESSES: usize = 16;

/// The most bytes of a site's name.
pub const MAX_NAME_BYTES: usize = 16;

/// The most events of a document, those that are skipped too.
pub const MAX_EVENTS: usize = 1000;

/// The most members of a list of items or destinations.
pub const MAX_LIST_MEMBERS: usize = 1000;
