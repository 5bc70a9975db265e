//! What a seat knows. No value of these types is made.

use event_json::SiteNo;
use frame_core::Frame;
use site_core::{SiteInput, SiteState};
use std::collections::LinkedList;

/// Which mailbox a site is at work on.
pub enum Doing {
    /// None.
    Nothing,
    /// It writes the one to this site.
    Writes(SiteNo),
    /// It reads the one from this site.
    Reads(SiteNo),
}

/// What is known of one site.
pub struct Log {
    /// Its number.
    pub site: SiteNo,
    /// Its record when the wire was made.
    pub opening: SiteState,
    /// The inputs marked so far, in order.
    pub inputs: LinkedList<SiteInput>,
    /// The record last marked.
    pub last: SiteState,
    /// The frames that it sent through the wire, in order.
    pub sent: LinkedList<Frame>,
    /// The frames that it noted from the wire, in order.
    pub noted: LinkedList<Frame>,
    /// The sites whose mailboxes to it were looked at, in order, whether a frame lay there or not.
    pub asked: LinkedList<SiteNo>,
    /// The frames that it gave to be posted, in order, whether their mailboxes were empty or not.
    pub offered: LinkedList<Frame>,
    /// What it is at work on.
    pub doing: Doing,
}

/// What is known of the sites that a seat holds, and where the seat is to be split.
pub struct View {
    /// A log for each site.
    pub sites: LinkedList<Log>,
    /// The first site that goes to the second part.
    pub cut: SiteNo,
}
