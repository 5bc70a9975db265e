//! Which message a site posts next to another.
ghost use Rattle.std.specs.Prelude.{◌≡◌, min, max, unwrap_or};
ghost use Rattle.site_threads.specs.Offers.{IsRound, from_on, least, moved, next_to, waiting};

use event_json::SiteNo;
use site_core::SiteState;

/// How far a site has posted its messages for another: they go by number, round after round.
///
/// The next one is looked up among those for the other site, so that messages for others cost it nothing. What was
/// looked through isn't looked through again in the same round, since a message that comes has a higher number than all
/// before it.
#[derive(Clone, Copy, Debug)]
pub struct Round {
    /// The number behind that of the message posted last; 0 before the first.
    pub place: u64,
    /// No message that waits for the other site has a lower number.
    least: u64,
    /// None that waits for it has a number from the place on and below this one.
    next: u64,
}

impl Round {
    /// Before the first message.
    pub fn new() -> Round
        ensures { result ≡ record { place = 0; least = 0; next = 0 } }
    {
        Round {
            place: 0,
            least: 0,
            next: 0,
        }
    }

    /// The number of the next message for the site: the least one from the place on, or else the least of all.
    pub fn find(&mut self, state: &SiteState, to: SiteNo) -> Option<u64>
        requires round { IsRound state.now.engagement to self.old }
        ensures found { result ≡ next_to state.now.engagement to self.old.place }
        ensures round { IsRound state.now.engagement to self.new }
        ensures place { self.new.place ≡ self.old.place }
    {
        let found = first_from(state, to, self.next);
        self.next = ahead(self.next, found, state.next_message());
        if found.is_some() {
            return found;
        }
        let found = first_from(state, to, self.least);
        self.least = ahead(self.least, found, state.next_message());
        found
    }

    /// Behind the frame that was posted to the site, where one was, and it is a message of this number.
    pub fn behind(self, posted: u64, number: Option<u64>) -> Round
        ensures { result ≡ moved self posted number }
    {
        match number {
            Some(number) if posted > 0 => {
                let place = number.saturating_add(1);
                Round {
                    place,
                    least: self.least,
                    next: place,
                }
            }
            _ => self,
        }
    }
}

/// From where on the next search looks: from what was found on, and else from the number of the next message on. A
/// record that was restored may have a message of that number or a higher one, so it isn't passed.
fn ahead(from: u64, found: Option<u64>, end: u64) -> u64
    ensures { result ≡ max from (min (unwrap_or found end) end) }
{
    from.max(found.unwrap_or(end).min(end))
}

/// The number of the first message for the site from a number on.
fn first_from(state: &SiteState, to: SiteNo, from: u64) -> Option<u64>
    ensures { result ≡ least (from_on from (waiting state.now.engagement to)) }
{
    state.first_to(to, from)
}
