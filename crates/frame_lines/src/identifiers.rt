//! Reading the identifiers of messages and recalls, and the names of sites.
ghost use Rattle.std.specs.Prelude.{◌≡◌, ◌<◌, ◌^◌, ◌++◌, ◌∷◌, IsFalse, length};
ghost use Rattle.std.specs.Fmt.{decimal};
ghost use Rattle.event_json.specs.Sites.{is_name_byte};
ghost use Rattle.frame_lines.specs.Finding.{Finds};
ghost use Rattle.frame_lines.specs.Lines.{IsMessageOf, IsRecallOf};
ghost use Rattle.recall_text.specs.Words.{message_text, name_at, recall_text};

use crate::numbers::number_of;
use event_json::{SiteNo, Sites};
use frame_core::{MsgId, RecallId};

/// The site of this name.
pub(crate) fn site_named(sites: &Sites, name: &str) -> Option<SiteNo>
    ensures { Finds (λ site. (site < length sites.now) × (name.now ≡ name_at sites.now site))
        result }
{
    sites.find(name)
}

/// The message that a text identifies, as `plant.1`.
pub(crate) fn message_named(sites: &Sites, text: &str) -> Option<MsgId>
    ensures { Finds (λ m. IsMessageOf sites.now m × (text.now ≡ message_text sites.now m))
        result }
{
    let (site, number) = site_and_number(sites, text, '.')?;
    Some(MsgId { site, number })
}

/// The recall that a text identifies, as `plant#1`.
pub(crate) fn recall_named(sites: &Sites, text: &str) -> Option<RecallId>
    ensures { Finds (λ r. IsRecallOf sites.now r × (text.now ≡ recall_text sites.now r))
        result }
{
    let (site, number) = site_and_number(sites, text, '#')?;
    Some(RecallId { site, number })
}

/// The site and the number that a text names with this mark between them.
fn site_and_number(sites: &Sites, text: &str, mark: char) -> Option<(SiteNo, u64)>
    requires ascii { mark < 128 }
    // So the mark parts the name from the number.
    requires apart { IsFalse (is_name_byte mark) }
    ensures { Finds (λ p. (p.0 < length sites.now) × (p.1 < 2 ^ 64)
        × (text.now ≡ name_at sites.now p.0 ++ mark ∷ decimal p.1)) result }
{
    // No name has the mark.
    let _names = sites.len();
    let (name, number) = text.split_once(mark)?;
    Some((site_named(sites, name)?, number_of(number)?))
}
