//! Reading numbers and recalls.

ghost use Rattle.std.specs.Prelude.{◌≡◌, ◌<◌, option_map};
ghost use Rattle.std.specs.List.{before_first, after_first};
ghost use Rattle.recall_text.specs.Numbers.{is_hash, number_of, recall_of};

use event_json::SiteNo;

/// The most digits of a number.
const MOST_DIGITS: usize = 18;

/// The number that 1 to 18 decimal digits write; zeros may lead.
pub fn number_of(text: &str) -> Option<u64>
    ensures { result ≡ number_of text.now }
{
    if text.len() > MOST_DIGITS {
        return None;
    }
    // A number that is parsed may have a plus before it.
    if text.starts_with('+') {
        return None;
    }
    text.parse().ok()
}

/// The name of the site and the number that a recall is written with, as `A#1`.
#[tactic(auto, unfolding(crate::specs::Numbers::recall_of))]
pub fn recall_of(text: &str) -> Option<(&str, u64)>
    ensures { option_map (λ r. (r.0.now, r.1)) result ≡ recall_of text.now }
{
    let (name, number) = split_hash(text);
    if name.is_empty() {
        return None;
    }
    Some((name, number_of(number)?))
}

/// What stands before the first `#` and what behind it, nothing where there is none.
fn split_hash(text: &str) -> (&str, &str)
    ensures before { result.0.now ≡ before_first is_hash text.now }
    ensures after { result.1.now ≡ after_first is_hash text.now }
{
    match text.split_once('#') {
        Some((before, after)) => (before, after),
        None => (text, ""),
    }
}

/// The site of a number below 16.
pub fn site_at(number: u64) -> SiteNo
    requires { number < 16 }
    ensures { result ≡ number }
{
    SiteNo::of(number).unwrap()
}
