//! Answers and their texts.

ghost use Rattle.std.specs.Prelude.{◌≡◌, ◌++◌, codes, IfOk, string_bytes};
ghost use Rattle.event_json.specs.Names.{sites_fault_name};
ghost use Rattle.recall_text.specs.Requests.{keep_word};
ghost use Rattle.recall_text.specs.Words.{name_at, pairs_text, quarantine_text, quarantined_text, frame_text, armed_text, open_text, pumped_text};

use crate::texts::{name_of, pair_lines, quarantined_text};
use event_json::{SiteNo, Sites, SitesFault};
use keeper_core::Keep;
use std::alloc::{AllocError, Global};
use trace_core::Pair;

/// The answer to a line.
#[derive(Debug, Drop)]
pub enum Answer {
    /// Nothing.
    Silent,
    /// A refusal without details: its text is fixed, so that it does not allocate.
    Fixed(&'static str),
    /// A refusal with details.
    Refusal(String),
    /// What came of a line that was done.
    Done(String),
}

impl Answer {
    ghost use Rattle.recall_text.specs.Answer.{answer_of, refused, done};

    /// The text of the answer, empty for none.
    pub fn text(&self) -> &str
        ensures { result.now ≡ (answer_of self.now).text }
    {
        match self {
            Answer::Silent => "",
            Answer::Fixed(text) => text,
            Answer::Refusal(text) => text.as_str(),
            Answer::Done(text) => text.as_str(),
        }
    }

    /// Whether it is a refusal.
    pub fn is_refusal(&self) -> bool
        ensures { result ≡ (answer_of self.now).refused }
    {
        match self {
            Answer::Silent => false,
            Answer::Fixed(_) => true,
            Answer::Refusal(_) => true,
            Answer::Done(_) => false,
        }
    }

    /// The refusal of a line that can't be read.
    pub fn bad_line() -> Answer
        ensures { answer_of result ≡ refused (codes "BadLine") }
    {
        Answer::Fixed("refused BadLine\n")
    }

    /// The refusal of a `site` line once the sites are fixed.
    pub fn late() -> Answer
        ensures { answer_of result ≡ refused (codes "Late") }
    {
        Answer::Fixed("refused Late\n")
    }

    /// The refusal of a line that asks something of the sites before at least two of them stand.
    pub fn no_world() -> Answer
        ensures { answer_of result ≡ refused (codes "NoWorld") }
    {
        Answer::Fixed("refused NoWorld\n")
    }

    /// The refusal of an EPC text.
    pub fn bad_epc() -> Answer
        ensures { answer_of result ≡ refused (codes "BadEpc") }
    {
        Answer::Fixed("refused BadEpc\n")
    }

    /// The refusal of a row, a signal or a frame that isn't there.
    pub fn no_frame() -> Answer
        ensures { answer_of result ≡ refused (codes "NoFrame") }
    {
        Answer::Fixed("refused NoFrame\n")
    }

    /// The refusal of a recall that its site didn't begin.
    pub fn no_recall() -> Answer
        ensures { answer_of result ≡ refused (codes "NoRecall") }
    {
        Answer::Fixed("refused NoRecall\n")
    }

    /// A refusal with details.
    pub fn refusal(alloc: Global, what: &str) -> Result<Answer, AllocError>
        ensures { IfOk result (λ a. answer_of a ≡ refused what.now) }
    {
        Ok(Answer::Refusal(format!(in alloc; "refused {what}\n")?))
    }

    /// The refusal of a line at a site that doesn't exist.
    pub fn no_site(alloc: Global, name: &str) -> Result<Answer, AllocError>
        ensures { IfOk result (λ a. answer_of a ≡ refused (codes "NoSite " ++ name.now)) }
    {
        let what = format!(in alloc; "NoSite {name}")?;
        Answer::refusal(alloc, what.as_str())
    }

    /// The refusal of a line at a site that is down.
    pub fn closed(alloc: Global, sites: &Sites, site: SiteNo) -> Result<Answer, AllocError>
        ensures { IfOk result (λ a. answer_of a
            ≡ refused (codes "Closed " ++ name_at sites.now site)) }
    {
        let name = name_of(sites, site);
        let what = format!(in alloc; "Closed {name}")?;
        Answer::refusal(alloc, what.as_str())
    }

    /// The refusal to open a site that is up.
    pub fn not_closed(alloc: Global, name: &str) -> Result<Answer, AllocError>
        ensures { IfOk result (λ a. answer_of a ≡ refused (codes "NotClosed " ++ name.now)) }
    {
        let what = format!(in alloc; "NotClosed {name}")?;
        Answer::refusal(alloc, what.as_str())
    }

    /// The refusal of a `site` line for its name or addresses.
    pub fn bad_site(alloc: Global, fault: &SitesFault) -> Result<Answer, AllocError>
        ensures { IfOk result (λ a. answer_of a
            ≡ refused (codes "BadSite " ++ sites_fault_name fault.now)) }
    {
        let name = fault.name();
        let what = format!(in alloc; "BadSite {name}")?;
        Answer::refusal(alloc, what.as_str())
    }

    /// A frame was sent at this place.
    pub fn frame(alloc: Global, place: u64) -> Result<Answer, AllocError>
        ensures { IfOk result (λ a. answer_of a ≡ done (frame_text place)) }
    {
        Ok(Answer::Done(format!(in alloc; "frame {place}\n")?))
    }

    /// The next step of a site is a stop.
    pub fn armed(alloc: Global, name: &str, keep: Keep) -> Result<Answer, AllocError>
        ensures { IfOk result (λ a. answer_of a ≡ done (armed_text name.now keep)) }
    {
        let word = keep_word(keep);
        Ok(Answer::Done(format!(in alloc; "armed {name} {word}\n")?))
    }

    /// A site is open again.
    pub fn open(alloc: Global, name: &str) -> Result<Answer, AllocError>
        ensures { IfOk result (λ a. answer_of a ≡ done (open_text name.now)) }
    {
        Ok(Answer::Done(format!(in alloc; "open {name}\n")?))
    }

    /// What some rounds reported, and how many frames they sent.
    pub fn pumped(
        alloc: Global,
        text: String,
        rounds: u64,
        frames: u64,
    ) -> Result<Answer, AllocError>
        ensures { IfOk result (λ a. answer_of a
            ≡ done (string_bytes text ++ pumped_text rounds frames)) }
    {
        let mut text = text;
        let line = format!(in alloc; "pumped {rounds} frames {frames}\n")?;
        text.push_str(line.as_str())?;
        Ok(Answer::Done(text))
    }

    /// Each pair, and how many they are.
    pub fn pairs(alloc: Global, sites: &Sites, pairs: &[Pair]) -> Result<Answer, AllocError>
        ensures { IfOk result (λ a. answer_of a ≡ done (pairs_text sites.now pairs.now)) }
    {
        let mut text = pair_lines(alloc, sites, pairs)?;
        let count = pairs.len();
        let line = format!(in alloc; "pairs {count}\n")?;
        text.push_str(line.as_str())?;
        Ok(Answer::Done(text))
    }

    /// Each pair that is quarantined under a recall, how many they are, and whether the recall has ended.
    pub fn quarantined(
        alloc: Global,
        sites: &Sites,
        pairs: &[Pair],
        ended: bool,
    ) -> Result<Answer, AllocError>
        ensures { IfOk result (λ a. answer_of a
            ≡ done (quarantine_text sites.now pairs.now ended)) }
    {
        let mut text = pair_lines(alloc, sites, pairs)?;
        let line = quarantined_text(alloc, pairs.len(), ended)?;
        text.push_str(line.as_str())?;
        Ok(Answer::Done(text))
    }
}

/// The word for the record that a stop keeps.
fn keep_word(keep: Keep) -> &'static str
    ensures { result.now ≡ keep_word keep }
{
    match keep {
        Keep::Old => "old",
        Keep::New => "new",
    }
}
