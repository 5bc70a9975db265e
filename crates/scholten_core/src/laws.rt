//! Laws of engagement, for proofs of the crates above. Each is a function with an empty body whose
//! contract is the law.

ghost use Rattle.scholten_core.specs.Laws.{BegunBegins, UnseenIsTaken, SeenIsRepeat, StandingIsCleared, NoRowIsStale, BeginsFixes, TakesFixes, ClearsFixes, BegunAnswerIsFixed, TakenAnswerIsFixed, ClearedAnswerIsFixed, BeginningKeepsOwners, TakingKeepsOwners, ClearingKeepsOwners, NeutralSitesHaveNoDeficit};

/// To begin a recall numbers its messages, and notes it as begun under the next number.
pub fn a_recall_begins()
    ensures { BegunBegins }
{}

/// A message that wasn't seen is noted under its recall, its messages are numbered, and it may become
/// the parent; one that was seen changes nothing.
pub fn a_message_is_taken_once()
    ensures taken { UnseenIsTaken }
    ensures repeat { SeenIsRepeat }
{}

/// A signal clears the row of its number, and with a recall's last row the parent goes or the recall
/// ends; without a row it changes nothing.
pub fn a_signal_clears_one_row()
    ensures cleared { StandingIsCleared }
    ensures stale { NoRowIsStale }
{}

/// What begins, is taken or is cleared fixes the engagement afterwards, and the answer.
pub fn effects_fix_what_follows()
    ensures begins { BeginsFixes }
    ensures takes { TakesFixes }
    ensures clears { ClearsFixes }
    ensures begun { BegunAnswerIsFixed }
    ensures taken { TakenAnswerIsFixed }
    ensures cleared { ClearedAnswerIsFixed }
{}

/// A site that is neither engaged for a recall nor its live initiator has no unsignalled message of
/// it: each change keeps this.
pub fn neutral_sites_have_no_deficit()
    ensures begins { BeginningKeepsOwners }
    ensures takes { TakingKeepsOwners }
    ensures clears { ClearingKeepsOwners }
    ensures none { NeutralSitesHaveNoDeficit }
{}
