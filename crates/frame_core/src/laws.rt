//! Laws of the outbox, of the messages of a recall and of the orders, for proofs of the crates above.
//! Each is a function with an empty body whose contract is the law.

ghost use Rattle.std.specs.Cmp.{IsTotalOrder, IsEquivalence};
ghost use Rattle.std.specs.FinMap.{IsAntisymmetric};
ghost use Rattle.frame_core.specs.Identifiers.{recall_cmp, message_cmp, same_recall, same_message};
ghost use Rattle.frame_core.specs.Laws.{EarlierRowsStay, LaterRowsStay, EachMessageHasItsRow, RowsAreOldOrNew, SameRecallsAreEqual, SameMessagesAreEqual, RowsAreFound, NoDeficitNoRows, MessagesRaiseTheDeficit, MessagesLeaveOtherDeficits, SignalLowersTheDeficit, SignalLeavesOtherDeficits, MessagesAreKnown};

/// Recalls are in a total order, in which only equal ones tie.
pub fn recalls_are_ordered()
    ensures total { IsTotalOrder recall_cmp }
    ensures exact { IsAntisymmetric recall_cmp }
    ensures same { SameRecallsAreEqual }
    ensures alike { IsEquivalence same_recall }
{}

/// Messages are in a total order, in which only equal ones tie.
pub fn messages_are_ordered()
    ensures total { IsTotalOrder message_cmp }
    ensures exact { IsAntisymmetric message_cmp }
    ensures same { SameMessagesAreEqual }
    ensures alike { IsEquivalence same_message }
{}

/// Numbering gives each message its row, and leaves the rows of all other numbers.
pub fn numbering_adds_its_rows()
    ensures earlier { EarlierRowsStay }
    ensures later { LaterRowsStay }
    ensures told { EachMessageHasItsRow }
    ensures origin { RowsAreOldOrNew }
{}

/// A recall has rows exactly where a row of it is found, and a deficit exactly where it has rows.
pub fn a_deficit_is_of_rows()
    ensures found { RowsAreFound }
    ensures none { NoDeficitNoRows }
{}

/// A message that gets an unused number raises the deficit of its recall by one, a row that is
/// cleared lowers it by one, and neither touches the deficit of another recall.
pub fn deficits_count_messages()
    ensures raised { MessagesRaiseTheDeficit }
    ensures not_raised { MessagesLeaveOtherDeficits }
    ensures lowered { SignalLowersTheDeficit }
    ensures not_lowered { SignalLeavesOtherDeficits }
{}

/// A message of a recall is known at a site exactly where its row stands there under the recall, or it
/// was seen there under the recall.
pub fn messages_of_a_recall_are_known()
    ensures { MessagesAreKnown }
{}
