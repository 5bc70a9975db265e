//! What the step of a site has to mean, each law named by a function with an empty body whose contract is
//! the law.

ghost use Rattle.site_core.specs.CapturingLaws.{BlockedEventsLeadOut, CapturesLeadNoFurther, EventsHaveAnOutcome};
ghost use Rattle.site_core.specs.StepLaws.{AnswersTellChanges, CapturesGrow, CapturesKeepTheDocument, ClearsFixes, CountIsFixed, DoneIsNotRefused, EffectsAreFixed, IdleFramesChangeNothing, InputsHaveAnOutcome, MessagesAreForTheSite, MessagesAreTaken, MisdirectedMessagesAreRefused, OpensFixes, RefusalsAreFixed, SignalsAreOfTheSite, SignalsClear, SignalsOfOthersAreRefused, StaleSignalsAreOwn, StartsOpen, TakesFixes};

/// A captured document is kept, and is as many fresh events, one after another, as are reported, none of which leads a
/// quarantined item to a pair that isn't at this site and quarantined under the same recall. An event is blocked only
/// where it would.
pub fn a_capture_leads_no_further()
    ensures grows { CapturesGrow }
    ensures keeps { CapturesKeepTheDocument }
    ensures leads_no_further { CapturesLeadNoFurther }
    ensures blocked { BlockedEventsLeadOut }
{}

/// A start brings the root's spread under the recall that it begins, and announces each shipment of it.
pub fn a_start_opens_a_recall()
    ensures { StartsOpen }
{}

/// A message that is received wasn't seen: the item's spread comes under its recall, and each shipment of
/// what is new there is announced.
pub fn a_message_is_taken()
    ensures { MessagesAreTaken }
{}

/// A signal that isn't stale clears the row of its number, which goes to the signer: the messages left of
/// the recall decide what follows, and nothing but the engagement changes.
pub fn a_signal_clears_its_row()
    ensures { SignalsClear }
{}

/// What opens, is taken or is cleared fixes the record afterwards, among those that keep no recall without
/// items, and how many items came under the recall.
pub fn ways_fix_what_follows()
    // Not covered: among records that keep no recall without items.
    ensures opens { OpensFixes }
    ensures takes { TakesFixes }
    ensures clears { ClearsFixes }
    ensures count { CountIsFixed }
{}

/// An answer says whether anything changed: a capture of known events alone, a repeat and a stale signal
/// leave the record as it was, and nothing else does.
pub fn an_answer_tells_a_change()
    ensures changes { AnswersTellChanges }
    ensures idle { IdleFramesChangeNothing }
{}

/// A message or a signal does something, or is refused for its numbers, only at the site that it is for.
pub fn frames_are_for_their_site()
    // Not covered: which frames are a site's (`IsForSite`, `IsOwnMessage`) stands by its own words.
    ensures messages { MessagesAreForTheSite }
    ensures signals { SignalsAreOfTheSite }
{}

/// Which frames are refused as not the site's: messages that go to another site or come from this one, signals
/// for messages of another site or from another one than the message went to, and those whose sites aren't of
/// the list or whose numbers are 0 or above 2^62. A signal is stale only for a message that the site can have
/// sent.
pub fn frames_of_others_are_refused()
    ensures messages { MisdirectedMessagesAreRefused }
    ensures signals { SignalsOfOthersAreRefused }
    ensures stale { StaleSignalsAreOwn }
{}

/// Unless memory runs out, an input has one outcome: one effect that leaves one record, or one reason
/// for which it is refused, and not both.
pub fn an_input_has_one_outcome()
    // Not covered: out of memory is beside them.
    ensures effects { EffectsAreFixed }
    ensures not_both { DoneIsNotRefused }
    ensures refusals { RefusalsAreFixed }
{}

/// Every input has an outcome other than out of memory.
pub fn an_input_has_an_outcome()
    ensures events { EventsHaveAnOutcome }
    ensures inputs { InputsHaveAnOutcome }
{}
