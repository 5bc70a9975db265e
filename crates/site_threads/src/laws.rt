//! Laws of whom a site asks in a turn and of what it posts, each named by a function with an empty body whose
//! contract is the law.

ghost use Rattle.site_threads.specs.Laws.{MessagesComeRound, OthersAreAll, SignalsComeFirst};

/// Each other site of the range is asked, and no further one.
pub fn others_are_all()
    ensures { OthersAreAll }
{}

/// The signal of the message that was taken from a site comes before each message for it.
pub fn signals_come_first()
    ensures { SignalsComeFirst }
{}

/// Messages for a site come round: in as many turns as wait for its signal, in which nothing is taken from it, each of
/// them is posted once.
pub fn messages_come_round()
    ensures { MessagesComeRound }
{}
