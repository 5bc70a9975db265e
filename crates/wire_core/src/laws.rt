//! Laws of the rule. Each is a function with an empty body whose contract is the law.

ghost use Rattle.wire_core.specs.Standing.{OpeningRecordsStand, SplitsMarkNothing, JoinsMarkNothing, SentFramesMarkNothing, OfferedFramesMarkNothing, NotedFramesMarkNothing, AskedSitesMarkNothing, MarksPutTheRecord, MarksLeaveOtherSites};
ghost use Rattle.wire_core.specs.Continuing.{ChangesAreSteps, StepsExtendTheRun};
ghost use Rattle.wire_core.specs.Laws.{CallsTellTheMailbox, MarksKeepTheFit, PostsKeepTheFit, FewerSentFit, RuleHoldsBetween, RunsFit, RunsOfSeatsComeOut, RunsStand};

/// A step of one site, by whatever input, leaves all consistent, where a frame that it delivers was sent.
pub fn a_mark_keeps_the_fit()
    ensures { MarksKeepTheFit }
{}

/// So does a frame that its sender's record makes emittable. What was sent may be lost, repeated or late.
pub fn a_post_keeps_the_fit()
    ensures posted { PostsKeepTheFit }
    ensures fewer { FewerSentFit }
{}

/// Where what the sites did is a run of the world, their records last marked are consistent with all frames sent, and
/// each stands as its steps marked, in order.
pub fn a_run_fits_and_stands()
    ensures fit { RunsFit }
    ensures stand { RunsStand }
{}

/// Between any two steps of any seats: each site stands in one seat; a mailbox is full just where one frame more was
/// sent that way than noted, and the frame in it is the last one sent; each noted frame was sent to that site; and the
/// seats together show where a run of the world leads from the records at the start, in which the records last marked
/// are consistent with all frames sent.
pub fn the_rule_holds_between_steps()
    // Not covered: in which order events of different sites stand in the run; inputs that were refused, and steps in
    // which a site stopped and that were not kept, are no events of it.
    ensures { RuleHoldsBetween }
{}

/// What a call says of the frames between two sites says whether the mailbox between them is full, and of which frame.
pub fn calls_tell_the_mailbox()
    ensures { CallsTellTheMailbox }
{}

/// A record stands from the start until its site is marked, whatever is sent and noted, however seats are split and
/// joined, and whichever other site is marked.
pub fn a_record_stands_until_its_site_is_marked()
    ensures opening { OpeningRecordsStand }
    ensures split { SplitsMarkNothing }
    ensures join { JoinsMarkNothing }
    ensures sent { SentFramesMarkNothing }
    ensures offered { OfferedFramesMarkNothing }
    ensures noted { NotedFramesMarkNothing }
    ensures asked { AskedSitesMarkNothing }
    ensures put { MarksPutTheRecord }
    ensures left { MarksLeaveOtherSites }
{}

/// What the sites did is a run of the world that comes out as the headline says, at each of its moments.
pub fn runs_of_seats_come_out()
    ensures { RunsOfSeatsComeOut }
{}

/// What the sites did by one moment is continued at the next: each run of the world that their logs are goes on, by the
/// step that one of them was marked, or the frame that it sent, to one that the later logs are. Each step of the
/// mailboxes changes a log so, or not at all.
pub fn a_step_extends_the_run()
    ensures changes { ChangesAreSteps }
    ensures run { StepsExtendTheRun }
{}
