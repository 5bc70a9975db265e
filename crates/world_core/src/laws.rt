//! Laws of runs. Each is a function with an empty body whose contract is the law.

ghost use Rattle.world_core.specs.Copies.{LateCopiesAreExact};
ghost use Rattle.world_core.specs.Counting.{MessagesAreCounted};
ghost use Rattle.world_core.specs.EndingLaws.{EveryRecallCanEnd, FramesFindTheirSite, FreshSitesAreGoing, RunsKeepGoing};
ghost use Rattle.world_core.specs.FormingLaws.{FreshSitesMakeAWorld, OnlyMemoryHindersAWorld};
ghost use Rattle.world_core.specs.Laws.{EndedStays, WorldEndsAreExact, FramesStay, FreshSitesFit, QuarantinesAscend, RunsComeOut, RunsFromTheStartComeOut, RunsKeepTheFit, SitesStandAsKept, TurnsKeepTheFit};
ghost use Rattle.world_core.specs.Parts.{PartsComeOut, PartsGoOn, PartsMakeARun, RunsAreParts};
ghost use Rattle.world_core.specs.MorePins.{FreshSitesHaveNumbers, MomentsAreAll, NumbersAreCounted, SentFramesAreFound, StartsBegin};
ghost use Rattle.world_core.specs.PinLaws.{AnsweredEndsStand, AnsweredStepsAreWhole, BrokenStepsAreEither, EndsAreTold, NothingElseEnds, OthersAreAbsent, RunsMakeAWorldAgain, StartsTellTheEnd};
ghost use Rattle.world_core.specs.SendingLaws.{FramesWereEmittable};

/// The records of all sites in order, at which nothing happened yet, make a world; and only out of memory prevents
/// records that make one.
pub fn records_make_a_world()
    ensures fresh { FreshSitesMakeAWorld }
    ensures memory { OnlyMemoryHindersAWorld }
{}

/// After every run a site stands as its answered steps in order, with each that it went down in whole or absent.
pub fn sites_stand_as_their_kept_steps()
    ensures frames { FramesStay }
    ensures sites { SitesStandAsKept }
{}

/// Of the steps that a site was handed an answered one stands whole, one that it went down in whole or not at all, and
/// one that was refused or found no memory doesn't stand.
pub fn an_answered_step_is_whole()
    ensures answered { AnsweredStepsAreWhole }
    ensures broken { BrokenStepsAreEither }
    ensures others { OthersAreAbsent }
{}

/// Whatever happens, whatever its answer, the records of all sites, up or down, are consistent with all frames sent.
pub fn runs_keep_the_fit()
    ensures fresh { FreshSitesFit }
    ensures turn { TurnsKeepTheFit }
    ensures run { RunsKeepTheFit }
{}

/// Whenever the site that began a recall has recorded its end, what is quarantined under it, at all sites, is what
/// chains of made and shipped items lead to from its root: neither more nor less.
pub fn an_end_is_exact()
    ensures ascending { QuarantinesAscend }
    ensures exact { WorldEndsAreExact }
{}

/// A recall that has ended stays so, with the same pairs.
pub fn an_ended_recall_stays()
    ensures { EndedStays }
{}

/// After any list of events, answered from sites that are consistent, as those do at which nothing happened yet: each
/// site stands as its answered steps in order, with each step that it went down in whole or absent; and whenever the
/// site that began a recall has recorded its end, what is quarantined under it, at all sites, is what its root reaches,
/// and stays so.
pub fn the_headline()
    ensures runs { RunsComeOut }
    ensures start { RunsFromTheStartComeOut }
{}

/// Every frame that a run sent was emittable, at a moment of the run, by the record of a site that was up.
pub fn frames_were_emittable()
    ensures { FramesWereEmittable }
{}

/// After every run from sites at which nothing happened yet a recall has as many messages as there are shipments of
/// what is quarantined under it: each shipment is announced by one message, however often its frame was sent.
pub fn messages_are_counted()
    // Not covered: which message is of which shipment.
    ensures { MessagesAreCounted }
{}

/// The end that is reported is the one that the headline speaks of. It comes by a step that is answered by it, or by a
/// start whose answer says so, and by no other.
pub fn an_end_is_told()
    ensures told { EndsAreTold }
    ensures answered { AnsweredEndsStand }
    ensures started { StartsTellTheEnd }
    ensures others { NothingElseEnds }
{}

/// The records that a run leaves, of sites up or down, make a world again once no frame is in flight.
pub fn runs_make_a_world_again()
    ensures { RunsMakeAWorldAgain }
{}

/// Sites at which nothing happened yet are going, every run keeps them so, and of sites that are going no recall that
/// was begun is stuck: as long as numbers are left, sends and deliveries end it, once closed sites are opened.
pub fn a_recall_can_end()
    // Not covered: that a run does end one.
    ensures fresh { FreshSitesAreGoing }
    ensures run { RunsKeepGoing }
    ensures ends { EveryRecallCanEnd }
{}

/// After every run from sites at which nothing happened yet, no frame that was sent is refused as not for its site.
pub fn a_frame_finds_its_site()
    ensures { FramesFindTheirSite }
{}

/// What sites do in processes of their own is a run of the world, in whatever order it came, where each frame that came
/// to a site is for it and was given before; and what a run does at its sites are such acts.
pub fn parts_make_a_run()
    ensures run { PartsMakeARun }
    ensures out { PartsComeOut }
    ensures back { RunsAreParts }
    ensures on { PartsGoOn }
{}

/// Copies of all sites' records, each taken at whatever moment from the end of a recall on, hold under it just what its
/// root reaches through the events that they captured.
pub fn late_copies_are_exact()
    ensures { LateCopiesAreExact }
{}

/// Words that stand in premises, or form conclusions, alone.
pub fn words_are_pinned()
    ensures moments { MomentsAreAll }
    ensures places { SentFramesAreFound }
    ensures begun { StartsBegin }
    ensures numbers { NumbersAreCounted }
    ensures fresh { FreshSitesHaveNumbers }
{}
