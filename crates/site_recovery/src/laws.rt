//! Laws of sites that are consistent, each named by a function with an empty body whose contract is the law.

ghost use Rattle.site_recovery.specs.FittingAt.{FitIsByConditions, QuietEndsFollow};
ghost use Rattle.site_recovery.specs.Laws.{EmptySitesFit, EndsAreExact, FewerFramesFit, SendsKeepTheFit, StepsKeepTheFit};

/// Once a recall has ended, the items that are quarantined under it are just those that chains of made
/// and shipped items lead to from its root, at each site.
pub fn an_end_is_exact()
    ensures { EndsAreExact }
{}

/// A step of one site, of whatever input, leaves all consistent, where each frame that it is given
/// was sent; and each recall that had ended stays ended, with the same items.
pub fn a_step_keeps_the_fit()
    ensures { StepsKeepTheFit }
{}

/// Each frame that a site may send fits. What was sent may be lost, repeated or late.
pub fn a_sent_frame_keeps_the_fit()
    ensures sent { SendsKeepTheFit }
    ensures forgotten { FewerFramesFit }
{}

/// Sites that keep nothing yet are consistent.
pub fn empty_sites_fit_together()
    ensures { EmptySitesFit }
{}

/// The records of all sites are consistent exactly where each condition holds at each site. The ninth follows
/// from the fourth and the sixth.
pub fn conditions_make_the_fit()
    ensures all { FitIsByConditions }
    ensures ninth { QuietEndsFollow }
{}
