//! Laws of what a site keeps, for proofs of the crates above. Each is a function with an empty body whose
//! contract is the law.

ghost use Rattle.site_core.specs.Naming.{FramesHaveNames};
ghost use Rattle.site_core.specs.Laws.{OneItemMoreIsHeld, MoreItemsAreHeld, MoreItemsLeaveNoEmptySet, StepsStaySound, WhatIsHeldIsAll};

/// What is held with more items under a recall is those items under that recall, and what was held
/// before.
pub fn more_items_are_held()
    ensures one { OneItemMoreIsHeld }
    ensures several { MoreItemsAreHeld }
    ensures no_empty { MoreItemsLeaveNoEmptySet }
{}

/// A quarantine is what is held: two that hold the same are equal.
pub fn a_quarantine_is_what_it_holds()
    ensures { WhatIsHeldIsAll }
{}

/// A step leaves a sound record sound.
pub fn steps_stay_sound()
    ensures { StepsStaySound }
{}

/// The frames that a site may send are those that have a name, and each has one.
pub fn frames_have_names()
    ensures { FramesHaveNames }
{}
