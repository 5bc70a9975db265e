//! Laws of a copy, of the notes of a run and of those of inputs, each named by a function with an empty body whose
//! contract is the law.

ghost use Rattle.folder_commands.specs.CopyLaws.{HoldsTheSame};
ghost use Rattle.folder_commands.specs.NoteLaws.{EachStopIsTold, OnlyStoppedAreNamed};
ghost use Rattle.folder_commands.specs.PlaceLaws.{FewAreNamed};

use keeper_core::SiteKeeper;

/// A copy holds, site by site, the records that the folder's files showed together, where each of its files shows the
/// record that it was made in.
pub fn a_copy_holds_the_same<K: SiteKeeper>()
    ensures { HoldsTheSame K.shown K.stored }
{}

/// A site is named only where it stopped.
pub fn only_sites_that_stopped_are_named()
    ensures { OnlyStoppedAreNamed }
{}

/// Those that are named stopped as often as all sites together.
pub fn each_stop_is_told()
    ensures { EachStopIsTold }
{}

/// However many inputs are taken, each destination is named once, and at most five are.
pub fn few_places_are_named()
    ensures { FewAreNamed }
{}
