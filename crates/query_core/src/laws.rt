//! Laws of what is told, each named by a function with an empty body whose contract is the law.

ghost use Rattle.query_core.specs.Laws.{
  DetailsAreListed,
  EndsWaitForNothing,
  OneDetail,
  OneListOfRecalls,
  ParentsWait,
  ShorterTextsTellMore,
  SitesAddUp,
  ToldItemsAreHeld,
  WholeKeysAreTold,
};
ghost use Rattle.query_core.specs.Stuck.{StuckAreTold};

/// Where the sites are consistent, a recall that has ended waits for nothing, and no site is engaged for it.
pub fn an_ended_recall_waits_for_nothing()
    ensures { EndsWaitForNothing }
{}

/// Where the sites are consistent, the message by which a site is engaged is one that waits, and that the site has
/// seen.
pub fn a_parent_waits()
    ensures { ParentsWait }
{}

/// Where the sites are consistent, what a message announced is quarantined where the message was seen.
pub fn a_told_item_is_held()
    ensures { ToldItemsAreHeld }
{}

/// The records of all sites have one list of recalls.
pub fn records_have_one_list_of_recalls()
    ensures { OneListOfRecalls }
{}

/// The records of all sites have one answer on a recall.
pub fn records_have_one_detail()
    ensures { OneDetail }
{}

/// How a recall stands by itself is how it stands in the list of all recalls.
pub fn a_detail_is_listed()
    ensures { DetailsAreListed }
{}

/// The counts of a recall are the sums of its sites' counts, and as many messages are listed as wait.
pub fn sites_add_up()
    ensures { SitesAddUp }
{}

/// An item that is asked for by its whole key is listed exactly where the site knows it.
pub fn a_whole_key_is_told()
    ensures { WholeKeysAreTold }
{}

/// What is listed for a text is listed for each part of it.
pub fn a_shorter_text_tells_more()
    ensures { ShorterTextsTellMore }
{}

/// A site is reported as stuck in a recall exactly where it takes part in it and has no message of it that waits.
pub fn stuck_sites_are_told()
    ensures { StuckAreTold }
{}
