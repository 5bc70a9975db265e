//! Laws of related pairs, of reach and of adding events, for proofs of the crates above. Each is a function with an
//! empty body whose contract is the law.

ghost use Rattle.trace_core.specs.Gaps.{ClosedReachesAll, ClosedSendsAll, KnownIsWhereItCame, HistoryIsKnown, CapturingIsClosing, WideStays, KnownIsLeast, KnownIsClosed, KnownStays, GapsOnlyClose, OneRoundCloses, KnownIsCapturedSomewhere, OwnIsNarrow, WideIsBetween, GapsAreMisses, WideReachIsTold, NoGapMissesNothing};
ghost use Rattle.trace_core.specs.Laws.{ReachHasItsRoot, ReachIsClosed, ReachIsLeast, ReachIsInClosedList, ChainFormsAgree, AddingAppends, AddingKeepsAll, FirstTakenIsTold, AddingKeepsFresh, StandingIsRight, StandingByMembers, PackNames, ShipRelates, PackRelates, PackedFollow, MakeRelates, JoinedMakesRelate, RelatedPairsComeFromEvents, OthersAddNothing, PairTestsAgree, RelatedStays, ReachGrows, AscendingListsAgree, RelatedPairsAreOfTheirSite, PairsAreInOrder};

/// A pair reaches itself.
pub fn reach_has_its_root()
    ensures { ReachHasItsRoot }
{}

/// What a reached pair is related to is reached.
pub fn reach_is_closed()
    ensures { ReachIsClosed }
{}

/// A set that has the root, and each pair that one of its pairs is related to, has all of reach.
pub fn reach_is_least()
    ensures { ReachIsLeast }
{}

/// A list that has the root, and each pair that one of its pairs is related to, has all of reach.
pub fn reach_is_in_closed_list()
    ensures { ReachIsInClosedList }
{}

/// A chain as a list of pairs, and a chain whose steps are counted, reach the same.
pub fn chain_forms_agree()
    ensures { ChainFormsAgree }
{}

/// Adding a document's events appends some of them.
pub fn adding_appends()
    ensures { AddingAppends }
{}

/// After adding a document's events the events are those that stood before and those given.
pub fn adding_keeps_all()
    ensures { AddingKeepsAll }
{}

/// A document is refused exactly where one of its events has an eventID that is taken, at the first such event.
pub fn first_taken_is_told()
    ensures { FirstTakenIsTold }
{}

/// What is kept of a document that isn't refused: its fresh events, in order. As many are reported as fresh, and all
/// others as known.
pub fn adding_keeps_fresh()
    ensures { AddingKeepsFresh }
{}

/// What the standings of an event say of its eventID and of equal events.
pub fn standing_is_right()
    ensures { StandingIsRight }
{}

/// How an event stands depends on which events there are, and not on their order or number.
pub fn standing_by_members()
    ensures { StandingByMembers }
{}

/// An aggregation names its parent and its children, and no other item.
pub fn pack_names()
    ensures { PackNames }
{}

/// A shipped item is related to itself at the other site.
pub fn ship_relates()
    ensures { ShipRelates }
{}

/// What was put into a shipped item is related to itself at the other site.
pub fn pack_relates()
    ensures { PackRelates }
{}

/// Where a parent is related to itself at another site, its children are: so is all that lies in a shipped item.
pub fn packed_follow()
    ensures { PackedFollow }
{}

/// An input of a transformation is related to each of its outputs.
pub fn make_relates()
    ensures { MakeRelates }
{}

/// An input of a transformation is related to the outputs of each one with the same id.
pub fn joined_makes_relate()
    ensures { JoinedMakesRelate }
{}

/// Whatever an item is related to comes from a shipment of it or of what it lies in, from a transformation that takes
/// it in, or from two transformations with one id, of which the first takes it in.
pub fn related_pairs_come_from_events()
    ensures { RelatedPairsComeFromEvents }
{}

/// What adds no pair: a note, a shipment to the own site or out of the traced sites, a transformation without an id
/// that lacks inputs or outputs, and an aggregation that observes or deletes, or has no children.
pub fn others_add_nothing()
    ensures { OthersAddNothing }
{}

/// The tests of pairs decide the relation.
pub fn pair_tests_agree()
    ensures { PairTestsAgree }
{}

/// What is related stays related once further events are captured.
pub fn related_stays()
    ensures { RelatedStays }
{}

/// What is reached stays reached once further events are captured.
pub fn reach_grows()
    ensures { ReachGrows }
{}

/// Strictly ascending lists with the same pairs are one list.
pub fn ascending_lists_agree()
    ensures { AscendingListsAgree }
{}

/// Where each number has one site, related pairs are those of the pair's site.
pub fn related_pairs_are_of_their_site()
    ensures { RelatedPairsAreOfTheirSite }
{}

/// Pairs are in order by their sites, and those of one site by the bytes of their items.
pub fn pairs_are_in_order()
    ensures { PairsAreInOrder }
{}

/// What a wider reach misses.
pub fn gaps_are_told()
    // An item that is widely reached, by the packings that came with the goods, is reached or missed on the way, and
    // what is missed lies in a gap; where no gap is touched, nothing is missed by packing, nor outside the traced
    // sites.
    // Not covered: containers that were packed at a site from which they never came; the contents of a container that
    // is recalled by its own label.
    ensures own { OwnIsNarrow }
    ensures between { WideIsBetween }
    ensures misses { GapsAreMisses }
    ensures told { WideReachIsTold }
    ensures nothing { NoGapMissesNothing }
{}

/// Capturing packings that are known closes gaps, and opens none.
pub fn gaps_are_closed()
    // To capture packings that are known closes gaps, opens none, and leaves what is known as it is; where each site
    // captured what closes its gaps, its reach is the wide one from each root. Whatever really lay in something,
    // captured in whatever order, is known.
    ensures source { KnownIsCapturedSomewhere }
    ensures stays { KnownStays }
    ensures fewer { GapsOnlyClose }
    ensures closed { OneRoundCloses }
    ensures wide { WideStays }
    ensures least { KnownIsLeast }
    ensures has { KnownIsClosed }
    ensures came { KnownIsWhereItCame }
    ensures history { HistoryIsKnown }
    ensures capturing { CapturingIsClosing }
    ensures all { ClosedReachesAll }
    ensures sends { ClosedSendsAll }
{}
