//! Laws of reports, audits and traces, each named by a function with an empty body whose contract is the law.

ghost use Rattle.report_core.specs.Laws.{
  BackTracesGoOn,
  BackTracesHaveRoots,
  ContentsAreTraced,
  EndedRootsAreKnown,
  EndsAreEqual,
  EndsAreTraced,
  EndsHaveTrails,
  OneBackTrace,
  OneOutsideEvent,
  OneTrace,
  OneVerdict,
  OutsideIsShown,
  PairsHaveSources,
  RefusedAlike,
  TracesAreConverse,
  TracesGoOn,
  TrailsAreConverse,
};

/// Where the sites are consistent and the recall has ended, an audit returns Equal.
pub fn an_ended_recall_is_equal()
    ensures { EndsAreEqual }
{}

/// Where the sites are consistent and the recall has ended, a trail leads to each pair of its report.
pub fn an_ended_recall_has_trails()
    ensures { EndsHaveTrails }
{}

/// The records of all sites have one verdict on a recall.
pub fn records_have_one_verdict()
    ensures { OneVerdict }
{}

/// Where the sites are consistent and the recall has ended, a trace of its root has the pairs of its report, trails
/// that are as long, and the shipments of its report.
pub fn an_ended_recall_is_traced()
    ensures { EndsAreTraced }
{}

/// Where the sites are consistent and the recall has ended, a trace of its root isn't refused as of an unknown item.
pub fn the_root_of_an_ended_recall_is_known()
    ensures { EndedRootsAreKnown }
{}

/// The traces of an item at a site by the same records have the same pairs and the same shipments. Their trails are
/// equally long, and may differ where there are several shortest ones.
pub fn records_have_one_trace()
    ensures { OneTrace }
{}

/// What a trace of one of a trace's pairs finds, that trace has too: its pairs, and its shipments.
pub fn a_trace_goes_on()
    ensures { TracesGoOn }
{}

/// The pairs of a trace of an item with what lies in it are just those that the item or one of these reaches, each at
/// the site.
pub fn contents_are_traced()
    ensures { ContentsAreTraced }
{}

/// A trace finds the root of a trace back by the same records just where that finds its root.
pub fn traces_are_converse()
    ensures { TracesAreConverse }
{}

/// The trail of a trace to the root of a trace back is as long as that one's trail from the root of the trace, which
/// is a chain of related pairs between the two, too.
pub fn trails_are_converse()
    ensures { TrailsAreConverse }
{}

/// A trace back has its root.
pub fn a_trace_back_has_its_root()
    ensures { BackTracesHaveRoots }
{}

/// Each pair of a trace back that is no origin has a pair of the trace that is related to it. No pair is related to an
/// origin.
pub fn pairs_of_a_trace_back_have_sources()
    ensures { PairsHaveSources }
{}

/// The traces back of an item at a site by the same records have the same pairs and the same origins. Their trails are
/// equally long, and may differ where there are several shortest ones.
pub fn records_have_one_trace_back()
    ensures { OneBackTrace }
{}

/// What a trace back of one of a trace back's pairs finds, that trace back has too: its pairs, and its origins.
pub fn a_trace_back_goes_on()
    ensures { BackTracesGoOn }
{}

/// A trace is refused as of an unknown item just where a recall of the item at that site would be.
pub fn a_trace_is_refused_where_a_recall_is()
    ensures { RefusedAlike }
{}

/// Each shipment out of the traced sites has an event told beside it: one that its site captured, and which ships what
/// the item left with to the destination, the item itself where it ships that. No event before it ships anything there
/// that the item is carried with.
pub fn a_shipment_out_is_shown()
    ensures { OutsideIsShown }
{}

/// The same shipments out of the traced sites have the same events told beside them: the same numbers and eventIDs, and
/// what the items left with.
pub fn shipments_out_have_one_event()
    ensures { OneOutsideEvent }
{}
