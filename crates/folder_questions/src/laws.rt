//! Laws of what a folder is asked, each named by a function with an empty body whose contract is the law.

ghost use Rattle.folder_questions.specs.Laws.{AuditedRecallsCanEnd, LateAuditsAreEqual, UnnotedTracesMissNothing};

/// Where an audit found the records consistent and noted no site that is stuck, each recall that was begun can end by
/// sends and deliveries alone, once closed sites are opened.
pub fn audited_recalls_can_end()
    // Not covered: that the files' records are sound is of their opening (`KeepsSite`).
    ensures { AuditedRecallsCanEnd }
{}

/// An audit of copies of all sites' records, each taken at whatever moment from the end of a recall on, finds the
/// recall equal.
pub fn late_audits_are_equal()
    ensures { LateAuditsAreEqual }
{}

/// Where a trace of where an item went has no note of missed items, what the item reaches by all that is known of
/// packings is in the trace, and what of it is known to have left the traced sites is reported.
pub fn unnoted_traces_miss_nothing()
    ensures { UnnotedTracesMissNothing }
{}
