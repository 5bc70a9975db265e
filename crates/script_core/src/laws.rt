//! Laws of a script's answers. Each is a function with an empty body whose contract is the law.

ghost use Rattle.script_core.specs.Laws.{LinesHaveAnAnswer, LinesHaveOneAnswer, ScriptsHaveAnswers, ScriptsHaveOneAnswer};
ghost use Rattle.script_core.specs.WorldRuns.{ScriptsRunAWorld};

/// After the lines before it, whatever they are, a line has an answer.
pub fn lines_have_an_answer()
    ensures { LinesHaveAnAnswer }
{}

/// It has no other answer.
pub fn lines_have_one_answer()
    ensures { LinesHaveOneAnswer }
{}

/// A script has a list of answers, one to each of its lines.
pub fn scripts_have_answers()
    ensures { ScriptsHaveAnswers }
{}

/// It has no other list of answers, so what [`run_script`](crate::run_script) writes at `Ok` is a
/// function of the whole script.
pub fn scripts_have_one_answer()
    ensures { ScriptsHaveOneAnswer }
{}

/// The world that a script leaves is that of a run of events, from sites at which nothing happened yet. So what is
/// proved of runs holds of scripts: each site stands as its answered steps in order, with each step that it stopped in
/// whole or absent, and whenever the site that began a recall has recorded its end, what is quarantined under it is
/// what its root reaches.
pub fn scripts_run_a_world()
    ensures { ScriptsRunAWorld }
{}
