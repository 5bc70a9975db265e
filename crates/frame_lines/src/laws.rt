//! Laws of lines, which calls ensure.
ghost use Rattle.frame_lines.specs.Laws.{DigestsTellAll, LinesAreReadBack, LinesHaveOneAnswer, LinesOfOtherChains, OneLineOneFrame};

/// The line that is written of a frame carries this frame, with its LF and without it.
pub fn lines_are_read_back()
    ensures { LinesAreReadBack }
{}

/// No line carries two frames.
pub fn one_line_one_frame()
    ensures { OneLineOneFrame }
{}

/// A line that carries a frame has no fault, and no line has two.
pub fn lines_have_one_answer()
    ensures { LinesHaveOneAnswer }
{}

/// A line that carries a frame of one chain is of another chain for each other one, and carries none of its frames.
pub fn lines_of_other_chains()
    ensures { LinesOfOtherChains }
{}

/// The bytes whose digest a sum is tell the chain, the list of sites and the frame's object.
pub fn digests_tell_all()
    ensures { DigestsTellAll }
{}
