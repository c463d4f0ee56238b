//! Laws of the lines of a steps file. Each is the contract of a function that does nothing, and speaks of any bytes.
ghost use Rattle.steps_file.specs.Growth.{LinesGrow, LinesGoOn};

/// A steps file grows by any bytes: its ended lines stay the first. A last line that no LF ended may go on.
#[tactic(auto, using(crate::proofs::GrownLines::lines_grow))]
pub fn lines_of_before_stay()
    ensures { LinesGrow }
{}

/// The end of a line is where to go on: from there on, the ended lines are those that come after it.
#[tactic(auto, using(crate::proofs::GrownLines::lines_go_on))]
pub fn others_follow_a_line()
    ensures { LinesGoOn }
{}
