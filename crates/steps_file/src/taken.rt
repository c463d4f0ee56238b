//! What a reader of a steps file answers.

use crate::step::Step;

/// What the next line is, or that there is none.
#[derive(Clone, Copy, Debug, PartialEq, Eq)]
pub enum Taken {
    /// The step that the next ended line is.
    Step(Step),
    /// The next ended line is no step.
    NoStep,
    /// No ended line is left. A last line that no LF ends is no line yet.
    End,
}
