//! The steps file: the changes of a mailbox in the order in which they are to be made, one a line, read from a source
//! that gives its bytes in chunks of any size. A reader holds one chunk at most.
#![tactic(auto)]

mod laws;
mod line_start;
mod passing;
mod reader;
mod step;
mod taken;

pub use laws::{lines_of_before_stay, others_follow_a_line};
pub use reader::StepsReader;
pub use step::Step;
pub use taken::Taken;
