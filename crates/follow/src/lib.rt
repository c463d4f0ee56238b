//! The run of the program: it follows a mailbox by its files, and prints what is asked of it.
#![tactic(auto)]

mod following;
mod laws;
mod status;
mod top;
mod words;

pub use follower::{Input, RunFault};
pub use laws::{following_the_rest, kept_changes_stay, running_after_a_crash};
pub use status::{Refusal, Status};
pub use top::run;
