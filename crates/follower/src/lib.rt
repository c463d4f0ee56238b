//! The follower of a mailbox: it makes the changes that an mbox and a steps file give, one after the other, in a mailbox
//! that is kept.
#![tactic(auto)]

mod fault;
mod follower;
mod laws;
mod position;
mod turns;

pub use fault::{Input, RunFault};
pub use follower::{Follower, Turned};
pub use laws::changes_go_on;
pub use state_image::Position;
pub use turns::{commit_all, commit_if_full, follow_lines, follow_mails, make_last};
