//! The tail between checkpoints: groups of changes in place T of a shelf, read from a count on, appended and cleared, so
//! that a crash at any moment leaves the groups of before or those after.
#![tactic(auto)]

mod append;
mod body;
mod frames;
mod group;
mod laws;
mod opening;
mod pending;
mod reading;
mod tail;

pub use group::{GROUP_HEAD, Group, write_group};
pub use laws::{a_spelled_group_is_read, an_old_group_is_read, no_group_is_applied_twice};
pub use pending::Pending;
pub use tail::Tail;
