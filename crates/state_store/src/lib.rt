//! The kept state of a mailbox: two slots, and the tail of changes after the chosen one. It is opened, and changes are made
//! lasting, so that a crash at any moment leaves the state of before or the one after them.
#![tactic(auto)]

mod commit;
mod opening;
mod restoring;
mod store;

pub use store::{Opened, Store};
