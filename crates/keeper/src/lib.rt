//! A mailbox that is kept: an engine whose changes wait in their written form until a commit makes them lasting.
#![tactic(auto)]

mod fault;
mod keeper;
mod opening;

pub use fault::KeepFault;
pub use keeper::Keeper;
