//! How what is kept of a mailbox beside its cards follows a change, before the change is made.
#![tactic(auto)]

mod due;
mod moves;
mod names;
mod order;
mod place;
mod refold;
mod reindex;
mod settle;
mod touched;
mod turned;
mod whole;

pub use whole::repair;
