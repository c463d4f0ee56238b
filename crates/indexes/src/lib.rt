//! What is kept of a mailbox beside its cards: how it is built, how the mailbox is seen ahead of a change, and the answers
//! to the four questions that it gives.
#![tactic(auto)]

mod build;
mod cards;
mod indexes;
mod pages;
mod present;
mod rows;
mod view;

pub use build::set_deadline;
pub use indexes::Indexes;
pub use rows::{Showing, shown_at};
pub use view::View;
