//! The members, the name and the timer of a chat, card by card.
#![tactic(auto)]

mod changes;
mod listings;
mod roster;
mod said;
mod setters;
mod stays;

pub use changes::{put_in, take_out};
pub use listings::Listing;
pub use mailbox_model::Roster;
pub use roster::{add, begin};
pub use setters::{Setters, add_at};
