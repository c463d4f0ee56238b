//! The mailbox as it is kept: its items and cards, and which cards are present.
#![tactic(auto)]

mod entry;
mod mailbox;
mod ready;
mod spots;
mod store;

pub use entry::Entry;
pub use mailbox::{Mailbox, PlanFault};
pub use mailbox_model::{Change, Fault, Held, Item, Turn};
pub use store::CardStore;
