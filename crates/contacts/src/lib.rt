//! Who wrote or was written to, and how they are called, as it is kept from change to change.
#![tactic(auto)]

mod contacts;
mod laws;
mod mentions;
mod names;

pub use contacts::Contacts;
pub use laws::contacts_follow_from_cards;
pub use mailbox_model::ContactRow;
