//! What a mail is to a mailbox: its arrival, with its card or with the reason why it has none.
#![tactic(auto)]

mod arrival;

pub use arrival::{arrival_of, arrival_of_mail};
