//! When mails expire: the deadlines of a mailbox, of which the least is taken out once it is due.
#![tactic(auto)]

mod timers;

pub use timers::Timers;
