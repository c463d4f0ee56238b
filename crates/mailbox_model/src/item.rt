//! The items of a mailbox.
use crate::change::Fault;

/// What an item holds of its mail.
#[derive(Clone, Copy, Debug, PartialEq, Eq)]
pub enum Held {
    /// A card, which is kept elsewhere.
    Card,
    /// No card, for this reason.
    Fault(Fault),
}

/// One mail of a mailbox.
#[derive(Clone, Copy, Debug, PartialEq, Eq)]
pub struct Item {
    /// Its number in the mailbox, from 1 on. No two items ever have one number.
    pub uid: u32,
    /// When it arrived, in seconds since 1970-01-01 00:00:00 UTC.
    pub arrival: u64,
    /// When it was first marked as seen, in such seconds; `None` where it was not.
    pub seen: Option<u64>,
    /// What is held of it.
    pub held: Held,
}
