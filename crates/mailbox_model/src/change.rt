//! What changes a mailbox.
use card_type::Card;

/// Why a mail has no card.
#[derive(Clone, Copy, Debug, PartialEq, Eq)]
pub enum Fault {
    /// It has no field (RFC 5322, section 2.2).
    NoFields,
    /// Its first From field has no address that can be read (RFC 5322, section 3.6.2).
    NoFrom,
    /// The weight of its card would pass 1,048,576.
    CardTooLong,
    /// It has more than 67,108,864 bytes.
    TooLong,
}

/// One change of a mailbox.
#[derive(Debug, PartialEq, Eq, Drop)]
pub enum Change {
    /// A mail arrives that has this card.
    Arrive(Card),
    /// A mail arrives that has no card.
    ArriveFault(Fault),
    /// The item with this uid is removed, where there is one.
    Expunge(u32),
    /// The item with this uid is marked as seen, where there is one that is not.
    Seen(u32),
    /// The clock comes to this moment, in seconds since 1970-01-01 00:00:00 UTC. It never goes back.
    At(u64),
}
