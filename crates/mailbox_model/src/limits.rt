//! The limits of a mailbox.

/// The most mails that a mailbox has.
pub const MAX_MAILS: u32 = 65_536;

/// The most bytes that all cards of a mailbox weigh together.
pub const MAX_TOTAL_WEIGHT: u64 = 268_435_456;
