//! The arrival for which a mailbox has room.
use kit::Id;

/// The arrival for which a mailbox has room.
#[derive(Drop)]
pub(crate) enum Ready {
    /// None.
    Unready,
    /// One of a mail without a card.
    ForFault,
    /// One of a card with this id.
    ForCard(Id),
}
