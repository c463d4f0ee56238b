//! How cards are tied to chats.
use card_type::{ChatKey, Spot};
use kit::Id;
use lists::Items;

/// What the chat of a card of kind Content follows from, beside the chats of others.
#[derive(Debug, Drop)]
pub struct Cites {
    /// The position of the card in mail order.
    pub spot: Spot,
    /// The ids of which the first that an earlier card has is that of its parent: those of In-Reply-To, and then those
    /// of References from the last to the first (RFC 5322, section 3.6.4).
    pub candidates: Items<Id>,
    /// Its chat where that needs no parent.
    pub own: Option<ChatKey>,
    /// The id of the thread that it is in where neither it nor a parent gives a chat.
    pub root: Id,
}

/// A card whose chat is another one than before.
#[derive(Debug, PartialEq, Eq, Drop)]
pub struct Moved {
    /// The id of the card.
    pub id: Id,
    /// Its chat before, `None` where the card was not there.
    pub before: Option<ChatKey>,
    /// Its chat after, `None` where the card is gone.
    pub after: Option<ChatKey>,
}
