//! Kinds of cards.
ghost use Rattle.std.specs.Prelude.{◌≡◌};
ghost use Rattle.card_type.specs.Kinds.{kind_of};

use crate::card::Card;

/// What a mail is for. A mail that would be of several kinds is of the first of them.
#[derive(Clone, Copy, Debug, PartialEq, Eq)]
pub enum Kind {
    /// It says that a mail was read.
    Receipt,
    /// It takes mails back.
    Delete,
    /// It replaces the text of a mail.
    Edit,
    /// It brings updates to an app, and is none itself.
    Update,
    /// It says something of the mail that it answers, as a reaction to it (RFC 9078).
    Reaction,
    /// It is shown in a chat: any other mail.
    Content,
}

/// The kind of a card: the first that applies of Receipt (`receipt` is present), Delete (`deletes` is not
/// empty), Edit (`edit` is present), Update (`updates` is not empty and `app` is false), Reaction (`reaction`
/// is present) and Content. Takes no memory.
pub fn kind_of(card: &Card) -> Kind
    ensures { result ≡ kind_of card.now }
{
    if card.receipt.is_some() {
        Kind::Receipt
    } else if !card.deletes.is_empty() {
        Kind::Delete
    } else if card.edit.is_some() {
        Kind::Edit
    } else if !card.updates.is_empty() && !card.app {
        Kind::Update
    } else if card.reaction.is_some() {
        Kind::Reaction
    } else {
        Kind::Content
    }
}
