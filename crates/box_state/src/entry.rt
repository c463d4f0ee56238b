//! A mail that is put back into a mailbox.
ghost use Rattle.std.specs.Prelude.{◌≡◌, Some, true};
ghost use Rattle.mailbox_model.specs.Mailbox.{entry_of};
ghost use Rattle.box_state.specs.Kept.{entry_in, is_beside};

use card_type::Card;
use mailbox_model::{Fault, Held, Item};

/// A mail of a mailbox that is made again, with all that is kept of it.
#[derive(Drop)]
pub struct Entry {
    /// Its number in the mailbox.
    pub uid: u32,
    /// When it arrived, in seconds since 1970-01-01 00:00:00 UTC.
    pub arrival: u64,
    /// When it was first marked as seen, in such seconds; `None` where it was not.
    pub seen: Option<u64>,
    /// Its card, or the reason why it has none.
    pub read: Result<Card, Fault>,
}

/// The mail of an item, with its card where it holds one.
pub(crate) fn entry_of(item: Item, card: Option<Card>) -> Entry
    requires { is_beside item.held card ≡ true }
    ensures { Some (entry_in result) ≡ entry_of item card }
{
    let Item {
        uid,
        arrival,
        seen,
        held,
    } = item;
    let read = match (held, card) {
        (Held::Card, Some(card)) => Ok(card),
        (Held::Fault(fault), _) => Err(fault),
        (Held::Card, None) => unreachable!(),
    };
    Entry {
        uid,
        arrival,
        seen,
        read,
    }
}
