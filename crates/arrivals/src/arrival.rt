//! From the bytes of a mail to the change that it makes.
ghost use Rattle.std.specs.Prelude.{◌≡◌, IfOk, IfSome};
ghost use Rattle.chat_card.specs.Cards.{card_of};
ghost use Rattle.mailbox_model.specs.Mailbox.{IsValidChange};
ghost use Rattle.arrivals.specs.Arrivals.{arrival_taken, arrival_with};

use chat_card::{CardFault, read_card};
use kit::Memory;
use mailbox_model::{Change, Fault};
use mboxrd::Taken;
use std::alloc::Global;

/// The arrival of a mail that gets this uid: with its card, or with the reason why it has none. Takes memory; `Err` only
/// when it runs out.
pub fn arrival_of_mail(alloc: Global, uid: u32, mail: &[u8]) -> Result<Change, Memory>
    ensures change { IfOk result (λ change. change ≡ arrival_with (card_of uid mail.now)) }
    ensures valid { IfOk result IsValidChange }
{
    match read_card(alloc, uid, mail) {
        Ok(card) => Ok(Change::Arrive(card)),
        Err(CardFault::NoFields) => Ok(Change::ArriveFault(Fault::NoFields)),
        Err(CardFault::NoFrom) => Ok(Change::ArriveFault(Fault::NoFrom)),
        Err(CardFault::CardTooLong) => Ok(Change::ArriveFault(Fault::CardTooLong)),
        Err(CardFault::Memory) => Err(Memory),
    }
}

/// The arrival of what was taken of an mbox, if that was a mail, which gets this uid. Takes memory; `Err` only when it
/// runs out.
pub fn arrival_of(alloc: Global, uid: u32, taken: Taken) -> Result<Option<Change>, Memory>
    ensures change { IfOk result (λ change. change ≡ arrival_taken uid taken) }
    ensures valid { IfOk result (λ change. IfSome change IsValidChange) }
{
    match taken {
        Taken::Mail(mail) => Ok(Some(arrival_of_mail(alloc, uid, &mail)?)),
        Taken::TooLong => Ok(Some(Change::ArriveFault(Fault::TooLong))),
        Taken::End => Ok(None),
    }
}
