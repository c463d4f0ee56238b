//! Mails that are written anew from their cards.
ghost use Rattle.std.specs.Prelude.{◌≤◌, IfOk};
ghost use Rattle.kit.specs.Moments.{last_moment};

use crate::card::{add_card_of, add_fault};
use crate::shown::add_word;
use card_type::Card;
use chat_card::read_card;
use compose::{Act, Draft, DraftFault, compose};
use kit::{Id, LAST_MOMENT, Memory};
use std::alloc::Global;

/// What the mail of a card does. No card tells the old name of a group, so the new one stands for it.
fn act_of(card: &Card) -> Result<Act, Memory> {
    if let Some(who) = &card.added {
        return Ok(Act::Add(who.copy()?));
    }
    if let Some(who) = &card.removed {
        return Ok(Act::Remove(who.copy()?));
    }
    if card.renamed {
        return Ok(Act::Rename(card.group_name.copy()?));
    }
    if let Some(mail) = &card.edit {
        return Ok(Act::Edit(mail.copy()?));
    }
    if !card.deletes.is_empty() {
        return Ok(Act::Delete(card.deletes.copy()?));
    }
    if let Some(mail) = &card.receipt {
        return Ok(Act::Receipt(mail.copy()?));
    }
    if card.reaction.is_some() {
        return Ok(Act::React);
    }
    Ok(Act::Say)
}

fn reply_of(card: &Card) -> Result<Option<Id>, Memory> {
    match card.replies.as_slice().first() {
        Some(mail) => Ok(Some(mail.copy()?)),
        None => Ok(None),
    }
}

/// The draft of which the mail of a card may have come.
fn draft_of(card: Card) -> Result<Draft, Memory>
    ensures { IfOk result (λ draft. draft.date ≤ last_moment) }
{
    let act = act_of(&card)?;
    let reply = reply_of(&card)?;
    Ok(Draft {
        id: card.id,
        from: card.from,
        from_name: card.from_name,
        to: card.to,
        date: card.date.unwrap_or(0).min(LAST_MOMENT),
        subject: card.subject,
        reply,
        references: card.references,
        group: card.group,
        group_name: card.group_name,
        timer: card.timer,
        ask: false,
        text: card.reaction.unwrap_or(card.text),
        act,
    })
}

/// Adds the mail of a draft and the card of that mail, or why it is not written.
fn add_draft(said: &mut Vec<u8>, alloc: Global, draft: &Draft) -> Result<(), Memory>
    requires { draft.now.date ≤ last_moment }
{
    match compose(alloc, draft) {
        Ok(mail) => {
            said.extend_from_slice(mail.as_slice())?;
            add_card_of(said, alloc, 4, mail.as_slice())
        }
        Err(why) => add_refusal(said, why),
    }
}

fn add_refusal(said: &mut Vec<u8>, why: DraftFault) -> Result<(), Memory> {
    match why {
        DraftFault::NoTo => add_word(said, "not written: no recipient"),
        DraftFault::NoGroup => add_word(said, "not written: no group"),
        DraftFault::NoTarget => add_word(said, "not written: no target"),
        DraftFault::BadAddr => add_word(said, "not written: bracket in an address"),
        DraftFault::BadText => add_word(said, "not written: bad text"),
        DraftFault::CardTooLong => add_word(said, "not written: card too long"),
        DraftFault::Memory => Err(Memory),
    }
}

/// Adds the mail that is written from the card of a mail, and the card of that one.
pub fn add_written(said: &mut Vec<u8>, alloc: Global, mail: &[u8]) -> Result<(), Memory> {
    match read_card(alloc, 4, mail) {
        Ok(card) => add_draft(said, alloc, &draft_of(card)?),
        Err(fault) => add_fault(said, fault),
    }
}
