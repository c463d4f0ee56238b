//! The present mails of a mailbox, each with its chat.
use crate::stop::Stop;
use box_state::Mailbox;
use card_type::{Card, ChatKey, Kind, Spot, kind_of};
use kit::{Addr, Id, Steps};
use mailbox_model::Item;
use std::alloc::Global;
use std::sync::ledger::Ledger;
use thread_links::cites_of;

/// A present mail, with its chat where it is of kind Content.
#[derive(Drop)]
pub struct Mail<'a> {
    pub(crate) spot: Spot,
    pub(crate) card: &'a Card,
    pub(crate) seen: Option<u64>,
    pub(crate) chat: Option<ChatKey>,
}

/// The spot of an item that has a card.
fn spot_of<L: Ledger>(
    mailbox: &Mailbox,
    item: &Item,
    steps: &mut Steps<L>,
) -> Result<Option<Spot>, Stop> {
    let Some(card) = mailbox.card(item.uid, steps) else {
        return Ok(None);
    };
    let date = match card.date {
        Some(date) => date.min(item.arrival),
        None => item.arrival,
    };
    Ok(Some(Spot {
        date,
        id: card.id.copy()?,
        uid: item.uid,
    }))
}

/// The spots of all cards, in mail order.
fn spots<L: Ledger>(
    alloc: Global,
    mailbox: &Mailbox,
    steps: &mut Steps<L>,
) -> Result<Vec<Spot>, Stop> {
    let mut spots = Vec::new(alloc);
    for item in mailbox.items() {
        if let Some(spot) = spot_of(mailbox, item, steps)? {
            spots.push(spot)?;
        }
    }
    spots.sort()?;
    Ok(spots)
}

/// The mail with an id.
pub(crate) fn find<'m, 'a>(mails: &'m [Mail<'a>], id: &Id) -> Option<&'m Mail<'a>> {
    for mail in mails {
        if mail.spot.id == *id {
            return Some(mail);
        }
    }
    None
}

/// The chat of the first of these mails that is an earlier one of kind Content.
fn chat_of_parent<'m>(earlier: &'m [Mail<'_>], candidates: &[Id]) -> Option<&'m ChatKey> {
    for id in candidates {
        if let Some(mail) = find(earlier, id) {
            if let Some(chat) = &mail.chat {
                return Some(chat);
            }
        }
    }
    None
}

/// The chat that a parent hands on, else that of the thread.
fn chat_by_parent(parent: Option<&ChatKey>, root: &Id) -> Result<ChatKey, Stop> {
    match parent {
        Some(ChatKey::Group(group)) => Ok(ChatKey::Group(group.copy()?)),
        Some(ChatKey::Thread(first)) => Ok(ChatKey::Thread(first.copy()?)),
        _ => Ok(ChatKey::Thread(root.copy()?)),
    }
}

/// The chat of a card, after the earlier ones.
fn chat_of(
    alloc: Global,
    earlier: &[Mail<'_>],
    spot: &Spot,
    card: &Card,
    me: &Addr,
) -> Result<Option<ChatKey>, Stop> {
    let Kind::Content = kind_of(card) else {
        return Ok(None);
    };
    let cites = cites_of(alloc, spot, card, me)?;
    if let Some(own) = &cites.own {
        return Ok(Some(own.copy()?));
    }
    let parent = chat_of_parent(earlier, cites.candidates.as_slice());
    Ok(Some(chat_by_parent(parent, &cites.root)?))
}

/// When the mail with a uid was seen.
fn seen_of(items: &[Item], uid: u32) -> Option<u64> {
    for item in items {
        if item.uid == uid {
            return item.seen;
        }
    }
    None
}

/// The mail at a spot, after the earlier ones.
fn mail_at<'a, L: Ledger>(
    alloc: Global,
    mailbox: &'a Mailbox,
    earlier: &[Mail<'a>],
    spot: Spot,
    steps: &mut Steps<L>,
) -> Result<Mail<'a>, Stop> {
    let card = mailbox.card(spot.uid, steps).ok_or(Stop::NoRule)?;
    let chat = chat_of(alloc, earlier, &spot, card, mailbox.me())?;
    let seen = seen_of(mailbox.items(), spot.uid);
    Ok(Mail {
        spot,
        card,
        seen,
        chat,
    })
}

/// The present mails, in mail order: of each id the first.
pub fn present_mails<'a, L: Ledger>(
    alloc: Global,
    mailbox: &'a Mailbox,
    steps: &mut Steps<L>,
) -> Result<Vec<Mail<'a>>, Stop> {
    let mut mails = Vec::new(alloc);
    for spot in spots(alloc, mailbox, steps)? {
        if find(mails.as_slice(), &spot.id).is_none() {
            let mail = mail_at(alloc, mailbox, mails.as_slice(), spot, steps)?;
            mails.push(mail)?;
        }
    }
    Ok(mails)
}
