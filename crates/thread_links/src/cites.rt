//! What a card cites.
ghost use Rattle.std.specs.Prelude.{◌≡◌, ◌++◌, reverse, IfOk, OnOk, IsTrue};
ghost use Rattle.card_type.specs.Kinds.{is_content, kind_of};
ghost use Rattle.lists.specs.Distinct.{each_once};
ghost use Rattle.mailbox_model.specs.Chats.{people, others, direct_chat, own_chat, candidates, root, cites_by};

use card_type::{Card, ChatKey, Spot};
use kit::{Addr, Id, Memory};
use lists::{Items, each_once};
use mailbox_model::Cites;
use std::alloc::Global;

/// Appends copies of addresses.
fn push_copies(people: &mut Vec<Addr>, addrs: &[Addr]) -> Result<(), Memory>
    ensures { OnOk result (people.new.items ≡ people.old.items ++ addrs.now) }
{
    for addr in addrs {
        people.push(addr.copy()?)?;
    }
    Ok(())
}

/// The addresses of From, To and Cc.
fn people(alloc: Global, card: &Card) -> Result<Vec<Addr>, Memory>
    ensures { IfOk result (λ found. found.items ≡ people card.now) }
{
    let mut people = Vec::new(alloc);
    people.push(card.from.copy()?)?;
    push_copies(&mut people, card.to.as_slice())?;
    push_copies(&mut people, card.cc.as_slice())?;
    Ok(people)
}

/// The people but for oneself, each once.
fn others(alloc: Global, card: &Card, me: &Addr) -> Result<Vec<Addr>, Memory>
    ensures { IfOk result (λ found. found.items ≡ others me.now card.now) }
{
    let mut others = Vec::new(alloc);
    for person in each_once(alloc, people(alloc, card)?)? {
        if *me != person {
            others.push(person)?;
        }
    }
    Ok(others)
}

/// The chat with oneself, or with the only other.
fn direct_chat(others: &[Addr]) -> Result<Option<ChatKey>, Memory>
    ensures { IfOk result (λ chat. chat ≡ direct_chat others.now) }
{
    match others {
        [] => Ok(Some(ChatKey::SelfChat)),
        [other] => Ok(Some(ChatKey::Single(other.copy()?))),
        _ => Ok(None),
    }
}

/// The chat that needs no parent.
fn own_chat(alloc: Global, card: &Card, me: &Addr) -> Result<Option<ChatKey>, Memory>
    ensures { IfOk result (λ chat. chat ≡ own_chat me.now card.now) }
{
    match &card.group {
        Some(group) => Ok(Some(ChatKey::Group(group.copy()?))),
        None => direct_chat(others(alloc, card, me)?.as_slice()),
    }
}

/// The ids of In-Reply-To, and then those of References from the last to the first.
fn candidates(card: &Card) -> Result<Items<Id>, Memory>
    ensures { IfOk result (λ found. found ≡ candidates card.now) }
{
    let mut candidates = card.replies.copy()?;
    for id in card.references.as_slice().iter().rev() {
        candidates.push(id.copy()?)?;
    }
    Ok(candidates)
}

/// The first of References, else the first of In-Reply-To, else the own id.
fn root(card: &Card) -> Result<Id, Memory>
    ensures { IfOk result (λ found. found ≡ root card.now) }
{
    match (card.references.as_slice(), card.replies.as_slice()) {
        ([first, ..], _) | ([], [first, ..]) => first.copy(),
        ([], []) => card.id.copy(),
    }
}

/// What the chat of a card of kind Content at a spot follows from, where `me` is the own address: its candidates, which
/// are the ids of In-Reply-To and then those of References from the last to the first, the chat that needs no parent, and
/// the id of the thread that would begin with it (RFC 5322, section 3.6.4). Takes memory; `Err` only when it runs out.
pub fn cites_of(alloc: Global, spot: &Spot, card: &Card, me: &Addr) -> Result<Cites, Memory>
    requires content { IsTrue (is_content (kind_of card.now)) }
    ensures { IfOk result (λ cites. cites ≡ cites_by me.now spot.now card.now) }
{
    Ok(Cites {
        spot: spot.copy()?,
        candidates: candidates(card)?,
        own: own_chat(alloc, card, me)?,
        root: root(card)?,
    })
}
