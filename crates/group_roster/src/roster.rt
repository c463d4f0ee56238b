//! The roster of a chat: who is in it, how it is called, and when its mails vanish.
ghost use Rattle.std.specs.Prelude.{◌≡◌, [], ◌∷◌, ◌++◌, if◌then◌else◌, List, IfOk, OnOk};
ghost use Rattle.card_type.specs.declared.card.Card.{Card};
ghost use Rattle.group_roster.specs.Standing.{StandsFor, roster_with};
ghost use Rattle.mailbox_model.specs.Rosters.{changes_members, changes_name, first_members, group_after, listed, no_roster, roster_after, roster_begun, thread_after, timer_after};

use crate::said::{listed, with_people};
use card_type::{Card, ChatKey};
use kit::{Addr, Memory, Text};
use lists::Items;
use mailbox_model::Roster;
use std::alloc::Global;

/// Who is in a chat before it has a card.
fn first_members(alloc: Global, key: &ChatKey, me: &Addr) -> Result<Items<Addr>, Memory>
    ensures { IfOk result (λ members. members ≡ first_members me.now key.now) }
{
    let mut members = Items::new(alloc);
    match key {
        ChatKey::SelfChat => members.push(me.copy()?)?,
        ChatKey::Single(other) => {
            members.push(me.copy()?)?;
            members.push(other.copy()?)?;
        }
        ChatKey::Group(_) | ChatKey::Thread(_) => {}
    }
    Ok(members)
}

/// The roster of a chat that has no card yet, where `me` is the own address. Takes memory; `Err` only when it runs out.
pub fn begin(alloc: Global, key: &ChatKey, me: &Addr) -> Result<Roster, Memory>
    ensures none { IfOk result (λ roster. roster ≡ no_roster me.now key.now) }
    ensures stands { IfOk result (StandsFor me.now key.now []) }
{
    Ok(Roster {
        begun: false,
        members: first_members(alloc, key, me)?,
        name: Text::from(String::new(alloc)),
        timer: 0,
    })
}

/// The timer of a chat after a card, in seconds: that of the card, where a chat program sent it.
fn timer_after(timer: u32, card: &Card) -> u32
    ensures { result ≡ timer_after timer card.now }
{
    if card.chat { card.timer } else { timer }
}

/// The roster of a chat whose first card this is.
fn begun_by(alloc: Global, key: &ChatKey, card: &Card, me: &Addr) -> Result<Roster, Memory>
    ensures { IfOk result (λ roster. roster ≡ roster_begun me.now key.now card.now) }
{
    let (members, name) = match key {
        ChatKey::Group(_) => (listed(alloc, card)?, card.group_name.copy()?),
        ChatKey::Thread(_) => (with_people(alloc, &[], card)?, card.subject.copy()?),
        ChatKey::SelfChat | ChatKey::Single(_) => {
            (
                first_members(alloc, key, me)?,
                Text::from(String::new(alloc)),
            )
        }
    };
    Ok(Roster {
        begun: true,
        members,
        name,
        timer: timer_after(0, card),
    })
}

/// Whether a card says the members of a group anew, where a member sent it.
pub(crate) fn changes_members(card: &Card) -> bool
    ensures { result ≡ changes_members card.now }
{
    card.added.is_some() || card.removed.is_some()
}

/// Whether a card says the name of a group anew, where a member sent it.
pub(crate) fn changes_name(card: &Card) -> bool
    ensures { result ≡ changes_name card.now }
{
    card.renamed && !card.group_name.bytes().is_empty()
}

/// The members of a group after a card of a member: those that the card lists, where it adds or removes one.
fn renew_members(alloc: Global, members: &mut Items<Addr>, card: &Card) -> Result<(), Memory>
    ensures { OnOk result (members.new ≡ (if changes_members card.now then listed card.now else members.old)) }
{
    if changes_members(card) {
        *members = listed(alloc, card)?;
    }
    Ok(())
}

/// The name of a group after a card of a member: that of the card, where it gives the group one.
fn renew_name(name: &mut Text, card: &Card) -> Result<(), Memory>
    ensures { OnOk result (name.new ≡ (if changes_name card.now then card.now.group_name else name.old)) }
{
    if changes_name(card) {
        *name = card.group_name.copy()?;
    }
    Ok(())
}

/// A further card of a group: one of a member may say the members, the name and the timer anew, and one of a stranger
/// says nothing.
fn add_to_group(alloc: Global, roster: &mut Roster, card: &Card) -> Result<(), Memory>
    ensures { OnOk result (roster.new ≡ group_after roster.old card.now) }
{
    if !roster.members.as_slice().contains(&card.from) {
        return Ok(());
    }
    renew_members(alloc, &mut roster.members, card)?;
    renew_name(&mut roster.name, card)?;
    roster.timer = timer_after(roster.timer, card);
    Ok(())
}

/// A further card of a thread: its people are members from then on.
fn add_to_thread(alloc: Global, roster: &mut Roster, card: &Card) -> Result<(), Memory>
    ensures { OnOk result (roster.new ≡ thread_after roster.old card.now) }
{
    roster.members = with_people(alloc, roster.members.as_slice(), card)?;
    roster.timer = timer_after(roster.timer, card);
    Ok(())
}

/// A further card of a chat.
fn add_further(alloc: Global, roster: &mut Roster, key: &ChatKey, card: &Card) -> Result<(), Memory>
    ensures { OnOk result (roster.new ≡ roster_after key.now roster.old card.now) }
{
    match key {
        ChatKey::Group(_) => add_to_group(alloc, roster, card),
        ChatKey::Thread(_) => add_to_thread(alloc, roster, card),
        ChatKey::SelfChat | ChatKey::Single(_) => {
            roster.timer = timer_after(roster.timer, card);
            Ok(())
        }
    }
}

/// Adds the next card of a chat in mail order, where the key and the own address are those with which the roster was
/// begun. Takes memory; `Err` only when it runs out, and then the roster may only be dropped.
///
/// - `step`: the first card begins the roster, and each further one changes it.
/// - `stands`: a roster that stands for cards stands for them and this one.
pub fn add(
    alloc: Global,
    roster: &mut Roster,
    key: &ChatKey,
    card: &Card,
    me: &Addr,
) -> Result<(), Memory>
    ensures step { OnOk result (roster.new ≡ roster_with me.now key.now roster.old card.now) }
    ensures stands { OnOk result ((cards : List Card) → StandsFor me.now key.now cards roster.old → StandsFor me.now key.now (cards ++ card.now ∷ []) roster.new) }
{
    if roster.begun {
        return add_further(alloc, roster, key, card);
    }
    *roster = begun_by(alloc, key, card, me)?;
    Ok(())
}
