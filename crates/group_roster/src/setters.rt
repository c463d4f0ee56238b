//! The cards on which the roster of a chat rests, by their spots.
ghost use Rattle.std.specs.Prelude.{◌≡◌, [], ◌∷◌, ◌++◌, List, Some, IfOk, OnOk, if◌then◌else◌, length, map, drop};
ghost use Rattle.card_type.specs.Effects.{is_among};
ghost use Rattle.group_roster.specs.Setters.{At, RestsOn, at, has_founder, is_group, is_thread, listing_of, no_setters, setters_after, setters_after_member, setters_begun, setters_with};
ghost use Rattle.group_roster.specs.Standing.{roster_with};

use crate::listings::Listing;
use crate::roster::{add, changes_members, changes_name};
use crate::said::listed;
use card_type::{Card, ChatKey, Spot};
use kit::{Addr, Memory};
use lists::Items;
use mailbox_model::Roster;
use std::alloc::Global;

/// The spots of the cards on which the roster of a chat rests. By these and one card alone it is told whether the roster
/// stays as it is where that card comes or goes.
#[derive(Debug, Drop)]
pub struct Setters {
    /// The first card of a group or a thread.
    pub first: Option<Spot>,
    /// The cards that say the members of a group, in mail order: the first one, and the later ones of members.
    pub listings: Items<Listing>,
    /// The last card after the first that says the name of a group anew.
    pub named: Option<Spot>,
    /// The last card that sets the timer.
    pub timed: Option<Spot>,
    /// For each member of a thread, in their order, the first card that mentions it.
    pub joined: Items<Spot>,
}

impl Setters {
    /// The setters of a chat that has no card yet. Takes no memory.
    pub fn new(alloc: Global) -> Self
        ensures { result ≡ no_setters }
    {
        Setters {
            first: None,
            listings: Items::new(alloc),
            named: None,
            timed: None,
            joined: Items::new(alloc),
        }
    }
}

/// Whether the chats of this key go by their first card.
fn has_founder(key: &ChatKey) -> bool
    ensures { result ≡ has_founder key.now }
{
    match key {
        ChatKey::Group(_) | ChatKey::Thread(_) => true,
        ChatKey::SelfChat | ChatKey::Single(_) => false,
    }
}

/// Whether the chats of this key are groups.
fn is_group(key: &ChatKey) -> bool
    ensures { result ≡ is_group key.now }
{
    match key {
        ChatKey::Group(_) => true,
        ChatKey::SelfChat | ChatKey::Single(_) | ChatKey::Thread(_) => false,
    }
}

/// Keeps the spot, where the card at it sets what is kept.
fn keep(kept: &mut Option<Spot>, sets: bool, spot: &Spot) -> Result<(), Memory>
    ensures { OnOk result (kept.new ≡ (if sets then Some spot.now else kept.old)) }
{
    if sets {
        *kept = Some(spot.copy()?);
    }
    Ok(())
}

/// Keeps whom the card at the spot says, where it says the members of a group.
fn list(
    alloc: Global,
    listings: &mut Items<Listing>,
    says: bool,
    spot: &Spot,
    card: &Card,
) -> Result<(), Memory>
    ensures { OnOk result (listings.new ≡ (if says then listings.old ++ listing_of (at spot.now card.now) ∷ [] else listings.old)) }
{
    if says {
        let spot = spot.copy()?;
        let members = listed(alloc, card)?;
        listings.push(Listing { spot, members })?;
    }
    Ok(())
}

/// The members from an index on.
fn members_from(members: &[Addr], index: usize) -> &[Addr]
    ensures { result.now ≡ drop index members.now }
{
    match members.get(index..) {
        Some(members) => members,
        None => &[],
    }
}

/// Each of the newcomers joined by the card at the spot.
fn join(joined: &mut Items<Spot>, newcomers: &[Addr], spot: &Spot) -> Result<(), Memory>
    ensures { OnOk result (joined.new ≡ joined.old ++ map (λ _. spot.now) newcomers.now) }
{
    for _newcomer in newcomers {
        joined.push(spot.copy()?)?;
    }
    Ok(())
}

/// The setters of a chat whose first card is at the spot, but for who joined by it.
fn first_setters(alloc: Global, key: &ChatKey, spot: &Spot, card: &Card) -> Result<Setters, Memory>
    ensures { IfOk result (λ setters. setters ≡ record (setters_begun key.now (at spot.now card.now)) { joined = [] }) }
{
    let mut setters = Setters::new(alloc);
    keep(&mut setters.first, has_founder(key), spot)?;
    list(alloc, &mut setters.listings, is_group(key), spot, card)?;
    keep(&mut setters.timed, card.chat, spot)?;
    Ok(setters)
}

/// Notes what a further card of a group's member sets.
fn note_of_member(
    alloc: Global,
    setters: &mut Setters,
    spot: &Spot,
    card: &Card,
) -> Result<(), Memory>
    ensures { OnOk result (setters.new ≡ setters_after_member setters.old (at spot.now card.now)) }
{
    list(
        alloc,
        &mut setters.listings,
        changes_members(card),
        spot,
        card,
    )?;
    keep(&mut setters.named, changes_name(card), spot)?;
    keep(&mut setters.timed, card.chat, spot)
}

/// Notes what a further card of a group sets: a member's what it says anew, and a stranger's nothing.
fn note_in_group(
    alloc: Global,
    setters: &mut Setters,
    members: &[Addr],
    spot: &Spot,
    card: &Card,
) -> Result<(), Memory>
    ensures { OnOk result (setters.new ≡ (if is_among members.now card.now.from then setters_after_member setters.old (at spot.now card.now) else setters.old)) }
{
    if members.contains(&card.from) {
        return note_of_member(alloc, setters, spot, card);
    }
    Ok(())
}

/// Notes what a further card sets, but for who joined by it; the roster is that before it.
fn note_further(
    alloc: Global,
    setters: &mut Setters,
    key: &ChatKey,
    roster: &Roster,
    spot: &Spot,
    card: &Card,
) -> Result<(), Memory>
    ensures { OnOk result (setters.new ≡ record (setters_after key.now roster.now setters.old (at spot.now card.now)) { joined = setters.old.joined }) }
{
    match key {
        ChatKey::Group(_) => {
            note_in_group(alloc, setters, roster.members.as_slice(), spot, card)
        }
        ChatKey::SelfChat | ChatKey::Single(_) | ChatKey::Thread(_) => {
            keep(&mut setters.timed, card.chat, spot)
        }
    }
}

/// Notes who joined a thread by the card at the spot.
fn join_thread(
    joined: &mut Items<Spot>,
    key: &ChatKey,
    newcomers: &[Addr],
    spot: &Spot,
) -> Result<(), Memory>
    ensures { OnOk result (joined.new ≡ joined.old ++ (if is_thread key.now then map (λ _. spot.now) newcomers.now else [])) }
{
    match key {
        ChatKey::Thread(_) => join(joined, newcomers, spot),
        ChatKey::SelfChat | ChatKey::Single(_) | ChatKey::Group(_) => Ok(()),
    }
}

/// Notes what the next card sets, but for who joined by it; the roster is that before it.
fn note(
    alloc: Global,
    setters: &mut Setters,
    key: &ChatKey,
    roster: &Roster,
    spot: &Spot,
    card: &Card,
) -> Result<(), Memory>
    ensures { OnOk result (setters.new ≡ record (setters_with key.now roster.now setters.old (at spot.now card.now))
        { joined = if roster.now.begun then setters.old.joined else [] }) }
{
    if roster.begun {
        return note_further(alloc, setters, key, roster, spot, card);
    }
    *setters = first_setters(alloc, key, spot, card)?;
    Ok(())
}

/// How many members of a chat are known before its next card: none before the first.
fn known_members(roster: &Roster) -> usize
    ensures { result ≡ (if roster.now.begun then length roster.now.members else 0) }
{
    if roster.begun {
        roster.members.len()
    } else {
        0
    }
}

/// Adds the next card of a chat in mail order, which is at the spot, to the roster and to its setters. The key and the
/// own address are those with which the roster was begun. Takes memory; `Err` only when it runs out, and then both may
/// only be dropped.
///
/// - `roster`: the roster is as after `add`.
/// - `setters`: so are the setters: the first card begins them, and each further one changes them.
/// - `stands`: where both stand for some cards, they stand for these and this one.
pub fn add_at(
    alloc: Global,
    roster: &mut Roster,
    setters: &mut Setters,
    key: &ChatKey,
    spot: &Spot,
    card: &Card,
    me: &Addr,
) -> Result<(), Memory>
    ensures roster { OnOk result (roster.new ≡ roster_with me.now key.now roster.old card.now) }
    ensures setters { OnOk result (setters.new ≡ setters_with key.now roster.old setters.old (at spot.now card.now)) }
    ensures stands { OnOk result ((cards : List At) → RestsOn me.now key.now cards roster.old setters.old
        → RestsOn me.now key.now (cards ++ at spot.now card.now ∷ []) roster.new setters.new) }
{
    let known = known_members(roster);
    note(alloc, setters, key, roster, spot, card)?;
    add(alloc, roster, key, card, me)?;
    let newcomers = members_from(roster.members.as_slice(), known);
    join_thread(&mut setters.joined, key, newcomers, spot)
}
