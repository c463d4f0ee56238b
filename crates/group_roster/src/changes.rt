//! How the setters of a chat follow a card that comes or goes, where the roster stays as it is.
ghost use Rattle.std.specs.Prelude.{◌≡◌, ◌<◌, ◌&&◌, ◌∷◌, ◌++◌, List, true, false, suc, length, nat_lt, IfOk, if◌then◌else◌};
ghost use Rattle.std.specs.List.{insert, remove};
ghost use Rattle.mailbox_model.specs.Lists.{Bytes};
ghost use Rattle.mailbox_model.specs.Rosters.{listed};
ghost use Rattle.mailbox_model.specs.declared.roster.Roster.{Roster};
ghost use Rattle.group_roster.specs.Setters.{At, AreInOrder, RestsOn, are_same_people, at, is_of_member, keeps_members, keeps_name, keeps_timer, leaves_members, listing_of, members_at, place_of, setters_put, setters_taken, stays_with, stays_with_in_group, stays_without, stays_without_in_group, with_said, without_said};

use crate::listings::{Listing, are_same_people, is_listed_at, is_of_member, members_at, place_of};
use crate::roster::changes_members;
use crate::said::listed;
use crate::setters::Setters;
use crate::stays::{
    is_after, is_kept, keeps_name, keeps_timer, stays_with_in_thread, stays_without_in_thread,
};
use card_type::{Card, ChatKey, Spot};
use kit::Memory;
use lists::Items;
use mailbox_model::Roster;
use std::alloc::Global;

/// Keeps whom a card says at its place among the listings, where the one before it says the same people, and one is
/// after it.
fn list_again(
    alloc: Global,
    listings: &mut Items<Listing>,
    place: usize,
    spot: &Spot,
    card: &Card,
) -> Result<bool, Memory>
    ensures says { IfOk result (λ stays. stays ≡ (nat_lt place (length listings.old) && are_same_people (members_at listings.old place) (listed card.now))) }
    ensures put { IfOk result (λ stays. stays ≡ true → listings.new ≡ insert listings.old place (listing_of (at spot.now card.now))) }
    ensures left { IfOk result (λ stays. stays ≡ false → listings.new ≡ listings.old) }
{
    if place >= listings.len() {
        return Ok(false);
    }
    let members = listed(alloc, card)?;
    if !are_same_people(members_at(listings.as_slice(), place), members.as_slice()) {
        return Ok(false);
    }
    let spot = spot.copy()?;
    listings.insert(place, Listing { spot, members })?;
    Ok(true)
}

/// Puts in a card of a member of a group at its place among the listings.
fn put_in_of_member(
    alloc: Global,
    setters: &mut Setters,
    place: usize,
    spot: &Spot,
    card: &Card,
) -> Result<bool, Memory>
    ensures says { IfOk result (λ stays. stays ≡ (keeps_members setters.old place card.now && keeps_name setters.old (at spot.now card.now) && keeps_timer setters.old (at spot.now card.now))) }
    ensures put { IfOk result (λ stays. stays ≡ true → setters.new ≡ with_said setters.old place (at spot.now card.now)) }
    ensures left { IfOk result (λ stays. stays ≡ false → setters.new ≡ setters.old) }
{
    if !keeps_name(setters, spot, card) || !keeps_timer(setters, spot, card) {
        return Ok(false);
    }
    if !changes_members(card) {
        return Ok(true);
    }
    list_again(alloc, &mut setters.listings, place, spot, card)
}

/// Puts in a card of a group: one of a stranger changes nothing.
fn put_in_group(
    alloc: Global,
    setters: &mut Setters,
    spot: &Spot,
    card: &Card,
) -> Result<bool, Memory>
    ensures says { IfOk result (λ stays. stays ≡ stays_with_in_group setters.old (at spot.now card.now)) }
    ensures put { IfOk result (λ stays. stays ≡ true → setters.new ≡ (if is_of_member setters.old (at spot.now card.now) then with_said setters.old (place_of setters.old.listings spot.now) (at spot.now card.now) else setters.old)) }
    ensures left { IfOk result (λ stays. stays ≡ false → setters.new ≡ setters.old) }
{
    if !is_after(spot, &setters.first) {
        return Ok(false);
    }
    let listings = setters.listings.as_slice();
    let place = place_of(listings, spot);
    if !is_of_member(listings, place, card) {
        return Ok(true);
    }
    put_in_of_member(alloc, setters, place, spot, card)
}

/// Puts in a card of any chat. That the roster stands then is said once, of all kinds of chats, by [`put_in`].
fn follow_in(
    alloc: Global,
    setters: &mut Setters,
    key: &ChatKey,
    roster: &Roster,
    spot: &Spot,
    card: &Card,
) -> Result<bool, Memory>
    ensures says { IfOk result (λ stays. stays ≡ stays_with key.now roster.now setters.old (at spot.now card.now)) }
    ensures put { IfOk result (λ stays. stays ≡ true → setters.new ≡ setters_put key.now setters.old (at spot.now card.now)) }
    ensures left { IfOk result (λ stays. stays ≡ false → setters.new ≡ setters.old) }
{
    match key {
        ChatKey::Group(_) => put_in_group(alloc, setters, spot, card),
        ChatKey::Thread(_) => Ok(stays_with_in_thread(roster, setters, spot, card)),
        ChatKey::SelfChat | ChatKey::Single(_) => {
            Ok(roster.begun && keeps_timer(setters, spot, card))
        }
    }
}

/// Puts a card in among those of a chat, where the roster stays as it is with it, and tells by the setters whether it does:
/// yes where the card sets nothing that no later card sets anew. It says no of each card before the first of a group or a
/// thread, of a member's that says other people to be the members of a group, and of one that mentions who joined a thread
/// later. Takes memory, and time in proportion to the number of members, people and listings; `Err` only when memory runs
/// out, and then the setters may only be dropped.
///
/// - `says`: so `stays_with` in `specs/Setters.antt` has it.
/// - `put`: after yes the setters are as `setters_put` there has them.
/// - `stands`: with these the roster stands for the cards with this one, in mail order.
/// - `left`: after no the setters are as before.
pub fn put_in(
    alloc: Global,
    setters: &mut Setters,
    key: &ChatKey,
    roster: &Roster,
    spot: &Spot,
    card: &Card,
) -> Result<bool, Memory>
    ensures says { IfOk result (λ stays. stays ≡ stays_with key.now roster.now setters.old (at spot.now card.now)) }
    ensures put { IfOk result (λ stays. stays ≡ true → setters.new ≡ setters_put key.now setters.old (at spot.now card.now)) }
    ensures stands { IfOk result (λ stays. stays ≡ true → (me : Bytes) (before after : List At) → AreInOrder (before ++ at spot.now card.now ∷ after)
        → RestsOn me key.now (before ++ after) roster.now setters.old
        → RestsOn me key.now (before ++ at spot.now card.now ∷ after) roster.now setters.new) }
    ensures left { IfOk result (λ stays. stays ≡ false → setters.new ≡ setters.old) }
{
    follow_in(alloc, setters, key, roster, spot, card)
}

/// Drops whom the card at a spot says from its place among the listings, where the one before it says the same people, and
/// one is after it.
fn unlist(listings: &mut Items<Listing>, place: usize) -> bool
    ensures says { result ≡ (nat_lt (suc place) (length listings.old) && are_same_people (members_at listings.old place) (members_at listings.old (suc place))) }
    ensures taken { result ≡ true → listings.new ≡ remove listings.old place }
    ensures left { result ≡ false → listings.new ≡ listings.old }
{
    let listed = listings.as_slice();
    if listed.len() < 2
        || place >= listed.len() - 1
        || !are_same_people(members_at(listed, place), members_at(listed, place + 1))
    {
        return false;
    }
    listings.remove(place);
    true
}

/// Takes the card at a spot out of a group.
fn take_out_of_group(setters: &mut Setters, spot: &Spot) -> bool
    ensures says { result ≡ stays_without_in_group setters.old spot.now }
    ensures taken { result ≡ true → setters.new ≡ without_said setters.old (place_of setters.old.listings spot.now) spot.now }
    ensures left { result ≡ false → setters.new ≡ setters.old }
{
    if !is_after(spot, &setters.first)
        || is_kept(spot, &setters.named)
        || is_kept(spot, &setters.timed)
    {
        return false;
    }
    let place = place_of(setters.listings.as_slice(), spot);
    if !is_listed_at(setters.listings.as_slice(), place, spot) {
        return true;
    }
    unlist(&mut setters.listings, place)
}

/// Takes the card at a spot out of any chat. That the roster stands then is said once, of all kinds of chats, by [`take_out`].
fn follow_out(setters: &mut Setters, key: &ChatKey, spot: &Spot) -> bool
    ensures says { result ≡ stays_without key.now setters.old spot.now }
    ensures taken { result ≡ true → setters.new ≡ setters_taken key.now setters.old spot.now }
    ensures left { result ≡ false → setters.new ≡ setters.old }
{
    match key {
        ChatKey::Group(_) => take_out_of_group(setters, spot),
        ChatKey::Thread(_) => stays_without_in_thread(setters, spot),
        ChatKey::SelfChat | ChatKey::Single(_) => !is_kept(spot, &setters.timed),
    }
}

/// Takes the card at a spot out of those of a chat that has others, where the roster stays as it is without it, and tells by
/// the setters whether it does: yes where the card set nothing that no later card sets anew. It says no of the first card of
/// a group or a thread, of one that sets the name or the timer, of one by which somebody joined a thread, and of one that
/// says the members of a group, unless they were in already and a later one says them too. Takes no memory, and time in
/// proportion to the number of members and listings.
///
/// - `says`: so `stays_without` in `specs/Setters.antt` has it.
/// - `taken`: after yes the setters are as `setters_taken` there has them.
/// - `stands`: with these the roster stands for the cards that are left.
/// - `left`: after no the setters are as before.
pub fn take_out(setters: &mut Setters, key: &ChatKey, spot: &Spot) -> bool
    ensures says { result ≡ stays_without key.now setters.old spot.now }
    ensures taken { result ≡ true → setters.new ≡ setters_taken key.now setters.old spot.now }
    ensures stands { result ≡ true → (me : Bytes) (roster : Roster) (before after : List At) (a : At) → a.spot ≡ spot.now → 0 < length (before ++ after)
        → AreInOrder (before ++ a ∷ after)
        → RestsOn me key.now (before ++ a ∷ after) roster setters.old
        → RestsOn me key.now (before ++ after) roster setters.new }
    ensures left { result ≡ false → setters.new ≡ setters.old }
{
    follow_out(setters, key, spot)
}
