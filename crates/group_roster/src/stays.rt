//! Whether a card that comes or goes sets nothing of a roster that no other card sets.
ghost use Rattle.std.specs.Prelude.{◌≡◌, ◌++◌, take, count_by};
ghost use Rattle.std.specs.List.{list_all, list_any};
ghost use Rattle.std.specs.Ordering.{is_lt};
ghost use Rattle.card_type.specs.Effects.{is_among};
ghost use Rattle.card_type.specs.Spots.{spot_cmp, spot_eq};
ghost use Rattle.mailbox_model.specs.Chats.{people};
ghost use Rattle.group_roster.specs.Setters.{at, is_before, is_after, is_kept, joined_before, keeps_name, keeps_timer, stays_with_in_thread, stays_without_in_thread};

use crate::listings::are_among;
use crate::roster::changes_name;
use crate::setters::Setters;
use card_type::{Card, Spot};
use kit::Addr;
use mailbox_model::Roster;

/// Whether the spot is before the one that is kept.
pub(crate) fn is_before(spot: &Spot, kept: &Option<Spot>) -> bool
    ensures { result ≡ is_before spot.now kept.now }
{
    match kept {
        Some(other) => spot.cmp(other).is_lt(),
        None => false,
    }
}

/// Whether the spot is after the one that is kept.
pub(crate) fn is_after(spot: &Spot, kept: &Option<Spot>) -> bool
    ensures { result ≡ is_after spot.now kept.now }
{
    match kept {
        Some(other) => other.cmp(spot).is_lt(),
        None => false,
    }
}

/// Whether the spot is the one that is kept.
pub(crate) fn is_kept(spot: &Spot, kept: &Option<Spot>) -> bool
    ensures { result ≡ is_kept spot.now kept.now }
{
    match kept {
        Some(other) => spot == other,
        None => false,
    }
}

/// Whether a card that is put in sets no timer, or a later card does.
pub(crate) fn keeps_timer(setters: &Setters, spot: &Spot, card: &Card) -> bool
    ensures { result ≡ keeps_timer setters.now (at spot.now card.now) }
{
    !card.chat || is_before(spot, &setters.timed)
}

/// Whether a card that is put in says no name of a group, or a later card does.
pub(crate) fn keeps_name(setters: &Setters, spot: &Spot, card: &Card) -> bool
    ensures { result ≡ keeps_name setters.now (at spot.now card.now) }
{
    !changes_name(card) || is_before(spot, &setters.named)
}

/// How many of the spots are before this one.
fn count_before(spots: &[Spot], spot: &Spot) -> usize
    ensures { result ≡ count_by (λ other. is_lt (spot_cmp other spot.now)) spots.now }
{
    let mut count = 0;
    for other in spots {
        if other.cmp(spot).is_lt() {
            count += 1;
        }
    }
    count
}

/// The first members, up to so many.
fn members_up_to(members: &[Addr], count: usize) -> &[Addr]
    ensures { result.now ≡ take count members.now }
{
    match members.get(..count) {
        Some(first) => first,
        None => members,
    }
}

/// Who joined a thread before a spot.
fn joined_before<'a>(roster: &'a Roster, setters: &Setters, spot: &Spot) -> &'a [Addr]
    ensures { result.now ≡ joined_before roster.now setters.now spot.now }
{
    let count = count_before(setters.joined.as_slice(), spot);
    members_up_to(roster.members.as_slice(), count)
}

/// Whether all to whom a card went are among those that are known.
fn recipients_are_among(known: &[Addr], card: &Card) -> bool
    ensures { result ≡ list_all (is_among known.now) (card.now.to ++ card.now.cc) }
{
    are_among(known, card.to.as_slice()) && are_among(known, card.cc.as_slice())
}

/// Whether all people of a card are among those that are known.
fn people_are_among(known: &[Addr], card: &Card) -> bool
    ensures { result ≡ list_all (is_among known.now) (people card.now) }
{
    known.contains(&card.from) && recipients_are_among(known, card)
}

/// Whether a card that is put among those of a thread leaves the roster as it is.
pub(crate) fn stays_with_in_thread(
    roster: &Roster,
    setters: &Setters,
    spot: &Spot,
    card: &Card,
) -> bool
    ensures { result ≡ stays_with_in_thread roster.now setters.now (at spot.now card.now) }
{
    is_after(spot, &setters.first)
        && people_are_among(joined_before(roster, setters, spot), card)
        && keeps_timer(setters, spot, card)
}

/// Whether a member of a thread joined by the card at the spot.
fn has_joiner(setters: &Setters, spot: &Spot) -> bool
    ensures { result ≡ list_any (spot_eq spot.now) setters.now.joined }
{
    setters.joined.as_slice().contains(spot)
}

/// Whether a card that is taken out of a thread leaves the roster as it is.
pub(crate) fn stays_without_in_thread(setters: &Setters, spot: &Spot) -> bool
    ensures { result ≡ stays_without_in_thread setters.now spot.now }
{
    is_after(spot, &setters.first) && !has_joiner(setters, spot) && !is_kept(spot, &setters.timed)
}
