//! The cards that say the members of a group.
ghost use Rattle.std.specs.Prelude.{◌≡◌, false, slice_get};
ghost use Rattle.std.specs.List.{list_all};
ghost use Rattle.std.specs.Option.{option_map_or};
ghost use Rattle.card_type.specs.Effects.{is_among};
ghost use Rattle.card_type.specs.Spots.{spot_eq};
ghost use Rattle.group_roster.specs.Setters.{are_same_people, members_at, place_of};

use card_type::{Card, Spot};
use kit::Addr;
use lists::Items;

/// A card that says the members of a group, and whom it says.
#[derive(Debug, Drop)]
pub struct Listing {
    /// The spot of the card.
    pub spot: Spot,
    /// The members of the group after it, in their order.
    pub members: Items<Addr>,
}

/// How many of the listings are before a spot.
pub(crate) fn place_of(listings: &[Listing], spot: &Spot) -> usize
    ensures { result ≡ place_of listings.now spot.now }
{
    let mut place = 0;
    for listing in listings {
        if listing.spot.cmp(spot).is_lt() {
            place += 1;
        }
    }
    place
}

/// Whom the last of so many listings says, and none where there are none.
pub(crate) fn members_at(listings: &[Listing], place: usize) -> &[Addr]
    ensures { result.now ≡ members_at listings.now place }
{
    if place == 0 {
        return &[];
    }
    match listings.get(place - 1) {
        Some(listing) => listing.members.as_slice(),
        None => &[],
    }
}

/// Whether a card is of one whom the last of so many listings says.
pub(crate) fn is_of_member(listings: &[Listing], place: usize, card: &Card) -> bool
    ensures { result ≡ is_among (members_at listings.now place) card.now.from }
{
    members_at(listings, place).contains(&card.from)
}

/// Whether the listing at a place is of the card at the spot.
pub(crate) fn is_listed_at(listings: &[Listing], place: usize, spot: &Spot) -> bool
    ensures { result ≡ option_map_or (λ l. spot_eq spot.now l.spot) (slice_get listings.now place) false }
{
    match listings.get(place) {
        Some(listing) => *spot == listing.spot,
        None => false,
    }
}

/// Whether all the addresses are among those that are known.
pub(crate) fn are_among(known: &[Addr], addrs: &[Addr]) -> bool
    ensures { result ≡ list_all (is_among known.now) addrs.now }
{
    addrs.iter().all(|addr| known.contains(addr))
}

/// Whether the same people are in both lists, in any order.
pub(crate) fn are_same_people(some: &[Addr], others: &[Addr]) -> bool
    ensures { result ≡ are_same_people some.now others.now }
{
    are_among(some, others) && are_among(others, some)
}
