//! How a change moves the cards that are present.
use card_type::Spot;

/// What one change does to the list of the present cards, their seen moments and the clock.
#[derive(Debug, PartialEq, Eq, Drop)]
pub enum Turn {
    /// Nothing of these.
    Nothing,
    /// A card comes in, at this spot.
    Add(Spot),
    /// The card at this spot leaves.
    Remove(Spot),
    /// The card at the first spot leaves, and another one with its id comes in at the second.
    Replace(Spot, Spot),
    /// The present card with this uid is seen from now on.
    Marked(u32),
    /// The clock comes to this moment, in seconds since 1970-01-01 00:00:00 UTC.
    Moved(u64),
}
