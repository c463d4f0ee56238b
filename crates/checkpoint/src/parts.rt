//! The three parts of a save, which goes to the place that is not chosen.
ghost use Rattle.std.specs.Prelude.{◌≡◌, ◌+◌, true, false, length, OnOk};
ghost use Rattle.outside.specs.Causes.{HasCause};
ghost use Rattle.outside.specs.Places.{content, OthersStay};
ghost use Rattle.outside.specs.Crash.{RisesUpTo};
ghost use Rattle.outside.specs.Moments.{LeavesOnly, Reached, WhereKnown, KnownThen};
ghost use Rattle.checkpoint.specs.Slots.{chosen_of, is_closed};
ghost use Rattle.checkpoint.specs.Saves.{IsAbove, SameOrNew};
ghost use Rattle.checkpoint.specs.Parts.{IsTarget, IsReady, SameChosen, StaysChosen, IsChosen};

use crate::body::write_body;
use outside::{Failed, Place, Shelf, write_and_sync};

/// Closes the gate, and syncs. A crash leaves the chosen slot.
pub fn close_gate<H: Shelf>(shelf: &mut H, place: Place) -> Result<(), Failed>
    requires { WhereKnown (H.seen shelf.old) (λ places. IsTarget place (H.may_leave shelf.old) places
        × (is_closed (content places place) ≡ false)) }
    ensures any_moment { WhereKnown (H.seen shelf.old) (λ _. LeavesOnly H.moment H.left_since shelf.old shelf.new
        (Reached (H.may_leave shelf.old) SameChosen)) }
    ensures done { OnOk result (KnownThen (H.seen shelf.old) (H.seen shelf.new) (λ old new.
        StaysChosen place (H.may_leave shelf.new) old new × (is_closed (content new place) ≡ true))) }
    ensures others { KnownThen (H.seen shelf.old) (H.seen shelf.new) (OthersStay place) }
    ensures written { RisesUpTo 1 (H.written shelf.old) (H.written shelf.new) }
    ensures cause { HasCause (H.faults shelf.old) (H.faults shelf.new) result }
{
    write_and_sync(shelf, place, 0, &[0])
}

/// Writes number, length and image after the closed gate, and syncs. A crash leaves the chosen slot.
pub fn fill<H: Shelf>(shelf: &mut H, place: Place, number: u64, image: &[u8]) -> Result<(), Failed>
    requires { WhereKnown (H.seen shelf.old) (λ places. IsTarget place (H.may_leave shelf.old) places
        × (is_closed (content places place) ≡ true)) }
    ensures any_moment { WhereKnown (H.seen shelf.old) (λ _. LeavesOnly H.moment H.left_since shelf.old shelf.new
        (Reached (H.may_leave shelf.old) SameChosen)) }
    ensures done { OnOk result (KnownThen (H.seen shelf.old) (H.seen shelf.new) (λ old new.
        StaysChosen place (H.may_leave shelf.new) old new
        × IsReady (record { number = number; image = image.now }) (content new place))) }
    ensures others { KnownThen (H.seen shelf.old) (H.seen shelf.new) (OthersStay place) }
    ensures written { RisesUpTo (length image.now + 16) (H.written shelf.old) (H.written shelf.new) }
    ensures cause { HasCause (H.faults shelf.old) (H.faults shelf.new) result }
{
    write_body(shelf, place, number, image)
}

/// Opens the gate before a slot with a greater number, and syncs. A crash leaves the chosen slot or this one.
pub fn open_gate<H: Shelf>(
    shelf: &mut H,
    place: Place,
    number: u64,
    image: &[u8],
) -> Result<(), Failed>
    requires { WhereKnown (H.seen shelf.old) (λ places. IsTarget place (H.may_leave shelf.old) places
        × IsReady (record { number = number; image = image.now }) (content places place)
        × IsAbove number (chosen_of places)) }
    ensures any_moment { WhereKnown (H.seen shelf.old) (λ _. LeavesOnly H.moment H.left_since shelf.old shelf.new
        (Reached (H.may_leave shelf.old) (SameOrNew (record { number = number; image = image.now })))) }
    ensures done { OnOk result (KnownThen (H.seen shelf.old) (H.seen shelf.new) (λ old new.
        IsChosen place (record { number = number; image = image.now }) (H.may_leave shelf.new) old new)) }
    ensures others { KnownThen (H.seen shelf.old) (H.seen shelf.new) (OthersStay place) }
    ensures written { RisesUpTo 1 (H.written shelf.old) (H.written shelf.new) }
    ensures cause { HasCause (H.faults shelf.old) (H.faults shelf.new) result }
{
    write_and_sync(shelf, place, 0, &[1])
}
