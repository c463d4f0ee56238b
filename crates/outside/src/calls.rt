//! A call of a shelf and the sync after it.
ghost use Rattle.std.specs.Prelude.{◌≡◌, ◌≤◌, length, take, OnOk};
ghost use Rattle.outside.specs.Causes.{HasCause};
ghost use Rattle.outside.specs.Places.{content, Changes, OthersStay};
ghost use Rattle.outside.specs.Crash.{Holds, Torn, PartlyCut, RisesUpTo};
ghost use Rattle.outside.specs.Moments.{LeavesOnly, Reached, WhereKnown, KnownThen, IsSettled};

use crate::{Failed, Place, Shelf};

/// Writes the bytes into the place from offset `at` on, which is at most its size, and syncs it. Takes no memory.
///
/// A crash at any moment leaves what it might have left before, with the write torn.
pub fn write_and_sync<H: Shelf>(
    shelf: &mut H,
    place: Place,
    at: u64,
    bytes: &[u8],
) -> Result<(), Failed>
    requires { WhereKnown (H.seen shelf.old) (λ places. at ≤ length (content places place)) }
    ensures any_moment { LeavesOnly H.moment H.left_since shelf.old shelf.new
        (Reached (H.may_leave shelf.old) (Changes place (Torn at (length bytes.now)))) }
    ensures holds { OnOk result (KnownThen (H.seen shelf.old) (H.seen shelf.new) (Changes place (Holds at bytes.now))) }
    ensures settled { OnOk result (WhereKnown (H.seen shelf.new) (λ places.
        IsSettled place places (H.may_leave shelf.new))) }
    ensures others { KnownThen (H.seen shelf.old) (H.seen shelf.new) (OthersStay place) }
    ensures written { RisesUpTo (length bytes.now) (H.written shelf.old) (H.written shelf.new) }
    ensures cause { HasCause (H.faults shelf.old) (H.faults shelf.new) result }
{
    shelf.write_at(place, at, bytes)?;
    shelf.sync(place)?;
    Ok(())
}

/// Cuts the place to `size` bytes, which is at most its size, and syncs it. Takes no memory.
///
/// A crash at any moment leaves what it might have left before, cut to some size between.
pub fn cut_and_sync<H: Shelf>(shelf: &mut H, place: Place, size: u64) -> Result<(), Failed>
    requires { WhereKnown (H.seen shelf.old) (λ places. size ≤ length (content places place)) }
    ensures any_moment { LeavesOnly H.moment H.left_since shelf.old shelf.new
        (Reached (H.may_leave shelf.old) (Changes place (PartlyCut size))) }
    ensures cut { OnOk result (KnownThen (H.seen shelf.old) (H.seen shelf.new)
        (Changes place (λ old new. new ≡ take size old))) }
    ensures settled { OnOk result (WhereKnown (H.seen shelf.new) (λ places.
        IsSettled place places (H.may_leave shelf.new))) }
    ensures others { KnownThen (H.seen shelf.old) (H.seen shelf.new) (OthersStay place) }
    ensures written { H.written shelf.new ≡ H.written shelf.old }
    ensures cause { HasCause (H.faults shelf.old) (H.faults shelf.new) result }
{
    shelf.cut(place, size)?;
    shelf.sync(place)?;
    Ok(())
}
