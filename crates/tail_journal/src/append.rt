//! A group at the end of T.
ghost use Rattle.std.specs.Prelude.{◌≡◌, ◌≤◌, ◌<◌, ◌+◌, ◌++◌, ◌^◌, ◌∷◌, length, OnOk};
ghost use Rattle.outside.specs.Causes.{HasCause};
ghost use Rattle.outside.specs.declared.shelf.Place.TheVariants.{T};
ghost use Rattle.outside.specs.Places.{Changes, OthersStay};
ghost use Rattle.outside.specs.Crash.{RisesUpTo};
ghost use Rattle.outside.specs.Moments.{LeavesOnly, Reached, WhereKnown, KnownThen, IsSettled};
ghost use Rattle.tail_journal.specs.Tails.{MayGrow};

use outside::{Failed, Place, Shelf, write_and_sync};

/// Writes a closed gate, then the rest of a group after it, and then opens the gate. A crash leaves the bytes of before, and
/// after them the group, or what holds none.
pub fn append_at<H: Shelf>(shelf: &mut H, end: u64, rest: &[u8]) -> Result<(), Failed>
    requires small { end < 2 ^ 63 }
    requires settled { WhereKnown (H.seen shelf.old) (λ places.
        IsSettled T places (H.may_leave shelf.old) × (length places.t ≡ end)) }
    ensures any_moment { WhereKnown (H.seen shelf.old) (λ _. LeavesOnly H.moment H.left_since shelf.old shelf.new
        (Reached (H.may_leave shelf.old) (Changes T (MayGrow (1 ∷ rest.now))))) }
    ensures grown { OnOk result (KnownThen (H.seen shelf.old) (H.seen shelf.new)
        (Changes T (λ old new. new ≡ old ++ 1 ∷ rest.now))) }
    ensures settled { OnOk result (WhereKnown (H.seen shelf.new) (λ places.
        IsSettled T places (H.may_leave shelf.new))) }
    ensures others { KnownThen (H.seen shelf.old) (H.seen shelf.new) (OthersStay T) }
    ensures written { RisesUpTo (length rest.now + 2) (H.written shelf.old) (H.written shelf.new) }
    ensures cause { HasCause (H.faults shelf.old) (H.faults shelf.new) result }
{
    write_and_sync(shelf, Place::T, end, &[0])?;
    write_and_sync(shelf, Place::T, end + 1, rest)?;
    write_and_sync(shelf, Place::T, end, &[1])?;
    Ok(())
}
