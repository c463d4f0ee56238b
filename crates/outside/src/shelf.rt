//! Files that are kept.
ghost use Rattle.std.specs.Prelude.{◌≡◌, ◌≤◌, ◌-◌, min, ℕ, length, take, drop, IfSome, IfOk, OnOk, None};
ghost use Rattle.std.specs.declared.option.Option.{Option};
ghost use Rattle.std.specs.Io.{ReadsAtMost};
ghost use Rattle.outside.specs.declared.shelf.Place.{Place};
ghost use Rattle.outside.specs.Causes.{HasCause};
ghost use Rattle.outside.specs.Places.{Places, content, place_name, Changes, OthersStay};
ghost use Rattle.outside.specs.Crash.{Holds, Torn, PartlyCut, IfKnown, Follows, WasOutcome, SameOutcomes, OnlyAt, Elapses, RisesUpTo};

use crate::Failed;
use std::fmt;

/// One of the three files of a shelf.
#[derive(Clone, Copy, Debug, PartialEq, Eq, Hash)]
pub enum Place {
    /// The first slot.
    A,
    /// The second slot.
    B,
    /// The tail.
    T,
}

impl fmt::Display for Place {
    ghost use Rattle.std.specs.Prelude.{Some};

    ghost output = { λ place. Some (place_name place) };

    fn fmt<W: fmt::Write>(&self, f: &mut fmt::Formatter<W>) -> fmt::Result {
        f.write_str(match self {
            Place::A => "a",
            Place::B => "b",
            Place::T => "tail",
        })
    }
}

/// Three files that outlive a run. No call takes memory, and each answers `Failed` only at a fault of
/// the shelf.
///
/// What a crash may leave is the disk model, which docs/devices.md tells. Between two syncs of a place each range that
/// was written may hold any bytes, the size may be any that the place had, and all other bytes stay. After a sync a
/// crash leaves of the place what a read gives.
//
// The members with a default say nothing, so that a shelf of which nothing is known gives them not. The conditions of
// the calls must be here, since a further one would break each caller.
pub trait Shelf {
    /// The contents of the three places, where they are known: what reads of them give.
    ghost seen: { Self → Option Places } = { λ _. None };

    /// What a crash at this moment may leave, as far as it is known: the *crash outcomes*.
    ghost may_leave: { Self → Places → Type 0 } = { λ _ _. ⊥ };

    /// The clock of the shelf, one for its three places. It does not fall.
    ghost moment: { Self → ℕ } = { λ _. 0 };

    /// What a crash at some moment since this one may have left.
    ghost left_since: { Self → ℕ → Places → Type 0 } = { λ _ _ _. ⊥ };

    /// How often the shelf failed. Code that is generic over shelves can't raise it.
    ghost faults: { Self → ℕ };

    /// How many bytes were written.
    ghost written: { Self → ℕ } = { λ _. 0 };

    /// The number of bytes in the place.
    fn size(&mut self, place: Place) -> Result<u64, Failed>
        ensures size { IfOk result (λ n. IfSome (seen self.old) (λ places. n ≡ length (content places place))) }
        ensures reads { IfKnown (seen self.old) (seen self.new) (λ old new. new ≡ old) }
        ensures crash { SameOutcomes (may_leave self.old) (may_leave self.new) }
        ensures clock { Elapses (moment self.old) (moment self.new) (left_since self.old) (left_since self.new)
            (may_leave self.new) }
        ensures written { written self.new ≡ written self.old }
        ensures cause { HasCause (faults self.old) (faults self.new) result };

    /// Reads the bytes of the place from offset `at` on to the beginning of `buf`, and returns how many: as
    /// many as there are, up to the length of `buf`, and 0 past the size.
    fn read(&mut self, place: Place, at: u64, buf: &mut [u8]) -> Result<usize, Failed>
        ensures bound { ReadsAtMost result buf.new }
        ensures count { IfOk result (λ n. IfSome (seen self.old) (λ places.
            n ≡ min (length buf.old) (length (content places place) - at))) }
        ensures bytes { IfOk result (λ n. IfSome (seen self.old) (λ places.
            take n buf.new ≡ take n (drop at (content places place)))) }
        ensures reads { IfKnown (seen self.old) (seen self.new) (λ old new. new ≡ old) }
        ensures crash { SameOutcomes (may_leave self.old) (may_leave self.new) }
        ensures clock { Elapses (moment self.old) (moment self.new) (left_since self.old) (left_since self.new)
            (may_leave self.new) }
        ensures written { written self.new ≡ written self.old }
        ensures cause { HasCause (faults self.old) (faults self.new) result };

    /// Writes the bytes into the place from offset `at` on, which is at most its size.
    ///
    /// A refused write may leave the place as a crash in it may.
    fn write_at(&mut self, place: Place, at: u64, bytes: &[u8]) -> Result<(), Failed>
        requires { IfSome (seen self.old) (λ places. at ≤ length (content places place)) }
        ensures holds { OnOk result (IfKnown (seen self.old) (seen self.new) (Changes place (Holds at bytes.now))) }
        ensures others { IfKnown (seen self.old) (seen self.new) (OthersStay place) }
        ensures crash { Follows (Changes place (Torn at (length bytes.now))) (may_leave self.old) (may_leave self.new) }
        ensures clock { Elapses (moment self.old) (moment self.new) (left_since self.old) (left_since self.new)
            (may_leave self.new) }
        ensures written { RisesUpTo (length bytes.now) (written self.old) (written self.new) }
        ensures cause { HasCause (faults self.old) (faults self.new) result };

    /// Cuts the place to `size` bytes, which is at most its size.
    ///
    /// A refused cut may leave the place as a crash in it may.
    fn cut(&mut self, place: Place, size: u64) -> Result<(), Failed>
        requires { IfSome (seen self.old) (λ places. size ≤ length (content places place)) }
        ensures cut { OnOk result (IfKnown (seen self.old) (seen self.new)
            (Changes place (λ old new. new ≡ take size old))) }
        ensures others { IfKnown (seen self.old) (seen self.new) (OthersStay place) }
        ensures crash { Follows (Changes place (PartlyCut size)) (may_leave self.old) (may_leave self.new) }
        ensures clock { Elapses (moment self.old) (moment self.new) (left_since self.old) (left_since self.new)
            (may_leave self.new) }
        ensures written { written self.new ≡ written self.old }
        ensures cause { HasCause (faults self.old) (faults self.new) result };

    /// Makes the content of the place outlast a crash.
    ///
    /// A refused sync changes no read, and no crash may leave what none might have left before.
    fn sync(&mut self, place: Place) -> Result<(), Failed>
        ensures durable { OnOk result (IfSome (seen self.old) (λ places.
            OnlyAt place (content places place) (may_leave self.new))) }
        ensures reads { IfKnown (seen self.old) (seen self.new) (λ old new. new ≡ old) }
        ensures crash { WasOutcome (may_leave self.old) (may_leave self.new) }
        ensures clock { Elapses (moment self.old) (moment self.new) (left_since self.old) (left_since self.new)
            (may_leave self.new) }
        ensures written { written self.new ≡ written self.old }
        ensures cause { HasCause (faults self.old) (faults self.new) result };

    /// What the reads give is a crash outcome.
    ghost is_outcome: { (shelf : Self) → IfSome (seen shelf) (may_leave shelf) };

    /// This moment is one of those since an earlier one.
    ghost counts_now: { (shelf : Self) (t : ℕ) (c : Places) → t ≤ moment shelf → may_leave shelf c
        → left_since shelf t c };

    /// Since this moment there is no other.
    ghost only_now: { (shelf : Self) (c : Places) → left_since shelf (moment shelf) c → may_leave shelf c };
}
