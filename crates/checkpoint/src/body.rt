//! The body of a slot: all after its gate.
ghost use Rattle.std.specs.Prelude.{◌≡◌, ◌≤◌, ◌+◌, ◌++◌, length, OnOk};
ghost use Rattle.outside.specs.Causes.{HasCause};
ghost use Rattle.outside.specs.Places.{content, Changes, OthersStay};
ghost use Rattle.outside.specs.Crash.{Holds, RisesUpTo};
ghost use Rattle.outside.specs.Moments.{LeavesOnly, Reached, WhereKnown, KnownThen, IsSettled};
ghost use Rattle.checkpoint.specs.Slots.{body_spelled};
ghost use Rattle.checkpoint.specs.Parts.{SameGate};

use outside::{Failed, Place, Shelf};

/// Writes a number, a length and an image one after the other, from offset 1 on, and syncs.
fn write_three<H: Shelf>(
    shelf: &mut H,
    place: Place,
    number: &[u8],
    len: &[u8],
    image: &[u8],
) -> Result<(), Failed>
    requires gate { WhereKnown (H.seen shelf.old) (λ places. 1 ≤ length (content places place)) }
    requires number_len { length number.now ≡ 8 }
    requires len_len { length len.now ≡ 8 }
    ensures any_moment { LeavesOnly H.moment H.left_since shelf.old shelf.new
        (Reached (H.may_leave shelf.old) (Changes place SameGate)) }
    ensures holds { OnOk result (KnownThen (H.seen shelf.old) (H.seen shelf.new)
        (Changes place (Holds 1 (number.now ++ len.now ++ image.now)))) }
    ensures settled { OnOk result (WhereKnown (H.seen shelf.new) (λ places.
        IsSettled place places (H.may_leave shelf.new))) }
    ensures others { KnownThen (H.seen shelf.old) (H.seen shelf.new) (OthersStay place) }
    ensures written { RisesUpTo (length image.now + 16) (H.written shelf.old) (H.written shelf.new) }
    ensures cause { HasCause (H.faults shelf.old) (H.faults shelf.new) result }
{
    shelf.write_at(place, 1, number)?;
    shelf.write_at(place, 9, len)?;
    shelf.write_at(place, 17, image)?;
    shelf.sync(place)?;
    Ok(())
}

/// Writes the number, the length and the image after the gate, and syncs. Takes no memory.
pub fn write_body<H: Shelf>(
    shelf: &mut H,
    place: Place,
    number: u64,
    image: &[u8],
) -> Result<(), Failed>
    requires { WhereKnown (H.seen shelf.old) (λ places. 1 ≤ length (content places place)) }
    ensures any_moment { LeavesOnly H.moment H.left_since shelf.old shelf.new
        (Reached (H.may_leave shelf.old) (Changes place SameGate)) }
    ensures holds { OnOk result (KnownThen (H.seen shelf.old) (H.seen shelf.new)
        (Changes place (Holds 1 (body_spelled number image.now)))) }
    ensures settled { OnOk result (WhereKnown (H.seen shelf.new) (λ places.
        IsSettled place places (H.may_leave shelf.new))) }
    ensures others { KnownThen (H.seen shelf.old) (H.seen shelf.new) (OthersStay place) }
    ensures written { RisesUpTo (length image.now + 16) (H.written shelf.old) (H.written shelf.new) }
    ensures cause { HasCause (H.faults shelf.old) (H.faults shelf.new) result }
{
    let number = number.to_be_bytes();
    let len = (image.len() as u64).to_be_bytes();
    write_three(shelf, place, &number, &len, image)
}
