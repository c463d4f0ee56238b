//! Two slots, of which one is the chosen one.
ghost use Rattle.std.specs.Prelude.{◌≡◌, ◌+◌, true, length, OnOk};
ghost use Rattle.outside.specs.Causes.{HasCause};
ghost use Rattle.outside.specs.Places.{content, OthersStay};
ghost use Rattle.outside.specs.Crash.{RisesUpTo};
ghost use Rattle.outside.specs.Moments.{LeavesOnly, Reached, WhereKnown, KnownThen};
ghost use Rattle.outside.specs.declared.shelf.Place.TheVariants.{A, B};
ghost use Rattle.checkpoint.specs.Slots.{chosen_of, is_closed, other_place, next_place};
ghost use Rattle.checkpoint.specs.Saves.{IsAbove, SameOrNew};
ghost use Rattle.checkpoint.specs.Parts.{IsTarget, SameChosen, StaysChosen, IsChosen};

use crate::front::{Front, Stated, chosen_of};
use crate::opening::{look_at_slots, read_chosen};
use crate::parts::{close_gate, fill, open_gate};
use box_state::Mailbox;
use outside::{DiskFault, Failed, Place, Shelf, StateFault};
use state_image::Position;
use std::alloc::Global;

/// Two slots in the places A and B of a shelf, as far as a save needs to know them. The chosen one is the open one with the
/// greater number, and the next one is saved to the other place.
#[derive(Clone, Copy, Debug, PartialEq, Eq)]
pub struct Slots {
    /// Where the next slot goes.
    next: Place,
    /// There is a gate there, and it is closed.
    closed: bool,
    /// The same of the other place.
    other_closed: bool,
}

/// What is found in the slots.
#[derive(Drop)]
pub struct Opened {
    /// The slots, which can be saved to.
    pub slots: Slots,
    /// What the chosen slot keeps. `None` exactly where no slot is open.
    pub kept: Option<(Mailbox, Position)>,
}

/// Closes the gate where it is not closed. One that is closed is not written again: a torn write could open it before a torn
/// body.
fn make_closed<H: Shelf>(shelf: &mut H, place: Place, closed: bool) -> Result<(), Failed>
    requires { WhereKnown (H.seen shelf.old) (λ places. IsTarget place (H.may_leave shelf.old) places
        × (is_closed (content places place) ≡ closed)) }
    ensures any_moment { WhereKnown (H.seen shelf.old) (λ _. LeavesOnly H.moment H.left_since shelf.old shelf.new
        (Reached (H.may_leave shelf.old) SameChosen)) }
    ensures done { OnOk result (KnownThen (H.seen shelf.old) (H.seen shelf.new) (λ old new.
        StaysChosen place (H.may_leave shelf.new) old new × (is_closed (content new place) ≡ true))) }
    ensures others { KnownThen (H.seen shelf.old) (H.seen shelf.new) (OthersStay place) }
    ensures written { RisesUpTo 1 (H.written shelf.old) (H.written shelf.new) }
    ensures cause { HasCause (H.faults shelf.old) (H.faults shelf.new) result }
{
    if closed {
        return Ok(());
    }
    close_gate(shelf, place)
}

/// Saves a slot with a greater number to the place that is not chosen.
fn save_at<H: Shelf>(
    shelf: &mut H,
    place: Place,
    closed: bool,
    number: u64,
    image: &[u8],
) -> Result<(), Failed>
    requires { WhereKnown (H.seen shelf.old) (λ places. IsTarget place (H.may_leave shelf.old) places
        × (is_closed (content places place) ≡ closed) × IsAbove number (chosen_of places)) }
    ensures any_moment { WhereKnown (H.seen shelf.old) (λ _. LeavesOnly H.moment H.left_since shelf.old shelf.new
        (Reached (H.may_leave shelf.old) (SameOrNew (record { number = number; image = image.now })))) }
    ensures done { OnOk result (KnownThen (H.seen shelf.old) (H.seen shelf.new) (λ old new.
        IsChosen place (record { number = number; image = image.now }) (H.may_leave shelf.new) old new)) }
    ensures others { KnownThen (H.seen shelf.old) (H.seen shelf.new) (OthersStay place) }
    ensures written { RisesUpTo (length image.now + 18) (H.written shelf.old) (H.written shelf.new) }
    ensures cause { HasCause (H.faults shelf.old) (H.faults shelf.new) result }
{
    make_closed(shelf, place, closed)?;
    fill(shelf, place, number, image)?;
    open_gate(shelf, place, number, image)?;
    Ok(())
}

/// The place of the other slot.
fn other(place: Place) -> Place
    ensures { result ≡ other_place place }
{
    if place == Place::A {
        Place::B
    } else {
        Place::A
    }
}

/// The place that is not chosen, and A where none is.
fn next_by(chosen: Option<(Place, Stated)>) -> Place
    ensures { result ≡ next_place chosen }
{
    match chosen {
        Some((place, _)) => other(place),
        None => Place::A,
    }
}

/// What is known of the slots by the fronts of A and B.
fn slots_by(next: Place, a: Front, b: Front) -> Slots
    ensures next { result.next ≡ next }
    ensures a { next ≡ A → (result.closed ≡ a.closed) × (result.other_closed ≡ b.closed) }
    ensures b { next ≡ B → (result.closed ≡ b.closed) × (result.other_closed ≡ a.closed) }
{
    let (here, there) = if next == Place::B { (b, a) } else { (a, b) };
    Slots {
        next,
        closed: here.closed,
        other_closed: there.closed,
    }
}

impl Slots {
    ghost use Rattle.std.specs.Prelude.{◌≤◌, IfOk, IfSome, IsErrOf};
    ghost use Rattle.outside.specs.Causes.{Rose};
    ghost use Rattle.box_state.specs.declared.ready.Ready.TheVariants.{Unready};
    ghost use Rattle.state_image.specs.Images.{IsPosition};
    ghost use Rattle.checkpoint.specs.Kept.{kept_of, number_of, count_of, GivesKept};
    ghost use Rattle.checkpoint.specs.Saves.{IsNew};
    ghost use Rattle.checkpoint.specs.Known.{Knows};

    /// Opens the slots of a shelf, and reads what the chosen one keeps. A and B are synced before they are read. Takes memory
    /// for the image and for what it keeps.
    ///
    /// `Disk` comes only at a fault of the shelf. `Damaged` comes exactly where the chosen slot is damaged, with its place and
    /// the first that applies of these offsets: 9 where its image has more than 1,073,741,824 bytes; 17 where that is of
    /// another version, and 17 + n where it is malformed at n; 1 where the number of the slot is not the count of its image.
    ///
    /// - `gives`: what is kept is that of the chosen slot of what the reads give.
    /// - `known`: A and B are settled, and the slots are known.
    /// - `number`: the number of the chosen slot is the count of what it keeps.
    /// - `reads`, `written`: no read changes, and nothing is written.
    /// - `any_moment`: a crash at any moment leaves what it might have left at the start.
    pub fn open<H: Shelf>(alloc: Global, shelf: &mut H) -> Result<Opened, StateFault>
        ensures gives { WhereKnown (H.seen shelf.old) (λ places. GivesKept (λ opened. opened.kept) result (kept_of places)) }
        ensures known { IfOk result (λ opened. WhereKnown (H.seen shelf.new) (Knows opened.slots (H.may_leave shelf.new))) }
        ensures number { IfOk result (λ opened. WhereKnown (H.seen shelf.new) (λ places. number_of (chosen_of places) ≡ count_of opened.kept)) }
        ensures ready { IfOk result (λ opened. IfSome opened.kept (λ read. read.0.ready ≡ Unready)) }
        ensures position { IfOk result (λ opened. IfSome opened.kept (λ read. IsPosition read.1)) }
        ensures reads { KnownThen (H.seen shelf.old) (H.seen shelf.new) (λ old new. new ≡ old) }
        ensures any_moment { LeavesOnly H.moment H.left_since shelf.old shelf.new (H.may_leave shelf.old) }
        ensures written { H.written shelf.new ≡ H.written shelf.old }
        ensures later { H.faults shelf.old ≤ H.faults shelf.new }
        ensures cause { IsErrOf result StateFault.Disk → Rose (H.faults shelf.old) (H.faults shelf.new) }
    {
        let (a, b) = look_at_slots(shelf)?;
        let chosen = chosen_of(a.slot, b.slot);
        let kept = read_chosen(alloc, shelf, chosen)?;
        Ok(Opened {
            slots: slots_by(next_by(chosen), a, b),
            kept,
        })
    }

    /// Saves a slot with a number greater than that of the chosen one to the place that is not chosen, which is the chosen one
    /// then. Takes no memory. After `Err`, which comes only at a fault of the shelf, the shelf is to be opened again.
    ///
    /// - `any_moment`: a crash at any moment leaves the chosen slot or the new one, and T as it might have left it before.
    /// - `saved`: after Ok the chosen slot is the new one, and by `known` A and B are settled, so that it alone is left.
    /// - `tail`: whatever is answered, the reads of T are as before.
    /// - `written`: no more is written than the image and 18 bytes.
    pub fn save<H: Shelf>(
        &mut self,
        shelf: &mut H,
        number: u64,
        image: &[u8],
    ) -> Result<(), DiskFault>
        requires known { WhereKnown (H.seen shelf.old) (Knows self.old (H.may_leave shelf.old)) }
        requires above { WhereKnown (H.seen shelf.old) (λ places. IsAbove number (chosen_of places)) }
        ensures any_moment { WhereKnown (H.seen shelf.old) (λ _. LeavesOnly H.moment H.left_since shelf.old shelf.new
            (Reached (H.may_leave shelf.old) (SameOrNew (record { number = number; image = image.now })))) }
        ensures saved { OnOk result (KnownThen (H.seen shelf.old) (H.seen shelf.new)
            (IsNew (record { number = number; image = image.now }))) }
        ensures known { OnOk result (WhereKnown (H.seen shelf.new) (Knows self.new (H.may_leave shelf.new))) }
        ensures tail { KnownThen (H.seen shelf.old) (H.seen shelf.new) (λ old new. new.t ≡ old.t) }
        ensures written { RisesUpTo (length image.now + 18) (H.written shelf.old) (H.written shelf.new) }
        ensures cause { HasCause (H.faults shelf.old) (H.faults shelf.new) result }
    {
        let place = self.next;
        match save_at(shelf, place, self.closed, number, image) {
            Ok(()) => {
                *self = Slots {
                    next: other(place),
                    closed: self.other_closed,
                    other_closed: false,
                };
                Ok(())
            }
            Err(_) => Err(DiskFault),
        }
    }
}
