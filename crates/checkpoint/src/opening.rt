//! The parts of an opening.
ghost use Rattle.std.specs.Prelude.{◌≡◌, ◌≢◌, ◌⊎◌, ◌≤◌, ◌+◌, length, vec_len, Some, IfSome, IfOk, OnOk, IfErr, IsErrOf};
ghost use Rattle.outside.specs.Causes.{HasCause, Rose};
ghost use Rattle.outside.specs.Places.{content};
ghost use Rattle.outside.specs.Moments.{WhereKnown, ChangesNoRead};
ghost use Rattle.box_state.specs.declared.ready.Ready.TheVariants.{Unready};
ghost use Rattle.state_image.specs.Images.{image_of, IsPosition};
ghost use Rattle.outside.specs.declared.faults.StateFault.TheVariants as fault;
ghost use Rattle.checkpoint.specs.Kept.{numbered, slot_kept, at_place, kept_of, GivesKept};
ghost use Rattle.checkpoint.specs.Saves.{AreSettled};
ghost use Rattle.checkpoint.specs.Parts.{IsFront, with_image, HasChosen};

use crate::front::{Front, HEAD, Stated, look};
use box_state::Mailbox;
use kit::Memory;
use outside::{Failed, Place, Shelf, StateFault};
use state_image::{ImageFault, Position, read_image};
use std::alloc::Global;

/// The most bytes that the image of a slot may have.
const MAX_IMAGE: u64 = 1_073_741_824;

/// Puts A and B on the disk.
fn sync_slots<H: Shelf>(shelf: &mut H) -> Result<(), Failed>
    ensures settled { OnOk result (WhereKnown (H.seen shelf.old) (λ places. AreSettled places (H.may_leave shelf.new))) }
    ensures nothing { ChangesNoRead H.seen H.may_leave H.moment H.left_since shelf.old shelf.new }
    ensures written { H.written shelf.new ≡ H.written shelf.old }
    ensures cause { HasCause (H.faults shelf.old) (H.faults shelf.new) result }
{
    shelf.sync(Place::A)?;
    shelf.sync(Place::B)?;
    Ok(())
}

/// Syncs A and B, and looks at their fronts.
pub fn look_at_slots<H: Shelf>(shelf: &mut H) -> Result<(Front, Front), Failed>
    ensures fronts { IfOk result (λ fronts. WhereKnown (H.seen shelf.old) (λ places.
        IsFront fronts.0 places.a × IsFront fronts.1 places.b)) }
    ensures settled { OnOk result (WhereKnown (H.seen shelf.old) (λ places. AreSettled places (H.may_leave shelf.new))) }
    ensures nothing { ChangesNoRead H.seen H.may_leave H.moment H.left_since shelf.old shelf.new }
    ensures written { H.written shelf.new ≡ H.written shelf.old }
    ensures cause { HasCause (H.faults shelf.old) (H.faults shelf.new) result }
{
    sync_slots(shelf)?;
    let a = look(shelf, Place::A)?;
    let b = look(shelf, Place::B)?;
    Ok((a, b))
}

/// So many bytes 0.
fn zeros(alloc: Global, len: usize) -> Result<Vec<u8>, Memory>
    ensures { IfOk result (λ zeros. vec_len zeros ≡ len) }
{
    Ok(vec![in alloc; 0u8; len]?)
}

/// The bytes of the image of a slot.
fn read_bytes<H: Shelf>(
    alloc: Global,
    shelf: &mut H,
    place: Place,
    stated: Stated,
) -> Result<Vec<u8>, StateFault>
    ensures image { IfOk result (λ image. WhereKnown (H.seen shelf.old) (λ places.
        17 + stated.length ≤ length (content places place)
        → image.items ≡ (with_image (content places place) stated).image)) }
    ensures undamaged { IfErr result (λ why. (why ≡ fault.Disk) ⊎ (why ≡ fault.Memory)) }
    ensures nothing { ChangesNoRead H.seen H.may_leave H.moment H.left_since shelf.old shelf.new }
    ensures written { H.written shelf.new ≡ H.written shelf.old }
    ensures later { H.faults shelf.old ≤ H.faults shelf.new }
    ensures cause { IsErrOf result StateFault.Disk → Rose (H.faults shelf.old) (H.faults shelf.new) }
{
    let mut image = zeros(alloc, stated.length as usize)?;
    let count = shelf.read(place, HEAD as u64, &mut image)?;
    image.truncate(count);
    Ok(image)
}

/// What an image keeps in a slot with a number.
fn numbered(
    alloc: Global,
    place: Place,
    number: u64,
    image: &[u8],
) -> Result<(Mailbox, Position), StateFault>
    ensures gives { GivesKept (λ read. Some read) result (at_place place (numbered number (image_of image.now))) }
    ensures ready { IfOk result (λ read. read.0.ready ≡ Unready) }
    ensures position { IfOk result (λ read. IsPosition read.1) }
    ensures no_fault { IfErr result (λ why. why ≢ fault.Disk) }
{
    match read_image(alloc, image) {
        Ok((mailbox, position)) if position.count == number => Ok((mailbox, position)),
        Ok(_) => Err(StateFault::Damaged(place, 1)),
        Err(ImageFault::Version) => Err(StateFault::Damaged(place, HEAD as u64)),
        Err(ImageFault::Malformed(at)) => Err(StateFault::Damaged(place, HEAD as u64 + at as u64)),
        Err(ImageFault::Memory) => Err(StateFault::Memory),
    }
}

/// What the slot in a place keeps.
fn read_slot<H: Shelf>(
    alloc: Global,
    shelf: &mut H,
    place: Place,
    stated: Stated,
) -> Result<(Mailbox, Position), StateFault>
    ensures gives { WhereKnown (H.seen shelf.old) (λ places. 17 + stated.length ≤ length (content places place)
        → GivesKept (λ read. Some read) result (at_place place (slot_kept (with_image (content places place) stated)))) }
    ensures ready { IfOk result (λ read. read.0.ready ≡ Unready) }
    ensures position { IfOk result (λ read. IsPosition read.1) }
    ensures nothing { ChangesNoRead H.seen H.may_leave H.moment H.left_since shelf.old shelf.new }
    ensures written { H.written shelf.new ≡ H.written shelf.old }
    ensures later { H.faults shelf.old ≤ H.faults shelf.new }
    ensures cause { IsErrOf result StateFault.Disk → Rose (H.faults shelf.old) (H.faults shelf.new) }
{
    if MAX_IMAGE < stated.length {
        return Err(StateFault::Damaged(place, 9));
    }
    let image = read_bytes(alloc, shelf, place, stated)?;
    numbered(alloc, place, stated.number, &image)
}

/// What the chosen slot keeps, where there is one.
pub fn read_chosen<H: Shelf>(
    alloc: Global,
    shelf: &mut H,
    chosen: Option<(Place, Stated)>,
) -> Result<Option<(Mailbox, Position)>, StateFault>
    ensures gives { WhereKnown (H.seen shelf.old) (λ places. HasChosen places chosen
        → GivesKept (λ kept. kept) result (kept_of places)) }
    ensures ready { IfOk result (λ kept. IfSome kept (λ read. read.0.ready ≡ Unready)) }
    ensures position { IfOk result (λ kept. IfSome kept (λ read. IsPosition read.1)) }
    ensures nothing { ChangesNoRead H.seen H.may_leave H.moment H.left_since shelf.old shelf.new }
    ensures written { H.written shelf.new ≡ H.written shelf.old }
    ensures later { H.faults shelf.old ≤ H.faults shelf.new }
    ensures cause { IsErrOf result StateFault.Disk → Rose (H.faults shelf.old) (H.faults shelf.new) }
{
    match chosen {
        None => Ok(None),
        Some((place, stated)) => Ok(Some(read_slot(alloc, shelf, place, stated)?)),
    }
}
