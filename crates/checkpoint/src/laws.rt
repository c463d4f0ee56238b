//! A law of slots: the contract of a function that does nothing. Its clause speaks of every mailbox.
ghost use Rattle.std.specs.Prelude.{◌≡◌, Ok};
ghost use Rattle.mailbox_model.specs.Mailbox.{Mailbox};
ghost use Rattle.state_image.specs.declared.position.Position.{Position};
ghost use Rattle.state_image.specs.Images.{image, HasImage};
ghost use Rattle.checkpoint.specs.Kept.{slot_kept};

use state_image::each_mailbox_has_one_image;

/// A law: a slot with the image of a mailbox and a position, and with the count of the position as its number, keeps these.
/// So it is never damaged: no image is over the bound.
pub fn a_saved_image_is_kept()
    ensures { (m : Mailbox) (position : Position) → HasImage m position
        → slot_kept (record { number = position.count; image = image m position }) ≡ Ok (m, position) }
{
    each_mailbox_has_one_image();
}
