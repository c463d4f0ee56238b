//! The present cards of a mailbox, in mail order.
ghost use Rattle.std.specs.Prelude.{◌≡◌, map, IfOk};
ghost use Rattle.mailbox_model.specs.Present.{present, spot};

use box_state::Mailbox;
use card_type::Spot;
use kit::Memory;
use std::alloc::Global;
use std::collections::BTreeSet;

/// The spots of the present cards, in mail order. Reads no card.
pub(crate) fn present_spots(alloc: Global, mailbox: &Mailbox) -> Result<BTreeSet<Spot>, Memory>
    ensures { IfOk result (λ spots. spots.keys ≡ map (λ t. spot t.placed) (present mailbox.now.mailbox)) }
{
    mailbox.keeps_rules();
    let mut spots = BTreeSet::new(alloc);
    for item in mailbox.items() {
        if let Some(spot) = mailbox.present_spot(item.uid) {
            spots.insert(spot.copy()?)?;
        }
    }
    Ok(spots)
}
