//! Two slots that keep a mailbox and a position, one of which is chosen: opened, and saved into the other place, so that a
//! crash at any moment leaves the one or the other.
#![tactic(auto)]

mod body;
mod front;
mod laws;
mod opening;
mod parts;
mod slots;

pub use laws::a_saved_image_is_kept;
pub use slots::{Opened, Slots};
