//! Who acts on whom: the mails that name an id, as they are kept from change to change.
#![tactic(auto)]

mod effects;
mod laws;
mod named;

pub use effects::{Effects, names};
pub use laws::effects_follow_from_cards;
