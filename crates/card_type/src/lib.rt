//! What is kept of a mail, a card, and what every crate above says of cards.
#![tactic(auto)]

mod card;
mod copy;
mod effect;
mod group_id;
mod key;
mod key_map;
mod key_text;
mod kind;
mod laws;
mod record;
mod rules;
mod spot;

pub use card::{Attachment, Card, Payload, Update};
pub use effect::{Effect, effect_of};
pub use group_id::{GroupId, valid_group};
pub use key::ChatKey;
pub use key_map::KeyMap;
pub use kind::{Kind, kind_of};
pub use laws::a_card_without_a_reaction_has_a_plain_record;
pub use record::weight;
pub use rules::{MAX_REACTION_LEN, MAX_TEXT_LEN, fits_weight, is_valid};
pub use spot::Spot;
