//! Which chat each card of kind Content is in, while cards come and go: by what it cites, and by the chats of the cards
//! that it cites.
#![tactic(auto)]

mod cites;
mod kept;
mod laws;
mod links;
mod work;

pub use cites::cites_of;
pub use laws::{a_card_moves_only_what_names_it, cites_follow_from_mails};
pub use links::Links;
pub use mailbox_model::{Cites, Moved};
