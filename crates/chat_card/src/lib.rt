//! From a mail to its card: what its fields say, what a chat program requests in them, and what its parts show.
#![tactic(auto)]

mod card;
mod contents;
mod envelope;
mod fault;
mod files;
mod kept;
mod laws;
mod leaf;
mod line;
mod part;
mod reaction;
mod report;
mod requests;
mod shown;
mod text;
mod way;

pub use card::read_card;
pub use fault::CardFault;
pub use laws::only_texts_are_dropped;
