//! Writing chat mails: a draft, and the mail of it (RFC 5322; RFC 2045) that is read as the intended card.
#![tactic(auto)]

mod check;
mod content;
mod dates;
mod draft;
mod fault;
mod fields;
mod header;
mod intended;
mod line;
mod mail;
mod refusals;
mod texts;

pub use draft::{Act, Draft};
pub use fault::{DraftFault, PutFault};
pub use mail::{compose, compose_to};
