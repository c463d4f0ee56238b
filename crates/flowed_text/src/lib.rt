//! Flowed text (RFC 3676, section 4) made whole, and the text above a signature.
#![tactic(auto)]

mod flowed;
mod quoted;
mod signature;

pub use flowed::unflow;
pub use signature::{push_line, user_text};
