//! The header of a mail: its fields, and the message ids in the body of a field.
#![tactic(auto)]

mod field;
mod fields;
mod header;
mod id;

pub use header::{Header, read_header};
pub use id::ids;
