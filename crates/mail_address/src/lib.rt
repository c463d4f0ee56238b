//! The people that the body of a header field names: their addresses and names.
#![tactic(auto)]

mod element;
mod list;
mod person;
mod token;

pub use list::people;
pub use person::Person;
