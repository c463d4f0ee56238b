//! The moment that a Date field of a mail names (RFC 5322, sections 3.3 and 4.3).
#![tactic(auto)]

mod clock;
mod date;
mod days;
mod digits;
mod names;
mod words;
mod zones;

pub use date::moment;
