//! Scripts that the programs of cases play: their lines, words, numbers and blocks, and how bytes are shown in a transcript.
#![tactic(auto)]

mod blocks;
mod escapes;
mod lines;
mod ranges;
mod shown;

pub use blocks::{add_numbered, block, repeat};
pub use escapes::{add_text, unescaped};
pub use lines::{first_line, first_word, number};
pub use ranges::Ranges;
pub use shown::{add_escaped, add_lines, add_number};
