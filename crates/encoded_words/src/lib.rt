//! Encoded words in the body of a header field (RFC 2047).
#![tactic(auto)]

mod decode;
mod word;

pub use decode::decode_words;
