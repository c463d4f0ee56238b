//! Transfer encodings of a body (RFC 2045, section 6): which one a header field names, and the bytes that
//! text in it decodes to. Every text decodes: what an encoder may not write is read by rules of its own.
#![tactic(auto)]

mod encoding;
mod escapes;
mod quoted;
mod sextets;

pub use encoding::{Encoding, decode_body, decoded_len, encoding_of};
pub use escapes::unescaped;
