//! The bytes of a source, chunk by chunk, for a reader that passes them in order; and the prefix of what comes in
//! chunks.
#![tactic(auto)]

mod buffer;
mod fault;
mod prefix;

pub use buffer::Buffer;
pub use fault::BufferFault;
pub use prefix::Prefix;
