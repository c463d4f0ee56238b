//! Why bytes are no image or no change.
use thiserror::Error;

/// Why bytes are no image or no change.
#[derive(Clone, Copy, Debug, PartialEq, Eq, Error)]
pub enum ImageFault {
    /// They do not begin with the name of an image. Reading a change never answers so.
    #[error("no image of this version")]
    Version,
    /// A field is short or breaks its rule, and the first such field begins at this offset.
    #[error("malformed at {0}")]
    Malformed(usize),
    /// Memory ran out.
    #[error("out of memory")]
    Memory,
}
