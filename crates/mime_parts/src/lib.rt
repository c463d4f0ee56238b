//! The parts of a mail (RFC 2046, section 5.1), with their content types and dispositions as `mime_fields` reads them.
#![tactic(auto)]

mod laws;
mod multipart;
mod part;
mod tree;

pub use laws::{lines_are_cut_by_the_grammar, no_byte_is_lost};
pub use mime_fields::{ContentType, Disposition, Param, read_content_type, read_disposition};
pub use part::{PartNode, is_kind};
pub use tree::{PartTree, parts};
