//! What the fields Content-Type and Content-Disposition of a part say (RFC 2045, section 5; RFC 2183; RFC 9078), with
//! their parameters (RFC 2231).
#![tactic(auto)]

mod content_type;
mod disposition;
mod named;
mod param;
mod raw_param;
mod section;
mod segment;

pub use content_type::{ContentType, content_type_in, read_content_type};
pub use disposition::{Disposition, read_disposition};
pub use param::Param;
