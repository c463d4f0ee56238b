//! The mails of an mbox (RFC 4155, appendix A, in the variant that is called mboxrd), read from a source that
//! gives its bytes in chunks of any size. A reader holds one chunk and one mail at most.
#![tactic(auto)]

mod fault;
mod laws;
mod line_state;
mod reader;
mod separator;
mod step;
mod taken;

pub use fault::BoxFault;
pub use laws::{mails_of_before_stay, others_follow_a_mail};
pub use reader::MboxReader;
pub use taken::Taken;
