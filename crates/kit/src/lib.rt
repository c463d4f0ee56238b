//! What every other crate stands on: out of memory, bytes that own their memory, texts, message ids,
//! mail addresses, charsets, lines, cuts, white space, numbers, comments and printing bytes, and a count of
//! steps. A contract sees bytes, a text, an id and an address as its list of bytes.
#![tactic(auto)]

mod addr;
mod bytes;
mod charset;
mod comment;
mod cut;
mod digits;
mod id;
mod letters;
mod line;
mod memory;
mod moment;
mod printing;
mod steps;
mod text;
mod trace;
mod white;

pub use addr::Addr;
pub use bytes::Bytes;
pub use charset::{Charset, charset_of, to_text};
pub use comment::{begins_quoted_pair, depth_after};
pub use cut::{before_first, split_once, strip_prefix};
pub use digits::number;
pub use id::Id;
pub use letters::{lower, same_name};
pub use line::{Line, content, lines, split_line, split_text_line};
pub use memory::Memory;
pub use moment::{LAST_MOMENT, SECONDS_PER_DAY};
pub use printing::{is_printing, is_visible};
pub use steps::Steps;
pub use text::Text;
pub use trace::{Trace, pieces_of_a_trace_join};
pub use white::{is_blank, is_white, trim, trim_end};
