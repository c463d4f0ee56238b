//! Lists that contracts see as plain lists: of owned values, without repeats, in order, in order for each of some ids, and
//! in chunks. Beside them are the laws of sorted lists, of lists without repeats and of maps by key.
#![tactic(auto)]

mod by_id;
mod chunked_list;
mod chunks;
mod distinct;
mod items;
mod sorted_list;

pub use by_id::SortedById;
pub use chunked_list::ChunkedList;
pub use distinct::each_once;
pub use items::{Exact, Items, copy_option};
pub use sorted_list::SortedList;
