//! The shelves of a run: one in memory, whose calls can fail and whose crashes can be looked at, and one of three files in a
//! folder, which is the real one or in memory.
#![tactic(auto)]

mod call;
mod call_log;
mod disk;
mod event;
mod file;
mod file_shelf;
mod files;
mod folder;
mod laws;
mod memory_folder;
mod memory_shelf;
mod place_file;
mod real_folder;

pub use call::{Crash, Did, ShelfCall};
pub use file_shelf::FileShelf;
pub use folder::Folder;
pub use laws::crash_outcomes_are_those_of_the_model;
pub use memory_folder::{MemoryFile, MemoryFolder};
pub use memory_shelf::MemoryShelf;
pub use real_folder::RealFolder;
