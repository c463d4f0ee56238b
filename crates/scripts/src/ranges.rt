//! Numbers of which a transcript tells the same.
use crate::shown::add_number;
use kit::Memory;
use std::alloc::Global;

/// The last numbers of which the same was told, and what that was. They are one line of a transcript.
#[derive(Drop)]
pub struct Ranges {
    first: u64,
    last: u64,
    told: Vec<u8>,
}

impl Ranges {
    /// No number yet.
    pub fn new(alloc: Global) -> Ranges {
        Ranges {
            first: 0,
            last: 0,
            told: Vec::new(alloc),
        }
    }

    /// Tells something of the next number. The line of those before ends where it is something else.
    pub fn tell(
        &mut self,
        said: &mut Vec<u8>,
        alloc: Global,
        number: u64,
        told: Vec<u8>,
    ) -> Result<(), Memory> {
        if self.told != told {
            self.end(said, alloc)?;
            self.first = number;
            self.told = told;
        }
        self.last = number;
        Ok(())
    }

    /// Adds the last line, if any was told.
    pub fn end(&self, said: &mut Vec<u8>, alloc: Global) -> Result<(), Memory> {
        if self.told.is_empty() {
            return Ok(());
        }
        add_number(said, alloc, self.first)?;
        if self.first < self.last {
            said.extend_from_slice(b" to ")?;
            add_number(said, alloc, self.last)?;
        }
        said.extend_from_slice(b": ")?;
        said.extend_from_slice(&self.told)?;
        said.push(b'\n')?;
        Ok(())
    }
}
