//! What is lent where there is no device.
ghost use Rattle.std.specs.Prelude.{◌≡◌, [], IsErr, Some};
ghost use Rattle.outside.specs.Causes.{HasCause};

use crate::fault_count::FaultCount;
use crate::{Failed, Place, Shelf, Source};

/// A source of no bytes, which doesn't fail.
#[derive(Drop)]
pub struct NoSource;

impl Source for NoSource {
    ghost left = { λ _. Some [] };

    ghost faults = { λ _. 0 };

    fn take(&mut self, _buf: &mut [u8]) -> Result<usize, Failed> {
        Ok(0)
    }
}

/// A shelf that refuses each call. No contents are known.
#[derive(Drop)]
pub struct NoShelf {
    faults: FaultCount,
}

impl NoShelf {
    /// A shelf that did not fail so far. Takes no memory.
    pub fn new() -> NoShelf
        ensures { ⟦<NoShelf as Shelf>⟧.faults result ≡ 0 }
    {
        NoShelf {
            faults: FaultCount::new(),
        }
    }
}

impl Shelf for NoShelf {
    ghost faults = { λ shelf. shelf.faults.total };

    fn size(&mut self, _place: Place) -> Result<u64, Failed>
        ensures refused { IsErr result }
        ensures cause { HasCause (⟦<NoShelf as Shelf>⟧.faults self.old)
            (⟦<NoShelf as Shelf>⟧.faults self.new) result }
    {
        Err(self.faults.fail())
    }

    fn read(&mut self, _place: Place, _at: u64, _buf: &mut [u8]) -> Result<usize, Failed>
        ensures refused { IsErr result }
        ensures cause { HasCause (⟦<NoShelf as Shelf>⟧.faults self.old)
            (⟦<NoShelf as Shelf>⟧.faults self.new) result }
    {
        Err(self.faults.fail())
    }

    fn write_at(&mut self, _place: Place, _at: u64, _bytes: &[u8]) -> Result<(), Failed>
        ensures refused { IsErr result }
        ensures cause { HasCause (⟦<NoShelf as Shelf>⟧.faults self.old)
            (⟦<NoShelf as Shelf>⟧.faults self.new) result }
    {
        Err(self.faults.fail())
    }

    fn cut(&mut self, _place: Place, _size: u64) -> Result<(), Failed>
        ensures refused { IsErr result }
        ensures cause { HasCause (⟦<NoShelf as Shelf>⟧.faults self.old)
            (⟦<NoShelf as Shelf>⟧.faults self.new) result }
    {
        Err(self.faults.fail())
    }

    fn sync(&mut self, _place: Place) -> Result<(), Failed>
        ensures refused { IsErr result }
        ensures cause { HasCause (⟦<NoShelf as Shelf>⟧.faults self.old)
            (⟦<NoShelf as Shelf>⟧.faults self.new) result }
    {
        Err(self.faults.fail())
    }

    ghost is_outcome = { λ _. tt };

    ghost counts_now = { λ shelf t c earlier now. absurd now };

    ghost only_now = { λ shelf c left. absurd left };
}
