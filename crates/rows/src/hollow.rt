//! A shelf that keeps nothing.
use outside::{Failed, Place, Shelf};

/// A shelf whose B tells a size and begins with these bytes. It takes all that is written, and keeps none of it.
#[derive(Drop)]
pub struct Hollow {
    pub size: u64,
    pub head: Vec<u8>,
}

impl Shelf for Hollow {
    ghost faults = { λ _. 0 };

    fn size(&mut self, place: Place) -> Result<u64, Failed> {
        Ok(if place == Place::B { self.size } else { 0 })
    }

    fn read(&mut self, place: Place, _at: u64, buf: &mut [u8]) -> Result<usize, Failed> {
        if place != Place::B {
            return Ok(0);
        }
        let count = buf.len().min(self.head.len());
        buf[..count].copy_from_slice(&self.head[..count]);
        Ok(count)
    }

    fn write_at(&mut self, _place: Place, _at: u64, _bytes: &[u8]) -> Result<(), Failed> {
        Ok(())
    }

    fn cut(&mut self, _place: Place, _size: u64) -> Result<(), Failed> {
        Ok(())
    }

    fn sync(&mut self, _place: Place) -> Result<(), Failed> {
        Ok(())
    }

    ghost is_outcome = { λ _. tt };

    ghost counts_now = { λ shelf t c earlier now. absurd now };

    ghost only_now = { λ shelf c left. absurd left };
}
