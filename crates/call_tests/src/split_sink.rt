//! A sink that can fail within a chunk.
ghost use Rattle.outside.specs.Bytes.{PutAppends};
ghost use Rattle.outside.specs.Causes.{HasCause};

use outside::{Failed, MemorySink, Sink};

/// A sink that puts a chunk in two: all but its last byte, and then its last byte.
#[derive(Drop)]
pub struct SplitSink {
    pub sink: MemorySink,
}

impl Sink for SplitSink {
    ghost held = { λ split. ⟦<MemorySink as Sink>⟧.held split.sink };

    ghost faults = { λ split. ⟦<MemorySink as Sink>⟧.faults split.sink };

    fn put(&mut self, chunk: &[u8]) -> Result<(), Failed>
        ensures bytes { PutAppends (⟦<SplitSink as Sink>⟧.held self.old)
            (⟦<SplitSink as Sink>⟧.held self.new) result chunk.now }
        ensures cause { HasCause (⟦<SplitSink as Sink>⟧.faults self.old)
            (⟦<SplitSink as Sink>⟧.faults self.new) result }
    {
        let (front, last) = chunk.split_at(chunk.len().saturating_sub(1));
        self.sink.put(front)?;
        self.sink.put(last)
    }
}
