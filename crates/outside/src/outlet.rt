//! Where a sink puts its bytes.
ghost use Rattle.std.specs.Prelude.{ℕ, List, OnOk, None};
ghost use Rattle.std.specs.declared.option.Option.{Option};
ghost use Rattle.std.specs.Io.KnownBytes.{Appends, Keeps};
ghost use Rattle.outside.specs.FileSink.{IsAllOf};

use std::io;
use std::io::Write;

/// What takes bytes and hands them on at a flush, as a writer does. Of a writer it is not known what it handed on.
pub trait Outlet {
    /// The bytes that it took, where they are known.
    ghost taken: { Self → Option (List ℕ) };

    /// Those that it handed on at its last flush, where they are known.
    ghost flushed: { Self → Option (List ℕ) };

    /// Takes all of the chunk, or fails at a fault.
    fn take_all(&mut self, chunk: &[u8]) -> io::Result<()>
        ensures { OnOk result (Appends (taken self.old) (taken self.new) chunk.now) };

    /// Hands on what it took.
    fn hand_on(&mut self) -> io::Result<()>
        ensures taken { Keeps (taken self.old) (taken self.new) }
        ensures flushed { OnOk result (IsAllOf (taken self.new) (flushed self.new)) };
}

impl<W: Write> Outlet for W {
    ghost taken = { W.contents };

    ghost flushed = { λ _. None };

    fn take_all(&mut self, chunk: &[u8]) -> io::Result<()> {
        self.write_all(chunk)
    }

    fn hand_on(&mut self) -> io::Result<()> {
        self.flush()
    }
}
