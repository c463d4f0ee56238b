//! Where the files of a shelf stand.
ghost use Rattle.std.specs.Prelude.{◌≡◌, ◌-◌, min, ℕ, List, length, take, drop, IfSome, IfOk, OnOk, Ok, None};
ghost use Rattle.std.specs.declared.option.Option.{Option};
ghost use Rattle.std.specs.Io.{ReadsAtMost};
ghost use Rattle.outside.specs.Causes.{HasCause};
ghost use Rattle.shelves.specs.Folder.{IsNamed, Reaches, emptied, written_over, cut_off};

use outside::Failed;

/// A folder, which opens and makes files by their names, and does each call on one of them.
///
/// What is known of a file is its name, its content and what of it was synced. Of the folder of the system nothing is known,
/// and the clauses then say nothing. Each call answers `Failed` only at a fault of the folder.
pub trait Folder {
    /// A file that is open.
    type File: Drop;

    /// What the file of a name that was not opened so far holds, where it is known: nothing where there is none.
    ghost kept: { Self → List ℕ → Option (List ℕ) };

    /// The name by which a file was opened or made, where it is known.
    ghost name_of: { Self.File → Option (List ℕ) };

    /// What a read of a file gives, where it is known.
    ghost holds: { Self.File → Option (List ℕ) };

    /// What a file held at its last sync, where it is known.
    ghost synced: { Self.File → Option (List ℕ) };

    /// How often the folder failed. Code that is generic over folders can't raise it.
    ghost faults: { Self → ℕ };

    /// Opens the file of this name as it is, or says that there is none.
    ///
    /// `Failed` also comes where what stands there is no regular file.
    fn open(&mut self, name: &str) -> Result<Option<Self::File>, Failed>
        ensures named { IfOk result (λ found. IfSome found (λ file. IsNamed name.now (name_of file))) }
        ensures content { IfOk result (λ found. IfSome found (λ file. holds file ≡ kept self.old name.now)) }
        ensures absent { result ≡ Ok None → kept self.old name.now ≡ emptied (kept self.old name.now) }
        ensures kept { kept self.new ≡ kept self.old }
        ensures cause { HasCause (faults self.old) (faults self.new) result };

    /// Makes an empty file of this name, where there is none.
    fn make(&mut self, name: &str) -> Result<Self::File, Failed>
        ensures named { IfOk result (λ file. IsNamed name.now (name_of file)) }
        ensures content { IfOk result (λ file. holds file ≡ emptied (kept self.old name.now)) }
        ensures kept { kept self.new ≡ kept self.old }
        ensures cause { HasCause (faults self.old) (faults self.new) result };

    /// The number of bytes in the file.
    fn size(&mut self, file: &mut Self::File) -> Result<u64, Failed>
        ensures size { IfOk result (λ n. IfSome (holds file.old) (λ bytes. n ≡ length bytes)) }
        ensures content { holds file.new ≡ holds file.old }
        ensures name { name_of file.new ≡ name_of file.old }
        ensures kept { kept self.new ≡ kept self.old }
        ensures cause { HasCause (faults self.old) (faults self.new) result };

    /// Reads the bytes of the file from offset `at` on to the beginning of `buf`, and returns how many: as many as there
    /// are, up to the length of `buf`, and 0 past the size.
    fn read(&mut self, file: &mut Self::File, at: u64, buf: &mut [u8]) -> Result<usize, Failed>
        ensures bound { ReadsAtMost result buf.new }
        ensures count { IfOk result (λ n. IfSome (holds file.old) (λ bytes.
            n ≡ min (length buf.old) (length bytes - at))) }
        ensures bytes { IfOk result (λ n. IfSome (holds file.old) (λ bytes. take n buf.new ≡ take n (drop at bytes))) }
        ensures content { holds file.new ≡ holds file.old }
        ensures name { name_of file.new ≡ name_of file.old }
        ensures kept { kept self.new ≡ kept self.old }
        ensures cause { HasCause (faults self.old) (faults self.new) result };

    /// Writes the bytes into the file from offset `at` on.
    fn write(&mut self, file: &mut Self::File, at: u64, bytes: &[u8]) -> Result<(), Failed>
        ensures content { OnOk result (Reaches at (holds file.old)
            → holds file.new ≡ written_over at bytes.now (holds file.old)) }
        ensures name { name_of file.new ≡ name_of file.old }
        ensures kept { kept self.new ≡ kept self.old }
        ensures cause { HasCause (faults self.old) (faults self.new) result };

    /// Cuts the file to `size` bytes.
    fn cut(&mut self, file: &mut Self::File, size: u64) -> Result<(), Failed>
        ensures content { OnOk result (Reaches size (holds file.old) → holds file.new ≡ cut_off size (holds file.old)) }
        ensures name { name_of file.new ≡ name_of file.old }
        ensures kept { kept self.new ≡ kept self.old }
        ensures cause { HasCause (faults self.old) (faults self.new) result };

    /// Makes the content of the file outlast a crash.
    fn sync(&mut self, file: &mut Self::File) -> Result<(), Failed>
        ensures durable { OnOk result (synced file.new ≡ holds file.old) }
        ensures content { holds file.new ≡ holds file.old }
        ensures name { name_of file.new ≡ name_of file.old }
        ensures kept { kept self.new ≡ kept self.old }
        ensures cause { HasCause (faults self.old) (faults self.new) result };
}
