//! One of the three files of a shelf of files.
ghost use Rattle.std.specs.Prelude.{◌≡◌, ◌≢◌, ◌≤◌, ◌<◌, ◌-◌, ◌⊎◌, min, length, take, drop, IfSome, OnSome, IsSome, Some, None};
ghost use Rattle.outside.specs.Causes.{Rose};
ghost use Rattle.shelves.specs.declared.place_file.PlaceFile.TheVariants.{Unopened, Absent, Broken};
ghost use Rattle.shelves.specs.Folder.{Reaches, written_over, cut_off};
ghost use Rattle.shelves.specs.FileShelf.{content_of, IsOpenedBy, IsSynced, FailsFor};

use crate::Folder;

/// A file that was not opened so far, is open, is absent so far, or can't be opened.
#[derive(Drop)]
pub enum PlaceFile<F> {
    Unopened,
    Open(F),
    Absent,
    Broken,
}

// Opens the file of this name where that was not tried so far.
fn open_first<D: Folder>(folder: &mut D, name: &str, file: &mut PlaceFile<D::File>)
    ensures tried { file.old ≢ Unopened → file.new ≡ file.old }
    ensures opened { file.new ≢ Unopened }
    ensures content { content_of D.holds (D.kept folder.new name.now) file.new
        ≡ content_of D.holds (D.kept folder.old name.now) file.old }
    ensures named { IsOpenedBy D.name_of name.now file.old → IsOpenedBy D.name_of name.now file.new }
    ensures kept { D.kept folder.new ≡ D.kept folder.old }
    ensures later { D.faults folder.old ≤ D.faults folder.new }
{
    if let PlaceFile::Unopened = file {
        *file = match folder.open(name) {
            Ok(Some(found)) => PlaceFile::Open(found),
            Ok(None) => PlaceFile::Absent,
            Err(_) => PlaceFile::Broken,
        };
    }
}

// Each of these calls opens the file first, and answers None where the folder fails or the file is broken.

/// The size of the file. One that is absent has size 0.
pub fn size_of<D: Folder>(folder: &mut D, name: &str, file: &mut PlaceFile<D::File>) -> Option<u64>
    ensures size { IfSome result (λ n. IfSome (content_of D.holds (D.kept folder.old name.now) file.old)
        (λ bytes. n ≡ length bytes)) }
    ensures content { content_of D.holds (D.kept folder.new name.now) file.new
        ≡ content_of D.holds (D.kept folder.old name.now) file.old }
    ensures named { IsOpenedBy D.name_of name.now file.old → IsOpenedBy D.name_of name.now file.new }
    ensures why { result ≡ None → FailsFor (D.faults folder.old) (D.faults folder.new) file.new }
    ensures absent { file.old ≡ Absent → result ≡ Some 0 }
    ensures stays { file.old ≡ Absent → file.new ≡ Absent }
    ensures broken { file.old ≡ Broken → result ≡ None }
    ensures kept { D.kept folder.new ≡ D.kept folder.old }
{
    open_first(folder, name, file);
    match file {
        PlaceFile::Open(file) => folder.size(file).ok(),
        PlaceFile::Absent => Some(0),
        _ => None,
    }
}

/// Reads the bytes of the file from `at` on. One that is absent has none.
pub fn read_at<D: Folder>(
    folder: &mut D,
    name: &str,
    file: &mut PlaceFile<D::File>,
    at: u64,
    buf: &mut [u8],
) -> Option<usize>
    ensures bound { IfSome result (λ n. n ≤ length buf.new) }
    ensures count { IfSome result (λ n. IfSome (content_of D.holds (D.kept folder.old name.now) file.old)
        (λ bytes. n ≡ min (length buf.old) (length bytes - at))) }
    ensures bytes { IfSome result (λ n. IfSome (content_of D.holds (D.kept folder.old name.now) file.old)
        (λ bytes. take n buf.new ≡ take n (drop at bytes))) }
    ensures content { content_of D.holds (D.kept folder.new name.now) file.new
        ≡ content_of D.holds (D.kept folder.old name.now) file.old }
    ensures named { IsOpenedBy D.name_of name.now file.old → IsOpenedBy D.name_of name.now file.new }
    ensures why { result ≡ None → FailsFor (D.faults folder.old) (D.faults folder.new) file.new }
    ensures absent { file.old ≡ Absent → result ≡ Some 0 }
    ensures stays { file.old ≡ Absent → file.new ≡ Absent }
    ensures broken { file.old ≡ Broken → result ≡ None }
    ensures kept { D.kept folder.new ≡ D.kept folder.old }
{
    open_first(folder, name, file);
    match file {
        PlaceFile::Open(file) => folder.read(file, at, buf).ok(),
        PlaceFile::Absent => Some(0),
        _ => None,
    }
}

// Makes the file where it is absent. It stays absent where it can't be made.
fn make_first<D: Folder>(folder: &mut D, name: &str, file: &mut PlaceFile<D::File>)
    ensures tried { file.old ≢ Absent → file.new ≡ file.old }
    ensures opened { file.old ≢ Unopened → file.new ≢ Unopened }
    ensures content { content_of D.holds (D.kept folder.new name.now) file.new
        ≡ content_of D.holds (D.kept folder.old name.now) file.old }
    ensures named { IsOpenedBy D.name_of name.now file.old → IsOpenedBy D.name_of name.now file.new }
    ensures why { file.new ≡ Absent → Rose (D.faults folder.old) (D.faults folder.new) }
    ensures kept { D.kept folder.new ≡ D.kept folder.old }
    ensures later { D.faults folder.old ≤ D.faults folder.new }
{
    if let PlaceFile::Absent = file {
        if let Ok(made) = folder.make(name) {
            *file = PlaceFile::Open(made);
        }
    }
}

/// Writes the bytes into the file from `at` on, and makes it first where it is absent.
pub fn write_at<D: Folder>(
    folder: &mut D,
    name: &str,
    file: &mut PlaceFile<D::File>,
    at: u64,
    bytes: &[u8],
) -> Option<()>
    ensures content { OnSome result (Reaches at (content_of D.holds (D.kept folder.old name.now) file.old)
        → content_of D.holds (D.kept folder.new name.now) file.new
        ≡ written_over at bytes.now (content_of D.holds (D.kept folder.old name.now) file.old)) }
    ensures named { IsOpenedBy D.name_of name.now file.old → IsOpenedBy D.name_of name.now file.new }
    ensures why { result ≡ None → FailsFor (D.faults folder.old) (D.faults folder.new) file.new }
    ensures made { OnSome result (file.new ≢ Absent) }
    ensures broken { file.old ≡ Broken → result ≡ None }
    ensures kept { D.kept folder.new ≡ D.kept folder.old }
{
    open_first(folder, name, file);
    make_first(folder, name, file);
    match file {
        PlaceFile::Open(file) => folder.write(file, at, bytes).ok(),
        _ => None,
    }
}

/// Cuts the file. One that is absent can be cut to 0 alone.
pub fn cut_to<D: Folder>(
    folder: &mut D,
    name: &str,
    file: &mut PlaceFile<D::File>,
    size: u64,
) -> Option<()>
    ensures content { OnSome result (Reaches size (content_of D.holds (D.kept folder.old name.now) file.old)
        → content_of D.holds (D.kept folder.new name.now) file.new
        ≡ cut_off size (content_of D.holds (D.kept folder.old name.now) file.old)) }
    ensures named { IsOpenedBy D.name_of name.now file.old → IsOpenedBy D.name_of name.now file.new }
    ensures why { result ≡ None → FailsFor (D.faults folder.old) (D.faults folder.new) file.new
        ⊎ (file.new ≡ Absent) × (0 < size) }
    ensures nothing { file.old ≡ Absent → size ≡ 0 → IsSome result }
    ensures absent { file.old ≡ Absent → 0 < size → result ≡ None }
    ensures stays { file.old ≡ Absent → file.new ≡ Absent }
    ensures broken { file.old ≡ Broken → result ≡ None }
    ensures kept { D.kept folder.new ≡ D.kept folder.old }
{
    open_first(folder, name, file);
    match file {
        PlaceFile::Open(file) => folder.cut(file, size).ok(),
        PlaceFile::Absent if size == 0 => Some(()),
        _ => None,
    }
}

/// Syncs the file, and does nothing where it is absent.
pub fn sync_file<D: Folder>(folder: &mut D, name: &str, file: &mut PlaceFile<D::File>) -> Option<()>
    ensures durable { OnSome result (IsSynced D.synced D.holds file.new) }
    ensures content { content_of D.holds (D.kept folder.new name.now) file.new
        ≡ content_of D.holds (D.kept folder.old name.now) file.old }
    ensures named { IsOpenedBy D.name_of name.now file.old → IsOpenedBy D.name_of name.now file.new }
    ensures why { result ≡ None → FailsFor (D.faults folder.old) (D.faults folder.new) file.new }
    ensures nothing { file.old ≡ Absent → IsSome result }
    ensures stays { file.old ≡ Absent → file.new ≡ Absent }
    ensures broken { file.old ≡ Broken → result ≡ None }
    ensures kept { D.kept folder.new ≡ D.kept folder.old }
{
    open_first(folder, name, file);
    match file {
        PlaceFile::Open(file) => folder.sync(file).ok(),
        PlaceFile::Absent => Some(()),
        _ => None,
    }
}
