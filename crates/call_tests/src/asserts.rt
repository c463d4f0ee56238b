//! What the tests here assert with. `assert_eq!` is proved anew wherever it is written, with all that it may print; a
//! function is proved once.
use std::fmt::Debug;
use std::process::Abort;

/// Ends the test where a value that was found is not the expected one, and says both.
#[track_caller]
pub(crate) fn assert_same<T: PartialEq + Debug + Drop>(rt: &impl Abort, found: T, expected: T) {
    assert_eq!(rt; found, expected);
}

/// The same for a row of a table, which it names.
#[track_caller]
pub(crate) fn assert_row<L: Debug + Drop, T: PartialEq + Debug + Drop>(
    rt: &impl Abort,
    row: L,
    found: T,
    expected: T,
) {
    assert_eq!(rt; found, expected, "{row:?}");
}
