//! The comparison of the tests of this crate.

use std::fmt::Debug;
use std::process::Abort;

/// Ends a test where two values differ, as `assert_eq!` does. That macro's text is proved wherever it stands, and a call of this costs a
/// quarter.
pub fn same<T: PartialEq + Debug>(rt: &impl Abort, found: &T, wanted: &T) {
    assert_eq!(rt; *found, *wanted);
}

/// The same at a place in a list, which the message gives.
pub fn same_at<P: Debug, T: PartialEq + Debug>(rt: &impl Abort, place: &P, found: &T, wanted: &T) {
    assert_eq!(rt; *found, *wanted, "at {place:?}");
}
