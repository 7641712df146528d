//! Equal values.

use std::fmt::Debug;
use std::process::Abort;

/// Fails the test where the two differ, and shows both. An `assert_eq!` takes a second or more to prove wherever it
/// is, a call of this a tenth of that.
pub fn assert_same<T: PartialEq + Debug + Drop>(rt: &impl Abort, told: T, wanted: T) {
    assert_eq!(rt; told, wanted);
}
