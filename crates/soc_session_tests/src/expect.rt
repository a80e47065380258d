//! What tests expect. A test that calls these owns nothing where an expectation fails, which makes its proof several times
//! cheaper than one with the assertions in it.
use std::fmt::Debug;
use std::process::Abort;

/// The two are equal.
pub(crate) fn same<T: PartialEq + Debug + Drop>(rt: &impl Abort, found: T, want: T) {
    assert_eq!(rt; found, want);
}

/// It holds.
pub(crate) fn holds(rt: &impl Abort, is: bool) {
    assert!(rt; is);
}
