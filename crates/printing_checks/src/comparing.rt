//! How the tests compare.
use std::fmt::Debug;
use std::process::Abort;

// `assert_eq!` as a function: it is proved once, and not for a second or two at each place.
pub(crate) fn equal<T: PartialEq + Debug + Drop>(rt: &impl Abort, answered: T, wanted: T) {
    assert_eq!(rt; answered, wanted);
}
