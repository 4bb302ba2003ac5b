//! Assertions in functions of their own are proved once, and calls of them are proved quickly.

use std::fmt::Debug;
use std::process::Abort;

/// Tries that a value is the one that is wanted.
pub(super) fn same<T: Debug + Drop + PartialEq>(rt: &impl Abort, seen: T, want: T) {
    assert_eq!(rt; seen, want);
}

/// What could be made; the test ends where an error came.
pub(super) fn made<T: Drop, E: Debug + Drop>(rt: &impl Abort, tried: Result<T, E>) -> T {
    match tried {
        Ok(made) => made,
        Err(error) => panic!(rt; "{error:?}"),
    }
}
