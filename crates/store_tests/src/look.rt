//! Assertions: each ends the test if a value is not the wanted one.

use std::process::Abort;

pub fn holds(rt: &impl Abort, fact: bool, what: &str) {
    assert!(rt; fact, "{what}");
}

/// A count.
pub fn count(rt: &impl Abort, got: usize, want: usize, what: &str) {
    assert_eq!(rt; got, want, "{what}");
}

/// The words of a row.
pub fn words(rt: &impl Abort, row: &[u64], want: &[u64], what: &str) {
    assert_eq!(rt; row, want, "{what}");
}
