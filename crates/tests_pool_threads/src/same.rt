//! What a test wants and what it got, in functions of their own: each is proved once, and costs its caller a call.

use std::process::Abort;
use std::test::*;

/// Two numbers are the same.
pub fn same<R: Abort>(rt: &R, got: u64, wanted: u64) {
    assert_eq!(rt; got, wanted);
}

/// So are three.
pub fn same_three<R: Abort>(rt: &R, got: [u64; 3], wanted: [u64; 3]) {
    assert_eq!(rt; got, wanted);
}

/// Two numbers that were read are the same.
pub fn same_read<R: Abort>(rt: &R, got: i64, wanted: i64) {
    assert_eq!(rt; got, wanted);
}

/// Two texts are the same.
pub fn same_text<R: Abort>(rt: &R, got: &str, wanted: &str) {
    assert_eq!(rt; got, wanted);
}
