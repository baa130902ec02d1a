//! The assertion of tests, which stands where nothing is held.
use std::process::Abort;

/// Ends the test where a claim is wrong.
pub fn claim(rt: &impl Abort, is_right: bool) {
    assert!(rt; is_right);
}
