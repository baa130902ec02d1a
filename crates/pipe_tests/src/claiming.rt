//! The assertions of tests. They stand here, where nothing is held: each way out of a test that holds what a run has
//! come to, as an assertion or `?`, makes its proof take longer.
use gfx_base::NoMemory;
use std::process::Abort;

/// Ends the test where a claim is wrong, or there is no memory.
pub fn claim(rt: &impl Abort, is_right: Result<bool, NoMemory>) {
    assert_eq!(rt; is_right, Ok(true));
}
