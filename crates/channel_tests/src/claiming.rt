//! The assertions of tests. They stand here, where nothing is held: each way out of a test that holds a client, a plan
//! or a message, as an assertion or `?`, makes its proof take longer by many seconds.
use gfx_base::Fault;
use std::process::Abort;

/// Ends the test where a claim is wrong, or there is no memory.
pub fn claim(rt: &impl Abort, is_right: Result<bool, Fault>) {
    assert_eq!(rt; is_right, Ok(true));
}
