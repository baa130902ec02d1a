//! The assertions of tests that hold what is let go of at their end. They stand here, where nothing is held: each way
//! out of a test that holds a state or a store, as an assertion or `?`, makes its proof take longer by many seconds.
use gfx_base::NoMemory;
use gfx_clear::ClearState;
use std::process::Abort;

/// Ends the test where a claim is wrong.
pub fn claim(rt: &impl Abort, is_right: bool) {
    assert!(rt; is_right);
}

/// Ends the test where a claim is wrong, or there is no memory.
pub fn claim_with_memory(rt: &impl Abort, is_right: Result<bool, NoMemory>) {
    assert!(rt; matches!(is_right, Ok(true)));
}

/// Lets go of a state, which is proved once here.
pub fn let_go(state: ClearState) {
    drop(state);
}
