//! The assertions of tests. They stand here, where nothing is held: each way out of a test that holds a client, as an
//! assertion or `?`, makes its proof take longer by many seconds.
use gfx_base::NoMemory;
use gfx_client::{Client, ClientFault, Offers};
use std::alloc::Global;
use std::process::Abort;

/// Ends the test where a claim is wrong, or a client has a fault.
pub fn claim(rt: &impl Abort, is_right: Result<bool, ClientFault>) {
    assert_eq!(rt; is_right, Ok(true));
}

/// A client in a living session, which offers nothing.
pub fn living(alloc: Global) -> Result<Client, NoMemory> {
    Client::living(alloc, Offers::new(alloc))
}
