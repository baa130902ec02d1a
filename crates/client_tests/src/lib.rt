//! Tests of a client in a living session, through its public calls: what of the screen each kind of message writes,
//! and which replies it passes over. The library crate has no tests of its own.
#![tactic(auto)]

#[cfg(test)]
mod claiming;
#[cfg(test)]
mod damage;
#[cfg(test)]
mod living;
