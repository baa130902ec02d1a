//! Tests of kept files, of their exchange, and of a client that begins with them, through the public calls: worked
//! examples, files that break a rule, and lists that end at each of the limits. The library crate has no tests of
//! its own.
#![tactic(auto)]

#[cfg(test)]
mod claiming;
#[cfg(test)]
mod clients;
#[cfg(test)]
mod exchange;
#[cfg(test)]
mod files;
#[cfg(test)]
mod making;
