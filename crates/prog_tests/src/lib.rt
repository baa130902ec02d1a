//! Tests of progressive messages through the public calls, with values of an independent program and the worked
//! examples, as tables. The library crates have no tests of their own.
#![tactic(auto)]

#[cfg(test)]
mod messages;
#[cfg(test)]
mod sending;
