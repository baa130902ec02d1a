//! Tests of scripts by number. The library crates have no tests of their own.
#![tactic(auto)]

#[cfg(test)]
mod scripts;
