//! Tests of the commands on fragments through their public calls: worked examples, sizes at each border of the
//! writer's forms, inputs that are cut at each byte, and what is left where a read or a write fails. The library crate
//! has no tests of its own.
#![tactic(auto)]

#[cfg(test)]
mod examples;
#[cfg(test)]
mod faults;
#[cfg(test)]
mod running;
#[cfg(test)]
mod sizes;
