//! Tests of RemoteFX video through its public calls: messages on a surface, and codes both ways, by an independent
//! program. The library crate has no tests of its own.
#![tactic(auto)]

#[cfg(test)]
mod messages;
#[cfg(test)]
mod rlgr3;
#[cfg(test)]
mod sending;
