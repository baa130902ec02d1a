//! Tests of sessions through their own calls, where `run` doesn't come to what they show. The answers are those of an
//! independent program.
#![tactic(auto)]

#[cfg(test)]
mod kept;
