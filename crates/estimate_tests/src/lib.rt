//! Tests of what a picture costs, and of the chooser that goes by it, through public calls. What is expected was measured
//! in the streams of a reference implementation, but for passes, which are reckoned.
#![tactic(auto)]

#[cfg(test)]
mod claiming;
#[cfg(test)]
mod sizes;
