//! Tests of ClearCodec through its public calls: streams and values of an independent program and the worked
//! examples, as tables. The library crates have no tests of their own.
#![tactic(auto)]

#[cfg(test)]
mod claiming;
#[cfg(test)]
mod clear;
#[cfg(test)]
mod clear_bands;
#[cfg(test)]
mod clear_runs;
#[cfg(test)]
mod clear_store;
#[cfg(test)]
mod glyph;
#[cfg(test)]
mod noise;
#[cfg(test)]
mod rolled_back;
