//! Tests of progressive tiles through their public calls: records, the source's side, and blocks, with values
//! of an independent program and the worked examples, as tables. The library crates have no tests of their own.
#![tactic(auto)]

#[cfg(test)]
mod prog_block;
#[cfg(test)]
mod source_tiles;
#[cfg(test)]
mod tiles;
