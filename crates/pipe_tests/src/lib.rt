//! Tests of the program through its one public call, `run`: worked examples, and streams, reads and
//! writes that end too early. The answers are those of the definitions by hand, and of a reference
//! implementation. The library crates have no tests of their own.
#![tactic(auto)]

#[cfg(test)]
mod audit;
#[cfg(test)]
mod both;
#[cfg(test)]
mod choosers;
#[cfg(test)]
mod claiming;
#[cfg(test)]
mod clear;
#[cfg(test)]
mod encode;
#[cfg(test)]
mod examples;
#[cfg(test)]
mod import;
#[cfg(test)]
mod passes;
#[cfg(test)]
mod progressive;
#[cfg(test)]
mod render;
#[cfg(test)]
mod scripts;
#[cfg(test)]
mod session;
#[cfg(test)]
mod trial;
#[cfg(test)]
mod video;
