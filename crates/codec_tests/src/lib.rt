//! Tests of the coders, transforms and quantising of RemoteFX through their public calls: values of an
//! independent program and the worked examples, as tables. The library crates have no tests of their own.
#![tactic(auto)]

#[cfg(test)]
mod bits;
#[cfg(test)]
mod dwt;
#[cfg(test)]
mod quant;
#[cfg(test)]
mod rlgr;
#[cfg(test)]
mod settings;
#[cfg(test)]
mod srl;
