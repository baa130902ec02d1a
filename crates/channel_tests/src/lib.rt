//! Tests of the channel's libraries through their public calls: worked examples and happy paths with
//! ample memory, and what is left where a read or a write fails. The library crates have no tests of
//! their own.
#![tactic(auto)]

#[cfg(test)]
mod bitmaps;
#[cfg(test)]
mod building;
#[cfg(test)]
mod caps;
#[cfg(test)]
mod claiming;
#[cfg(test)]
mod fragments;
#[cfg(test)]
mod framing;
#[cfg(test)]
mod messages;
#[cfg(test)]
mod multipart;
#[cfg(test)]
mod player;
#[cfg(test)]
mod reports;
#[cfg(test)]
mod sessions;
#[cfg(test)]
mod streams;
#[cfg(test)]
mod surface_cells;
#[cfg(test)]
mod surfaces;
#[cfg(test)]
mod windows;
