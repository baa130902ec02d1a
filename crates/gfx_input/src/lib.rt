//! How an input is read: piece by piece, to its end, one byte past its limit, or where what it is given
//! to takes no more. What it is given to may write while it takes.
//!
//! In the pipe it stands on the source and the sink alone, and below the program, which gives a recording to
//! a client and the text of a script to a list of bytes by this one loop. A source and a taker go in; why the
//! reading ended comes out, or what broke it off.
#![tactic(auto)]

mod fault;
mod nowhere;
mod reading;
mod taker;

pub use fault::{InputFault, TakeFault};
pub use nowhere::Nowhere;
pub use reading::{PIECE, Read, read_input};
pub use taker::{Taken, Taker};
