//! Scripts by number: the text of a recorded screen that anybody can make again. A script of this kind has one
//! surface and three pictures, a hundred frames of drawn steps, and drawn turns, all of which follow from its
//! number. First a step is drawn, then it is written; the definitions keep the two apart.
//!
//! It stands on `gfx_base` and `gfx_line`, and reads no script.
#![tactic(auto)]

mod drawing;
mod frames;
mod generator;
mod kind;
mod picture;
mod rounds;
mod script;
mod step;
mod texts;

pub use script::make_script;
