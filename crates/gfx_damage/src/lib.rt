//! Which part of the screen the messages since the end of a frame have written, so that a client that shows a
//! frame looks at those rectangles alone.
//!
//! It stands above the state, whose step it makes and whose definitions say what a message writes, and below the
//! client, which holds one. Of each surface at most `MOST_RECTS` rectangles are kept: those that were written, as long as
//! they are no more, and else rectangles that cover them. The function of the laws has no parameters and no work to
//! do: it states them, and its contract is the law.
#![tactic(auto)]

mod adding;
mod damage;
mod drawing;
mod few_rects;
mod kinds;
mod laws;

pub use adding::MOST_RECTS;
pub use damage::Damage;
pub use laws::damage_covers_what_is_written;
