//! Fragments of a dynamic virtual channel ([MS-RDPEDYC] 2.2.3): a channel message is cut into fragments, and
//! fragments are joined to channel messages again.
//!
//! In the pipe it stands beside the framing of a recording: a recording of fragments has fragments where a stream has
//! channel messages. What is in a message it doesn't know.
//!
//! ```text
//!              a message in one fragment
//!                  +----+
//!                  v    |
//! Joiner::new() --> none --- first fragment ---> open --- the last one, gives the message --> none
//!                   |                            |  ^ |
//!                   |                            |  +-+ one between
//!                   +--- what is refused --------+--> refused (each later call answers it again)
//! ```
#![tactic(auto)]

mod fragment;
mod header;
mod joiner;
mod laws;
mod open;
mod profile;
mod splitting;

pub use joiner::Joiner;
pub use laws::{a_recorded_fragment_is_whole, any_cutting_gives_the_message, taking_joins};
pub use profile::{CHANNEL, MOST_FRAGMENT, PREFIX};
pub use splitting::split;
