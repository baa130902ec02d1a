//! What a picture costs by each kind that it may go as, without writing it, and a chooser that goes by that.
//!
//! In the pipe it stands beside the choosers, which are asked before a picture is sent: a server's end that is fed
//! brings `BySize`. Sizes are those of the data that the planner sends; bands and passes, which go by what was sent
//! before or by the picture's waves, are reckoned roughly. The rules are this project's own.
#![tactic(auto)]

mod by_size;
mod columns;
mod laws;
mod runs;
mod sizes;

pub use by_size::BySize;
pub use laws::sizes_go_by_no_state;
pub use sizes::{Sizes, estimate};
