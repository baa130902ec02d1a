//! How a picture goes whose paint names no kind: choosers are asked in order until one answers, and one that
//! is spent is dropped at once. A caller brings its own, behind the trait `Chooser`; three are here.
//!
//! In the pipe it stands between a script and the two ends that send its steps: a session asks when a step is
//! queued, the writer of a stream when it comes to the step. What a chooser answers is a function of what it
//! holds and of what it was asked, so the kinds of a script follow from the choosers that it begins with. The
//! rule is this project's own.
#![tactic(auto)]

mod chooser;
mod choosers;
mod choosing;
mod colours;
mod facts;
mod laws;

pub use chooser::Chooser;
pub use choosers::{ByArea, ByColours, Once};
pub use choosing::{choose, kind_at};
pub use colours::count_colours;
pub use facts::{Facts, MOST_COLOURS, PictureRef, facts_of};
pub use laws::chosen_kinds_fit;
