//! Laws on the whole, in other words than the definitions that both ends of the pipe and its promise share: an error
//! in one of those would agree with itself, and is refused here.
//!
//! The main theorem is here: at each frame that the server's end has seen acknowledged, each pixel of the client's
//! surfaces is as a step of the script wrote it. Others say, of what a script wants from any start, how live tiles go on,
//! what the bitmap of a key is, which pixel a paint in passes, or as video, shows at each place, which tiles an improvement
//! raises and where it writes, that all else stays as it was, and that to a thin client no tile is live; what a whole
//! channel message of any stream comes to; that the choosers of a session may be changed between its turns; that a
//! server's end and a client which a program joins by two queues of its own are a session; that two ends that differ in
//! pixels alone refuse the same messages; and that what a picture is said to cost is what its message has. It holds laws
//! alone, and nothing stands on it.
#![tactic(auto)]

mod acknowledged;
mod callers;
mod costs;
mod seen;
mod sessions;
mod streams;
mod wanted;

pub use acknowledged::{every_feed_shows_its_script, every_session_shows_its_script};
pub use callers::{
    alike_ends_refuse_together, draining_is_turns, joined_ends_are_a_session, sessions_may_begin,
};
pub use costs::sizes_are_sent;
pub use seen::{
    improvements_raise_live_tiles, paints_in_passes_show_their_source, pixels_stay_until_written,
    thin_clients_have_no_live_tiles, video_paints_show_their_source,
};
pub use sessions::{any_choosers_may_be_brought, later_kinds_are_not_seen};
pub use streams::whole_messages_are_delivered;
pub use wanted::{
    bitmaps_are_as_kept, live_tiles_go_on, paints_show_their_level, pixels_are_as_written,
    premises_hold,
};
