//! Paints by RemoteFX video at the server's end: the data of the messages that a picture is sent in, and what a surface
//! shows of them ([MS-RDPRFX] 2.2.2). A picture's tiles are its squares of 64 by 64 pixels from its own corner, each whole
//! and on its own; nothing of them stays live.
//!
//! In the pipe it stands between the codec (`gfx_rfx_video`), with the tiles of pictures below it (`gfx_prog_live`,
//! `gfx_tile_make`), and the planner, which says by which entropy coder a script's paints go, counts their messages, and
//! puts them in surface commands.
#![tactic(auto)]

mod laws;
mod messages;
mod tiles;

pub use laws::{video_paints_cover, video_payloads_are_short, video_payloads_show};
pub use messages::video_messages;
