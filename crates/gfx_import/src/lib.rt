//! Bitmaps that both ends keep from one session to the next, and how a new session begins with them
//! ([MS-RDPEGFX] 3.2.5.13): the file in which an end keeps them, the client's offer, the server's reply, and which
//! bitmaps are in the caches then.
//!
//! What goes in are two kept files, or one and an offer or a reply. What comes out is the list of imported bitmaps,
//! the reply that announces them, or the cache that an end begins with. The crate stands on `gfx_layout` for its
//! formats, on `gfx_caps` for what an offer says of an entry, and on `gfx_bitmap_cache` for the caches and their limits; a cache that is made is the caller's.
#![tactic(auto)]

mod agreement;
mod answering;
mod entry;
mod file;
mod importing;
mod kept;
mod laws;
mod limits;
mod offer;
mod room;
mod taking;

pub use agreement::{agree, have_same_sides};
pub use answering::{Slots, read_reply, reply, write_reply};
pub use file::{read_kept, write_kept};
pub use importing::{fill_cache, import_cache};
pub use kept::Kept;
pub use laws::{
    a_client_begins_with_its_own, a_kept_file_is_read_back, an_offer_is_answered_by_its_reply,
    what_is_imported_is_chosen,
};
pub use limits::{MOST_ENTRIES, MOST_FILE, MOST_PIXELS};
pub use offer::write_offer;
pub use taking::{imported, imported_at, imported_count};
