//! What all crates of the graphics pipe share: refusals and faults, pixels, colours, rectangles and cells,
//! lists of them, little-endian fields, the most bytes of a channel message, and the two traits of the
//! outside, `Source` and `Sink`.
//!
//! The other crates stand on this one, and it stands on none.
#![tactic(auto)]

mod answer;
mod bitmap;
mod cells;
mod colour;
mod fields;
mod fitting;
mod format;
mod geometry;
mod items;
mod pixel;
mod refusal;
mod sink;
mod source;

pub use answer::{Cause, Failed, Fault, NoMemory};
pub use bitmap::Bitmap;
pub use cells::{Cells, cells_along};
pub use colour::hash_of;
pub use fields::{field_u16, field_u32, field_u64};
pub use fitting::{all_lie_in, fits_at, fits_at_all, moved_to};
pub use format::Format;
pub use geometry::{CELL_SIDE, Cell, Point, Rect};
pub use items::{Bytes, Items, Pixels, Points, Rects, Rgbs};
pub use pixel::{BYTES_PER_PIXEL, Pixel, Rgb};
pub use refusal::Refusal;
pub use sink::{Sink, VecSink, write_all};
pub use source::{SliceSource, Source};

/// A channel message has at most so many bytes, be it whole or joined of fragments. This project's own rule.
pub const MOST_MESSAGE: u32 = 67_108_864;
