//! Formats, each described once: a description of bytes from which reading, spelling, length and the
//! laws between them follow (`specs/Layout`), and on the code's side a reader that goes forward field
//! by field and the parts and lists that are put at an end. Beside it stands the header that all messages of
//! the channel begin with (`specs/Header`).
//!
//! Formats stand on it: the messages of `gfx_pdu`, and those that codecs have in their data.
#![tactic(auto)]

mod fields;
mod header;
mod part;
mod putting;
mod stop;

pub use fields::Fields;
pub use header::{HEADER, put_header, read_number, read_size};
pub use part::Part;
pub use putting::{kept, put_bytes, put_items, put_list, put_sized, put_zeros};
pub use stop::Stop;
