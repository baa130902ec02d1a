//! The input of a session that begins with kept bitmaps: the length of the server's file (u32, little-endian) and the
//! file, the length of the client's file and the file, then the text of a script up to the end. This project's own
//! format.
//!
//! In the pipe the crate stands on the loop that reads an input (`gfx_input`) and on the reader of kept files
//! (`gfx_import`), and below the program. An input goes in; the bitmaps of both files and the bytes of the script come
//! out, or why the input is refused, or what broke its reading off. What is in the script it doesn't know.
#![tactic(auto)]

mod file;
mod outcome;
mod reading;
mod taker;

pub use outcome::KeptInput;
pub use reading::read_kept_input;
