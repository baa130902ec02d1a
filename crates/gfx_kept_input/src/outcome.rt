use gfx_base::{Bytes, Refusal};
use gfx_import::Kept;

/// What an input with two kept files comes to.
#[derive(Drop)]
pub enum KeptInput {
    /// What the server's file keeps, what the client's keeps, and the bytes of the script.
    Whole {
        server: Kept,
        client: Kept,
        script: Bytes,
    },
    /// Neither file is refused, and the script is longer than the limit.
    TooLong,
    /// KeptShape: a length or a file that isn't all there, a length above 67,108,864, or a file that isn't a kept
    /// file, the server's before the client's. KeptDiffers: both files hold a key with as many bytes, and with other
    /// sides or pixels.
    Refused(Refusal),
}
