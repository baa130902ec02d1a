//! The numbers of kept files and of the messages about them.

/// A kept file begins with these four bytes as a little-endian number: "KEPT". This project's own rule.
pub const MARK: u32 = 0x5450_454B;

/// The most entries of a kept file: this project's own rule, which leaves an offer of all of them within
/// the standard's limit ([MS-RDPEGFX] 2.2.2.16).
pub const MOST_ENTRIES: usize = 5_461;

/// The most bytes of a kept file where one stands in an input: this project's own rule.
pub const MOST_FILE: usize = 67_108_864;

/// The most pixels of a kept bitmap: no file of at most so many bytes has a larger one. This project's own
/// rule.
pub const MOST_PIXELS: usize = 16_777_216;

/// RDPGFX_CMDID_CACHEIMPORTOFFER ([MS-RDPEGFX] 2.2.1.5).
pub const OFFER: u16 = 0x10;

/// RDPGFX_CMDID_CACHEIMPORTREPLY ([MS-RDPEGFX] 2.2.1.5).
pub const REPLY: u16 = 0x11;
