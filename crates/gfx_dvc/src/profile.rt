//! The numbers of fragments ([MS-RDPEDYC] 2.2.3).

/// The kind of a fragment is its first byte divided by this: the high four bits (Cmd).
pub const KIND_AT: u8 = 16;

/// The kind of a fragment that opens a message ([MS-RDPEDYC] 2.2.3.1, DYNVC_DATA_FIRST).
pub const DATA_FIRST: u8 = 2;

/// The kind of one with data alone ([MS-RDPEDYC] 2.2.3.2, DYNVC_DATA).
pub const DATA: u8 = 3;

/// The kind of a compressed DATA_FIRST ([MS-RDPEDYC] 2.2.3.3).
pub const DATA_FIRST_COMPRESSED: u8 = 6;

/// The kind of a compressed DATA ([MS-RDPEDYC] 2.2.3.4).
pub const DATA_COMPRESSED: u8 = 7;

/// A width is one of so many: two bits of the first byte.
pub const WIDTHS: u8 = 4;

/// The width of the total is the first byte divided by this, of its low two bits (Len).
pub const TOTAL_WIDTH_AT: u8 = 4;

/// The width of a number of one byte; one of four bytes has 2.
pub const ONE_BYTE: u8 = 0;

/// The width of a number of two bytes.
pub const TWO_BYTES: u8 = 1;

/// The width that no number has.
pub const NO_WIDTH: u8 = 3;

/// The channel whose fragments are written: this project's own rule.
pub const CHANNEL: u8 = 1;

/// The first byte of a DATA that is written.
pub const DATA_BYTE: u8 = 0x30;

/// The first byte of a DATA_FIRST that is written with a total of two bytes.
pub const NARROW_BYTE: u8 = 0x24;

/// The first byte of a DATA_FIRST that is written with a total of four bytes.
pub const WIDE_BYTE: u8 = 0x28;

/// How many bytes the length before a recorded fragment has: this project's own rule.
pub const PREFIX: usize = 2;

/// A fragment of a recording has at most so many bytes ([MS-RDPEDYC] 2.2.3.1).
pub const MOST_FRAGMENT: usize = 1_600;

/// A message of so many bytes is written as one DATA: this project's own rule.
pub const MOST_LONE: usize = 1_590;

/// A total of so many is written in two bytes.
pub const MOST_NARROW: usize = 65_535;

/// The most data of a DATA that is written, behind its header of two bytes.
pub const MOST_DATA: usize = MOST_FRAGMENT - 2;

/// The most data of a DATA_FIRST that is written, behind its header of four bytes.
pub const MOST_NARROW_DATA: usize = MOST_FRAGMENT - 4;

/// The same behind a header of six bytes, where the total has four.
pub const MOST_WIDE_DATA: usize = MOST_FRAGMENT - 6;
