//! The numbers of the framing.

/// How many bytes the length before a channel message has, and likewise the size before a block.
pub const PREFIX: usize = 4;

/// No payload that is wrapped is longer: this project's own rule.
pub const MOST_PAYLOAD: usize = 67_000_000;

/// The descriptor of a message of one block ([MS-RDPEGFX] 2.2.5.1, SINGLE).
pub const SINGLE: u8 = 0xE0;

/// The descriptor of a message of several blocks ([MS-RDPEGFX] 2.2.5.1, MULTIPART).
pub const MULTIPART: u8 = 0xE1;

/// Where the content's size stands behind that descriptor, after the count of the blocks.
pub const SIZE_AT: usize = 2;

/// Where the blocks begin behind that descriptor.
pub const SEGMENTS_AT: usize = 6;

/// The compression type of a block is its header modulo this: the low four bits.
pub const TYPES: u8 = 16;

/// The compression type of a block's header ([MS-RDPEGFX] 2.2.5.3, PACKET_COMPR_TYPE_RDP8).
pub const RDP8: u8 = 0x04;

/// The bit of a block's header that says that its content is compressed ([MS-RDPEGFX] 2.2.5.3,
/// PACKET_COMPRESSED).
pub const COMPRESSED: u8 = 0x20;

/// No block has more content ([MS-RDPEGFX] 2.2.5.3).
pub const MOST_BLOCK: usize = 65_535;
