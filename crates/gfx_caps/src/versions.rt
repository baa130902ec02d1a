//! The numbers of a capability set ([MS-RDPEGFX] 2.2.1.6, RDPGFX_CAPSET).

/// RDPGFX_CAPVERSION_8.
pub const VERSION_8: u32 = 0x0008_0004;

/// RDPGFX_CAPVERSION_81.
pub const VERSION_8_1: u32 = 0x0008_0105;

/// RDPGFX_CAPVERSION_10.
pub const VERSION_10: u32 = 0x000A_0002;

/// How many bytes of flags each of these versions has.
pub const FLAGS_SIZE: usize = 4;

/// RDPGFX_CAPS_FLAG_THINCLIENT.
pub const THIN_CLIENT: u32 = 1;

/// RDPGFX_CAPS_FLAG_SMALL_CACHE.
pub const SMALL_CACHE: u32 = 2;

/// RDPGFX_CAPS_FLAG_AVC_DISABLED, a flag of version 10.
pub const AVC_DISABLED: u32 = 0x20;
