/// The longest side of the output, in pixels. This project's own rule.
pub const MOST_OUTPUT_SIDE: u32 = 32766;

/// How many columns and how many rows the output has ([MS-RDPEGFX] RDPGFX_RESET_GRAPHICS_PDU).
#[derive(Clone, Copy, Debug, PartialEq, Eq)]
pub struct Output {
    pub width: u32,
    pub height: u32,
}

/// Where a surface's top left corner stands on the output ([MS-RDPEGFX]
/// RDPGFX_MAP_SURFACE_TO_OUTPUT_PDU), in pixels from the top left.
#[derive(Clone, Copy, Debug, PartialEq, Eq)]
pub struct Place {
    pub x: u32,
    pub y: u32,
}
