/// A pixel as the graphics channel has it: blue, green, red and alpha, or an ignored byte
/// ([MS-RDPEGFX] RDPGFX_COLOR32).
#[derive(Clone, Copy, Debug, Default, PartialEq, Eq)]
pub struct Pixel {
    pub b: u8,
    pub g: u8,
    pub r: u8,
    pub a: u8,
}

/// How many bytes a pixel has in uncompressed data and in the budget of the cache.
pub const BYTES_PER_PIXEL: usize = 4;

/// A colour without alpha, in the order of the wire.
#[derive(Clone, Copy, Debug, Default, PartialEq, Eq)]
pub struct Rgb {
    pub b: u8,
    pub g: u8,
    pub r: u8,
}
