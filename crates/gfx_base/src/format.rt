ghost use Rattle.std.specs.Prelude.{◌≡◌};
ghost use Rattle.gfx_base.specs.Format.{byte_of, format_of};

/// Whether a surface keeps alpha ([MS-RDPEGFX] RDPGFX_PIXELFORMAT).
#[derive(Clone, Copy, Debug, PartialEq, Eq)]
pub enum Format {
    /// PIXEL_FORMAT_XRGB_8888: alpha is always 255.
    Xrgb,
    /// PIXEL_FORMAT_ARGB_8888: alpha is kept.
    Argb,
}

/// The byte of PIXEL_FORMAT_XRGB_8888.
pub const XRGB_BYTE: u8 = 0x20;

/// The byte of PIXEL_FORMAT_ARGB_8888.
pub const ARGB_BYTE: u8 = 0x21;

impl Format {
    /// The format that a byte of a message names, if it names one.
    pub fn from_byte(byte: u8) -> Option<Format>
        ensures { result ≡ format_of byte }
    {
        match byte {
            XRGB_BYTE => Some(Format::Xrgb),
            ARGB_BYTE => Some(Format::Argb),
            _ => None,
        }
    }

    /// The byte that names this format in a message.
    pub fn byte(self) -> u8
        ensures { result ≡ byte_of self }
    {
        match self {
            Format::Xrgb => XRGB_BYTE,
            Format::Argb => ARGB_BYTE,
        }
    }
}
