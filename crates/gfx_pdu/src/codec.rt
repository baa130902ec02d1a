//! The codecs of the messages that carry data of a picture.
ghost use Rattle.std.specs.Prelude.{◌≡◌};
ghost use Rattle.gfx_pdu.specs.Codecs.{codec_of, id_of};

/// RDPGFX_CODECID_CAPROGRESSIVE ([MS-RDPEGFX] 2.2.2.2), the one codec of RDPGFX_WIRE_TO_SURFACE_PDU_2 that is built.
pub const PROGRESSIVE: u16 = 0x9;

/// A codec of RDPGFX_WIRE_TO_SURFACE_PDU_1 that is built ([MS-RDPEGFX] 2.2.2.1, codecId).
#[derive(Clone, Copy, Debug, PartialEq, Eq)]
pub enum Codec {
    /// Four bytes a pixel: blue, green, red, alpha.
    Uncompressed,
    /// RemoteFX video ([MS-RDPRFX] 2.2.2).
    Video,
    /// ClearCodec ([MS-RDPEGFX] 2.2.4.1).
    ClearCodec,
}

impl Codec {
    /// The codec of an id as it stands on the wire, if it is built.
    #[tactic(auto, unfolding(crate::specs::Codecs::codec_of))]
    pub fn from_id(id: u16) -> Option<Codec>
        ensures { result ≡ codec_of id }
    {
        match id {
            0x0 => Some(Codec::Uncompressed),
            0x3 => Some(Codec::Video),
            0x8 => Some(Codec::ClearCodec),
            _ => None,
        }
    }

    /// Its id on the wire.
    pub fn id(self) -> u16
        ensures { result ≡ id_of self }
    {
        match self {
            Codec::Uncompressed => 0x0,
            Codec::Video => 0x3,
            Codec::ClearCodec => 0x8,
        }
    }
}
