ghost use Rattle.std.specs.Prelude.{◌≡◌};
ghost use Rattle.gfx_script.specs.Ways.{is_in_passes, is_stream, is_video, way_of, way_of_tiles};

use crate::step::Kind;
use gfx_clear::Layer;

/// The way in which a picture goes to the client.
#[derive(Clone, Copy, Debug, PartialEq, Eq)]
pub enum Way {
    /// Pixel by pixel, in the format of its surface ([MS-RDPEGFX] 2.2.4, RDPGFX_CODECID_UNCOMPRESSED).
    Uncompressed,
    /// As one ClearCodec stream, by this layer (2.2.4.1).
    ByLayer(Layer),
    /// As tiles of RemoteFX Progressive, which later steps raise (2.2.4.2).
    InPasses,
    /// As tiles of RemoteFX video, which nothing raises (2.2.2.1, RDPGFX_CODECID_CAVIDEO, and [MS-RDPRFX]).
    Video,
}

impl Kind {
    /// The way of a picture of this kind, to a client that is thin or to one that isn't.
    pub fn way(self, thin: bool) -> Way
        ensures { result ≡ way_of thin self }
    {
        match self {
            Kind::Raw => Way::Uncompressed,
            Kind::Residual => Way::ByLayer(Layer::Residual),
            Kind::Bands => Way::ByLayer(Layer::Bands),
            Kind::Palette => Way::ByLayer(Layer::Palette),
            Kind::Plain => Way::ByLayer(Layer::Plain),
            Kind::Progressive => way_of_tiles(thin),
            Kind::Video => Way::Video,
        }
    }
}

/// The way of a picture that goes as tiles. A thin client decodes RemoteFX video in place of RemoteFX Progressive
/// ([MS-RDPEGFX] 2.2.3.1, RDPGFX_CAPS_FLAG_THINCLIENT).
fn way_of_tiles(thin: bool) -> Way
    ensures { result ≡ way_of_tiles thin }
{
    if thin { Way::Video } else { Way::InPasses }
}

impl Way {
    /// Whether a picture goes as one ClearCodec stream.
    pub fn is_stream(self) -> bool
        ensures { result ≡ is_stream self }
    {
        match self {
            Way::Uncompressed | Way::InPasses | Way::Video => false,
            Way::ByLayer(_) => true,
        }
    }

    /// Whether a picture goes as tiles that later steps raise.
    pub fn is_in_passes(self) -> bool
        ensures { result ≡ is_in_passes self }
    {
        match self {
            Way::Uncompressed | Way::ByLayer(_) | Way::Video => false,
            Way::InPasses => true,
        }
    }

    /// Whether a picture goes as RemoteFX video, whose tiles no later step raises.
    pub fn is_video(self) -> bool
        ensures { result ≡ is_video self }
    {
        match self {
            Way::Uncompressed | Way::ByLayer(_) | Way::InPasses => false,
            Way::Video => true,
        }
    }
}
