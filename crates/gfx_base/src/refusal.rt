ghost use Rattle.std.specs.Prelude.{◌≡◌};
ghost use Rattle.gfx_base.specs.Refusal.{number_of, name_of};

use thiserror::Error;

/// Why a message, a stream or a script is refused. Each has a number and a name, which reports print.
/// The numbers and the names are this project's own.
#[derive(Clone, Copy, Debug, PartialEq, Eq, Error)]
pub enum Refusal {
    /// The stream ends inside a channel message.
    #[error("the stream ends inside a channel message")]
    ChannelTruncated = 1,
    /// A channel message's length is 0 or above the limit.
    #[error("a channel message's length is 0 or above the limit")]
    ChannelLength = 2,
    /// A descriptor or a bulk header that isn't one of this profile.
    #[error("a descriptor or a bulk header isn't one of this profile")]
    Descriptor = 3,
    /// A segment's sizes don't agree with its bytes.
    #[error("a segment's sizes don't agree with its bytes")]
    SegmentSize = 4,
    /// A segment is compressed, which this profile leaves out.
    #[error("a segment is compressed, which this profile leaves out")]
    BulkCompressed = 5,
    /// A message is longer than the bytes that hold it.
    #[error("a message is longer than the bytes that hold it")]
    PduTruncated = 6,
    /// A message's length is below that of its header.
    #[error("a message's length is below that of its header")]
    PduLength = 7,
    /// A message's id isn't one of its direction.
    #[error("a message's id isn't one of its direction")]
    PduUnknown = 8,
    /// A body doesn't end where its message does.
    #[error("a body doesn't end where its message does")]
    CountMismatch = 9,
    /// No surface has this id.
    #[error("no surface has this id")]
    NoSurface = 10,
    /// A surface has this id already.
    #[error("a surface has this id already")]
    SurfaceExists = 11,
    /// A surface's side is 0 or above the limit.
    #[error("a surface's side is 0 or above the limit")]
    SurfaceSize = 12,
    /// The surfaces would be too many, or too large together.
    #[error("the surfaces would be too many, or too large together")]
    SurfaceBudget = 13,
    /// A rectangle or a point lies outside its surface.
    #[error("a rectangle or a point lies outside its surface")]
    RectOutside = 14,
    /// A pixel format that is neither XRGB nor ARGB.
    #[error("a pixel format is neither XRGB nor ARGB")]
    PixelFormat = 15,
    /// A codec that isn't in this profile.
    #[error("a codec isn't in this profile")]
    CodecRefused = 16,
    /// A payload hasn't the length that its rectangle asks for.
    #[error("a payload hasn't the length that its rectangle asks for")]
    PayloadLength = 17,
    /// A cache slot outside its range.
    #[error("a cache slot is outside its range")]
    SlotRange = 18,
    /// A cache slot that holds nothing.
    #[error("a cache slot holds nothing")]
    SlotEmpty = 19,
    /// The bitmaps would exceed the cache.
    #[error("the bitmaps would exceed the cache")]
    CacheBudget = 20,
    /// A frame starts while one is open.
    #[error("a frame starts while one is open")]
    FrameOpen = 21,
    /// A frame ends that isn't open.
    #[error("a frame ends that isn't open")]
    FrameMismatch = 22,
    /// A capability version that isn't in this profile.
    #[error("a capability version isn't in this profile")]
    CapsVersion = 23,
    /// ClearCodec: a glyph hit without a glyph index.
    #[error("ClearCodec: a glyph hit has no glyph index")]
    ClearFlags = 24,
    /// ClearCodec: a sequence number other than the next.
    #[error("ClearCodec: a sequence number is not the next")]
    ClearSequence = 25,
    /// ClearCodec: bytes are missing or left over.
    #[error("ClearCodec: bytes are missing or left over")]
    ClearLengths = 26,
    /// ClearCodec: runs that don't cover their area exactly.
    #[error("ClearCodec: runs don't cover their area exactly")]
    RunTotal = 27,
    /// ClearCodec: a band that isn't one, lies outside, or is too high.
    #[error("ClearCodec: a band isn't one, lies outside, or is too high")]
    BandShape = 28,
    /// ClearCodec: a bar ends above its start.
    #[error("ClearCodec: a bar ends above its start")]
    BarOrder = 29,
    /// ClearCodec: a hit on a place that was never written.
    #[error("ClearCodec: a hit is on a place that was never written")]
    BarEmpty = 30,
    /// ClearCodec: a hit on a bar of another height.
    #[error("ClearCodec: a hit is on a bar of another height")]
    BarHeight = 31,
    /// ClearCodec: a subcodec that isn't in this profile.
    #[error("ClearCodec: a subcodec isn't in this profile")]
    SubcodecRefused = 32,
    /// ClearCodec: a palette's count, stop or depth out of range.
    #[error("ClearCodec: a palette's count, stop or depth is out of range")]
    PaletteRange = 33,
    /// ClearCodec: a glyph index out of range.
    #[error("ClearCodec: a glyph index is out of range")]
    GlyphIndex = 34,
    /// ClearCodec: a glyph of too large an area.
    #[error("ClearCodec: a glyph has too large an area")]
    GlyphArea = 35,
    /// ClearCodec: a hit on a glyph that was never written.
    #[error("ClearCodec: a hit is on a glyph that was never written")]
    GlyphEmpty = 36,
    /// ClearCodec: a hit on a glyph of another size.
    #[error("ClearCodec: a hit is on a glyph of another size")]
    GlyphSize = 37,
    /// Progressive: a block's length doesn't fit.
    #[error("Progressive: a block's length doesn't fit")]
    BlockLength = 38,
    /// Progressive: a block of an unknown type, or in the wrong place.
    #[error("Progressive: a block has an unknown type, or stands in the wrong place")]
    BlockUnknown = 39,
    /// Progressive: more or fewer tiles than the region says.
    #[error("Progressive: there are more or fewer tiles than the region says")]
    TileCount = 40,
    /// Progressive: a tile that begins outside the surface.
    #[error("Progressive: a tile begins outside the surface")]
    TileOutside = 41,
    /// Progressive: an index of a quant that isn't there.
    #[error("Progressive: a quant's index names none")]
    QuantIndex = 42,
    /// Progressive: a quant below the least.
    #[error("Progressive: a quant is below the least")]
    QuantRange = 43,
    /// Progressive: an index of a quality that isn't there.
    #[error("Progressive: a quality's index names none")]
    QualityIndex = 44,
    /// Progressive: an upgrade of a tile without a first pass.
    #[error("Progressive: an upgrade is of a tile without a first pass")]
    NoFirstPass = 45,
    /// Progressive: an upgrade to a lower quality.
    #[error("Progressive: an upgrade is to a lower quality")]
    QualityWorse = 46,
    /// Progressive: an upgrade by another transform.
    #[error("Progressive: a pass goes by another transform than those before it")]
    TransformChanged = 47,
    /// A coefficient outside 16 bits.
    #[error("a coefficient leaves the range of 16 bits")]
    CoefficientRange = 48,
    /// Progressive: more tile records than the limit.
    #[error("Progressive: there would be more tile records than the limit")]
    TileBudget = 49,
    /// ResetGraphics: more monitors than the limit.
    #[error("ResetGraphics: there are more monitors than the limit")]
    MonitorCount = 51,
    /// ResetGraphics: an output side out of range.
    #[error("ResetGraphics: an output side is out of range")]
    OutputSize = 52,
    /// RemoteFX video: entropy bits that name neither RLGR1 nor RLGR3.
    #[error("RemoteFX video: entropy bits name neither RLGR1 nor RLGR3")]
    EntropyUnknown = 53,
    /// Kept bitmaps: bytes that aren't a file of them.
    #[error("kept bitmaps: the bytes aren't a file of them")]
    KeptShape = 54,
    /// Cache import: a reply with more slots than entries were offered.
    #[error("cache import: a reply has more slots than entries were offered")]
    ImportCount = 55,
    /// Fragments: a fragment that is shorter than its header, or longer than its message.
    #[error("fragments: a fragment is shorter than its header, or longer than its message")]
    FragmentLength = 56,
    /// Fragments: a first fragment while a message is open.
    #[error("fragments: a first fragment comes while a message is open")]
    FragmentOrder = 57,
    /// Fragments: a fragment of another channel.
    #[error("fragments: a fragment is of another channel")]
    FragmentChannel = 58,
    /// Fragments: a fragment of an unknown kind, or with an unknown width of a number.
    #[error("fragments: a fragment has an unknown kind, or a number of an unknown width")]
    FragmentKind = 59,
    /// Kept bitmaps: the two ends hold different bitmaps of one length under one key.
    #[error("kept bitmaps: the ends hold different bitmaps of one length under one key")]
    KeptDiffers = 60,
}

impl Refusal {
    /// The number that reports print: 1 to 60, but for 50, which is none of a message, a stream or a script.
    pub fn number(self) -> u8
        ensures { result ≡ number_of self }
    {
        self as u8
    }

    /// The name that reports print, as it stands in this enum.
    pub fn name(self) -> &'static str
        ensures { result.now ≡ name_of self }
    {
        match self {
            Refusal::ChannelTruncated => "ChannelTruncated",
            Refusal::ChannelLength => "ChannelLength",
            Refusal::Descriptor => "Descriptor",
            Refusal::SegmentSize => "SegmentSize",
            Refusal::BulkCompressed => "BulkCompressed",
            Refusal::PduTruncated => "PduTruncated",
            Refusal::PduLength => "PduLength",
            Refusal::PduUnknown => "PduUnknown",
            Refusal::CountMismatch => "CountMismatch",
            Refusal::NoSurface => "NoSurface",
            Refusal::SurfaceExists => "SurfaceExists",
            Refusal::SurfaceSize => "SurfaceSize",
            Refusal::SurfaceBudget => "SurfaceBudget",
            Refusal::RectOutside => "RectOutside",
            Refusal::PixelFormat => "PixelFormat",
            Refusal::CodecRefused => "CodecRefused",
            Refusal::PayloadLength => "PayloadLength",
            Refusal::SlotRange => "SlotRange",
            Refusal::SlotEmpty => "SlotEmpty",
            Refusal::CacheBudget => "CacheBudget",
            Refusal::FrameOpen => "FrameOpen",
            Refusal::FrameMismatch => "FrameMismatch",
            Refusal::CapsVersion => "CapsVersion",
            Refusal::ClearFlags => "ClearFlags",
            Refusal::ClearSequence => "ClearSequence",
            Refusal::ClearLengths => "ClearLengths",
            Refusal::RunTotal => "RunTotal",
            Refusal::BandShape => "BandShape",
            Refusal::BarOrder => "BarOrder",
            Refusal::BarEmpty => "BarEmpty",
            Refusal::BarHeight => "BarHeight",
            Refusal::SubcodecRefused => "SubcodecRefused",
            Refusal::PaletteRange => "PaletteRange",
            Refusal::GlyphIndex => "GlyphIndex",
            Refusal::GlyphArea => "GlyphArea",
            Refusal::GlyphEmpty => "GlyphEmpty",
            Refusal::GlyphSize => "GlyphSize",
            Refusal::BlockLength => "BlockLength",
            Refusal::BlockUnknown => "BlockUnknown",
            Refusal::TileCount => "TileCount",
            Refusal::TileOutside => "TileOutside",
            Refusal::QuantIndex => "QuantIndex",
            Refusal::QuantRange => "QuantRange",
            Refusal::QualityIndex => "QualityIndex",
            Refusal::NoFirstPass => "NoFirstPass",
            Refusal::QualityWorse => "QualityWorse",
            Refusal::TransformChanged => "TransformChanged",
            Refusal::CoefficientRange => "CoefficientRange",
            Refusal::TileBudget => "TileBudget",
            Refusal::MonitorCount => "MonitorCount",
            Refusal::OutputSize => "OutputSize",
            Refusal::EntropyUnknown => "EntropyUnknown",
            Refusal::KeptShape => "KeptShape",
            Refusal::ImportCount => "ImportCount",
            Refusal::FragmentLength => "FragmentLength",
            Refusal::FragmentOrder => "FragmentOrder",
            Refusal::FragmentChannel => "FragmentChannel",
            Refusal::FragmentKind => "FragmentKind",
            Refusal::KeptDiffers => "KeptDiffers",
        }
    }
}
