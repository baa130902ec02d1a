//! What a paint by RemoteFX video shows.
ghost use Rattle.gfx_video_paint.specs.Shown.{VideoPaintsCover, VideoPayloadsAreShort, VideoPayloadsShow};

/// The data of a paint's messages, applied to a picture one after another, are accepted and show the paint.
pub fn video_payloads_show()
    ensures { VideoPayloadsShow }
{}

/// Each pixel of the paint's rectangle shows the quantised values of its own tile, and nothing else changes.
pub fn video_paints_cover()
    ensures { VideoPaintsCover }
{}

/// The data of each message are at most 51,000,000 bytes.
pub fn video_payloads_are_short()
    ensures { VideoPayloadsAreShort }
{}
