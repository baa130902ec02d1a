use crate::entries::CacheEntries;
use crate::sets::CapsSets;

/// The depth of an acknowledgement that suspends acknowledgements ([MS-RDPEGFX] 2.2.2.13,
/// SUSPEND_FRAME_ACKNOWLEDGEMENT).
pub const SUSPENDS: u32 = 0xFFFF_FFFF;

/// A message of the client.
#[derive(Debug, Drop)]
pub enum ClientPdu {
    /// RDPGFX_CAPS_ADVERTISE_PDU ([MS-RDPEGFX] 2.2.2.18): the versions that the client offers.
    Advertise {
        sets: CapsSets,
    },
    /// RDPGFX_FRAME_ACKNOWLEDGE_PDU ([MS-RDPEGFX] 2.2.2.13): a frame was decoded.
    Ack {
        /// How much waits at the client (queueDepth). `SUSPENDS` says that it acknowledges no more frames.
        depth: u32,
        frame: u32,
        /// How many frames were decoded so far (totalFramesDecoded).
        total: u32,
    },
    /// RDPGFX_CACHE_IMPORT_OFFER_PDU ([MS-RDPEGFX] 2.2.2.16): the bitmaps that the client kept.
    ImportOffer {
        entries: CacheEntries,
    },
    /// RDPGFX_QOE_FRAME_ACKNOWLEDGE_PDU ([MS-RDPEGFX] 2.2.2.21): how long the client took for a frame.
    QoeAck {
        frame: u32,
        /// When it began to decode it, in milliseconds (timestamp).
        timestamp: u32,
        /// How many milliseconds it decoded it (timeDiffSE).
        decoding: u16,
        /// How many it rendered it then (timeDiffEDR).
        rendering: u16,
    },
}
