ghost use Rattle.std.specs.Prelude.{◌≡◌, IfOk};
ghost use Rattle.gfx_pdu.specs.Borrowed.{pdu_of};
ghost use Rattle.gfx_pdu.specs.Spelling.{id_of};

use crate::id::Id;
use gfx_base::{Bytes, Items, NoMemory, Pixel, Points, Rect, Rects};
use gfx_layout::kept;
use std::alloc::Global;

/// The most monitors that ResetGraphics has room for ([MS-RDPEGFX] 2.2.2.14).
pub const MOST_MONITORS: usize = 16;

/// A monitor of the output ([MS-RDPBCGR] TS_MONITOR_DEF), as it was read: its sides, all included,
/// are signed numbers in the standard, and the lowest bit of the flags marks the primary monitor.
#[derive(Clone, Copy, Debug, PartialEq, Eq)]
pub struct Monitor {
    pub left: u32,
    pub top: u32,
    pub right: u32,
    pub bottom: u32,
    pub flags: u32,
}

/// Monitors, in the order of a message.
pub type Monitors = Items<Monitor>;

/// A message of the server ([MS-RDPEGFX] 2.2.2). Counts, lengths and padding are no fields, and a
/// `format` is the byte as it was read.
#[derive(Debug, Drop)]
pub enum Pdu {
    /// RDPGFX_WIRE_TO_SURFACE_PDU_1: pixels for a rectangle, by a codec.
    WireToSurface1 {
        surface: u16,
        codec: u16,
        format: u8,
        rect: Rect,
        payload: Bytes,
    },
    /// RDPGFX_WIRE_TO_SURFACE_PDU_2: pixels for tiles of a surface, by a codec with a context.
    WireToSurface2 {
        surface: u16,
        codec: u16,
        context: u32,
        format: u8,
        payload: Bytes,
    },
    /// RDPGFX_DELETE_ENCODING_CONTEXT_PDU.
    DeleteEncodingContext {
        surface: u16,
        context: u32,
    },
    /// RDPGFX_SOLIDFILL_PDU: one colour for rectangles.
    SolidFill {
        surface: u16,
        colour: Pixel,
        rects: Rects,
    },
    /// RDPGFX_SURFACE_TO_SURFACE_PDU: a rectangle, copied to points.
    SurfaceToSurface {
        source: u16,
        destination: u16,
        rect: Rect,
        points: Points,
    },
    /// RDPGFX_SURFACE_TO_CACHE_PDU: a rectangle, stored in a slot.
    SurfaceToCache {
        surface: u16,
        key: u64,
        slot: u16,
        rect: Rect,
    },
    /// RDPGFX_CACHE_TO_SURFACE_PDU: a slot's bitmap, copied to points.
    CacheToSurface {
        slot: u16,
        surface: u16,
        points: Points,
    },
    /// RDPGFX_EVICT_CACHE_ENTRY_PDU.
    EvictCacheEntry {
        slot: u16,
    },
    /// RDPGFX_CREATE_SURFACE_PDU.
    CreateSurface {
        id: u16,
        width: u16,
        height: u16,
        format: u8,
    },
    /// RDPGFX_DELETE_SURFACE_PDU.
    DeleteSurface {
        id: u16,
    },
    /// RDPGFX_START_FRAME_PDU.
    StartFrame {
        timestamp: u32,
        frame: u32,
    },
    /// RDPGFX_END_FRAME_PDU.
    EndFrame {
        frame: u32,
    },
    /// RDPGFX_RESET_GRAPHICS_PDU: the output's size and monitors.
    ResetGraphics {
        width: u32,
        height: u32,
        monitors: Monitors,
    },
    /// RDPGFX_MAP_SURFACE_TO_OUTPUT_PDU.
    MapSurfaceToOutput {
        id: u16,
        reserved: u16,
        x: u32,
        y: u32,
    },
    /// RDPGFX_CAPS_CONFIRM_PDU: the version that the server chose, with its capabilities.
    CapsConfirm {
        version: u32,
        payload: Bytes,
    },
}

impl Pdu {
    /// Which message it is.
    pub fn id(&self) -> Id
        ensures { result ≡ id_of self.now }
    {
        match self {
            Pdu::WireToSurface1 { .. } => Id::WireToSurface1,
            Pdu::WireToSurface2 { .. } => Id::WireToSurface2,
            Pdu::DeleteEncodingContext { .. } => Id::DeleteEncodingContext,
            Pdu::SolidFill { .. } => Id::SolidFill,
            Pdu::SurfaceToSurface { .. } => Id::SurfaceToSurface,
            Pdu::SurfaceToCache { .. } => Id::SurfaceToCache,
            Pdu::CacheToSurface { .. } => Id::CacheToSurface,
            Pdu::EvictCacheEntry { .. } => Id::EvictCacheEntry,
            Pdu::CreateSurface { .. } => Id::CreateSurface,
            Pdu::DeleteSurface { .. } => Id::DeleteSurface,
            Pdu::StartFrame { .. } => Id::StartFrame,
            Pdu::EndFrame { .. } => Id::EndFrame,
            Pdu::ResetGraphics { .. } => Id::ResetGraphics,
            Pdu::MapSurfaceToOutput { .. } => Id::MapSurfaceToOutput,
            Pdu::CapsConfirm { .. } => Id::CapsConfirm,
        }
    }
}

/// A message of the server whose data are borrowed from the payload that they were read from: a `Pdu`
/// without a copy of them.
#[derive(Debug, Drop)]
pub enum PduRef<'a> {
    /// RDPGFX_WIRE_TO_SURFACE_PDU_1.
    WireToSurface1 {
        surface: u16,
        codec: u16,
        format: u8,
        rect: Rect,
        payload: &'a [u8],
    },
    /// RDPGFX_WIRE_TO_SURFACE_PDU_2.
    WireToSurface2 {
        surface: u16,
        codec: u16,
        context: u32,
        format: u8,
        payload: &'a [u8],
    },
    /// RDPGFX_CAPS_CONFIRM_PDU.
    CapsConfirm {
        version: u32,
        payload: &'a [u8],
    },
    /// Any other message, which carries no data.
    Other(Pdu),
}

impl<'a> PduRef<'a> {
    /// The message with a copy of its data.
    pub fn into_owned(self, alloc: Global) -> Result<Pdu, NoMemory>
        ensures { IfOk result (λ pdu. pdu ≡ pdu_of self.entry) }
    {
        Ok(match self {
            PduRef::WireToSurface1 {
                surface,
                codec,
                format,
                rect,
                payload,
            } => Pdu::WireToSurface1 {
                surface,
                codec,
                format,
                rect,
                payload: kept(alloc, payload)?,
            },
            PduRef::WireToSurface2 {
                surface,
                codec,
                context,
                format,
                payload,
            } => Pdu::WireToSurface2 {
                surface,
                codec,
                context,
                format,
                payload: kept(alloc, payload)?,
            },
            PduRef::CapsConfirm { version, payload } => Pdu::CapsConfirm {
                version,
                payload: kept(alloc, payload)?,
            },
            PduRef::Other(pdu) => pdu,
        })
    }

    /// Which message it is.
    pub fn id(&self) -> Id
        ensures { result ≡ id_of (pdu_of self.now) }
    {
        match self {
            PduRef::WireToSurface1 { .. } => Id::WireToSurface1,
            PduRef::WireToSurface2 { .. } => Id::WireToSurface2,
            PduRef::CapsConfirm { .. } => Id::CapsConfirm,
            PduRef::Other(pdu) => pdu.id(),
        }
    }
}
