ghost use Rattle.std.specs.Prelude.{◌≡◌};
ghost use Rattle.gfx_pdu.specs.Id.{number_of, id_of_number};

/// Which message of the server a header announces ([MS-RDPEGFX] 2.2.1.5, cmdId).
#[derive(Clone, Copy, Debug, PartialEq, Eq)]
pub enum Id {
    /// RDPGFX_CMDID_WIRETOSURFACE_1.
    WireToSurface1 = 0x1,
    /// RDPGFX_CMDID_WIRETOSURFACE_2.
    WireToSurface2 = 0x2,
    /// RDPGFX_CMDID_DELETEENCODINGCONTEXT.
    DeleteEncodingContext = 0x3,
    /// RDPGFX_CMDID_SOLIDFILL.
    SolidFill = 0x4,
    /// RDPGFX_CMDID_SURFACETOSURFACE.
    SurfaceToSurface = 0x5,
    /// RDPGFX_CMDID_SURFACETOCACHE.
    SurfaceToCache = 0x6,
    /// RDPGFX_CMDID_CACHETOSURFACE.
    CacheToSurface = 0x7,
    /// RDPGFX_CMDID_EVICTCACHEENTRY.
    EvictCacheEntry = 0x8,
    /// RDPGFX_CMDID_CREATESURFACE.
    CreateSurface = 0x9,
    /// RDPGFX_CMDID_DELETESURFACE.
    DeleteSurface = 0xA,
    /// RDPGFX_CMDID_STARTFRAME.
    StartFrame = 0xB,
    /// RDPGFX_CMDID_ENDFRAME.
    EndFrame = 0xC,
    /// RDPGFX_CMDID_RESETGRAPHICS.
    ResetGraphics = 0xE,
    /// RDPGFX_CMDID_MAPSURFACETOOUTPUT.
    MapSurfaceToOutput = 0xF,
    /// RDPGFX_CMDID_CAPSCONFIRM.
    CapsConfirm = 0x13,
}

impl Id {
    /// The id of this number, if a message of the server has it.
    #[tactic(auto, unfolding(crate::specs::Id::id_of_number))]
    pub fn from_number(number: u16) -> Option<Id>
        ensures { result ≡ id_of_number number }
    {
        match number {
            0x1 => Some(Id::WireToSurface1),
            0x2 => Some(Id::WireToSurface2),
            0x3 => Some(Id::DeleteEncodingContext),
            0x4 => Some(Id::SolidFill),
            0x5 => Some(Id::SurfaceToSurface),
            0x6 => Some(Id::SurfaceToCache),
            0x7 => Some(Id::CacheToSurface),
            0x8 => Some(Id::EvictCacheEntry),
            0x9 => Some(Id::CreateSurface),
            0xA => Some(Id::DeleteSurface),
            0xB => Some(Id::StartFrame),
            0xC => Some(Id::EndFrame),
            0xE => Some(Id::ResetGraphics),
            0xF => Some(Id::MapSurfaceToOutput),
            0x13 => Some(Id::CapsConfirm),
            _ => None,
        }
    }

    /// The number in a header.
    pub fn number(self) -> u16
        ensures { result ≡ number_of self }
    {
        self as u16
    }
}
