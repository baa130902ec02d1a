ghost use Rattle.std.specs.Prelude.{◌≡◌};
ghost use Rattle.gfx_caps.specs.ClientId.{number_of, id_of_number};

/// Which message of the client a header announces ([MS-RDPEGFX] 2.2.1.5, cmdId).
#[derive(Clone, Copy, Debug, PartialEq, Eq)]
pub enum ClientId {
    /// RDPGFX_CMDID_FRAMEACKNOWLEDGE.
    FrameAcknowledge = 0xD,
    /// RDPGFX_CMDID_CACHEIMPORTOFFER.
    CacheImportOffer = 0x10,
    /// RDPGFX_CMDID_CAPSADVERTISE.
    CapsAdvertise = 0x12,
    /// RDPGFX_CMDID_QOEFRAMEACKNOWLEDGE.
    QoeFrameAcknowledge = 0x16,
}

impl ClientId {
    /// The id of this number, if a message of the client has it.
    #[tactic(auto, unfolding(crate::specs::ClientId::id_of_number))]
    pub fn from_number(number: u16) -> Option<ClientId>
        ensures { result ≡ id_of_number number }
    {
        match number {
            0xD => Some(ClientId::FrameAcknowledge),
            0x10 => Some(ClientId::CacheImportOffer),
            0x12 => Some(ClientId::CapsAdvertise),
            0x16 => Some(ClientId::QoeFrameAcknowledge),
            _ => None,
        }
    }

    /// The number in a header.
    pub fn number(self) -> u16
        ensures { result ≡ number_of self }
    {
        self as u16
    }
}
