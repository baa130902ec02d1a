use gfx_base::Bytes;
use gfx_pdu::Id;

/// What a step of a client did.
#[derive(Debug, Drop)]
pub enum Stepped {
    /// A message of this id was applied.
    Applied {
        id: Id,
        /// Its length on the wire in bytes (pduLength).
        size: usize,
    },
    /// A message was applied that ends this frame ([MS-RDPEGFX] RDPGFX_END_FRAME_PDU).
    Ended {
        frame: u32,
        /// The length of the message on the wire in bytes (pduLength).
        size: usize,
        /// The acknowledgement of the frame ([MS-RDPEGFX] RDPGFX_FRAME_ACKNOWLEDGE_PDU), as it is sent
        /// to the server.
        reply: Bytes,
    },
    /// No whole message is there: more bytes are needed.
    Need,
}
