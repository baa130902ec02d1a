//! What a client writes to the server: messages of its own, each alone in a channel message.
ghost use Rattle.std.specs.Prelude.{◌≡◌, ◌≤◌, IfOk};
ghost use Rattle.gfx_caps.specs.Spelling.{IsSpellable, size};
ghost use Rattle.gfx_pdu.specs.Borrowed.{pdu_of};
ghost use Rattle.gfx_client.specs.Replies.{alone, acknowledgement, is_empty_reply, reply_to};

use gfx_base::{Bytes, MOST_MESSAGE, NoMemory};
use gfx_caps::{ClientPdu, write_client};
use gfx_pdu::{Pdu, PduRef};
use gfx_segment::prefix;
use std::alloc::Global;

/// A message as it is sent.
pub(crate) fn sent_alone(alloc: Global, pdu: &ClientPdu) -> Result<Bytes, NoMemory>
    requires spellable { IsSpellable pdu.now }
    requires short { size pdu.now ≤ MOST_MESSAGE }
    ensures { IfOk result (λ bytes. bytes ≡ alone pdu.now) }
{
    let mut message = Bytes::new(alloc);
    write_client(pdu, &mut message)?;
    let mut bytes = Bytes::new(alloc);
    prefix(message.as_slice(), &mut bytes)?;
    Ok(bytes)
}

/// The acknowledgement of a frame behind which so many frames are decoded, as it is sent.
fn acknowledgement(alloc: Global, frame: u32, decoded: u32) -> Result<Bytes, NoMemory>
    ensures { IfOk result (λ bytes. bytes ≡ acknowledgement frame decoded) }
{
    let depth = NOTHING_WAITS;
    let total = decoded;
    sent_alone(
        alloc,
        &ClientPdu::Ack {
            depth,
            frame,
            total,
        },
    )
}

/// What a client tells the server of a frame that has ended.
#[derive(Drop)]
pub struct Reply {
    pub frame: u32,
    /// The acknowledgement of the frame, as it is sent.
    pub bytes: Bytes,
}

/// The reply to a message, where so many frames are decoded after it.
pub(crate) fn reply_to(
    alloc: Global,
    pdu: &PduRef<'_>,
    decoded: u32,
) -> Result<Option<Reply>, NoMemory>
    ensures { IfOk result (λ reply. reply ≡ reply_to (pdu_of pdu.now) decoded) }
{
    match pdu {
        PduRef::Other(Pdu::EndFrame { frame }) => {
            let frame = *frame;
            let bytes = acknowledgement(alloc, frame, decoded)?;
            Ok(Some(Reply { frame, bytes }))
        }
        _ => Ok(None),
    }
}

/// A reply of no slot as a channel message: its descriptor and the header of its block ([MS-RDPEGFX] 2.2.5), and
/// RDPGFX_CACHE_IMPORT_REPLY_PDU (2.2.2.17) with its id, no flags, its length and no slots.
pub(crate) const EMPTY_REPLY: [u8; 12] = [0xE0, 0x04, 0x11, 0, 0, 0, 10, 0, 0, 0, 0, 0];

/// Whether a channel message is a reply of no slot.
pub(crate) fn is_empty_reply(message: &[u8]) -> bool
    ensures { result ≡ is_empty_reply message.now }
{
    message == EMPTY_REPLY.as_slice()
}

/// The queueDepth of a client that applies each message before it takes the next.
const NOTHING_WAITS: u32 = 0;
