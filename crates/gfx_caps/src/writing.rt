//! Writing a client's message.

ghost use Rattle.std.specs.Prelude.{◌≡◌, ◌++◌, OnOk, OnErr};
ghost use Rattle.gfx_layout.specs.Writing.{Puts};
ghost use Rattle.gfx_caps.specs.Spelling.{spelling, IsSpellable};

use crate::bodies::{
    put_caps_advertise, put_frame_acknowledge, put_import_offer, put_qoe_frame_acknowledge,
};
use crate::message::ClientPdu;
use gfx_base::{Bytes, NoMemory};

/// Puts the one spelling of a message at the end: the header's flags are zero. The count of sets or
/// entries, the lengths and the whole length must fit their fields.
pub fn write_client(pdu: &ClientPdu, out: &mut Bytes) -> Result<(), NoMemory>
    requires { IsSpellable pdu.now }
    ensures ok { OnOk result (out.new ≡ out.old ++ spelling pdu.now) }
    ensures err { OnErr result (out.new ≡ out.old) }
{
    let start = out.len();
    if put_client(pdu, out).is_err() {
        out.truncate(start);
        return Err(NoMemory);
    }
    Ok(())
}

/// Puts the spelling of a message at the end; where memory ends, a part of it may stand there.
fn put_client(pdu: &ClientPdu, out: &mut Bytes) -> Result<(), NoMemory>
    requires { IsSpellable pdu.now }
    ensures { Puts result out.old out.new (spelling pdu.now) }
{
    match pdu {
        ClientPdu::Advertise { sets } => put_caps_advertise(out, sets),
        ClientPdu::Ack {
            depth,
            frame,
            total,
        } => put_frame_acknowledge(out, *depth, *frame, *total),
        ClientPdu::ImportOffer { entries } => put_import_offer(out, entries),
        ClientPdu::QoeAck {
            frame,
            timestamp,
            decoding,
            rendering,
        } => put_qoe_frame_acknowledge(out, *frame, *timestamp, *decoding, *rendering),
    }
}
