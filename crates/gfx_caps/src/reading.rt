//! Reading a client's message.

ghost use Rattle.std.specs.Prelude.{◌≡◌, ◌≤◌, length, IfOk};
ghost use Rattle.gfx_base.specs.Outcome.{Gives, WantsOnlyIf};
ghost use Rattle.gfx_layout.specs.Header.{is_headed};
ghost use Rattle.gfx_layout.specs.Reading.{read, read_whole, take_each};
ghost use Rattle.gfx_caps.specs.ClientId.{id_of_number};
ghost use Rattle.gfx_caps.specs.declared.message.ClientPdu.TheVariants as pdus;
ghost use Rattle.gfx_caps.specs.Layouts.{frame_acknowledge, cache_import_offer, caps_advertise, caps_set, qoe_frame_acknowledge, layout_of};
ghost use Rattle.gfx_caps.specs.Reading.{body_of, front, client_of};
ghost use Rattle.gfx_caps.specs.Spelling.{Spells, Fits};

use crate::client_id::ClientId;
use crate::header::read_kind;
use crate::message::ClientPdu;
use crate::sets::{CapsSet, CapsSets};
use gfx_base::{Cause, Fault, Refusal};
use gfx_layout::{Fields, HEADER, Stop, kept, read_size};
use std::alloc::Global;

/// Reads the body of RDPGFX_FRAME_ACKNOWLEDGE_PDU ([MS-RDPEGFX] 2.2.2.13).
#[tactic(auto, unfolding(gfx_layout::specs::Reading::read_whole, gfx_layout::specs::Reading::read, gfx_base::specs::Results::and_then))]
fn read_frame_acknowledge(body: &[u8]) -> Result<ClientPdu, Stop>
    ensures { result ≡ read_whole frame_acknowledge body.now }
{
    let mut fields = Fields::new(body);
    let depth = fields.u32()?;
    let frame = fields.u32()?;
    let total = fields.u32()?;
    fields.end()?;
    Ok(ClientPdu::Ack {
        depth,
        frame,
        total,
    })
}

/// Reads one capability set ([MS-RDPEGFX] 2.2.1.6).
#[tactic(auto, unfolding(gfx_layout::specs::Reading::read, gfx_base::specs::Results::and_then))]
fn read_set(alloc: Global, fields: &mut Fields<'_>) -> Result<CapsSet, Cause<Stop>>
    ensures { Gives (λ set. (set, fields.new)) result (read caps_set fields.old) }
{
    let version = fields.u32()?;
    let body = kept(alloc, fields.sized()?)?;
    Ok(CapsSet { version, body })
}

/// Reads so many capability sets.
#[tactic(auto, using(gfx_layout::proofs::EachLoops::each_loops))]
fn read_sets(alloc: Global, fields: &mut Fields<'_>, count: usize) -> Result<CapsSets, Cause<Stop>>
    ensures { Gives (λ sets. (sets, fields.new)) result (take_each (read caps_set) count fields.old) }
{
    let mut sets = CapsSets::new(alloc);
    'sets: for _ in 0..count {
        let set = read_set(alloc, fields)?;
        sets.push(set)?;
    }
    Ok(sets)
}

/// Reads the body of RDPGFX_CAPS_ADVERTISE_PDU ([MS-RDPEGFX] 2.2.2.18).
#[tactic(auto, unfolding(gfx_layout::specs::Reading::read_whole, gfx_layout::specs::Reading::read, gfx_base::specs::Results::and_then))]
fn read_caps_advertise(alloc: Global, body: &[u8]) -> Result<ClientPdu, Cause<Stop>>
    ensures { Gives (λ p. p) result (read_whole caps_advertise body.now) }
{
    let mut fields = Fields::new(body);
    let count = fields.u16()?;
    let sets = read_sets(alloc, &mut fields, usize::from(count))?;
    fields.end()?;
    Ok(ClientPdu::Advertise { sets })
}

/// Reads the body of RDPGFX_CACHE_IMPORT_OFFER_PDU ([MS-RDPEGFX] 2.2.2.16).
#[tactic(auto, unfolding(gfx_layout::specs::Reading::read_whole, gfx_layout::specs::Reading::read, gfx_base::specs::Results::and_then))]
fn read_import_offer(alloc: Global, body: &[u8]) -> Result<ClientPdu, Cause<Stop>>
    ensures { Gives (λ p. p) result (read_whole (cache_import_offer (λ entries. pdus.ImportOffer entries)) body.now) }
{
    let mut fields = Fields::new(body);
    let entries = fields.list(alloc)?;
    fields.end()?;
    Ok(ClientPdu::ImportOffer { entries })
}

/// Reads the body of RDPGFX_QOE_FRAME_ACKNOWLEDGE_PDU ([MS-RDPEGFX] 2.2.2.21).
#[tactic(auto, unfolding(gfx_layout::specs::Reading::read_whole, gfx_layout::specs::Reading::read, gfx_base::specs::Results::and_then))]
fn read_qoe_frame_acknowledge(body: &[u8]) -> Result<ClientPdu, Stop>
    ensures { result ≡ read_whole qoe_frame_acknowledge body.now }
{
    let mut fields = Fields::new(body);
    let frame = fields.u32()?;
    let timestamp = fields.u32()?;
    let decoding = fields.u16()?;
    let rendering = fields.u16()?;
    fields.end()?;
    Ok(ClientPdu::QoeAck {
        frame,
        timestamp,
        decoding,
        rendering,
    })
}

/// Reads the body of a message with this id by its layout.
fn read_by_layout(alloc: Global, id: ClientId, body: &[u8]) -> Result<ClientPdu, Cause<Stop>>
    ensures { Gives (λ p. p) result (read_whole (layout_of id) body.now) }
{
    match id {
        ClientId::FrameAcknowledge => Ok(read_frame_acknowledge(body)?),
        ClientId::CacheImportOffer => read_import_offer(alloc, body),
        ClientId::CapsAdvertise => read_caps_advertise(alloc, body),
        ClientId::QoeFrameAcknowledge => Ok(read_qoe_frame_acknowledge(body)?),
    }
}

/// Reads the body of a message with this id. One that doesn't end with its fields is CountMismatch.
#[tactic(auto, unfolding(crate::specs::Reading::body_of))]
fn read_body(alloc: Global, id: ClientId, body: &[u8]) -> Result<ClientPdu, Fault>
    ensures { Gives (λ p. p) result (body_of id body.now) }
{
    match read_by_layout(alloc, id, body) {
        Ok(pdu) => Ok(pdu),
        Err(Cause::Refused(Stop::Rule(refusal))) => Err(Fault::Refused(refusal)),
        Err(Cause::Refused(_)) => Err(Fault::Refused(Refusal::CountMismatch)),
        Err(Cause::Memory) => Err(Fault::Memory),
    }
}

/// Reads the message at the front, and says how many bytes it has.
#[tactic(auto, unfolding(crate::specs::Reading::front, gfx_base::specs::Results::and_then))]
fn read_front(alloc: Global, bytes: &[u8]) -> Result<(ClientPdu, usize), Fault>
    ensures value { Gives (λ m. m) result (front bytes.now) }
    ensures memory { WantsOnlyIf result (is_headed id_of_number bytes.now) }
{
    let size = read_size(bytes)?;
    let id = read_kind(bytes)?;
    let (_, behind) = bytes.split_at(HEADER);
    let (body, _) = behind.split_at(size - HEADER);
    let pdu = read_body(alloc, id, body)?;
    Ok((pdu, size))
}

/// Reads bytes that are one message of the client, as `read_client` does.
#[tactic(auto, unfolding(crate::specs::Reading::client_of, gfx_base::specs::Results::and_then))]
fn read_alone(alloc: Global, bytes: &[u8]) -> Result<ClientPdu, Fault>
    ensures value { Gives (λ p. p) result (client_of bytes.now) }
    ensures memory { WantsOnlyIf result (is_headed id_of_number bytes.now) }
{
    let (pdu, size) = read_front(alloc, bytes)?;
    if size != bytes.len() {
        return Err(Fault::Refused(Refusal::CountMismatch));
    }
    Ok(pdu)
}

/// Reads bytes that are one message of the client.
///
/// Refusals are PduTruncated, PduLength, PduUnknown and CountMismatch, by the first of the checks of
/// `specs/Reading` that fails. Bytes behind the message are CountMismatch. Memory is wanted only behind a
/// header that is accepted.
pub fn read_client(alloc: Global, bytes: &[u8]) -> Result<ClientPdu, Fault>
    ensures value { Gives (λ p. p) result (client_of bytes.now) }
    // What is read is spelled so, byte for byte but for flags, and all of it fits its field.
    ensures spelled { IfOk result (λ p. Spells bytes.now p × Fits p) }
    ensures memory { WantsOnlyIf result (is_headed id_of_number bytes.now) }
{
    read_alone(alloc, bytes)
}
