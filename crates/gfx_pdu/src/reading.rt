//! Reading a message.

ghost use Rattle.std.specs.Prelude.{◌≡◌, ◌+◌, ◌-◌, ◌<◌, ◌≤◌, length, drop, IfOk, IfSome};
ghost use Rattle.gfx_base.specs.Outcome.{Gives, WantsOnlyIf};
ghost use Rattle.gfx_layout.specs.Header.{is_headed};
ghost use Rattle.gfx_layout.specs.Reading.{read_whole};
ghost use Rattle.gfx_pdu.specs.Borrowed.{found_in, message_in, pdu_of};
ghost use Rattle.gfx_pdu.specs.Id.{id_of_number};
ghost use Rattle.gfx_pdu.specs.Layouts.{layout_of};
ghost use Rattle.gfx_pdu.specs.Reading.{body_of, front, next_pdu};
ghost use Rattle.gfx_pdu.specs.Spelling.{Begins};

use crate::drawing::{
    read_cache_to_surface, read_delete_encoding_context, read_evict_cache_entry, read_solid_fill,
    read_surface_to_cache, read_surface_to_surface, read_wire_to_surface_1, read_wire_to_surface_2,
};
use crate::header::read_kind;
use crate::id::Id;
use crate::output::{
    read_caps_confirm, read_create_surface, read_delete_surface, read_end_frame,
    read_map_surface_to_output, read_reset_graphics, read_start_frame,
};
use crate::pdu::{Pdu, PduRef};
use gfx_base::{Cause, Fault, Refusal};
use gfx_layout::{HEADER, Stop, read_size};
use std::alloc::Global;

/// Reads the body of a message with this id by its layout.
fn read_by_layout(alloc: Global, id: Id, body: &[u8]) -> Result<PduRef<'_>, Cause<Stop>>
    ensures { Gives pdu_of result (read_whole (layout_of id) body.now) }
{
    let pdu = match id {
        Id::WireToSurface1 => return Ok(read_wire_to_surface_1(body)?),
        Id::WireToSurface2 => return Ok(read_wire_to_surface_2(body)?),
        Id::CapsConfirm => return Ok(read_caps_confirm(body)?),
        Id::DeleteEncodingContext => read_delete_encoding_context(body)?,
        Id::SolidFill => read_solid_fill(alloc, body)?,
        Id::SurfaceToSurface => read_surface_to_surface(alloc, body)?,
        Id::SurfaceToCache => read_surface_to_cache(body)?,
        Id::CacheToSurface => read_cache_to_surface(alloc, body)?,
        Id::EvictCacheEntry => read_evict_cache_entry(body)?,
        Id::CreateSurface => read_create_surface(body)?,
        Id::DeleteSurface => read_delete_surface(body)?,
        Id::StartFrame => read_start_frame(body)?,
        Id::EndFrame => read_end_frame(body)?,
        Id::ResetGraphics => read_reset_graphics(alloc, body)?,
        Id::MapSurfaceToOutput => read_map_surface_to_output(body)?,
    };
    Ok(PduRef::Other(pdu))
}

/// Reads the body of a message with this id. One that doesn't end with its fields is CountMismatch.
#[tactic(auto, unfolding(crate::specs::Reading::body_of))]
fn read_body(alloc: Global, id: Id, body: &[u8]) -> Result<PduRef<'_>, Fault>
    ensures { Gives pdu_of result (body_of id body.now) }
{
    match read_by_layout(alloc, id, body) {
        Ok(pdu) => Ok(pdu),
        Err(Cause::Refused(Stop::Rule(refusal))) => Err(Fault::Refused(refusal)),
        Err(Cause::Refused(_)) => Err(Fault::Refused(Refusal::CountMismatch)),
        Err(Cause::Memory) => Err(Fault::Memory),
    }
}

/// Reads the message at the front, and says how many bytes it has.
#[tactic(auto, unfolding(crate::specs::Reading::front, gfx_base::specs::Results::and_then))]
fn read_front(alloc: Global, bytes: &[u8]) -> Result<(PduRef<'_>, usize), Fault>
    ensures value { Gives message_in result (front bytes.now) }
    ensures within { IfOk result (λ m. (8 ≤ m.1) × (m.1 ≤ length bytes.now)) }
    ensures memory { WantsOnlyIf result (is_headed id_of_number bytes.now) }
{
    let size = read_size(bytes)?;
    let id = read_kind(bytes)?;
    let (_, behind) = bytes.split_at(HEADER);
    let (body, _) = behind.split_at(size - HEADER);
    let pdu = read_body(alloc, id, body)?;
    Ok((pdu, size))
}

/// Reads the message at a place of a payload, as `read_pdu_ref` does.
#[tactic(auto, unfolding(crate::specs::Reading::next_pdu, crate::specs::Reading::message_at, gfx_base::specs::Results::and_then))]
fn read_next(alloc: Global, payload: &[u8], at: usize) -> Result<Option<(PduRef<'_>, usize)>, Fault>
    ensures value { Gives found_in result (next_pdu payload.now at) }
    ensures within { IfOk result (λ found. IfSome found (λ m. (at < m.1) × (m.1 ≤ length payload.now))) }
    ensures memory { WantsOnlyIf result (is_headed id_of_number (drop at payload.now)) }
{
    if at >= payload.len() {
        return Ok(None);
    }
    let (_, bytes) = payload.split_at(at);
    let (pdu, size) = read_front(alloc, bytes)?;
    Ok(Some((pdu, at + size)))
}

/// Reads the message at a place of a payload, with its data borrowed from it, and says which place is behind it. None
/// exactly where the payload ends at or before that place.
///
/// Refusals are PduTruncated, PduLength, PduUnknown, CountMismatch and MonitorCount, by the first of
/// the checks of `specs/Reading` that fails. Memory is wanted only behind a header that is accepted.
pub fn read_pdu_ref(
    alloc: Global,
    payload: &[u8],
    at: usize,
) -> Result<Option<(PduRef<'_>, usize)>, Fault>
    ensures value { Gives found_in result (next_pdu payload.now at) }
    ensures within { IfOk result (λ found. IfSome found (λ m. (at < m.1) × (m.1 ≤ length payload.now))) }
    ensures memory { WantsOnlyIf result (is_headed id_of_number (drop at payload.now)) }
    // What is read is spelled so, byte for byte but for flags and padding.
    ensures spelled { IfOk result (λ found. IfSome found (λ m. Begins (drop at payload.now) (pdu_of m.0) (m.1 - at))) }
{
    read_next(alloc, payload, at)
}

/// The same with a copy of the message's data.
pub fn read_pdu(alloc: Global, payload: &[u8], at: usize) -> Result<Option<(Pdu, usize)>, Fault>
    ensures value { Gives (λ found. found) result (next_pdu payload.now at) }
    ensures within { IfOk result (λ found. IfSome found (λ m. (at < m.1) × (m.1 ≤ length payload.now))) }
    ensures memory { WantsOnlyIf result (is_headed id_of_number (drop at payload.now)) }
    ensures spelled { IfOk result (λ found. IfSome found (λ m. Begins (drop at payload.now) m.0 (m.1 - at))) }
{
    let Some((pdu, after)) = read_next(alloc, payload, at)? else {
        return Ok(None);
    };
    Ok(Some((pdu.into_owned(alloc)?, after)))
}
