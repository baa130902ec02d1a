//! Writing a message.

ghost use Rattle.std.specs.Prelude.{◌≡◌, ◌++◌, IfOk, OnOk, OnErr};
ghost use Rattle.gfx_pdu.specs.Spelling.{spelling, IsSpellable};
ghost use Rattle.gfx_pdu.specs.Writing.{PutsFront, data_of};

use crate::drawing::{
    put_cache_to_surface, put_delete_encoding_context, put_evict_cache_entry, put_solid_fill,
    put_surface_to_cache, put_surface_to_surface, put_wire_to_surface_1, put_wire_to_surface_2,
};
use crate::output::{
    put_caps_confirm, put_create_surface, put_delete_surface, put_end_frame,
    put_map_surface_to_output, put_reset_graphics, put_start_frame,
};
use crate::pdu::Pdu;
use gfx_base::{Bytes, NoMemory};

/// Puts the one spelling of a message at the end: the header's flags and the padding are zero. Each
/// count and the whole length must fit their fields, and there may be at most 16 monitors.
pub fn write_pdu(pdu: &Pdu, out: &mut Bytes) -> Result<(), NoMemory>
    requires { IsSpellable pdu.now }
    ensures ok { OnOk result (out.new ≡ out.old ++ spelling pdu.now) }
    ensures err { OnErr result (out.new ≡ out.old) }
{
    let start = out.len();
    let lent = write_front(pdu, out)?;
    if out.append(lent).is_err() {
        out.truncate(start);
        return Err(NoMemory);
    }
    Ok(())
}

/// Puts the same at the end but for the data that the message ends with, and lends those: they are to
/// stand behind it. A message without data is put whole, and none are lent.
pub fn write_front<'p>(pdu: &'p Pdu, out: &mut Bytes) -> Result<&'p [u8], NoMemory>
    requires { IsSpellable pdu.now }
    ensures ok { IfOk result (λ lent. out.new ++ lent.now ≡ out.old ++ spelling pdu.now) }
    ensures lent { IfOk result (λ lent. lent.now ≡ data_of pdu.now) }
    ensures err { OnErr result (out.new ≡ out.old) }
{
    let start = out.len();
    if put_front(pdu, out).is_err() {
        out.truncate(start);
        return Err(NoMemory);
    }
    Ok(data_of(pdu))
}

/// The data that a message ends with.
fn data_of(pdu: &Pdu) -> &[u8]
    ensures { result.now ≡ data_of pdu.now }
{
    match pdu {
        Pdu::WireToSurface1 { payload, .. } => payload.as_slice(),
        Pdu::WireToSurface2 { payload, .. } => payload.as_slice(),
        Pdu::CapsConfirm { payload, .. } => payload.as_slice(),
        _ => &[],
    }
}

/// Puts the spelling of a message at the end but for its data; where memory ends, a part of it may stand
/// there.
#[rattlefmt::skip]
fn put_front(pdu: &Pdu, out: &mut Bytes) -> Result<(), NoMemory>
    requires { IsSpellable pdu.now }
    ensures { PutsFront result out.old out.new (spelling pdu.now) (data_of pdu.now) }
{
    match pdu {
        Pdu::WireToSurface1 { surface, codec, format, rect, payload } => {
            put_wire_to_surface_1(out, *surface, *codec, *format, *rect, payload)
        }
        Pdu::WireToSurface2 { surface, codec, context, format, payload } => {
            put_wire_to_surface_2(out, *surface, *codec, *context, *format, payload)
        }
        Pdu::DeleteEncodingContext { surface, context } => {
            put_delete_encoding_context(out, *surface, *context)
        }
        Pdu::SolidFill { surface, colour, rects } => put_solid_fill(out, *surface, *colour, rects),
        Pdu::SurfaceToSurface { source, destination, rect, points } => {
            put_surface_to_surface(out, *source, *destination, *rect, points)
        }
        Pdu::SurfaceToCache { surface, key, slot, rect } => {
            put_surface_to_cache(out, *surface, *key, *slot, *rect)
        }
        Pdu::CacheToSurface { slot, surface, points } => {
            put_cache_to_surface(out, *slot, *surface, points)
        }
        Pdu::EvictCacheEntry { slot } => put_evict_cache_entry(out, *slot),
        Pdu::CreateSurface { id, width, height, format } => {
            put_create_surface(out, *id, *width, *height, *format)
        }
        Pdu::DeleteSurface { id } => put_delete_surface(out, *id),
        Pdu::StartFrame { timestamp, frame } => put_start_frame(out, *timestamp, *frame),
        Pdu::EndFrame { frame } => put_end_frame(out, *frame),
        Pdu::ResetGraphics { width, height, monitors } => {
            put_reset_graphics(out, *width, *height, monitors)
        }
        Pdu::MapSurfaceToOutput { id, reserved, x, y } => {
            put_map_surface_to_output(out, *id, *reserved, *x, *y)
        }
        Pdu::CapsConfirm { version, payload } => put_caps_confirm(out, *version, payload),
    }
}
