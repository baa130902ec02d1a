//! The messages that draw: on a surface, and by the cache of bitmaps.
#![tactic(auto, unfolding(gfx_layout::specs::Reading::read_whole, gfx_layout::specs::Reading::read, gfx_base::specs::Results::and_then, crate::specs::Spelling::spelling, crate::specs::Spelling::size, crate::specs::Spelling::written_body))]

ghost use Rattle.std.specs.Prelude.{◌≡◌};
ghost use Rattle.gfx_base.specs.Outcome.{Gives, Says};
ghost use Rattle.gfx_layout.specs.Reading.{read_whole};
ghost use Rattle.gfx_layout.specs.Writing.{Puts};
ghost use Rattle.gfx_pdu.specs.declared.pdu.Pdu.TheVariants as pdus;
ghost use Rattle.gfx_pdu.specs.Borrowed.{pdu_of};
ghost use Rattle.gfx_pdu.specs.Layouts.{wire_to_surface_1, wire_to_surface_2, delete_encoding_context, solid_fill, surface_to_surface, surface_to_cache, cache_to_surface, evict_cache_entry};
ghost use Rattle.gfx_pdu.specs.Spelling.{spelling, IsSpellable};
ghost use Rattle.gfx_pdu.specs.Writing.{PutsFront};

use crate::header::put_header;
use crate::id::Id;
use crate::pdu::{Pdu, PduRef};
use gfx_base::{Bytes, Cause, NoMemory, Pixel, Point, Points, Rect, Rects};
use gfx_layout::{Fields, Part, Stop, put_list};
use std::alloc::Global;

/// Reads the body of RDPGFX_WIRE_TO_SURFACE_PDU_1 ([MS-RDPEGFX] 2.2.2.1).
pub(crate) fn read_wire_to_surface_1(body: &[u8]) -> Result<PduRef<'_>, Stop>
    ensures { Says pdu_of result (read_whole wire_to_surface_1 body.now) }
{
    let mut fields = Fields::new(body);
    let pdu = PduRef::WireToSurface1 {
        surface: fields.u16()?,
        codec: fields.u16()?,
        format: fields.u8()?,
        rect: fields.one()?,
        payload: fields.sized()?,
    };
    fields.end()?;
    Ok(pdu)
}

/// Puts RDPGFX_WIRE_TO_SURFACE_PDU_1 at the end, all but its data.
pub(crate) fn put_wire_to_surface_1(
    out: &mut Bytes,
    surface: u16,
    codec: u16,
    format: u8,
    rect: Rect,
    payload: &Bytes,
) -> Result<(), NoMemory>
    requires { IsSpellable (pdus.WireToSurface1 surface codec format rect payload.now) }
    ensures { PutsFront result out.old out.new (spelling (pdus.WireToSurface1 surface codec format rect payload.now)) payload.now }
{
    put_header(
        out,
        Id::WireToSurface1,
        2 * u16::SIZE + u8::SIZE + Rect::SIZE + u32::SIZE + payload.len(),
    )?;
    surface.put(out)?;
    codec.put(out)?;
    format.put(out)?;
    rect.put(out)?;
    (payload.len() as u32).put(out)
}

/// Reads the body of RDPGFX_WIRE_TO_SURFACE_PDU_2 ([MS-RDPEGFX] 2.2.2.2).
pub(crate) fn read_wire_to_surface_2(body: &[u8]) -> Result<PduRef<'_>, Stop>
    ensures { Says pdu_of result (read_whole wire_to_surface_2 body.now) }
{
    let mut fields = Fields::new(body);
    let pdu = PduRef::WireToSurface2 {
        surface: fields.u16()?,
        codec: fields.u16()?,
        context: fields.u32()?,
        format: fields.u8()?,
        payload: fields.sized()?,
    };
    fields.end()?;
    Ok(pdu)
}

/// Puts RDPGFX_WIRE_TO_SURFACE_PDU_2 at the end, all but its data.
pub(crate) fn put_wire_to_surface_2(
    out: &mut Bytes,
    surface: u16,
    codec: u16,
    context: u32,
    format: u8,
    payload: &Bytes,
) -> Result<(), NoMemory>
    requires { IsSpellable (pdus.WireToSurface2 surface codec context format payload.now) }
    ensures { PutsFront result out.old out.new (spelling (pdus.WireToSurface2 surface codec context format payload.now)) payload.now }
{
    put_header(
        out,
        Id::WireToSurface2,
        2 * u16::SIZE + u32::SIZE + u8::SIZE + u32::SIZE + payload.len(),
    )?;
    surface.put(out)?;
    codec.put(out)?;
    context.put(out)?;
    format.put(out)?;
    (payload.len() as u32).put(out)
}

/// Reads the body of RDPGFX_DELETE_ENCODING_CONTEXT_PDU ([MS-RDPEGFX] 2.2.2.3).
pub(crate) fn read_delete_encoding_context(body: &[u8]) -> Result<Pdu, Stop>
    ensures { result ≡ read_whole delete_encoding_context body.now }
{
    let mut fields = Fields::new(body);
    let surface = fields.u16()?;
    let context = fields.u32()?;
    fields.end()?;
    Ok(Pdu::DeleteEncodingContext { surface, context })
}

/// Puts RDPGFX_DELETE_ENCODING_CONTEXT_PDU at the end.
pub(crate) fn put_delete_encoding_context(
    out: &mut Bytes,
    surface: u16,
    context: u32,
) -> Result<(), NoMemory>
    ensures { Puts result out.old out.new (spelling (pdus.DeleteEncodingContext surface context)) }
{
    put_header(out, Id::DeleteEncodingContext, u16::SIZE + u32::SIZE)?;
    surface.put(out)?;
    context.put(out)
}

/// Reads the body of RDPGFX_SOLIDFILL_PDU ([MS-RDPEGFX] 2.2.2.4).
pub(crate) fn read_solid_fill(alloc: Global, body: &[u8]) -> Result<Pdu, Cause<Stop>>
    ensures { Gives (λ p. p) result (read_whole solid_fill body.now) }
{
    let mut fields = Fields::new(body);
    let pdu = Pdu::SolidFill {
        surface: fields.u16()?,
        colour: fields.one()?,
        rects: fields.list(alloc)?,
    };
    fields.end()?;
    Ok(pdu)
}

/// Puts RDPGFX_SOLIDFILL_PDU at the end.
pub(crate) fn put_solid_fill(
    out: &mut Bytes,
    surface: u16,
    colour: Pixel,
    rects: &Rects,
) -> Result<(), NoMemory>
    requires { IsSpellable (pdus.SolidFill surface colour rects.now) }
    ensures { Puts result out.old out.new (spelling (pdus.SolidFill surface colour rects.now)) }
{
    put_header(
        out,
        Id::SolidFill,
        2 * u16::SIZE + Pixel::SIZE + rects.len() * Rect::SIZE,
    )?;
    surface.put(out)?;
    colour.put(out)?;
    put_list(out, rects.as_slice())
}

/// Reads the body of RDPGFX_SURFACE_TO_SURFACE_PDU ([MS-RDPEGFX] 2.2.2.5).
pub(crate) fn read_surface_to_surface(alloc: Global, body: &[u8]) -> Result<Pdu, Cause<Stop>>
    ensures { Gives (λ p. p) result (read_whole surface_to_surface body.now) }
{
    let mut fields = Fields::new(body);
    let pdu = Pdu::SurfaceToSurface {
        source: fields.u16()?,
        destination: fields.u16()?,
        rect: fields.one()?,
        points: fields.list(alloc)?,
    };
    fields.end()?;
    Ok(pdu)
}

/// Puts RDPGFX_SURFACE_TO_SURFACE_PDU at the end.
pub(crate) fn put_surface_to_surface(
    out: &mut Bytes,
    source: u16,
    destination: u16,
    rect: Rect,
    points: &Points,
) -> Result<(), NoMemory>
    requires { IsSpellable (pdus.SurfaceToSurface source destination rect points.now) }
    ensures { Puts result out.old out.new (spelling (pdus.SurfaceToSurface source destination rect points.now)) }
{
    put_header(
        out,
        Id::SurfaceToSurface,
        3 * u16::SIZE + Rect::SIZE + points.len() * Point::SIZE,
    )?;
    source.put(out)?;
    destination.put(out)?;
    rect.put(out)?;
    put_list(out, points.as_slice())
}

/// Reads the body of RDPGFX_SURFACE_TO_CACHE_PDU ([MS-RDPEGFX] 2.2.2.6).
pub(crate) fn read_surface_to_cache(body: &[u8]) -> Result<Pdu, Stop>
    ensures { result ≡ read_whole surface_to_cache body.now }
{
    let mut fields = Fields::new(body);
    let pdu = Pdu::SurfaceToCache {
        surface: fields.u16()?,
        key: fields.u64()?,
        slot: fields.u16()?,
        rect: fields.one()?,
    };
    fields.end()?;
    Ok(pdu)
}

/// Puts RDPGFX_SURFACE_TO_CACHE_PDU at the end.
pub(crate) fn put_surface_to_cache(
    out: &mut Bytes,
    surface: u16,
    key: u64,
    slot: u16,
    rect: Rect,
) -> Result<(), NoMemory>
    ensures { Puts result out.old out.new (spelling (pdus.SurfaceToCache surface key slot rect)) }
{
    put_header(
        out,
        Id::SurfaceToCache,
        2 * u16::SIZE + u64::SIZE + Rect::SIZE,
    )?;
    surface.put(out)?;
    key.put(out)?;
    slot.put(out)?;
    rect.put(out)
}

/// Reads the body of RDPGFX_CACHE_TO_SURFACE_PDU ([MS-RDPEGFX] 2.2.2.7).
pub(crate) fn read_cache_to_surface(alloc: Global, body: &[u8]) -> Result<Pdu, Cause<Stop>>
    ensures { Gives (λ p. p) result (read_whole cache_to_surface body.now) }
{
    let mut fields = Fields::new(body);
    let pdu = Pdu::CacheToSurface {
        slot: fields.u16()?,
        surface: fields.u16()?,
        points: fields.list(alloc)?,
    };
    fields.end()?;
    Ok(pdu)
}

/// Puts RDPGFX_CACHE_TO_SURFACE_PDU at the end.
pub(crate) fn put_cache_to_surface(
    out: &mut Bytes,
    slot: u16,
    surface: u16,
    points: &Points,
) -> Result<(), NoMemory>
    requires { IsSpellable (pdus.CacheToSurface slot surface points.now) }
    ensures { Puts result out.old out.new (spelling (pdus.CacheToSurface slot surface points.now)) }
{
    put_header(
        out,
        Id::CacheToSurface,
        3 * u16::SIZE + points.len() * Point::SIZE,
    )?;
    slot.put(out)?;
    surface.put(out)?;
    put_list(out, points.as_slice())
}

/// Reads the body of RDPGFX_EVICT_CACHE_ENTRY_PDU ([MS-RDPEGFX] 2.2.2.8).
pub(crate) fn read_evict_cache_entry(body: &[u8]) -> Result<Pdu, Stop>
    ensures { result ≡ read_whole evict_cache_entry body.now }
{
    let mut fields = Fields::new(body);
    let slot = fields.u16()?;
    fields.end()?;
    Ok(Pdu::EvictCacheEntry { slot })
}

/// Puts RDPGFX_EVICT_CACHE_ENTRY_PDU at the end.
pub(crate) fn put_evict_cache_entry(out: &mut Bytes, slot: u16) -> Result<(), NoMemory>
    ensures { Puts result out.old out.new (spelling (pdus.EvictCacheEntry slot)) }
{
    put_header(out, Id::EvictCacheEntry, u16::SIZE)?;
    slot.put(out)
}
