//! The messages of surfaces, frames, the output and the capabilities.
#![tactic(auto, unfolding(gfx_layout::specs::Reading::read_whole, gfx_layout::specs::Reading::read, gfx_base::specs::Results::and_then, crate::specs::Spelling::spelling, crate::specs::Spelling::size, crate::specs::Spelling::written_body))]

ghost use Rattle.std.specs.Prelude.{◌≡◌, refl};
ghost use Rattle.gfx_base.specs.Outcome.{Gives, Says};
ghost use Rattle.gfx_layout.specs.Reading.{read_whole};
ghost use Rattle.gfx_layout.specs.Writing.{Puts};
ghost use Rattle.gfx_pdu.specs.declared.pdu.Pdu.TheVariants as pdus;
ghost use Rattle.gfx_pdu.specs.Borrowed.{pdu_of};
ghost use Rattle.gfx_pdu.specs.Layouts.{monitor, create_surface, delete_surface, start_frame, end_frame, reset_graphics, map_surface_to_output, caps_confirm};
ghost use Rattle.gfx_pdu.specs.Spelling.{spelling, IsSpellable};
ghost use Rattle.gfx_pdu.specs.Writing.{PutsFront};

use crate::header::put_header;
use crate::id::Id;
use crate::pdu::{MOST_MONITORS, Monitor, Monitors, Pdu, PduRef};
use gfx_base::{Bytes, Cause, NoMemory, Refusal};
use gfx_layout::{Fields, Part, Stop, put_items, put_zeros};
use std::alloc::Global;

impl Part for Monitor {
    ghost shape = { monitor };

    const SIZE: usize = 20;

    ghost SIZE = { 20 };

    ghost sized = { refl };

    #[inline(always)]
    #[tactic(auto, unfolding(gfx_layout::specs::Shape::part_in))]
    fn read(bytes: &[u8]) -> Monitor {
        Monitor {
            left: u32::read(bytes),
            top: u32::read(&bytes[4..]),
            right: u32::read(&bytes[8..]),
            bottom: u32::read(&bytes[12..]),
            flags: u32::read(&bytes[16..]),
        }
    }

    #[tactic(auto, unfolding(gfx_layout::specs::Shape::text))]
    fn put(self, out: &mut Bytes) -> Result<(), NoMemory> {
        put_items(
            out,
            &[self.left, self.top, self.right, self.bottom, self.flags],
        )
    }
}

/// Reads the body of RDPGFX_CREATE_SURFACE_PDU ([MS-RDPEGFX] 2.2.2.9).
pub(crate) fn read_create_surface(body: &[u8]) -> Result<Pdu, Stop>
    ensures { result ≡ read_whole create_surface body.now }
{
    let mut fields = Fields::new(body);
    let pdu = Pdu::CreateSurface {
        id: fields.u16()?,
        width: fields.u16()?,
        height: fields.u16()?,
        format: fields.u8()?,
    };
    fields.end()?;
    Ok(pdu)
}

/// Puts RDPGFX_CREATE_SURFACE_PDU at the end.
pub(crate) fn put_create_surface(
    out: &mut Bytes,
    id: u16,
    width: u16,
    height: u16,
    format: u8,
) -> Result<(), NoMemory>
    ensures { Puts result out.old out.new (spelling (pdus.CreateSurface id width height format)) }
{
    put_header(out, Id::CreateSurface, 3 * u16::SIZE + u8::SIZE)?;
    id.put(out)?;
    width.put(out)?;
    height.put(out)?;
    format.put(out)
}

/// Reads the body of RDPGFX_DELETE_SURFACE_PDU ([MS-RDPEGFX] 2.2.2.10).
pub(crate) fn read_delete_surface(body: &[u8]) -> Result<Pdu, Stop>
    ensures { result ≡ read_whole delete_surface body.now }
{
    let mut fields = Fields::new(body);
    let id = fields.u16()?;
    fields.end()?;
    Ok(Pdu::DeleteSurface { id })
}

/// Puts RDPGFX_DELETE_SURFACE_PDU at the end.
pub(crate) fn put_delete_surface(out: &mut Bytes, id: u16) -> Result<(), NoMemory>
    ensures { Puts result out.old out.new (spelling (pdus.DeleteSurface id)) }
{
    put_header(out, Id::DeleteSurface, u16::SIZE)?;
    id.put(out)
}

/// Reads the body of RDPGFX_START_FRAME_PDU ([MS-RDPEGFX] 2.2.2.11).
pub(crate) fn read_start_frame(body: &[u8]) -> Result<Pdu, Stop>
    ensures { result ≡ read_whole start_frame body.now }
{
    let mut fields = Fields::new(body);
    let timestamp = fields.u32()?;
    let frame = fields.u32()?;
    fields.end()?;
    Ok(Pdu::StartFrame { timestamp, frame })
}

/// Puts RDPGFX_START_FRAME_PDU at the end.
pub(crate) fn put_start_frame(out: &mut Bytes, timestamp: u32, frame: u32) -> Result<(), NoMemory>
    ensures { Puts result out.old out.new (spelling (pdus.StartFrame timestamp frame)) }
{
    put_header(out, Id::StartFrame, 2 * u32::SIZE)?;
    timestamp.put(out)?;
    frame.put(out)
}

/// Reads the body of RDPGFX_END_FRAME_PDU ([MS-RDPEGFX] 2.2.2.12).
pub(crate) fn read_end_frame(body: &[u8]) -> Result<Pdu, Stop>
    ensures { result ≡ read_whole end_frame body.now }
{
    let mut fields = Fields::new(body);
    let frame = fields.u32()?;
    fields.end()?;
    Ok(Pdu::EndFrame { frame })
}

/// Puts RDPGFX_END_FRAME_PDU at the end.
pub(crate) fn put_end_frame(out: &mut Bytes, frame: u32) -> Result<(), NoMemory>
    ensures { Puts result out.old out.new (spelling (pdus.EndFrame frame)) }
{
    put_header(out, Id::EndFrame, u32::SIZE)?;
    frame.put(out)
}

/// Reads the body of RDPGFX_RESET_GRAPHICS_PDU ([MS-RDPEGFX] 2.2.2.14).
pub(crate) fn read_reset_graphics(alloc: Global, body: &[u8]) -> Result<Pdu, Cause<Stop>>
    ensures { Gives (λ p. p) result (read_whole reset_graphics body.now) }
{
    let mut fields = Fields::new(body);
    let width = fields.u32()?;
    let height = fields.u32()?;
    let count = fields.u32()? as usize;
    if count > MOST_MONITORS {
        return Err(Cause::Refused(Stop::Rule(Refusal::MonitorCount)));
    }
    let monitors = fields.items(alloc, count)?;
    fields.bytes((MOST_MONITORS - count) * Monitor::SIZE)?;
    fields.end()?;
    Ok(Pdu::ResetGraphics {
        width,
        height,
        monitors,
    })
}

/// Puts RDPGFX_RESET_GRAPHICS_PDU at the end.
pub(crate) fn put_reset_graphics(
    out: &mut Bytes,
    width: u32,
    height: u32,
    monitors: &Monitors,
) -> Result<(), NoMemory>
    requires { IsSpellable (pdus.ResetGraphics width height monitors.now) }
    ensures { Puts result out.old out.new (spelling (pdus.ResetGraphics width height monitors.now)) }
{
    put_header(
        out,
        Id::ResetGraphics,
        3 * u32::SIZE + MOST_MONITORS * Monitor::SIZE,
    )?;
    width.put(out)?;
    height.put(out)?;
    (monitors.len() as u32).put(out)?;
    put_items(out, monitors.as_slice())?;
    put_zeros(out, (MOST_MONITORS - monitors.len()) * Monitor::SIZE)
}

/// Reads the body of RDPGFX_MAP_SURFACE_TO_OUTPUT_PDU ([MS-RDPEGFX] 2.2.2.15).
pub(crate) fn read_map_surface_to_output(body: &[u8]) -> Result<Pdu, Stop>
    ensures { result ≡ read_whole map_surface_to_output body.now }
{
    let mut fields = Fields::new(body);
    let id = fields.u16()?;
    let reserved = fields.u16()?;
    let x = fields.u32()?;
    let y = fields.u32()?;
    fields.end()?;
    Ok(Pdu::MapSurfaceToOutput { id, reserved, x, y })
}

/// Puts RDPGFX_MAP_SURFACE_TO_OUTPUT_PDU at the end.
pub(crate) fn put_map_surface_to_output(
    out: &mut Bytes,
    id: u16,
    reserved: u16,
    x: u32,
    y: u32,
) -> Result<(), NoMemory>
    ensures { Puts result out.old out.new (spelling (pdus.MapSurfaceToOutput id reserved x y)) }
{
    put_header(out, Id::MapSurfaceToOutput, 2 * u16::SIZE + 2 * u32::SIZE)?;
    id.put(out)?;
    reserved.put(out)?;
    x.put(out)?;
    y.put(out)
}

/// Reads the body of RDPGFX_CAPS_CONFIRM_PDU ([MS-RDPEGFX] 2.2.2.19).
pub(crate) fn read_caps_confirm(body: &[u8]) -> Result<PduRef<'_>, Stop>
    ensures { Says pdu_of result (read_whole caps_confirm body.now) }
{
    let mut fields = Fields::new(body);
    let pdu = PduRef::CapsConfirm {
        version: fields.u32()?,
        payload: fields.sized()?,
    };
    fields.end()?;
    Ok(pdu)
}

/// Puts RDPGFX_CAPS_CONFIRM_PDU at the end, all but its data.
pub(crate) fn put_caps_confirm(
    out: &mut Bytes,
    version: u32,
    payload: &Bytes,
) -> Result<(), NoMemory>
    requires { IsSpellable (pdus.CapsConfirm version payload.now) }
    ensures { PutsFront result out.old out.new (spelling (pdus.CapsConfirm version payload.now)) payload.now }
{
    put_header(out, Id::CapsConfirm, 2 * u32::SIZE + payload.len())?;
    version.put(out)?;
    (payload.len() as u32).put(out)
}
