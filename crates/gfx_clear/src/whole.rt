//! A part that draws the whole rectangle and stands alone: it is painted with no look at what stood there.
ghost use Rattle.std.specs.Prelude.{◌≡◌, ◌*◌, ◌<◌, ◌^◌, true, length, map, IfSome};
ghost use Rattle.gfx_clear_bands.specs.Bars.{colours};
ghost use Rattle.gfx_base.specs.Colour.{opaque};
ghost use Rattle.gfx_clear.specs.Clear.{layered};
ghost use Rattle.gfx_clear.specs.Subcodecs.{subcodecs, raw_colours};
ghost use Rattle.gfx_clear.specs.Inner.{parts_seen};
ghost use Rattle.gfx_clear.specs.Wholes.{CoversAll, IsWhole, PaintsAs, whole_pixels};

use crate::area::{AREA, Area, RAW, RLEX, area_at, colour_at};
use crate::parts::Parts;
use gfx_base::{Pixel, Refusal};
use gfx_clear_runs::{paint_rlex, paint_runs};

/// The bytes of such a part, and how they spell its pixels.
#[derive(Clone, Copy)]
pub(crate) enum Whole<'a> {
    /// A residual layer.
    Runs { bytes: &'a [u8] },
    /// A subcodec of three bytes for each pixel.
    Raw { bytes: &'a [u8] },
    /// A subcodec of a palette and segments.
    Palette { bytes: &'a [u8] },
}

/// The only part of a stream for a rectangle of these sides, where it may draw all of it; None where there are
/// others, or it is of another kind.
pub(crate) fn whole_of<'a>(parts: &Parts<'a>, width: u16, height: u16) -> Option<Whole<'a>>
    ensures { IfSome result (λ whole. IsWhole width height whole (λ old. layered width height old (parts_seen parts.now))) }
{
    if !parts.bands.is_empty() {
        return None;
    }
    if parts.residual.is_empty() {
        return whole_area(parts.subcodecs, width, height);
    }
    if !parts.subcodecs.is_empty() {
        return None;
    }
    Some(Whole::Runs {
        bytes: parts.residual,
    })
}

/// The same of subcodecs.
fn whole_area(bytes: &[u8], width: u16, height: u16) -> Option<Whole<'_>>
    ensures { IfSome result (λ whole. IsWhole width height whole (λ old. subcodecs width height old bytes.now)) }
{
    let Ok(area) = area_at(bytes, width, height) else {
        return None;
    };
    if !covers_all(&area, width, height, bytes.len()) {
        return None;
    }
    let (_, bytes) = bytes.split_at(AREA);
    match area.codec {
        RAW => Some(Whole::Raw { bytes }),
        RLEX => Some(Whole::Palette { bytes }),
        _ => None,
    }
}

/// Whether a subcodec of so many bytes stands alone and draws the whole rectangle.
fn covers_all(area: &Area, width: u16, height: u16, size: usize) -> bool
    ensures { result ≡ true → CoversAll area.now width height size }
{
    area.x == 0
        && area.y == 0
        && area.width == width
        && area.height == height
        && size as u64 == AREA as u64 + u64::from(area.size)
}

/// Paints such a part over all of these pixels. After a refusal any pixels may stand there.
pub(crate) fn paint_whole(whole: &Whole<'_>, out: &mut [Pixel]) -> Result<(), Refusal>
    requires { length out.old < 2 ^ 32 }
    ensures { PaintsAs result out.new (whole_pixels whole.now (length out.old)) }
{
    match *whole {
        Whole::Runs { bytes } => paint_runs(bytes, out),
        Whole::Raw { bytes } => paint_raw(bytes, out),
        Whole::Palette { bytes } => paint_rlex(bytes, out),
    }
}

/// Paints three bytes for each pixel.
#[tactic(auto, unfolding(crate::specs::Subcodecs::raw_colours, gfx_base::specs::Results::and_then))]
fn paint_raw(bytes: &[u8], out: &mut [Pixel]) -> Result<(), Refusal>
    requires { length out.old < 2 ^ 32 }
    ensures { PaintsAs result out.new (raw_colours (length out.old) bytes.now) }
{
    if bytes.len() as u64 != 3 * out.len() as u64 {
        return Err(Refusal::PayloadLength);
    }
    paint_colours(bytes, out);
    Ok(())
}

/// Makes pixels the colours of three bytes each.
fn paint_colours(bytes: &[u8], out: &mut [Pixel])
    requires { length bytes.now ≡ 3 * length out.old }
    ensures { out.new ≡ map opaque (colours (length out.old) bytes.now) }
{
    'pixels: for i in 0..out.len() {
        out[i] = colour_at(bytes, 3 * i).opaque();
    }
}
