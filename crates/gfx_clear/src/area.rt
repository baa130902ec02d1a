//! The rectangle of a subcodec, and its pixels.
ghost use Rattle.std.specs.Prelude.{◌≡◌, ◌≤◌, ◌+◌, ◌*◌, ◌<◌, ◌^◌, true, length, IfOk};
ghost use Rattle.std.specs.Int.{w16};
ghost use Rattle.gfx_base.specs.Field.{number_at};
ghost use Rattle.gfx_base.specs.Outcome.{Gives, Says};
ghost use Rattle.gfx_clear_bands.specs.Bars.{colour_at, colours};
ghost use Rattle.gfx_clear.specs.Subcodecs.{area_of, is_inside, raw_colours, coded, area_at};
ghost use Rattle.gfx_clear_runs.specs.Reading.{covered, rlex_of};

use crate::parts::number_at;
use gfx_base::{Fault, NoMemory, Refusal, Rgb, Rgbs};
use gfx_clear_runs::read_rlex;
use std::alloc::Global;

/// How many bytes stand before a subcodec's own.
pub(crate) const AREA: usize = 13;

/// The subcodec of three bytes for each pixel.
pub(crate) const RAW: u8 = 0;

/// The subcodec of a palette and segments.
pub(crate) const RLEX: u8 = 2;

/// A rectangle of the picture, and the subcodec with so many bytes that draws it.
#[derive(Clone, Copy)]
pub(crate) struct Area {
    pub(crate) x: u16,
    pub(crate) y: u16,
    pub(crate) width: u16,
    pub(crate) height: u16,
    pub(crate) size: u32,
    pub(crate) codec: u8,
}

/// The rectangle at the front of these bytes, in a picture of these sides.
#[tactic(auto, unfolding(crate::specs::Subcodecs::area_at, gfx_base::specs::Results::and_then))]
pub(crate) fn area_at(bytes: &[u8], width: u16, height: u16) -> Result<Area, Refusal>
    ensures area { result ≡ area_at width height bytes.now }
    ensures within { IfOk result (λ area. AREA + area.size ≤ length bytes.now) }
    ensures across { IfOk result (λ area. area.x + area.width ≤ width) }
    ensures down { IfOk result (λ area. area.y + area.height ≤ height) }
{
    if bytes.len() < AREA {
        return Err(Refusal::ClearLengths);
    }
    let area = area_of(bytes);
    if bytes.len() - AREA < area.size as usize {
        return Err(Refusal::ClearLengths);
    }
    if !is_inside(&area, width, height) {
        return Err(Refusal::RectOutside);
    }
    Ok(area)
}

/// What the first bytes of a subcodec say.
fn area_of(bytes: &[u8]) -> Area
    requires { AREA ≤ length bytes.now }
    ensures { result ≡ area_of bytes.now }
{
    Area {
        x: u16::from_le_bytes([bytes[0], bytes[1]]),
        y: u16::from_le_bytes([bytes[2], bytes[3]]),
        width: u16::from_le_bytes([bytes[4], bytes[5]]),
        height: u16::from_le_bytes([bytes[6], bytes[7]]),
        size: number_at(bytes, 8),
        codec: bytes[12],
    }
}

/// Whether a rectangle lies in a picture of these sides.
fn is_inside(area: &Area, width: u16, height: u16) -> bool
    ensures test { result ≡ is_inside width height area.now }
    ensures across { result ≡ true → area.now.x + area.now.width ≤ width }
    ensures down { result ≡ true → area.now.y + area.now.height ≤ height }
{
    u32::from(area.x) + u32::from(area.width) <= u32::from(width)
        && u32::from(area.y) + u32::from(area.height) <= u32::from(height)
}

/// So many pixels by a subcodec.
pub(crate) fn decode(alloc: Global, codec: u8, count: u32, bytes: &[u8]) -> Result<Rgbs, Fault>
    ensures { Gives (λ pixels. pixels) result (coded codec count bytes.now) }
{
    match codec {
        RAW => raw_colours(alloc, count, bytes),
        RLEX => rlex_colours(alloc, count, bytes),
        _ => Err(Fault::Refused(Refusal::SubcodecRefused)),
    }
}

/// So many pixels of three bytes each.
#[tactic(auto, unfolding(crate::specs::Subcodecs::raw_colours, gfx_base::specs::Results::and_then))]
fn raw_colours(alloc: Global, count: u32, bytes: &[u8]) -> Result<Rgbs, Fault>
    ensures { Gives (λ pixels. pixels) result (raw_colours count bytes.now) }
{
    if bytes.len() as u64 != 3 * u64::from(count) {
        return Err(Fault::Refused(Refusal::PayloadLength));
    }
    let colours = colours(alloc, count as usize, bytes)?;
    Ok(Rgbs::from_vec(colours))
}

/// So many colours from the front of the bytes.
fn colours(alloc: Global, count: usize, bytes: &[u8]) -> Result<Vec<Rgb>, NoMemory>
    requires { 3 * count ≤ length bytes.now }
    ensures { IfOk result (λ found. found.items ≡ colours count bytes.now) }
{
    let mut found = Vec::with_capacity(alloc, count)?;
    'colours: for n in 0..count {
        found.push_reserved(colour_at(bytes, 3 * n));
    }
    Ok(found)
}

/// The colour of three bytes.
#[inline(always)]
pub(crate) fn colour_at(bytes: &[u8], at: usize) -> Rgb
    requires { at + 3 ≤ length bytes.now }
    ensures { result ≡ colour_at bytes.now at }
{
    Rgb {
        b: bytes[at],
        g: bytes[at + 1],
        r: bytes[at + 2],
    }
}

/// So many pixels of a palette and its segments.
fn rlex_colours(alloc: Global, count: u32, bytes: &[u8]) -> Result<Rgbs, Fault>
    ensures { Gives (λ pixels. pixels) result (covered count (rlex_of bytes.now)) }
{
    let mut pixels = Rgbs::new(alloc);
    match read_rlex(bytes, count, &mut pixels) {
        Ok(()) => Ok(pixels),
        Err(fault) => Err(fault),
    }
}
