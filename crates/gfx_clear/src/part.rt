//! The one part that a server's stream has.
ghost use Rattle.std.specs.Prelude.{◌≡◌, ◌<◌, ◌≤◌, ◌+◌, ◌*◌, ◌^◌, ◌++◌, length, IfOk, OnOk};
ghost use Rattle.std.specs.List.{flat_map};
ghost use Rattle.gfx_clear_runs.specs.Writing.{runs_written, rlex_written};
ghost use Rattle.gfx_clear_bands.specs.Writing.{colour_bytes, elements, written, after};
ghost use Rattle.gfx_clear.specs.declared.part.Place.TheVariants.{ByRuns, ByBands};
ghost use Rattle.gfx_clear.specs.Sending.{part, part_as, palette_part, raw_part, rings_after, area_bytes, size_bytes, part_bytes};

use crate::area::{AREA, RAW, RLEX};
use crate::layer::Layer;
use arrayvec::ArrayVec;
use gfx_base::{Bytes, NoMemory, Rgb};
use gfx_clear_bands::write_bands;
use gfx_clear_runs::{write_rlex, write_runs};
use gfx_clear_store::Store;
use std::alloc::Global;

/// Where its bytes stand.
#[derive(Clone, Copy)]
pub(crate) enum Place {
    /// In the residual layer.
    ByRuns,
    /// In the bands.
    ByBands,
    /// In a subcodec over the whole rectangle.
    Subcodec { codec: u8 },
}

/// The part that draws a picture.
#[derive(Drop)]
pub(crate) struct Part {
    pub(crate) place: Place,
    pub(crate) bytes: Bytes,
}

/// A picture by a layer. The rings take what reading it gives them.
pub(crate) fn part_as(
    alloc: Global,
    store: &mut Store,
    layer: Layer,
    pixels: &[Rgb],
    width: u16,
    height: u16,
) -> Result<Part, NoMemory>
    requires width { 1 ≤ width }
    requires height { 1 ≤ height }
    requires pixels { length pixels.now ≡ width * height }
    ensures part { IfOk result (λ part. part ≡ part_as layer store.old.held width height pixels.now) }
    ensures store { OnOk result (store.new.held ≡ rings_after layer store.old.held width height pixels.now) }
    ensures marked { store.new.marked ≡ store.old.marked }
{
    match layer {
        Layer::Residual => runs_part(alloc, pixels),
        Layer::Bands => bands_part(alloc, store, pixels, width, height),
        Layer::Palette => palette_part(alloc, pixels),
        Layer::Plain => raw_part(alloc, pixels),
    }
}

fn runs_part(alloc: Global, pixels: &[Rgb]) -> Result<Part, NoMemory>
    requires { length pixels.now < 2 ^ 32 }
    ensures { IfOk result (λ p. p ≡ part ByRuns (runs_written pixels.now)) }
{
    let mut bytes = Bytes::new(alloc);
    write_runs(pixels, &mut bytes)?;
    Ok(Part {
        place: Place::ByRuns,
        bytes,
    })
}

fn bands_part(
    alloc: Global,
    store: &mut Store,
    pixels: &[Rgb],
    width: u16,
    height: u16,
) -> Result<Part, NoMemory>
    requires width { 1 ≤ width }
    requires height { 1 ≤ height }
    requires pixels { length pixels.now ≡ width * height }
    ensures part { IfOk result (λ p. p ≡ part ByBands (written store.old.held (elements width height pixels.now))) }
    ensures store { OnOk result (store.new.held ≡ after store.old.held (elements width height pixels.now)) }
    ensures marked { store.new.marked ≡ store.old.marked }
{
    let mut bytes = Bytes::new(alloc);
    write_bands(store, pixels, width, height, &mut bytes)?;
    Ok(Part {
        place: Place::ByBands,
        bytes,
    })
}

/// A picture by a palette, or without one where it has too many colours.
fn palette_part(alloc: Global, pixels: &[Rgb]) -> Result<Part, NoMemory>
    requires { length pixels.now < 2 ^ 32 }
    ensures { IfOk result (λ p. p ≡ palette_part pixels.now (rlex_written pixels.now)) }
{
    let mut bytes = Bytes::new(alloc);
    if write_rlex(pixels, &mut bytes)? {
        let place = Place::Subcodec { codec: RLEX };
        Ok(Part { place, bytes })
    } else {
        raw_part(alloc, pixels)
    }
}

/// A picture of three bytes for each pixel.
fn raw_part(alloc: Global, pixels: &[Rgb]) -> Result<Part, NoMemory>
    requires { length pixels.now < 2 ^ 32 }
    ensures { IfOk result (λ p. p ≡ raw_part pixels.now) }
{
    let bytes = raw_bytes(alloc, pixels)?;
    Ok(Part {
        place: Place::Subcodec { codec: RAW },
        bytes: Bytes::from_vec(bytes),
    })
}

fn raw_bytes(alloc: Global, pixels: &[Rgb]) -> Result<Vec<u8>, NoMemory>
    requires { length pixels.now < 2 ^ 32 }
    ensures { IfOk result (λ bytes. bytes.items ≡ flat_map colour_bytes pixels.now) }
{
    let mut bytes = Vec::with_capacity(alloc, 3 * pixels.len())?;
    'pixels: for pixel in pixels {
        bytes.push_reserved(pixel.b);
        bytes.push_reserved(pixel.g);
        bytes.push_reserved(pixel.r);
    }
    Ok(bytes)
}

/// Appends the sizes of all parts, and this one, for a rectangle of these sides.
pub(crate) fn put_part(
    part: &Part,
    width: u16,
    height: u16,
    out: &mut Bytes,
) -> Result<(), NoMemory>
    requires { AREA + length part.now.bytes < 2 ^ 32 }
    ensures { OnOk result (out.new ≡ out.old ++ part_bytes width height part.now) }
{
    let size = part.bytes.len() as u32;
    match part.place {
        Place::ByRuns => out.append(size_bytes(size, 0, 0).as_slice())?,
        Place::ByBands => out.append(size_bytes(0, size, 0).as_slice())?,
        Place::Subcodec { codec } => {
            out.append(size_bytes(0, 0, AREA as u32 + size).as_slice())?;
            out.append(area_bytes(width, height, size, codec).as_slice())?
        }
    }
    out.append(part.bytes.as_slice())
}

/// The sizes of the three parts.
#[tactic(auto, unfolding(crate::specs::Sending::size_bytes))]
fn size_bytes(residual: u32, bands: u32, subcodecs: u32) -> ArrayVec<u8, 12>
    ensures { result.items ≡ size_bytes residual bands subcodecs }
{
    let mut sizes = ArrayVec::new();
    // There is room for all of them.
    let _ = sizes.try_extend_from_slice(&residual.to_le_bytes());
    let _ = sizes.try_extend_from_slice(&bands.to_le_bytes());
    let _ = sizes.try_extend_from_slice(&subcodecs.to_le_bytes());
    sizes
}

/// The head of a subcodec over the whole rectangle.
#[tactic(auto, unfolding(crate::specs::Sending::area_bytes))]
fn area_bytes(width: u16, height: u16, size: u32, codec: u8) -> ArrayVec<u8, 13>
    ensures { result.items ≡ area_bytes width height size codec }
{
    let mut head = ArrayVec::new();
    // There is room for all of them.
    let _ = head.try_extend_from_slice(&u16::to_le_bytes(0));
    let _ = head.try_extend_from_slice(&u16::to_le_bytes(0));
    let _ = head.try_extend_from_slice(&width.to_le_bytes());
    let _ = head.try_extend_from_slice(&height.to_le_bytes());
    let _ = head.try_extend_from_slice(&size.to_le_bytes());
    let _ = head.try_extend_from_slice(&[codec]);
    head
}
