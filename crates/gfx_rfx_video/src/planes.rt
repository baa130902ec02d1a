//! The coefficients of a tile, read from its codes.
ghost use Rattle.std.specs.Prelude.{◌≡◌, IfOk, IsTrue, MatchBool};
ghost use Rattle.gfx_base.specs.Outcome.{Says};
ghost use Rattle.gfx_base.specs.Results.{check};
ghost use Rattle.gfx_base.specs.declared.refusal.Refusal.TheVariants.{QuantRange};
ghost use Rattle.gfx_dwt.specs.Ranges.{AllWithin};
ghost use Rattle.gfx_quant.specs.Quant.{is_base};
ghost use Rattle.gfx_tile_state.specs.Passes.{SumsLeave, summed};
ghost use Rattle.gfx_dwt.specs.declared.layout.Transform.TheVariants.{Plain};
ghost use Rattle.gfx_rfx_video.specs.Inside.{HaveBases, bases_seen};
ghost use Rattle.gfx_rfx_video.specs.Tiles.{are_bases, base_at, bases_of, coefficients_of, planes_by, planes_of, quant_numbers};

use crate::quants::VideoQuant;
use crate::running::sum_up;
use crate::tile::CodedTile;
use gfx_base::Refusal;
use gfx_dwt::{Band, Transform};
use gfx_prog_block::TileHead;
use gfx_quant::{Level, Quant, band_start, check_base, dequantise_plane};
use gfx_rlgr::{Mode, decode};

/// The coefficients of a tile's components.
#[derive(Drop)]
pub(crate) struct Planes {
    pub(crate) y: [i16; 4096],
    pub(crate) cb: [i16; 4096],
    pub(crate) cr: [i16; 4096],
}

impl Planes {
    /// Planes, for any number of tiles.
    pub(crate) fn new() -> Planes {
        Planes {
            y: [0; 4096],
            cb: [0; 4096],
            cr: [0; 4096],
        }
    }
}

/// Whether a component may be quantised by a quant's numbers.
fn is_base(packed: &VideoQuant) -> bool
    ensures { result ≡ is_base (quant_numbers packed.now) }
{
    check_base(&packed.quant()).is_ok()
}

/// Whether each quant may be a base.
fn are_bases(quants: &[VideoQuant]) -> bool
    ensures { result ≡ are_bases quants.now }
{
    quants.iter().all(|packed| is_base(packed))
}

/// Each quant of a tile set has to be a base, used or not.
pub(crate) fn check_bases(quants: &[VideoQuant]) -> Result<(), Refusal>
    ensures { result ≡ check QuantRange (are_bases quants.now) }
{
    if are_bases(quants) {
        Ok(())
    } else {
        Err(Refusal::QuantRange)
    }
}

/// The base of this index.
#[tactic(auto, unfolding(crate::specs::Tiles::base_at, gfx_base::specs::Results::and_then))]
fn base_of(quants: &[VideoQuant], index: u8) -> Result<Quant, Refusal>
    requires { IsTrue (are_bases quants.now) }
    ensures value { Says (λ quant. quant.values) result (base_at quants.now index) }
    ensures base { IfOk result (λ quant. IsTrue (is_base quant.values)) }
{
    match quants.get(usize::from(index)) {
        Some(packed) => Ok(packed.quant()),
        None => Err(Refusal::QuantIndex),
    }
}

/// The bases of a tile's components.
#[tactic(auto, unfolding(crate::specs::Tiles::bases_of, gfx_base::specs::Results::and_then))]
fn read_bases(quants: &[VideoQuant], head: &TileHead) -> Result<Level, Refusal>
    requires { IsTrue (are_bases quants.now) }
    ensures value { Says bases_seen result (bases_of quants.now head.now) }
    ensures base { IfOk result HaveBases }
{
    let y = base_of(quants, head.quant_y)?;
    let cb = base_of(quants, head.quant_cb)?;
    let cr = base_of(quants, head.quant_cr)?;
    Ok(Level { y, cb, cr })
}

/// LL3 is coded as differences from the value before it. Where a sum leaves 16 bits the answer is false, and nothing is
/// said of the values.
fn sum_low(values: &mut [i16; 4096], transform: Transform) -> bool
    requires { AllWithin 32767 values.old }
    ensures { MatchBool result (values.new ≡ summed transform values.old) (SumsLeave transform values.old) }
{
    let (_, low) = values.split_at_mut(band_start(transform, Band::Ll3));
    sum_up(low)
}

/// The coefficients of a component, by way of its values, of which nothing is said afterwards.
fn read_plane(
    mode: Mode,
    base: &Quant,
    bytes: &[u8],
    values: &mut [i16; 4096],
    out: &mut [i16; 4096],
) -> Result<(), Refusal>
    requires { IsTrue (is_base base.now.values) }
    ensures { Says (λ _. out.new) result (coefficients_of mode base.now.values bytes.now) }
{
    let magnitude = decode(mode, bytes, values)?;
    if !sum_low(values, Transform::Plain) {
        return Err(Refusal::CoefficientRange);
    }
    if dequantise_plane(values, Transform::Plain, &base.values, magnitude, out) {
        Ok(())
    } else {
        Err(Refusal::CoefficientRange)
    }
}

/// The coefficients of all components.
#[tactic(auto, unfolding(crate::specs::Tiles::planes_by, gfx_base::specs::Results::and_then))]
fn read_all(
    mode: Mode,
    base: &Level,
    tile: &CodedTile<'_>,
    values: &mut [i16; 4096],
    planes: &mut Planes,
) -> Result<(), Refusal>
    requires { HaveBases base.now }
    ensures { Says (λ _. planes.new) result (planes_by mode (bases_seen base.now) tile.now) }
{
    read_plane(mode, &base.y, tile.y.as_slice(), values, &mut planes.y)?;
    read_plane(mode, &base.cb, tile.cb.as_slice(), values, &mut planes.cb)?;
    read_plane(mode, &base.cr, tile.cr.as_slice(), values, &mut planes.cr)
}

/// The coefficients of a tile, or the first reason against it.
#[tactic(auto, unfolding(crate::specs::Tiles::planes_of, gfx_base::specs::Results::and_then))]
pub(crate) fn read_planes(
    mode: Mode,
    quants: &[VideoQuant],
    tile: &CodedTile<'_>,
    values: &mut [i16; 4096],
    planes: &mut Planes,
) -> Result<(), Refusal>
    requires { IsTrue (are_bases quants.now) }
    ensures { Says (λ _. planes.new) result (planes_of mode quants.now tile.now) }
{
    let base = read_bases(quants, &tile.head)?;
    read_all(mode, &base, tile, values, planes)
}
