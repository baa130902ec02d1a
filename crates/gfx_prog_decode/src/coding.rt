//! How a tile is coded, by its head and its region.
ghost use Rattle.std.specs.Prelude.{◌≡◌, ◌<◌, ◌*◌, IfOk, IsTrue, OnOk};
ghost use Rattle.gfx_base.specs.Outcome.{Says};
ghost use Rattle.gfx_base.specs.Results.{check};
ghost use Rattle.gfx_base.specs.declared.refusal.Refusal.TheVariants.{QuantRange};
ghost use Rattle.gfx_quant.specs.Quant.{is_base};
ghost use Rattle.gfx_tile_state.specs.Shape.{are_positions};
ghost use Rattle.gfx_prog_decode.specs.Coding.{are_bases, base_at, bases_of, begins_in, coding_of, left_at, left_by, together, transform_by, unpacked};
ghost use Rattle.gfx_prog_decode.specs.Inside.{HaveBases, coding_seen, level_seen};

use gfx_base::Refusal;
use gfx_dwt::Transform;
use gfx_prog_block::{NO_QUALITY, PackedQuant, REDUCED, Region, RegionLevel, TILE_SIZE, TileHead};
use gfx_quant::{Level, Quant, check_base};
use gfx_tile_state::PassShape;

/// Whether a component may be quantised by a quant's numbers.
fn is_base(packed: &PackedQuant) -> bool
    ensures { result ≡ is_base (unpacked packed.now) }
{
    check_base(&packed.quant()).is_ok()
}

/// Whether each quant may be a base.
fn are_bases(quants: &[PackedQuant]) -> bool
    ensures { result ≡ are_bases quants.now }
{
    quants.iter().all(|packed| is_base(packed))
}

/// Each quant of a region has to be a base, used or not.
pub(crate) fn check_bases(quants: &[PackedQuant]) -> Result<(), Refusal>
    ensures { result ≡ check QuantRange (are_bases quants.now) }
{
    if are_bases(quants) {
        Ok(())
    } else {
        Err(Refusal::QuantRange)
    }
}

/// The base of this index.
#[tactic(auto, unfolding(crate::specs::Coding::base_at, gfx_base::specs::Results::and_then))]
fn base_of(quants: &[PackedQuant], index: u8) -> Result<Quant, Refusal>
    requires { IsTrue (are_bases quants.now) }
    ensures value { Says (λ quant. quant.values) result (base_at quants.now index) }
    ensures base { IfOk result (λ quant. IsTrue (is_base quant.values)) }
{
    match quants.get(usize::from(index)) {
        Some(packed) => Ok(packed.quant()),
        None => Err(Refusal::QuantIndex),
    }
}

/// The bases of a tile's components.
#[tactic(auto, unfolding(crate::specs::Coding::bases_of, gfx_base::specs::Results::and_then))]
fn read_bases(quants: &[PackedQuant], head: &TileHead) -> Result<Level, Refusal>
    requires { IsTrue (are_bases quants.now) }
    ensures value { Says level_seen result (bases_of quants.now head.now) }
    ensures base { IfOk result HaveBases }
{
    let y = base_of(quants, head.quant_y)?;
    let cb = base_of(quants, head.quant_cb)?;
    let cr = base_of(quants, head.quant_cr)?;
    Ok(Level { y, cb, cr })
}

/// What a level of a region leaves out.
fn level_of(level: &RegionLevel) -> Level
    ensures { level_seen result ≡ left_by level.now }
{
    Level {
        y: level.y.quant(),
        cb: level.cb.quant(),
        cr: level.cr.quant(),
    }
}

/// What a quality leaves out.
#[tactic(auto, unfolding(crate::specs::Coding::left_at, gfx_base::specs::Results::and_then))]
fn read_level(levels: &[RegionLevel], quality: u8) -> Result<Level, Refusal>
    ensures { Says level_seen result (left_at levels.now quality) }
{
    if quality == NO_QUALITY {
        return Ok(Level::whole());
    }
    match levels.get(usize::from(quality)) {
        Some(level) => Ok(level_of(level)),
        None => Err(Refusal::QualityIndex),
    }
}

/// The bit positions of bands: what each is quantised by, and what is left out.
#[tactic(auto, unfolding(crate::specs::Coding::together))]
fn positions(base: &Quant, left: &Quant) -> [u8; 10]
    requires { IsTrue (is_base base.now.values) }
    ensures value { result ≡ together base.now.values left.now.values }
    ensures fit { IsTrue (are_positions (together base.now.values left.now.values)) }
{
    let [b0, b1, b2, b3, b4, b5, b6, b7, b8, b9] = base.values;
    let [l0, l1, l2, l3, l4, l5, l6, l7, l8, l9] = left.values;
    [
        b0 + l0,
        b1 + l1,
        b2 + l2,
        b3 + l3,
        b4 + l4,
        b5 + l5,
        b6 + l6,
        b7 + l7,
        b8 + l8,
        b9 + l9,
    ]
}

/// The transform of a region's tiles.
fn transform_by(flags: u8) -> Transform
    ensures { result ≡ transform_by flags }
{
    if flags % 2 == REDUCED {
        Transform::Reduced
    } else {
        Transform::Plain
    }
}

/// Whether the cell in this column and row begins on a surface of these sides.
pub(crate) fn begins_in(size: (u16, u16), x: u16, y: u16) -> bool
    ensures { result ≡ begins_in size.0 size.1 x y }
{
    let (width, height) = size;
    u32::from(TILE_SIZE) * u32::from(x) < u32::from(width)
        && u32::from(TILE_SIZE) * u32::from(y) < u32::from(height)
}

/// The shape of a tile's pass.
fn shape_by(transform: Transform, base: &Level, left: &Level) -> PassShape
    requires { HaveBases base.now }
    ensures { coding_seen result ≡ record {
      transform = transform;
      y = together base.now.y.values left.now.y.values;
      cb = together base.now.cb.values left.now.cb.values;
      cr = together base.now.cr.values left.now.cr.values;
    } }
{
    PassShape {
        transform,
        y: positions(&base.y, &left.y),
        cb: positions(&base.cb, &left.cb),
        cr: positions(&base.cr, &left.cr),
    }
}

/// How a tile is coded on a surface of these sides, or the first reason against it.
#[tactic(auto, unfolding(crate::specs::Coding::coding_of, gfx_base::specs::Results::and_then))]
pub(crate) fn shape_of(
    region: &Region<'_>,
    size: (u16, u16),
    head: &TileHead,
    quality: u8,
) -> Result<PassShape, Refusal>
    requires { IsTrue (are_bases region.now.quants) }
    ensures value { Says coding_seen result (coding_of region.now size.0 size.1 head.now quality) }
    ensures begins { OnOk result (IsTrue (begins_in size.0 size.1 head.now.x_idx head.now.y_idx)) }
{
    let base = read_bases(region.quants.as_slice(), head)?;
    if !begins_in(size, head.x_idx, head.y_idx) {
        return Err(Refusal::TileOutside);
    }
    let left = read_level(region.levels.as_slice(), quality)?;
    Ok(shape_by(transform_by(region.flags), &base, &left))
}
