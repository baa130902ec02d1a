//! The codes of a tile at its source.
ghost use Rattle.std.specs.Prelude.{◌≡◌, ◌≤◌, ◌-ℤ◌, IfOk, length, pos};
ghost use Rattle.std.specs.List.{AllPass};
ghost use Rattle.gfx_base.specs.Field.{IsBytes};
ghost use Rattle.gfx_dwt.specs.Ranges.{AllWithin, Within};
ghost use Rattle.gfx_rlgr.specs.Bound.{AreSmall};
ghost use Rattle.gfx_rlgr.specs.Rlgr.{in_range};
ghost use Rattle.gfx_tile_make.specs.Levels.{first_values};
ghost use Rattle.gfx_tile_make.specs.Planes.{differences};
ghost use Rattle.gfx_rfx_video.specs.Message.{AreShort, code_of, codes_of};

use gfx_base::{Bytes, NoMemory};
use gfx_dwt::{Band, Transform};
use gfx_quant::{Component, band_start};
use gfx_rlgr::{Mode, encode};
use gfx_tile_make::SourceTile;
use std::alloc::Global;

/// The codes of a tile's components.
#[derive(Drop)]
pub(crate) struct Codes {
    pub(crate) y: Bytes,
    pub(crate) cb: Bytes,
    pub(crate) cr: Bytes,
}

/// The codes of a tile, of which so many levels are listed.
#[tactic(auto, unfolding(crate::specs::Message::codes_of))]
pub(crate) fn codes_of(
    alloc: Global,
    mode: Mode,
    tile: &SourceTile,
    levels: u8,
) -> Result<Codes, NoMemory>
    requires { levels ≡ length tile.now.setting.levels }
    ensures value { IfOk result (λ codes. codes ≡ codes_of mode tile.now) }
    ensures short { IfOk result AreShort }
{
    Ok(Codes {
        y: code_of(alloc, mode, tile, Component::Y, levels)?,
        cb: code_of(alloc, mode, tile, Component::Cb, levels)?,
        cr: code_of(alloc, mode, tile, Component::Cr, levels)?,
    })
}

/// The code of a component: its values at the level behind the listed ones, which leaves nothing out.
fn code_of(
    alloc: Global,
    mode: Mode,
    tile: &SourceTile,
    component: Component,
    levels: u8,
) -> Result<Bytes, NoMemory>
    requires { levels ≡ length tile.now.setting.levels }
    ensures value { IfOk result (λ bytes. bytes ≡ code_of mode tile.now component) }
    ensures short { IfOk result (λ bytes. length bytes ≤ 65535) }
{
    let mut values = [0; 4096];
    tile.level_values(component, levels, &mut values);
    differ_low(&mut values, Transform::Plain);
    let code = encode(alloc, mode, &values)?;
    are_bytes(code.as_slice());
    Ok(code)
}

/// Puts in place of each value of LL3 how far it is above the one before it.
fn differ_low(values: &mut [i32; 4096], transform: Transform)
    requires { AllWithin 1024 values.old }
    ensures value { values.new ≡ first_values transform values.old }
    ensures in_range { AllPass in_range values.new }
    ensures small { AreSmall values.new }
{
    let (_, low) = values.split_at_mut(band_start(transform, Band::Ll3));
    differ(low);
}

#[inline(always)]
fn behind(value: i32, last: i32) -> i32
    requires value { Within 1024 value }
    requires last { Within 1024 last }
    ensures { result ≡ value -ℤ last }
{
    value - last
}

/// Puts in place of each number how far it is above the one before it.
fn differ(values: &mut [i32])
    requires { AllWithin 1024 values.old }
    ensures { values.new ≡ differences (pos 0) values.old }
{
    let mut last = 0;
    for place in 0..values.len() {
        let value = values[place];
        values[place] = behind(value, last);
        last = value;
    }
}

/// Bytes are below 256.
fn are_bytes(bytes: &[u8])
    ensures { IsBytes bytes.now }
{
    let _ = bytes;
}
