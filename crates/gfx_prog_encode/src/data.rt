//! What is coded of tiles, kept until the message is written.
ghost use Rattle.std.specs.Prelude.{◌≡◌, ◌≤◌, IfOk, length};
ghost use Rattle.gfx_base.specs.Field.{IsBytes};
ghost use Rattle.gfx_prog_encode.specs.Messages.{first_code};
ghost use Rattle.gfx_prog_encode.specs.Inside.{AreShort, AreShortPasses, IsShortPass, coded, pass_to, passes};

use gfx_base::{Bytes, NoMemory};
use gfx_quant::Component;
use gfx_rlgr::{Mode, encode};
use gfx_tile_make::{Pass, SourceTile};
use std::alloc::Global;

/// The codes of a tile's components at the first level.
#[derive(Drop)]
pub(crate) struct FirstData {
    pub(crate) y: Bytes,
    pub(crate) cb: Bytes,
    pub(crate) cr: Bytes,
}

/// Both data of each component that raise a tile to a level.
#[derive(Drop)]
pub(crate) struct UpgradeData {
    pub(crate) y: Pass,
    pub(crate) cb: Pass,
    pub(crate) cr: Pass,
}

/// The code of a component at the first level.
fn first_code(alloc: Global, tile: &SourceTile, component: Component) -> Result<Bytes, NoMemory>
    ensures value { IfOk result (λ bytes. bytes ≡ first_code tile.now component) }
    ensures short { IfOk result (λ bytes. length bytes ≤ 65535) }
{
    let mut values = [0; 4096];
    tile.first_values(component, &mut values);
    let code = encode(alloc, Mode::Rlgr1, &values)?;
    are_bytes(code.as_slice());
    Ok(code)
}

/// The codes of all components at the first level.
#[tactic(auto, unfolding(crate::specs::Inside::coded))]
pub(crate) fn first_data(alloc: Global, tile: &SourceTile) -> Result<FirstData, NoMemory>
    ensures value { IfOk result (λ codes. codes ≡ coded tile.now) }
    ensures short { IfOk result AreShort }
{
    Ok(FirstData {
        y: first_code(alloc, tile, Component::Y)?,
        cb: first_code(alloc, tile, Component::Cb)?,
        cr: first_code(alloc, tile, Component::Cr)?,
    })
}

/// Both data that raise a component to a level.
fn pass_to(
    alloc: Global,
    tile: &SourceTile,
    component: Component,
    level: u8,
) -> Result<Pass, NoMemory>
    requires first { 1 ≤ level }
    requires listed { level ≤ length tile.now.setting.levels }
    ensures value { IfOk result (λ pass. pass ≡ pass_to tile.now component level) }
    ensures short { IfOk result IsShortPass }
{
    let pass = tile.pass_values(alloc, component, level)?;
    are_bytes(pass.srl.as_slice());
    are_bytes(pass.raw.as_slice());
    Ok(pass)
}

/// What raises all components to a level.
#[tactic(auto, unfolding(crate::specs::Inside::passes))]
pub(crate) fn upgrade_data(
    alloc: Global,
    tile: &SourceTile,
    level: u8,
) -> Result<UpgradeData, NoMemory>
    requires first { 1 ≤ level }
    requires listed { level ≤ length tile.now.setting.levels }
    ensures value { IfOk result (λ codes. codes ≡ passes tile.now level) }
    ensures short { IfOk result AreShortPasses }
{
    Ok(UpgradeData {
        y: pass_to(alloc, tile, Component::Y, level)?,
        cb: pass_to(alloc, tile, Component::Cb, level)?,
        cr: pass_to(alloc, tile, Component::Cr, level)?,
    })
}

/// Bytes are below 256.
fn are_bytes(bytes: &[u8])
    ensures { IsBytes bytes.now }
{
    let _ = bytes;
}
