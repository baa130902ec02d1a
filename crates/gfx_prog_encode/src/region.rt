//! What a region has beside its tiles.
ghost use Rattle.std.specs.Prelude.{◌≡◌, IfOk, map, [], ◌∷◌, length, ◌≤◌};
ghost use Rattle.gfx_prog_encode.specs.Messages.{area_of, flags_by, levels_from, packed, region_of};

use crate::send::TileSend;
use gfx_base::NoMemory;
use gfx_dwt::Transform;
use gfx_prog_block::{
    Area, Areas, PackedQuant, PackedQuants, REDUCED, Region, RegionLevel, RegionLevels, Tiles,
};
use gfx_quant::{Level, Setting};
use std::alloc::Global;

/// The region of tiles that are sent, one rectangle for each.
pub(crate) fn region_of<'a>(
    alloc: Global,
    setting: &Setting,
    sends: &[TileSend],
    tiles: Tiles<'a>,
) -> Result<Region<'a>, NoMemory>
    ensures few { IfOk result (λ _. length setting.now.levels ≤ 7) }
    ensures value { IfOk result (λ region. region ≡ region_of setting.now sends.now tiles.entry) }
{
    Ok(Region {
        flags: flags_by(setting.transform),
        rects: areas_of(alloc, sends)?,
        quants: quants_of(alloc, setting)?,
        levels: levels_of(alloc, setting.levels.as_slice())?,
        tiles,
    })
}

/// The flags of a region of this transform.
fn flags_by(transform: Transform) -> u8
    ensures { result ≡ flags_by transform }
{
    match transform {
        Transform::Plain => 0,
        Transform::Reduced => REDUCED,
    }
}

/// The rectangles that tiles paint.
fn areas_of(alloc: Global, sends: &[TileSend]) -> Result<Areas, NoMemory>
    ensures { IfOk result (λ areas. areas ≡ map area_of sends.now) }
{
    let mut areas = Areas::new(alloc);
    'sends: for send in sends {
        areas.push(Area {
            x: send.rect.left,
            y: send.rect.top,
            width: send.rect.width(),
            height: send.rect.height(),
        })?;
    }
    Ok(areas)
}

/// The quants of Y, Cb and Cr.
fn quants_of(alloc: Global, setting: &Setting) -> Result<PackedQuants, NoMemory>
    ensures { IfOk result (λ quants. quants ≡ packed setting.now.y.values ∷ packed setting.now.cb.values ∷ packed setting.now.cr.values ∷ []) }
{
    let mut quants = PackedQuants::new(alloc);
    quants.append(&[
        PackedQuant::new(&setting.y),
        PackedQuant::new(&setting.cb),
        PackedQuant::new(&setting.cr),
    ])?;
    Ok(quants)
}

/// The listed levels, each with its place as its quality.
fn levels_of(alloc: Global, levels: &[Level]) -> Result<RegionLevels, NoMemory>
    requires { length levels.now ≤ 7 }
    ensures { IfOk result (λ listed. listed ≡ levels_from 0 levels.now) }
{
    let mut listed = RegionLevels::new(alloc);
    let mut quality = 0;
    'levels: for level in levels {
        listed.push(RegionLevel {
            quality,
            y: PackedQuant::new(&level.y),
            cb: PackedQuant::new(&level.cb),
            cr: PackedQuant::new(&level.cr),
        })?;
        quality += 1;
    }
    Ok(listed)
}
