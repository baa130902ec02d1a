//! Records of tiles: a tile through seven levels, as an independent program shows it, and answers.
use gfx_base::{Pixel, Refusal};
use gfx_dwt::Transform;
use gfx_quant::{Band, Component, truncate};
use gfx_tile_state::{PassShape, Scratch, TileState};
use std::alloc::Global;

// The first pass of Y, at level 6.
const FIRST: [u8; 14] = [
    0x00, 0x00, 0x3D, 0xE0, 0x68, 0xE5, 0x7F, 0x40, 0x08, 0x0A, 0x01, 0x38, 0x82, 0x00,
];

// All bands at base 6, with so much less quality.
fn shape(level: u8) -> PassShape {
    let transform = Transform::Plain;
    match level {
        0 => PassShape {
            transform,
            y: [6; 10],
            cb: [6; 10],
            cr: [6; 10],
        },
        1 => PassShape {
            transform,
            y: [7; 10],
            cb: [7; 10],
            cr: [7; 10],
        },
        2 => PassShape {
            transform,
            y: [8; 10],
            cb: [8; 10],
            cr: [8; 10],
        },
        3 => PassShape {
            transform,
            y: [9; 10],
            cb: [9; 10],
            cr: [9; 10],
        },
        4 => PassShape {
            transform,
            y: [10; 10],
            cb: [10; 10],
            cr: [10; 10],
        },
        5 => PassShape {
            transform,
            y: [11; 10],
            cb: [11; 10],
            cr: [11; 10],
        },
        _ => PassShape {
            transform,
            y: [12; 10],
            cb: [12; 10],
            cr: [12; 10],
        },
    }
}

fn upgraded(
    tile: &mut TileState,
    component: Component,
    srl: &[u8],
    raw: &[u8],
    shape: &PassShape,
) -> Result<(), Refusal> {
    match tile.may_upgrade(shape) {
        Ok(()) => tile.upgrade(component, srl, raw, shape),
        Err(refusal) => Err(refusal),
    }
}

fn brightness(pixel: Pixel) -> u64 {
    u64::from(pixel.b) + u64::from(pixel.g) + u64::from(pixel.r)
}

// Three pixels, and all pixels as a sum that tells their places apart.
fn shown(tile: &TileState) -> ([u8; 3], u64) {
    let mut pixels = [Pixel::default(); 4096];
    tile.pixels(&mut pixels, &mut Scratch::new());
    let mut total = 0u64;
    for place in 0..4096 {
        let pixel = pixels[place];
        total = total.saturating_add(brightness(pixel).saturating_mul(place as u64 % 251 + 1));
    }
    ([pixels[0].b, pixels[65].b, pixels[4095].b], total)
}

// Lets go of a record, which is proved once here.
fn let_go(tile: TileState) {
    drop(tile);
}

// Whether a record takes the first passes of all components.
fn takes_first(tile: &mut TileState) -> bool {
    let shape = shape(6);
    let mut scratch = Scratch::new();
    let y = tile.first(Component::Y, &FIRST, &shape, &mut scratch);
    let cb = tile.first(Component::Cb, &[], &shape, &mut scratch);
    let cr = tile.first(Component::Cr, &[], &shape, &mut scratch);
    (y, cb, cr) == (Ok(()), Ok(()), Ok(()))
}

// What is shown then.
const FIRST_SHOWN: ([u8; 3], u64) = ([0, 54, 128], 196_121_601);

// The passes of Y at the levels below it, and what is shown behind each.
const PASSES: [(&[u8], &[u8], ([u8; 3], u64)); 6] = [
    (
        &[0x8C, 0x00, 0x00, 0x3F, 0xF4],
        &[0x70, 0x00, 0x08],
        ([0, 87, 128], 197_356_818),
    ),
    (
        &[0x00, 0x00, 0x80, 0xA0, 0x00],
        &[0x44, 0x00, 0x01],
        ([32, 89, 128], 197_828_157),
    ),
    (
        &[0x00, 0x00, 0x21, 0xA8, 0x00],
        &[0xC2, 0x00, 0x00, 0x80],
        ([32, 100, 128], 198_054_024),
    ),
    (
        &[0x00, 0x00, 0x1D, 0xFE],
        &[0xC3, 0x80, 0x00, 0x40],
        ([28, 105, 128], 198_155_214),
    ),
    (
        &[0x60, 0x00, 0x00, 0xB4, 0xA0],
        &[0x40, 0x80, 0x00, 0x20],
        ([30, 106, 128], 198_195_138),
    ),
    (
        &[0xA0, 0x00, 0x00, 0x00],
        &[0xFA, 0x70, 0x00, 0x08],
        ([32, 107, 128], 198_227_313),
    ),
];

// Whether a record takes the passes of a level, of which those of Cb and Cr are empty.
fn is_raised(tile: &mut TileState, level: u8, srl: &[u8], raw: &[u8]) -> bool {
    let shape = shape(level);
    let y = upgraded(tile, Component::Y, srl, raw, &shape);
    let cb = upgraded(tile, Component::Cb, &[], &[], &shape);
    let cr = upgraded(tile, Component::Cr, &[], &[], &shape);
    (y, cb, cr) == (Ok(()), Ok(()), Ok(()))
}

// The first level that a record doesn't take or show, if there is one.
fn first_wrong(tile: &mut TileState) -> Option<u8> {
    let mut level = 6u8;
    if !takes_first(tile) || shown(tile) != FIRST_SHOWN {
        return Some(level);
    }
    for (srl, raw, due) in &PASSES {
        level = level.saturating_sub(1);
        if !is_raised(tile, level, srl, raw) || shown(tile) != *due {
            return Some(level);
        }
    }
    None
}

// The same of a new record, if there is memory for it.
fn first_wrong_of_new(alloc: Global) -> Option<Option<u8>> {
    let mut tile = TileState::new(alloc).ok()?;
    let wrong = first_wrong(&mut tile);
    let_go(tile);
    Some(wrong)
}

// Values of all sizes and both signs: those of a band that become other than zero at a level, those
// that grow, and LL3 of both signs, whose numbers have no sign.
#[test]
fn seven_levels(rt: HostRuntime) {
    assert_eq!(rt; first_wrong_of_new(rt.alloc()), Some(None));
}

fn upgraded_from(
    tile: &mut TileState,
    before: &TileState,
    component: Component,
    srl: &[u8],
    raw: &[u8],
    shape: &PassShape,
) -> Result<(), Refusal> {
    match before.may_upgrade(shape) {
        Ok(()) => tile.upgrade_from(before, component, srl, raw, shape, &mut Scratch::new()),
        Err(refusal) => Err(refusal),
    }
}

// Whether another record takes the next level of a record.
fn is_raised_from(next: &mut TileState, tile: &TileState) -> bool {
    let shape = shape(5);
    let (srl, raw, _) = PASSES[0];
    let y = upgraded_from(next, tile, Component::Y, srl, raw, &shape);
    let cb = upgraded_from(next, tile, Component::Cb, &[], &[], &shape);
    let cr = upgraded_from(next, tile, Component::Cr, &[], &[], &shape);
    (y, cb, cr) == (Ok(()), Ok(()), Ok(()))
}

// Whether it shows what the first one does before, and that level behind it.
fn goes_on(next: &mut TileState, tile: &TileState) -> bool {
    let (_, _, due) = PASSES[0];
    shown(next) == FIRST_SHOWN && is_raised_from(next, tile) && shown(next) == due
}

// Whether a copy of a record goes on from it.
fn copy_goes_on(tile: &TileState) -> Option<bool> {
    let mut next = tile.copy().ok()?;
    let right = goes_on(&mut next, tile);
    let_go(next);
    Some(right)
}

// The same of a new record, if there is memory, and it shows then what it did.
fn goes_on_elsewhere(alloc: Global) -> Option<bool> {
    let mut tile = TileState::new(alloc).ok()?;
    let first = takes_first(&mut tile);
    let right = copy_goes_on(&tile);
    let same = shown(&tile) == FIRST_SHOWN;
    let_go(tile);
    Some(first && right? && same)
}

// The next level, made in another record: that one shows it, and the first one shows what it did.
#[test]
fn a_level_in_another_record(rt: HostRuntime) {
    assert_eq!(rt; goes_on_elsewhere(rt.alloc()), Some(true));
}

// A first pass of zeros.
const ZEROS: [u8; 3] = [0; 3];

// Whether a new record takes a first pass of any transform, and no upgrade.
fn new_is_answered(tile: &TileState) -> bool {
    tile.may_add(Transform::Reduced) == Ok(())
        && tile.may_upgrade(&shape(0)) == Err(Refusal::QualityWorse)
}

// Whether a record of one component is grey, and goes on by its transform alone, with no upgrade.
fn one_is_answered(tile: &TileState) -> bool {
    shown(tile).0 == [128, 128, 128]
        && tile.may_add(Transform::Plain) == Ok(())
        && tile.may_add(Transform::Reduced) == Err(Refusal::TransformChanged)
        && tile.may_upgrade(&shape(4)) == Err(Refusal::QualityWorse)
}

// A shape of another transform.
fn reduced() -> PassShape {
    PassShape {
        transform: Transform::Reduced,
        y: [30; 10],
        cb: [6; 10],
        cr: [6; 10],
    }
}

// The positions of level 4, of which one lies higher: in the first band, in one between, and in the last.
const HIGHER: [[u8; 10]; 3] = [
    [11, 10, 10, 10, 10, 10, 10, 10, 10, 10],
    [10, 10, 10, 10, 11, 10, 10, 10, 10, 10],
    [10, 10, 10, 10, 10, 10, 10, 10, 10, 11],
];

// Level 4 but for the positions of one component.
fn apart(number: usize, component: Component) -> PassShape {
    let mut shape = shape(4);
    let positions = match number {
        0 => HIGHER[0],
        1 => HIGHER[1],
        _ => HIGHER[2],
    };
    match component {
        Component::Y => shape.y = positions,
        Component::Cb => shape.cb = positions,
        Component::Cr => shape.cr = positions,
    }
    shape
}

// Whether a record of level 4 takes no upgrade of which one band of this component lies higher.
fn one_band_is_worse(tile: &TileState, component: Component) -> bool {
    for number in 0..3 {
        if tile.may_upgrade(&apart(number, component)) != Err(Refusal::QualityWorse) {
            return false;
        }
    }
    true
}

// Whether a record of all components takes upgrades by its transform, of no less quality in any band.
fn all_is_answered(tile: &TileState) -> bool {
    tile.may_upgrade(&shape(4)) == Ok(())
        && tile.may_upgrade(&shape(5)) == Err(Refusal::QualityWorse)
        && one_band_is_worse(tile, Component::Y)
        && one_band_is_worse(tile, Component::Cb)
        && one_band_is_worse(tile, Component::Cr)
        && tile.may_upgrade(&reduced()) == Err(Refusal::TransformChanged)
}

// Whether a record takes a first pass of zeros.
fn takes_zeros(tile: &mut TileState, component: Component) -> bool {
    tile.first(component, &ZEROS, &shape(4), &mut Scratch::new()) == Ok(())
}

// Whether it refuses a value that is too large at another shape.
fn refuses_range(tile: &mut TileState) -> bool {
    let answer = tile.first(Component::Y, &[0x80], &reduced(), &mut Scratch::new());
    answer == Err(Refusal::CoefficientRange)
}

// Whether a new record answers so before each of its passes, and behind them.
fn are_answered(tile: &mut TileState) -> bool {
    new_is_answered(tile)
        && takes_zeros(tile, Component::Y)
        && one_is_answered(tile)
        && takes_zeros(tile, Component::Cb)
        && takes_zeros(tile, Component::Cr)
        && all_is_answered(tile)
        && refuses_range(tile)
}

// The same, if there is memory for a record.
fn new_answers(alloc: Global) -> Option<bool> {
    let mut tile = TileState::new(alloc).ok()?;
    let right = are_answered(&mut tile);
    let_go(tile);
    Some(right)
}

// A tile of grey, and the answers to what may not follow.
#[test]
fn grey_and_refusals(rt: HostRuntime) {
    assert_eq!(rt; new_answers(rt.alloc()), Some(true));
}

// The first pass of Y whose first value of LL3 is -1, and all others are 0.
const LL3_PASS: [u8; 6] = [0x00, 0x00, 0x1F, 0x12, 0x40, 0x00];

// What is shown of it at level 3, and behind each of three upgrades of LL3 by one bit 1.
const LL3_SHOWN: [([u8; 3], u64); 4] = [
    ([120, 121, 128], 195_505_803),
    ([124, 124, 128], 195_523_668),
    ([126, 126, 128], 195_531_369),
    ([127, 127, 128], 195_534_528),
];

// Whether a record takes that pass at a level, and none of Cb and Cr.
fn takes_minus_one(tile: &mut TileState, level: u8) -> bool {
    let shape = shape(level);
    let mut scratch = Scratch::new();
    let y = tile.first(Component::Y, &LL3_PASS, &shape, &mut scratch);
    let cb = tile.first(Component::Cb, &[], &shape, &mut scratch);
    let cr = tile.first(Component::Cr, &[], &shape, &mut scratch);
    (y, cb, cr) == (Ok(()), Ok(()), Ok(()))
}

// Whether a record shows what is due of the pass at level 3 and behind each upgrade.
fn comes_back(tile: &mut TileState) -> bool {
    let mut level = 3u8;
    for due in &LL3_SHOWN {
        let taken = if level == 3 {
            takes_minus_one(tile, level)
        } else {
            is_raised(tile, level, &[], &[0x80])
        };
        if !taken || shown(tile) != *due {
            return false;
        }
        level = level.saturating_sub(1);
    }
    true
}

// Whether a record of the pass at level 0 shows the same as the last upgrade leaves.
fn is_minus_one(tile: &mut TileState) -> bool {
    takes_minus_one(tile, 0) && shown(tile) == LL3_SHOWN[3]
}

// Whether the upgrades and the pass at level 0 lead to the same, if there is memory.
fn minus_one_comes_back(alloc: Global) -> Option<bool> {
    let mut tile = TileState::new(alloc).ok()?;
    let right = comes_back(&mut tile) && is_minus_one(&mut tile);
    let_go(tile);
    Some(right)
}

// LL3 is rounded down: -1 is sent as -1 at each level, and the raw bits behind it, which have no sign, bring it back.
#[test]
fn ll3_is_rounded_down(rt: HostRuntime) {
    assert_eq!(rt; truncate(-1, 3, Band::Ll3), -1);
    assert_eq!(rt; minus_one_comes_back(rt.alloc()), Some(true));
}
