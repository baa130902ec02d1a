//! Tiles made and read: data and pixels at each level are those of an independent program.
ghost use Rattle.std.specs.Prelude.{◌≡◌, ◌≤◌, IfSome, IsTrue, length};
ghost use Rattle.gfx_tile_state.specs.Shape.{are_positions};

use gfx_base::{Bytes, Pixel, Refusal};
use gfx_dwt::Transform;
use gfx_quant::{Component, Level, Levels, Quant, Rounding, Setting};
use gfx_rlgr::{Mode, encode};
use gfx_tile_make::{Pass, SourceTile};
use gfx_tile_state::{PassShape, Scratch, TileState};
use std::alloc::Global;

const COMPONENTS: [Component; 3] = [Component::Y, Component::Cb, Component::Cr];

// All bands of all components leave out so much.
fn level(left_out: u8) -> Level {
    let quant = match left_out {
        9 => Quant { values: [9; 10] },
        7 => Quant { values: [7; 10] },
        6 => Quant { values: [6; 10] },
        4 => Quant { values: [4; 10] },
        2 => Quant { values: [2; 10] },
        _ => Quant { values: [1; 10] },
    };
    Level {
        y: quant,
        cb: quant,
        cr: quant,
    }
}

fn setting(transform: Transform, left_out: &[u8]) -> Setting {
    let mut levels = Levels::new();
    for number in left_out {
        if levels.len() < 7 {
            levels.push(level(*number));
        }
    }
    let base = Quant { values: [6; 10] };
    Setting {
        transform,
        rounding: Rounding::Zero,
        y: base,
        cb: base,
        cr: base,
        levels,
    }
}

fn all(transform: Transform, y: [u8; 10]) -> PassShape
    requires { IsTrue (are_positions y) }
{
    PassShape {
        transform,
        y,
        cb: y,
        cr: y,
    }
}

// The bit positions at base 6 where so much is left out.
fn shape(transform: Transform, left_out: u8) -> PassShape {
    match left_out {
        9 => all(transform, [15; 10]),
        7 => all(transform, [13; 10]),
        6 => all(transform, [12; 10]),
        4 => all(transform, [10; 10]),
        2 => all(transform, [8; 10]),
        1 => all(transform, [7; 10]),
        _ => all(transform, [6; 10]),
    }
}

// Pixels of all values, and their neighbours unlike.
fn noise() -> [Pixel; 4096] {
    let mut pixels = [Pixel::default(); 4096];
    for place in 0..4096u32 {
        let hash = (place % 64)
            .wrapping_mul(2_654_435_761)
            .wrapping_add((place / 64).wrapping_mul(2_246_822_519))
            .wrapping_add(3_266_489_917u32.wrapping_mul(7));
        let [b, g, r, _] = hash.to_be_bytes();
        pixels[place as usize] = Pixel { b, g, r, a: 255 };
    }
    pixels
}

// Pixels that rise to the right and downward.
fn ramp() -> [Pixel; 4096] {
    let mut pixels = [Pixel::default(); 4096];
    for place in 0..4096usize {
        let column = (place % 64) as u8;
        let row = (place / 64) as u8;
        pixels[place] = Pixel {
            b: column,
            g: row,
            r: column.wrapping_add(row),
            a: 255,
        };
    }
    pixels
}

// How many bytes there were, and a sum that tells their places apart.
#[derive(Clone, Copy)]
struct Sum {
    count: u64,
    total: u64,
}

impl Sum {
    fn take(&mut self, bytes: &[u8]) {
        for byte in bytes {
            let weight = self.count % 251 + 1;
            self.total = self
                .total
                .saturating_add(u64::from(*byte).saturating_mul(weight));
            self.count = self.count.saturating_add(1);
        }
    }
}

fn brightness(pixel: Pixel) -> u64 {
    u64::from(pixel.b) + u64::from(pixel.g) + u64::from(pixel.r)
}

// Three pixels, and all pixels as such a sum.
fn shown(tile: &TileState) -> ([u8; 3], u64) {
    let mut pixels = [Pixel::default(); 4096];
    tile.pixels(&mut pixels, &mut Scratch::new());
    let mut total = 0u64;
    for place in 0..4096 {
        let weight = place as u64 % 251 + 1;
        total = total.saturating_add(brightness(pixels[place]).saturating_mul(weight));
    }
    ([pixels[0].b, pixels[65].b, pixels[4095].b], total)
}

// A first tile of one component, a difference where the source is one.
fn taken(
    source: &SourceTile,
    tile: &mut TileState,
    component: Component,
    bytes: &[u8],
    shape: &PassShape,
) -> Result<(), Refusal> {
    if !source.is_difference() {
        return tile.first(component, bytes, shape, &mut Scratch::new());
    }
    match tile.may_add(shape.transform) {
        Ok(()) => tile.add(component, bytes, shape),
        Err(refusal) => Err(refusal),
    }
}

fn upgraded(
    tile: &mut TileState,
    component: Component,
    pass: &Pass,
    shape: &PassShape,
) -> Result<(), Refusal> {
    match tile.may_upgrade(shape) {
        Ok(()) => tile.upgrade(component, pass.srl.as_slice(), pass.raw.as_slice(), shape),
        Err(refusal) => Err(refusal),
    }
}

// Lets go of a record, which is proved once here.
fn let_go(tile: TileState) {
    drop(tile);
}

// Lets go of a source, which is proved once here.
fn let_go_of_source(source: SourceTile) {
    drop(source);
}

// Nothing is sent yet.
const NO_SUM: Sum = Sum { count: 0, total: 0 };

// The code of a component's first pass.
fn first_code(alloc: Global, source: &SourceTile, component: Component) -> Option<Bytes> {
    let mut values = [0; 4096];
    source.first_values(component, &mut values);
    encode(alloc, Mode::Rlgr1, &values).ok()
}

// Sends a component's first pass to a record, puts it to a sum, and answers whether it is taken.
fn begin_one(
    alloc: Global,
    source: &SourceTile,
    tile: &mut TileState,
    component: Component,
    shape: &PassShape,
    sum: &mut Sum,
) -> bool {
    let Some(bytes) = first_code(alloc, source, component) else {
        return false;
    };
    sum.take(bytes.as_slice());
    taken(source, tile, component, bytes.as_slice(), shape) == Ok(())
}

// Sends the first level to a record, and sums up what was sent.
fn begin(
    alloc: Global,
    source: &SourceTile,
    tile: &mut TileState,
    shape: &PassShape,
) -> Option<(u64, u64)> {
    let mut sum = NO_SUM;
    for component in &COMPONENTS {
        if !begin_one(alloc, source, tile, *component, shape, &mut sum) {
            return None;
        }
    }
    Some((sum.count, sum.total))
}

// Raises a component of a record to a level, puts what was sent to a sum, and answers whether it is taken.
fn raise_one(
    alloc: Global,
    source: &SourceTile,
    tile: &mut TileState,
    component: Component,
    level: u8,
    shape: &PassShape,
    sum: &mut Sum,
) -> bool
    requires first { 1 ≤ level }
    requires listed { level ≤ length source.now.setting.levels }
{
    let Ok(pass) = source.pass_values(alloc, component, level) else {
        return false;
    };
    sum.take(pass.srl.as_slice());
    sum.take(pass.raw.as_slice());
    upgraded(tile, component, &pass, shape) == Ok(())
}

// Raises a record to a level, and sums up what was sent.
fn raise(
    alloc: Global,
    source: &SourceTile,
    tile: &mut TileState,
    level: u8,
    shape: &PassShape,
) -> Option<(u64, u64)>
    requires first { 1 ≤ level }
    requires listed { level ≤ length source.now.setting.levels }
{
    let mut sum = NO_SUM;
    for component in &COMPONENTS {
        if !raise_one(alloc, source, tile, *component, level, shape, &mut sum) {
            return None;
        }
    }
    Some((sum.count, sum.total))
}

// What is due of a level: what it leaves out, the bytes of all data and their sum, and the pixels.
type Due = (u8, u64, u64, [u8; 3], u64);

fn source_of(alloc: Global, pixels: &[Pixel; 4096], setting: &Setting) -> Option<SourceTile>
    ensures { IfSome result (λ source. source.setting ≡ setting.now) }
{
    if setting.is_accepted() {
        SourceTile::from_pixels(alloc, pixels, setting).ok()
    } else {
        None
    }
}

// Whether a source gives what is due at each level, and a record shows it.
fn shows(
    alloc: Global,
    source: &SourceTile,
    setting: &Setting,
    tile: &mut TileState,
    due: &[Due],
) -> bool
    requires { source.now.setting ≡ setting.now }
{
    let mut level = 0u8;
    for (left_out, count, total, pixels, brightness) in due {
        let shape = shape(setting.transform, *left_out);
        let sum = if level == 0 {
            begin(alloc, source, tile, &shape)
        } else if usize::from(level) <= setting.levels.len() {
            raise(alloc, source, tile, level, &shape)
        } else {
            None
        };
        if sum != Some((*count, *total)) || shown(tile) != (*pixels, *brightness) {
            return false;
        }
        level = level.saturating_add(1);
    }
    true
}

const PLAIN: [Due; 8] = [
    (9, 80, 289_045, [128, 0, 128], 64_831_843),
    (7, 57, 198_510, [128, 50, 128], 74_094_525),
    (6, 168, 1_636_729, [78, 120, 128], 112_649_035),
    (4, 2_995, 54_847_933, [82, 139, 131], 173_434_171),
    (4, 0, 0, [82, 139, 131], 173_434_171),
    (2, 3_852, 58_587_870, [91, 124, 60], 188_535_012),
    (1, 1_669, 23_722_897, [83, 121, 58], 191_272_652),
    (0, 1_592, 22_202_082, [81, 120, 59], 192_613_991),
];

const REDUCED: [Due; 3] = [
    (7, 106, 578_817, [128, 50, 0], 75_273_065),
    (1, 16_245, 115_144_879, [83, 121, 52], 191_413_187),
    (0, 1_589, 23_258_402, [81, 120, 52], 192_662_572),
];

const FIRST: [Due; 2] = [
    (4, 3_246, 46_953_662, [82, 139, 43], 174_556_381),
    (0, 10_185, 95_582_678, [81, 120, 52], 192_662_572),
];

const SECOND: [Due; 2] = [
    (4, 3_238, 46_214_971, [0, 0, 42], 52_213_485),
    (0, 10_185, 96_151_014, [0, 0, 62], 62_414_197),
];

// Whether a source gives what is due at each level, and a new record shows it, if there is memory for one.
fn shows_new(alloc: Global, source: &SourceTile, setting: &Setting, due: &[Due]) -> Option<bool>
    requires { source.now.setting ≡ setting.now }
{
    let mut tile = TileState::new(alloc).ok()?;
    let right = shows(alloc, source, setting, &mut tile, due);
    let_go(tile);
    Some(right)
}

// A tile of these pixels through these levels.
fn all_shows(
    alloc: Global,
    pixels: &[Pixel; 4096],
    setting: &Setting,
    due: &[Due],
) -> Option<bool> {
    let source = source_of(alloc, pixels, setting)?;
    let right = shows_new(alloc, &source, setting, due);
    let_go_of_source(source);
    right
}

// Through seven levels, one of which changes nothing, with LL3 of both signs.
#[test]
fn plain(rt: HostRuntime) {
    let setting = setting(Transform::Plain, &[9, 7, 6, 4, 4, 2, 1]);
    assert_eq!(rt;
        all_shows(rt.alloc(), &noise(), &setting, &PLAIN),
        Some(true)
    );
}

// With a step of six bits.
#[test]
fn reduced(rt: HostRuntime) {
    let setting = setting(Transform::Reduced, &[7, 1]);
    assert_eq!(rt;
        all_shows(rt.alloc(), &noise(), &setting, &REDUCED),
        Some(true)
    );
}

const GREY: [Due; 2] = [
    (4, 9, 0, [128, 128, 128], 195_554_304),
    (0, 105, 0, [128, 128, 128], 195_554_304),
];

// All zeros: three bytes a component at first.
#[test]
fn grey(rt: HostRuntime) {
    let setting = setting(Transform::Plain, &[4]);
    let pixel = Pixel {
        b: 128,
        g: 128,
        r: 128,
        a: 255,
    };
    assert_eq!(rt;
        all_shows(rt.alloc(), &[pixel; 4096], &setting, &GREY),
        Some(true)
    );
}

// A source over another one at its last level: whether a record shows that, and then this as a difference.
fn goes_on(
    alloc: Global,
    first: &SourceTile,
    second: &mut SourceTile,
    setting: &Setting,
    tile: &mut TileState,
) -> [bool; 4]
    requires first { first.now.setting ≡ setting.now }
    requires second { second.old.setting ≡ setting.now }
{
    let before = shows(alloc, first, setting, tile, &FIRST);
    let alone = second.is_difference();
    if !second.against(first) {
        return [false; 4];
    }
    let behind = shows(alloc, second, setting, tile, &SECOND);
    [before, alone, second.is_difference(), behind]
}

// A ramp as the second of them.
fn ramp_goes_on(
    alloc: Global,
    first: &SourceTile,
    setting: &Setting,
    tile: &mut TileState,
) -> Option<[bool; 4]>
    requires { first.now.setting ≡ setting.now }
{
    let mut second = source_of(alloc, &ramp(), setting)?;
    let answers = goes_on(alloc, first, &mut second, setting, tile);
    let_go_of_source(second);
    Some(answers)
}

// Noise as the first.
fn noise_goes_on(alloc: Global, tile: &mut TileState) -> Option<[bool; 4]> {
    let setting = setting(Transform::Reduced, &[4]);
    let first = source_of(alloc, &noise(), &setting)?;
    let answers = ramp_goes_on(alloc, &first, &setting, tile);
    let_go_of_source(first);
    answers
}

// The same in a new record.
fn differs(alloc: Global) -> Option<[bool; 4]> {
    let mut tile = TileState::new(alloc).ok()?;
    let answers = noise_goes_on(alloc, &mut tile);
    let_go(tile);
    answers
}

// A difference tile over a record of the last level.
#[test]
fn difference(rt: HostRuntime) {
    assert_eq!(rt; differs(rt.alloc()), Some([true, false, true, true]));
}
