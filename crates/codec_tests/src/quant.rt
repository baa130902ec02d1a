//! Values of an independent program, the worked examples, and each public call once.
ghost use Rattle.gfx_dwt.specs.Ranges.{AllCoefficients};

use gfx_base::{Pixel, Refusal};
use gfx_dwt::{Band, Transform};
use gfx_quant::{
    Quant, Rounding, band_of, band_size, band_start, check_base, cut_plane, dequantise,
    dequantise_plane, from_colour, from_colours, nth_band, quant_from, quant_to, quantise,
    quantise_plane, round, to_colour, to_colours, to_colours_narrow, truncate, truncate_plane,
};

fn opaque(b: u8, g: u8, r: u8) -> Pixel {
    Pixel { b, g, r, a: 255 }
}

#[test]
fn grey_colour(rt: HostRuntime) {
    let grey = to_colour(0, 0, 0);
    assert_eq!(rt;
        (grey, from_colour(grey)),
        (opaque(128, 128, 128), (0, 0, 0))
    );
}

// The first band whose 5 is accepted, if there is one.
fn first_accepted() -> Option<usize> {
    for at in 0..10 {
        let mut quant = Quant { values: [6; 10] };
        quant.values[at] = 5;
        if check_base(&quant) != Err(Refusal::QuantRange) {
            return Some(at);
        }
    }
    None
}

#[test]
fn base_below_six(rt: HostRuntime) {
    let sixes = check_base(&Quant { values: [6; 10] });
    assert_eq!(rt; (sixes, first_accepted()), (Ok(()), None));
}

// Samples of a pixel, and its blue, green and red.
const COLOURS: [(i16, i16, i16, (u8, u8, u8)); 13] = [
    (4064, 0, 0, (255, 255, 255)),
    (-4096, 0, 0, (0, 0, 0)),
    (4095, 4095, 4095, (255, 120, 255)),
    (-4096, -4096, -4096, (0, 135, 0)),
    (4064, 0, 4078, (255, 163, 255)),
    (4064, 4084, 0, (255, 211, 255)),
    (0, 18514, 18514, (255, 0, 255)),
    (0, 18515, 18515, (255, 0, 255)),
    (0, -18514, -18515, (0, 255, 0)),
    (1, 2, 3, (128, 127, 128)),
    (-17, 333, -1021, (145, 146, 82)),
    (16, 0, 0, (128, 128, 128)),
    (4063, 0, 0, (254, 254, 254)),
];

// The first samples that have another colour, if there are any.
fn first_wrong_colour() -> Option<(i16, i16, i16)> {
    for (y, cb, cr, (b, g, r)) in &COLOURS {
        let colour = to_colour(i32::from(*y), i32::from(*cb), i32::from(*cr));
        if colour != opaque(*b, *g, *r) {
            return Some((*y, *cb, *cr));
        }
    }
    None
}

// The colours of the samples farthest from noughts.
fn farthest_colours() -> (Pixel, Pixel) {
    (
        to_colour(8_388_607, 8_388_607, 8_388_607),
        to_colour(-8_388_608, -8_388_608, -8_388_608),
    )
}

#[test]
fn colours_clamp_at_their_corners(rt: HostRuntime) {
    assert_eq!(rt; first_wrong_colour(), None);
    let due = (opaque(255, 0, 255), opaque(0, 255, 0));
    assert_eq!(rt; farthest_colours(), due);
}

// Blue, green, red and alpha of pixels, and their samples.
const SAMPLES: [((u8, u8, u8, u8), (i16, i16, i16)); 7] = [
    ((255, 255, 255, 255), (4064, 0, 0)),
    ((0, 0, 0, 255), (-4096, 0, 0)),
    ((255, 0, 0, 255), (-3166, 4084, -664)),
    ((0, 255, 0, 255), (693, -2707, -3416)),
    ((0, 0, 255, 255), (-1657, -1379, 4078)),
    ((1, 2, 3, 0), (-4027, -22, 18)),
    ((16, 32, 48, 255), (-2978, -343, 297)),
];

// Whether a pixel has these samples.
fn has_samples(pixel: Pixel, due: (i16, i16, i16)) -> bool {
    let due = (i32::from(due.0), i32::from(due.1), i32::from(due.2));
    from_colour(pixel) == due
}

// The samples that are due of the first pixel that has others, if there is one.
fn first_wrong_samples() -> Option<(i16, i16, i16)> {
    for ((b, g, r, a), due) in &SAMPLES {
        let pixel = Pixel {
            b: *b,
            g: *g,
            r: *r,
            a: *a,
        };
        if !has_samples(pixel, *due) {
            return Some(*due);
        }
    }
    None
}

#[test]
fn samples_of_pixels(rt: HostRuntime) {
    assert_eq!(rt; first_wrong_samples(), None);
}

// Coefficients, and their values at quant 6 rounded down, and toward zero.
const ROUNDED: [(i16, i32, i32); 10] = [
    (0, 0, 0),
    (31, 0, 0),
    (32, 1, 1),
    (-1, -1, 0),
    (-32, -1, -1),
    (-33, -2, -1),
    (256, 8, 8),
    (-257, -9, -8),
    (32767, 1023, 1023),
    (-32768, -1024, -1024),
];

// The first coefficient that has others, if there is one.
fn first_wrong_rounded() -> Option<i16> {
    for (c, floor, toward_zero) in &ROUNDED {
        let coefficient = i32::from(*c);
        let down = quantise(coefficient, 6, Band::Ll3);
        if (down, quantise(coefficient, 6, Band::Hl1)) != (*floor, *toward_zero) {
            return Some(*c);
        }
    }
    None
}

#[test]
fn quantising_rounds_down_in_ll3_alone(rt: HostRuntime) {
    let least = quantise(-1, 15, Band::Ll3);
    let most = quantise(-32768, 15, Band::Hh3);
    assert_eq!(rt; (first_wrong_rounded(), least, most), (None, -1, -2));
}

// Coefficients, and their nearest values in LL3, where a half goes up, and elsewhere, where it goes away from zero.
const NEAREST_AT_6: [(i16, i32, i32); 19] = [
    (0, 0, 0),
    (15, 0, 0),
    (16, 1, 1),
    (17, 1, 1),
    (-15, 0, 0),
    (-16, 0, -1),
    (-17, -1, -1),
    (47, 1, 1),
    (48, 2, 2),
    (49, 2, 2),
    (-47, -1, -1),
    (-48, -1, -2),
    (-49, -2, -2),
    // The largest magnitudes: 1,024 would stand for 32,768.
    (32751, 1023, 1023),
    (32752, 1023, 1023),
    (32767, 1023, 1023),
    (-32752, -1023, -1024),
    (-32753, -1024, -1024),
    (-32768, -1024, -1024),
];

const NEAREST_AT_15: [(i16, i32, i32); 12] = [
    (8191, 0, 0),
    (8192, 1, 1),
    (8193, 1, 1),
    (-8191, 0, 0),
    (-8192, 0, -1),
    (-8193, -1, -1),
    (24575, 1, 1),
    (24576, 1, 1),
    (32767, 1, 1),
    (-24576, -1, -2),
    (-24577, -2, -2),
    (-32768, -2, -2),
];

fn nearest_at_6(c: i16) -> (i32, i32) {
    let coefficient = i32::from(c);
    (
        round(coefficient, 6, Band::Ll3),
        round(coefficient, 6, Band::Hl1),
    )
}

fn nearest_at_15(c: i16) -> (i32, i32) {
    let coefficient = i32::from(c);
    (
        round(coefficient, 15, Band::Ll3),
        round(coefficient, 15, Band::Hh3),
    )
}

// The first coefficient that has others, if there is one.
fn first_wrong_nearest() -> Option<i16> {
    for (c, up, away) in &NEAREST_AT_6 {
        if nearest_at_6(*c) != (*up, *away) {
            return Some(*c);
        }
    }
    for (c, up, away) in &NEAREST_AT_15 {
        if nearest_at_15(*c) != (*up, *away) {
            return Some(*c);
        }
    }
    None
}

#[test]
fn halves_go_up_in_ll3_and_away_from_zero_elsewhere(rt: HostRuntime) {
    assert_eq!(rt; first_wrong_nearest(), None);
}

// Numbers, and what is left of them without three bits, rounded down, and toward zero.
const TRUNCATED: [(i32, i32, i32); 7] = [
    (7, 0, 0),
    (8, 1, 1),
    (-1, -1, 0),
    (-8, -1, -1),
    (-9, -2, -1),
    (i32::MAX, 268_435_455, 268_435_455),
    (i32::MIN, -268_435_456, -268_435_456),
];

// What is left of a number without three bits, by both, and without none.
fn truncations(v: i32) -> (i32, i32, i32) {
    (
        truncate(v, 3, Band::Ll3),
        truncate(v, 3, Band::Lh2),
        truncate(v, 0, Band::Lh2),
    )
}

// The first number of which something else is left, if there is one.
fn first_wrong_truncated() -> Option<i32> {
    for (v, floor, toward_zero) in &TRUNCATED {
        if truncations(*v) != (*floor, *toward_zero, *v) {
            return Some(*v);
        }
    }
    None
}

#[test]
fn truncating_takes_any_number(rt: HostRuntime) {
    let least = truncate(-32768, 15, Band::Hl2);
    assert_eq!(rt; (first_wrong_truncated(), least), (None, -1));
}

// A value's coefficients at the bit positions 1, 6 and 30.
type Dequantised = (Option<i32>, Option<i32>, Option<i32>);

const DEQUANTISED: [(i32, Dequantised); 10] = [
    (0, (Some(0), Some(0), Some(0))),
    (1, (Some(1), Some(32), None)),
    (-1, (Some(-1), Some(-32), None)),
    (1023, (Some(1023), Some(32736), None)),
    (1024, (Some(1024), None, None)),
    (-1024, (Some(-1024), Some(-32768), None)),
    (-1025, (Some(-1025), None, None)),
    (32768, (None, None, None)),
    (-32768, (Some(-32768), None, None)),
    (i32::MIN, (None, None, None)),
];

fn dequantised(v: i32) -> Dequantised {
    (dequantise(v, 1), dequantise(v, 6), dequantise(v, 30))
}

// The first value that has other coefficients, if there is one.
fn first_wrong_dequantised() -> Option<i32> {
    for (v, due) in &DEQUANTISED {
        if dequantised(*v) != *due {
            return Some(*v);
        }
    }
    None
}

#[test]
fn coefficients_end_with_16_bits(rt: HostRuntime) {
    assert_eq!(rt; first_wrong_dequantised(), None);
    let last = (dequantise(-1, 16), dequantise(1, 16));
    assert_eq!(rt; last, (Some(-32768), None));
}

#[test]
fn bands_begin_at_their_places(rt: HostRuntime) {
    let bands = [
        band_of(Transform::Plain, 0),
        band_of(Transform::Plain, 1023),
        band_of(Transform::Reduced, 1023),
        band_of(Transform::Reduced, 3950),
        band_of(Transform::Reduced, 4014),
        band_of(Transform::Plain, 4095),
        nth_band(3),
    ];
    let due = [
        Band::Hl1,
        Band::Hl1,
        Band::Lh1,
        Band::Lh3,
        Band::Hh3,
        Band::Ll3,
        Band::Hl2,
    ];
    assert_eq!(rt; bands, due);
    let reduced = Transform::Reduced;
    let end = band_start(reduced, Band::Ll3) + band_size(reduced, Band::Ll3);
    assert_eq!(rt; end, 4096);
}

#[test]
fn quants_have_the_order_of_the_wire(rt: HostRuntime) {
    let bytes = [0x10, 0x32, 0x54, 0x76, 0x98];
    let quant = quant_from(&bytes);
    let due = [7, 8, 9, 4, 5, 6, 1, 2, 3, 0];
    assert_eq!(rt; (quant.values, quant_to(&quant)), (due, bytes));
}

// Whether values become coefficients at the bit positions of each band.
fn values_are_shifted() -> bool {
    let mut values = [1023; 4096];
    values[1] = -1023;
    let mut out = [7; 4096];
    let positions = [6, 6, 6, 6, 6, 6, 6, 6, 6, 1];
    dequantise_plane(&values, Transform::Reduced, &positions, 1023, &mut out)
        && (out[0], out[1]) == (32736, -32736)
        && (out[4014], out[4015]) == (32736, 1023)
}

// Whether -1 has a coefficient up to position 16, and nought at all positions.
fn ones_are_shifted() -> bool {
    let mut ones = [0; 4096];
    ones[0] = -1;
    let mut out = [7; 4096];
    let positions = [16, 30, 30, 30, 30, 30, 30, 30, 30, 30];
    let taken = dequantise_plane(&ones, Transform::Plain, &positions, 1, &mut out);
    let right = (out[0], out[1], out[4095]) == (-32768, 0, 0);
    let beyond = dequantise_plane(&ones, Transform::Plain, &[17; 10], 1, &mut out);
    taken && right && !beyond && out[0] == -32768
}

// -1 has a coefficient up to position 16, and nought at all positions.
#[test]
fn values_become_coefficients(rt: HostRuntime) {
    assert_eq!(rt; [values_are_shifted(), ones_are_shifted()], [true; 2]);
}

// The first place, the last of another band, and the last one.
fn corners(plane: &[i32; 4096]) -> (i32, i32, i32) {
    (plane[0], plane[1023], plane[4095])
}

const CODED: Quant = Quant {
    values: [7, 6, 6, 6, 6, 6, 6, 6, 6, 6],
};

const LEFT_OUT: Quant = Quant {
    values: [1, 0, 0, 0, 0, 0, 0, 0, 0, 2],
};

// What a plane's corners are quantised to, and what is left of them.
fn corners_of(rounding: Rounding, plane: &[i32; 4096]) -> [(i32, i32, i32); 2]
    requires { AllCoefficients plane.now }
{
    let mut coded = [0; 4096];
    quantise_plane(rounding, plane, Transform::Reduced, &CODED, &mut coded);
    let mut shown = [0; 4096];
    truncate_plane(&coded, Transform::Reduced, &LEFT_OUT, &mut shown);
    [corners(&coded), corners(&shown)]
}

#[test]
fn planes_go_place_by_place(rt: HostRuntime) {
    let mut plane = [32736; 4096];
    plane[4095] = -40000;
    cut_plane(&mut plane);
    let due = [(511, 1023, -1024), (255, 1023, -256)];
    let corners = corners_of(Rounding::Zero, &plane);
    assert_eq!(rt; (plane[4095], corners), (-32768, due));
}

// A half in each of the corners, and the same toward zero.
fn halves() -> [[(i32, i32, i32); 2]; 2] {
    let mut plane = [16; 4096];
    plane[0] = 32;
    plane[4095] = -16;
    cut_plane(&mut plane);
    [
        corners_of(Rounding::Nearest, &plane),
        corners_of(Rounding::Zero, &plane),
    ]
}

#[test]
fn halves_go_place_by_place(rt: HostRuntime) {
    let nearest = [(1, 1, 0), (0, 1, 0)];
    let zero = [(0, 0, -1), (0, 0, -1)];
    assert_eq!(rt; halves(), [nearest, zero]);
}

// The samples of the second of pixels, and its colour again.
fn there_and_back(pixels: &mut [Pixel; 4096]) -> ((i32, i32, i32), Pixel) {
    let (mut y, mut cb, mut cr) = ([0; 4096], [0; 4096], [0; 4096]);
    from_colours(pixels, &mut y, &mut cb, &mut cr);
    to_colours(&y, &cb, &cr, pixels);
    ((y[1], cb[1], cr[1]), pixels[1])
}

#[test]
fn colours_go_place_by_place(rt: HostRuntime) {
    let mut pixels = [opaque(0, 0, 0); 4096];
    pixels[1] = opaque(255, 0, 0);
    let due = ((-3166, 4084, -664), opaque(254, 0, 0));
    assert_eq!(rt; there_and_back(&mut pixels), due);
}

#[test]
fn wide_colours_go_place_by_place(rt: HostRuntime) {
    let mut plane = [40_000; 4096];
    cut_plane(&mut plane);
    let mut pixels = [opaque(0, 0, 0); 4096];
    to_colours(&plane, &plane, &plane, &mut pixels);
    assert_eq!(rt; pixels[4095], opaque(255, 68, 255));
}

// The first, the last but one and the last pixel.
fn ends(pixels: &[Pixel; 4096]) -> [Pixel; 3] {
    [pixels[0], pixels[4094], pixels[4095]]
}

// What samples that are alike show, what they do once the last are others, and what their Y shows alone.
fn narrow_ends() -> [[Pixel; 3]; 3] {
    let (mut y, mut cb, mut cr) = ([-17; 4096], [333; 4096], [-1021; 4096]);
    let mut pixels = [opaque(0, 0, 0); 4096];
    to_colours_narrow(&y, &cb, &cr, &mut pixels);
    let alike = ends(&pixels);
    y[4095] = 0;
    cb[4095] = 18_514;
    cr[4095] = 18_514;
    to_colours_narrow(&y, &cb, &cr, &mut pixels);
    let others = ends(&pixels);
    to_colours_narrow(&y, &[0; 4096], &[0; 4096], &mut pixels);
    [alike, others, ends(&pixels)]
}

#[test]
fn colours_of_16_bits_go_place_by_place(rt: HostRuntime) {
    let (first, grey) = (opaque(145, 146, 82), opaque(127, 127, 127));
    let due = [
        [first, first, first],
        [first, first, opaque(255, 0, 255)],
        [grey, grey, opaque(128, 128, 128)],
    ];
    assert_eq!(rt; narrow_ends(), due);
}
