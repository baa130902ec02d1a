ghost use Rattle.std.specs.Prelude.{◌≡◌, ◌<◌};
ghost use Rattle.gfx_dwt.specs.Place.{LiesIn, number, size, start};

use gfx_dwt::{Band, Transform};

/// How many places a band has ([MS-RDPRFX] 3.1.8.1.5, [MS-RDPEGFX] for reduce-extrapolate).
pub fn band_size(transform: Transform, band: Band) -> usize
    ensures { result ≡ size transform band }
{
    match (transform, band) {
        (Transform::Plain, Band::Hl1 | Band::Lh1 | Band::Hh1) => 1024,
        (Transform::Plain, Band::Hl2 | Band::Lh2 | Band::Hh2) => 256,
        (Transform::Plain, _) => 64,
        (Transform::Reduced, Band::Hl1 | Band::Lh1) => 1023,
        (Transform::Reduced, Band::Hh1) => 961,
        (Transform::Reduced, Band::Hl2 | Band::Lh2) => 272,
        (Transform::Reduced, Band::Hh2) => 256,
        (Transform::Reduced, Band::Hl3 | Band::Lh3) => 72,
        (Transform::Reduced, Band::Hh3) => 64,
        (Transform::Reduced, Band::Ll3) => 81,
    }
}

/// Where a band begins: behind all bands before it.
pub fn band_start(transform: Transform, band: Band) -> usize
    ensures { result ≡ start transform band }
{
    match (transform, band) {
        (_, Band::Hl1) => 0,
        (Transform::Plain, Band::Lh1) => 1024,
        (Transform::Plain, Band::Hh1) => 2048,
        (Transform::Plain, Band::Hl2) => 3072,
        (Transform::Plain, Band::Lh2) => 3328,
        (Transform::Plain, Band::Hh2) => 3584,
        (Transform::Plain, Band::Hl3) => 3840,
        (Transform::Plain, Band::Lh3) => 3904,
        (Transform::Plain, Band::Hh3) => 3968,
        (Transform::Plain, Band::Ll3) => 4032,
        (Transform::Reduced, Band::Lh1) => 1023,
        (Transform::Reduced, Band::Hh1) => 2046,
        (Transform::Reduced, Band::Hl2) => 3007,
        (Transform::Reduced, Band::Lh2) => 3279,
        (Transform::Reduced, Band::Hh2) => 3551,
        (Transform::Reduced, Band::Hl3) => 3807,
        (Transform::Reduced, Band::Lh3) => 3879,
        (Transform::Reduced, Band::Hh3) => 3951,
        (Transform::Reduced, Band::Ll3) => 4015,
    }
}

/// The band of a place of a component's plane.
pub fn band_of(transform: Transform, place: usize) -> Band
    requires { place < 4096 }
    ensures { LiesIn transform result place }
{
    if place < band_start(transform, Band::Lh1) {
        Band::Hl1
    } else if place < band_start(transform, Band::Hh1) {
        Band::Lh1
    } else if place < band_start(transform, Band::Hl2) {
        Band::Hh1
    } else if place < band_start(transform, Band::Lh2) {
        Band::Hl2
    } else if place < band_start(transform, Band::Hh2) {
        Band::Lh2
    } else if place < band_start(transform, Band::Hl3) {
        Band::Hh2
    } else if place < band_start(transform, Band::Lh3) {
        Band::Hl3
    } else if place < band_start(transform, Band::Hh3) {
        Band::Lh3
    } else if place < band_start(transform, Band::Ll3) {
        Band::Hh3
    } else {
        Band::Ll3
    }
}

/// The band of this number, counted from 0 in the order of `Band`.
pub fn nth_band(index: usize) -> Band
    requires { index < 10 }
    ensures { number result ≡ index }
{
    match index {
        0 => Band::Hl1,
        1 => Band::Lh1,
        2 => Band::Hh1,
        3 => Band::Hl2,
        4 => Band::Lh2,
        5 => Band::Hh2,
        6 => Band::Hl3,
        7 => Band::Lh3,
        8 => Band::Hh3,
        _ => Band::Ll3,
    }
}
