//! ClearCodec streams: the worked examples, bytes of an independent program, and refusals that leave all as it
//! was.
use crate::claiming::{claim, let_go};
use gfx_base::{Fault, Format, NoMemory, Pixel, Rect, Refusal, Rgb};
use gfx_clear::{ClearState, Layer};
use gfx_surface::Surface;

const RED: Rgb = Rgb { b: 0, g: 0, r: 255 };

const GREEN: Rgb = Rgb { b: 0, g: 255, r: 0 };

const BLACK: Rgb = Rgb { b: 0, g: 0, r: 0 };

const WHITE: Rgb = Rgb {
    b: 255,
    g: 255,
    r: 255,
};

const RED_PIXEL: Pixel = Pixel {
    b: 0,
    g: 0,
    r: 255,
    a: 255,
};

// A pixel of an ARGB surface on which nothing was drawn.
const EMPTY: Pixel = Pixel {
    b: 0,
    g: 0,
    r: 0,
    a: 0,
};

// Decodes a stream for a whole surface, and answers why it is refused.
fn refusal(state: &mut ClearState, surface: &mut Surface, stream: &[u8]) -> Option<Refusal> {
    let (width, height) = surface.size();
    match state.decode(surface, Rect::sized(width, height), stream) {
        Err(Fault::Refused(refusal)) => Some(refusal),
        _ => None,
    }
}

// A residual layer of one run, with a sequence number.
fn red_run(sequence: u8, length: u8) -> [u8; 18] {
    [
        0, sequence, 4, 0, 0, 0, 0, 0, 0, 0, 0, 0, 0, 0, 0, 0, 0xFF, length,
    ]
}

// The row of a surface of two pixels.
fn row(surface: &Surface) -> [Pixel; 2] {
    let mut row = [EMPTY; 2];
    if surface.size() == (2, 1) {
        surface.read_row(0, 0, &mut row);
    }
    row
}

// Sequence numbers and lengths of red runs for two pixels, and why they are refused.
type Run = (u8, u8, Option<Refusal>);

// Behind the first stream, which has the number 0, only 1 is right.
const FIRST_RUNS: [Run; 4] = [
    (0, 3, Some(Refusal::RunTotal)),
    (0, 2, None),
    (2, 2, Some(Refusal::ClearSequence)),
    (1, 2, None),
];

// Any first number is right, also after it came with what was refused; then only the next is.
const RUNS: [Run; 5] = [
    (7, 3, Some(Refusal::RunTotal)),
    (7, 2, None),
    (7, 2, Some(Refusal::ClearSequence)),
    (8, 1, Some(Refusal::RunTotal)),
    (8, 2, None),
];

// Whether runs are refused as is due, and two pixels are red then. The last number is forgotten.
fn are_red(state: &mut ClearState, surface: &mut Surface, runs: &[Run]) -> bool {
    for (sequence, length, due) in runs {
        if refusal(state, surface, &red_run(*sequence, *length)) != *due {
            return false;
        }
    }
    state.forget_sequence();
    row(surface) == [RED_PIXEL, RED_PIXEL]
}

// Whether all runs are, and any number is right once the last is forgotten.
fn all_are_red(state: &mut ClearState, surface: &mut Surface) -> bool {
    are_red(state, surface, &FIRST_RUNS)
        && are_red(state, surface, &RUNS)
        && refusal(state, surface, &red_run(77, 2)) == None
}

#[test]
fn two_red_pixels(rt: HostRuntime) -> Result<(), NoMemory> {
    let mut surface = Surface::new(rt.alloc(), 2, 1, Format::Argb)?;
    let mut state = ClearState::new(rt.alloc())?;
    let right = all_are_red(&mut state, &mut surface);
    let_go(state);
    claim(&rt, right);
    Ok(())
}

// Streams for a surface of 3 by 2, why they are refused, and the cursors behind them.
const KEPT: [(&[u8], Option<Refusal>, (u16, u16)); 5] = [
    (
        &[
            1, 5, 5, 0, 0, 0, 0, 0, 16, 0, 0, 0, 0, 0, 0, 0, 0, 0, 0, 0, 0, 0, 0, 0, 1, 2, 3, 0, 1,
            0, 0, 255,
        ],
        None,
        (1, 1),
    ),
    // An index where nothing is stored, with a reset.
    (&[7, 6, 6, 0], Some(Refusal::GlyphEmpty), (1, 1)),
    // Two misses, then a hit on a place that was never written.
    (
        &[
            0, 6, 0, 0, 0, 0, 20, 0, 0, 0, 0, 0, 0, 0, 0, 0, 2, 0, 0, 0, 1, 0, 1, 2, 3, 0, 0, 0, 1,
            4, 5, 6, 100, 128,
        ],
        Some(Refusal::BarEmpty),
        (1, 1),
    ),
    // Bytes behind a hit, then the hit.
    (&[3, 6, 5, 0, 0], Some(Refusal::ClearLengths), (1, 1)),
    (&[7, 6, 5, 0], None, (0, 0)),
];

// Why a stream for a whole surface is refused, and the cursors behind it.
fn answer(
    state: &mut ClearState,
    surface: &mut Surface,
    stream: &[u8],
) -> (Option<Refusal>, (u16, u16)) {
    (refusal(state, surface, stream), state.cursors())
}

// Whether the first bar is red, and there is no second one.
fn holds_red(state: &ClearState) -> bool {
    state.store().bar(0) == Some(&[RED]) && state.store().bar(1) == None
}

// Whether these streams are answered so, and the bar of the first is there then.
fn are_answered(state: &mut ClearState, surface: &mut Surface) -> bool {
    for (stream, due, cursors) in &KEPT {
        if answer(state, surface, stream) != (*due, *cursors) {
            return false;
        }
    }
    holds_red(state)
}

// A bar of a miss is kept; a cache reset that is refused with its hit isn't; a glyph is shown again. What isn't
// drawn keeps its alpha, also where it is part of a glyph.
#[test]
fn keeps_what_is_accepted(rt: HostRuntime) -> Result<(), NoMemory> {
    let mut surface = Surface::new(rt.alloc(), 3, 2, Format::Argb)?;
    let mut state = ClearState::new(rt.alloc())?;
    let right = are_answered(&mut state, &mut surface);
    let_go(state);
    claim(&rt, right);
    Ok(())
}

// Whether a picture that may be sent goes in this stream.
fn sends(
    state: &mut ClearState,
    pixels: &[Rgb],
    width: u16,
    height: u16,
    layer: Layer,
    due: &[u8],
) -> bool {
    if width < 1 || height < 1 || u32::from(width) * u32::from(height) > 1024 {
        return false;
    }
    if pixels.len() != usize::from(width) * usize::from(height) {
        return false;
    }
    let Ok(bytes) = state.encode(pixels, width, height, layer, Some(3999)) else {
        return false;
    };
    bytes.as_slice() == due
}

// Pictures, their sides, how they are sent, and the streams.
const PICTURES: [(&[Rgb], u16, u16, Layer, &[u8]); 5] = [
    (
        &[RED],
        1,
        1,
        Layer::Residual,
        &[
            1, 0, 159, 15, 4, 0, 0, 0, 0, 0, 0, 0, 0, 0, 0, 0, 0, 0, 255, 1,
        ],
    ),
    (&[RED], 1, 1, Layer::Bands, &[3, 1, 159, 15]),
    (
        &[WHITE, BLACK],
        1,
        2,
        Layer::Bands,
        &[
            1, 2, 159, 15, 0, 0, 0, 0, 16, 0, 0, 0, 0, 0, 0, 0, 0, 0, 0, 0, 0, 0, 1, 0, 255, 255,
            255, 1, 2, 0, 0, 0,
        ],
    ),
    (
        &[RED, RED, GREEN],
        3,
        1,
        Layer::Palette,
        &[
            1, 3, 159, 15, 0, 0, 0, 0, 0, 0, 0, 0, 24, 0, 0, 0, 0, 0, 0, 0, 3, 0, 1, 0, 11, 0, 0,
            0, 2, 2, 0, 0, 255, 0, 255, 0, 0, 1, 1, 0,
        ],
    ),
    (
        &[RED, GREEN],
        2,
        1,
        Layer::Plain,
        &[
            1, 4, 159, 15, 0, 0, 0, 0, 0, 0, 0, 0, 19, 0, 0, 0, 0, 0, 0, 0, 2, 0, 1, 0, 6, 0, 0, 0,
            0, 0, 0, 255, 0, 255, 0,
        ],
    ),
];

// Whether these pictures go in their streams, one after another.
fn are_sent(state: &mut ClearState) -> bool {
    for (pixels, width, height, layer, due) in &PICTURES {
        if !sends(state, pixels, *width, *height, *layer, due) {
            return false;
        }
    }
    true
}

#[test]
fn sends_what_another_program_does(rt: HostRuntime) -> Result<(), NoMemory> {
    let mut state = ClearState::new(rt.alloc())?;
    let same = are_sent(&mut state);
    let_go(state);
    claim(&rt, same);
    Ok(())
}

// A band of one column, white above black or above another grey, with a sequence number.
fn column(flags: u8, sequence: u8, shade: u8) -> [u8; 30] {
    [
        flags, sequence, 0, 0, 0, 0, 16, 0, 0, 0, 0, 0, 0, 0, 0, 0, 0, 0, 0, 0, 1, 0, 255, 255,
        255, 1, 2, shade, shade, shade,
    ]
}

// Flags, sequence numbers and shades of columns, and the least place of white above black behind each.
const COLUMNS: [(u8, u8, u8, Option<u16>); 4] = [
    (0, 0, 0, Some(0)),
    (0, 1, 0, Some(0)),
    (0, 2, 7, Some(0)),
    (4, 3, 9, Some(1)),
];

// The least place of a bar.
fn place_of(state: &ClearState, pixels: &[Rgb]) -> Option<u16> {
    state.store().find_bar(pixels)
}

// Why a stream for a whole surface is refused, and the least place of white above black behind it.
fn place_behind(
    state: &mut ClearState,
    surface: &mut Surface,
    stream: &[u8],
) -> (Option<Refusal>, Option<u16>) {
    (
        refusal(state, surface, stream),
        place_of(state, &[WHITE, BLACK]),
    )
}

// A hit on the place 1.
const HIT: [u8; 29] = [
    1, 4, 159, 15, 0, 0, 0, 0, 13, 0, 0, 0, 0, 0, 0, 0, 0, 0, 0, 0, 0, 0, 1, 0, 255, 255, 255, 1,
    128,
];

// Whether these columns lead to these places, and a picture of the bar goes as a hit then.
fn least_is_found(state: &mut ClearState, surface: &mut Surface) -> bool {
    for (flags, sequence, shade, place) in &COLUMNS {
        let stream = column(*flags, *sequence, *shade);
        if place_behind(state, surface, &stream) != (None, *place) {
            return false;
        }
    }
    state.cursors() == (1, 1) && sends(state, &[WHITE, BLACK], 1, 2, Layer::Bands, &HIT)
}

// A foreign server lays the same bar on the places 0 and 1. A picture of it goes as a hit on the first, and once
// that is overwritten, as one on the other.
#[test]
fn least_place_of_a_stream(rt: HostRuntime) -> Result<(), NoMemory> {
    let mut surface = Surface::new(rt.alloc(), 1, 2, Format::Xrgb)?;
    let mut state = ClearState::new(rt.alloc())?;
    let right = least_is_found(&mut state, &mut surface);
    let_go(state);
    claim(&rt, right);
    Ok(())
}

const BLACK_PIXEL: Pixel = Pixel {
    b: 0,
    g: 0,
    r: 0,
    a: 255,
};

const BLUE_PIXEL: Pixel = Pixel {
    b: 255,
    g: 0,
    r: 0,
    a: 255,
};

// Streams for a surface of 32 by 32, and the pixels that are there behind each, but for the last, and the last one: a
// glyph is stored, black is drawn over it, and the glyph is shown again by four bytes.
const GLYPH: [(&[u8], Pixel, Pixel); 3] = [
    (
        &[
            1, 0, 159, 15, 10, 0, 0, 0, 0, 0, 0, 0, 0, 0, 0, 0, 0, 0, 255, 255, 255, 3, 255, 0, 0,
            1,
        ],
        RED_PIXEL,
        BLUE_PIXEL,
    ),
    (
        &[0, 1, 6, 0, 0, 0, 0, 0, 0, 0, 0, 0, 0, 0, 0, 0, 0, 255, 0, 4],
        BLACK_PIXEL,
        BLACK_PIXEL,
    ),
    (&[3, 2, 159, 15], RED_PIXEL, BLUE_PIXEL),
];

// The same glyph of 33 by 32, stored and shown.
const WIDE: [&[u8]; 2] = [
    &[
        1, 3, 159, 15, 10, 0, 0, 0, 0, 0, 0, 0, 0, 0, 0, 0, 0, 0, 255, 255, 31, 4, 255, 0, 0, 1,
    ],
    &[3, 3, 159, 15],
];

// Whether a surface of 32 by 32 has these pixels: those before the last, and the last one.
fn shows_glyph(surface: &Surface, before: Pixel, last: Pixel) -> bool {
    if surface.size() != (32, 32) {
        return false;
    }
    for y in 0..32 {
        for x in 0..32 {
            let due = if (x, y) == (31, 31) { last } else { before };
            if surface.pixel(x, y) != due {
                return false;
            }
        }
    }
    true
}

// Whether these streams are accepted, and show what is due.
fn glyph_is_shown(state: &mut ClearState, surface: &mut Surface) -> bool {
    for (stream, before, last) in &GLYPH {
        let answer = refusal(state, surface, stream);
        if answer != None || !shows_glyph(surface, *before, *last) {
            return false;
        }
    }
    true
}

// Whether a glyph is neither stored nor shown in 33 by 32.
fn wide_is_refused(state: &mut ClearState, surface: &mut Surface) -> bool {
    for stream in &WIDE {
        if refusal(state, surface, stream) != Some(Refusal::GlyphArea) {
            return false;
        }
    }
    true
}

#[test]
fn a_glyph_is_shown_by_four_bytes(rt: HostRuntime) -> Result<(), NoMemory> {
    let mut surface = Surface::new(rt.alloc(), 32, 32, Format::Xrgb)?;
    let mut wide = Surface::new(rt.alloc(), 33, 32, Format::Xrgb)?;
    let mut state = ClearState::new(rt.alloc())?;
    let right = glyph_is_shown(&mut state, &mut surface) && wide_is_refused(&mut state, &mut wide);
    let_go(state);
    claim(&rt, right);
    Ok(())
}
