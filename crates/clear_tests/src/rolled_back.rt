//! A message that is refused behind two misses, where the ring of bars has gone round: what the misses overwrote is
//! there again.
ghost use Rattle.std.specs.Prelude.{◌≡◌, IfOk, length};

use crate::claiming::{claim, let_go};
use gfx_base::{Fault, Format, NoMemory, Rect, Refusal, Rgb};
use gfx_clear::{ClearState, Layer};
use gfx_surface::Surface;
use std::alloc::Global;

const BLACK: Rgb = Rgb { b: 0, g: 0, r: 0 };

/// The columns of a picture, and its pixels.
const WIDTH: u16 = 8192;

const AREA: usize = 16_384;

/// Bands of one row: two misses, and a hit on place 5, where a bar of two rows stands.
const REFUSED: [u8; 37] = [
    0, 5, 0, 0, 0, 0, 23, 0, 0, 0, 0, 0, 0, 0, 0, 0, 2, 0, 0, 0, 0, 0, 1, 2, 3, 0, 1, 9, 9, 9, 0,
    1, 8, 8, 8, 5, 128,
];

/// The colour of a number, black for none.
fn colour(number: u32) -> Rgb {
    let [b, g, r, _] = number.to_le_bytes();
    Rgb { b, g, r }
}

/// A picture of two rows, of which the first has the colours from a number on, and the second is black.
fn picture(alloc: Global, first: u32) -> Result<Vec<Rgb>, NoMemory>
    ensures { IfOk result (λ pixels. length pixels.items ≡ 16384) }
{
    let mut pixels = Vec::from_elem(alloc, BLACK, AREA)?;
    'columns: for at in 0..8192 {
        pixels[at as usize] = colour(first.wrapping_add(at));
    }
    Ok(pixels)
}

/// Sends the picture from a number on.
fn send(alloc: Global, state: &mut ClearState, first: u32) -> Result<(), NoMemory> {
    let pixels = picture(alloc, first)?;
    state.encode(&pixels, WIDTH, 2, Layer::Bands, None)?;
    Ok(())
}

/// A state whose bars are those of the colours 1 to 32,769: the last stands on the place of the first. The cursors that
/// the test wants of it are those of an independent program.
fn gone_round(alloc: Global) -> Result<ClearState, NoMemory> {
    let mut state = ClearState::new(alloc)?;
    for turn in 0..4 {
        send(alloc, &mut state, 8192 * turn + 1)?;
    }
    state.encode(&[colour(32_769), BLACK], 1, 2, Layer::Bands, None)?;
    Ok(state)
}

/// Why a stream for a whole surface is refused.
fn refusal(state: &mut ClearState, surface: &mut Surface, stream: &[u8]) -> Option<Refusal> {
    let (width, height) = surface.size();
    match state.decode(surface, Rect::sized(width, height), stream) {
        Err(Fault::Refused(refusal)) => Some(refusal),
        _ => None,
    }
}

/// The place of the bar of a colour.
fn place_of(state: &ClearState, number: u32) -> Option<u16> {
    state.store().find_bar(&[colour(number), BLACK])
}

/// Numbers, and the places of their colours' bars.
const PLACES: [(u32, Option<u16>); 5] = [
    (1, None),
    (2, Some(1)),
    (3, Some(2)),
    (4, Some(3)),
    (32_769, Some(0)),
];

/// The number of the first colour whose bar isn't on its place.
fn misplaced(state: &ClearState) -> Option<u32> {
    for (number, place) in &PLACES {
        if place_of(state, *number) != *place {
            return Some(*number);
        }
    }
    None
}

/// Whether the stream is refused twice, and leaves all as it was.
fn is_refused(state: &mut ClearState, surface: &mut Surface) -> bool {
    for _ in 0..2 {
        if state.cursors() != (1, 16_382) || misplaced(state) != None {
            return false;
        }
        if refusal(state, surface, &REFUSED) != Some(Refusal::BarHeight) {
            return false;
        }
    }
    true
}

#[test]
fn what_was_overwritten_is_back(rt: HostRuntime) -> Result<(), NoMemory> {
    let mut surface = Surface::new(rt.alloc(), 3, 1, Format::Xrgb)?;
    let mut state = gone_round(rt.alloc())?;
    let right = is_refused(&mut state, &mut surface);
    let_go(state);
    claim(&rt, right);
    Ok(())
}
