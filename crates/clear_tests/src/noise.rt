//! Pictures of noise as bands: no column is there twice, and each is looked for among all that the rings hold. A
//! walk along the rings would take minutes. What was sent is decoded by another state, on a surface of its own.
ghost use Rattle.std.specs.Prelude.{◌≡◌, IfOk, length};

use crate::claiming::let_go;
use gfx_base::{Format, NoMemory, Pixel, Rect, Rgb};
use gfx_clear::{ClearState, Layer};
use gfx_surface::Surface;
use std::alloc::Global;
use std::process::Abort;

const WIDTH: u16 = 8192;

const HEIGHT: u16 = 1024;

const AREA: usize = 8_388_608;

/// The length of the stream of each, as a reference implementation makes it.
const LENGTH: usize = 25_493_678;

#[test]
fn eight_pictures_of_noise(rt: HostRuntime) -> Result<(), NoMemory> {
    let mut surface = Surface::new(rt.alloc(), WIDTH, HEIGHT, Format::Argb)?;
    let mut server = ClearState::new(rt.alloc())?;
    let lost = lost_to_a_client(rt.alloc(), &mut server, &mut surface);
    let_go(server);
    none_is_lost(&rt, lost);
    Ok(())
}

/// Ends the test where a seed was lost, or there is no memory. Nothing is held here.
fn none_is_lost(rt: &impl Abort, lost: Result<Option<u32>, NoMemory>) {
    assert!(rt; matches!(lost, Ok(None)));
}

/// The first seed whose noise isn't exchanged with a new client.
fn lost_to_a_client(
    alloc: Global,
    server: &mut ClearState,
    surface: &mut Surface,
) -> Result<Option<u32>, NoMemory> {
    let mut client = ClearState::new(alloc)?;
    let lost = first_lost(alloc, server, &mut client, surface);
    let_go(client);
    lost
}

/// The first of eight seeds whose noise isn't exchanged.
fn first_lost(
    alloc: Global,
    server: &mut ClearState,
    client: &mut ClearState,
    surface: &mut Surface,
) -> Result<Option<u32>, NoMemory> {
    for seed in 1..9 {
        if !is_exchanged(alloc, server, client, surface, seed)? {
            return Ok(Some(seed));
        }
    }
    Ok(None)
}

/// Whether the noise of a seed goes in a stream of the length that is due, and is shown where another state decodes it.
fn is_exchanged(
    alloc: Global,
    server: &mut ClearState,
    client: &mut ClearState,
    surface: &mut Surface,
    seed: u32,
) -> Result<bool, NoMemory> {
    let pixels = noise(alloc, seed)?;
    let stream = server.encode(&pixels, WIDTH, HEIGHT, Layer::Bands, None)?;
    Ok(
        stream.len() == LENGTH
            && is_decoded(client, surface, stream.as_slice())
            && shows_noise(surface, seed),
    )
}

/// A picture of noise.
fn noise(alloc: Global, seed: u32) -> Result<Vec<Rgb>, NoMemory>
    ensures { IfOk result (λ pixels. length pixels.items ≡ 8388608) }
{
    let black = Rgb { b: 0, g: 0, r: 0 };
    let mut pixels = Vec::from_elem(alloc, black, AREA)?;
    'pixels: for at in 0..AREA {
        pixels[at] = colour_at((at % 8192) as u32, (at / 8192 % 1024) as u32, seed);
    }
    Ok(pixels)
}

/// The colour in a column and a row of the noise of a seed.
fn colour_at(x: u32, y: u32, seed: u32) -> Rgb {
    let hash = x
        .wrapping_mul(2_654_435_761)
        .wrapping_add(y.wrapping_mul(2_246_822_519))
        .wrapping_add(seed.wrapping_mul(3_266_489_917));
    let [_, r, g, b] = hash.to_le_bytes();
    Rgb { b, g, r }
}

/// Whether a stream for a whole surface is accepted.
fn is_decoded(state: &mut ClearState, surface: &mut Surface, stream: &[u8]) -> bool {
    let (width, height) = surface.size();
    state
        .decode(surface, Rect::sized(width, height), stream)
        .is_ok()
}

/// Whether a surface shows the noise of a seed, opaque.
fn shows_noise(surface: &Surface, seed: u32) -> bool {
    let (width, height) = surface.size();
    for y in 0..height {
        for x in 0..width {
            let Rgb { b, g, r } = colour_at(u32::from(x), u32::from(y), seed);
            if surface.pixel(x, y) != (Pixel { b, g, r, a: 255 }) {
                return false;
            }
        }
    }
    true
}
